//! The actions that stand among the symbols of alternatives.

ghost use Rattle.std.specs.Prelude.{◌≡◌, ◌++◌, OnOk, IfOk};
ghost use Rattle.yacc_grammar.specs.Symbols.{alternative_actions, rule_actions, actions_of};

use std::alloc::{AllocError, Global};
use yacc_file::{Alternative, Item, Rule};

// Adds those of an alternative.
fn push_alternative(actions: &mut Vec<Item>, alternative: &Alternative) -> Result<(), AllocError>
    ensures { OnOk result (actions.new.items
        ≡ actions.old.items ++ alternative_actions alternative.now) }
{
    for item in &alternative.items {
        if item.is_action {
            actions.push(*item)?;
        }
    }
    Ok(())
}

// Adds those of a rule.
fn push_rule(actions: &mut Vec<Item>, rule: &Rule) -> Result<(), AllocError>
    ensures { OnOk result (actions.new.items ≡ actions.old.items ++ rule_actions rule.now) }
{
    for alternative in &rule.alternatives {
        push_alternative(actions, alternative)?;
    }
    Ok(())
}

/// The actions among the symbols of all rules, in the order of the file.
pub fn list_actions(alloc: Global, rules: &[Rule]) -> Result<Vec<Item>, AllocError>
    ensures { IfOk result (λ v. v.items ≡ actions_of rules.now) }
{
    let mut actions = Vec::new(alloc);
    for rule in rules {
        push_rule(&mut actions, rule)?;
    }
    Ok(actions)
}
