//! The terminals whose precedence settles something.

ghost use Rattle.std.specs.Prelude.{◌≡◌, ℕ, ◌<◌, ◌↔◌, ◌⊎◌, IfOk, vec_len};
ghost use Rattle.automaton.specs.Reach.{IsMarked};
ghost use Rattle.automaton.specs.Resolutions.{is_by_precedence, Uses, IsUsed};

use crate::{Resolution, Resolved, terminal_of_production};
use grammar::Grammar;
use std::alloc::{AllocError, Global};

// Marks a number.
fn mark(marks: &mut Vec<bool>, number: usize)
    ensures len { vec_len marks.new ≡ vec_len marks.old }
    ensures exact { (t : ℕ) → t < vec_len marks.old
        → IsMarked marks.new.items t ↔ (IsMarked marks.old.items t ⊎ (t ≡ number)) }
{
    if number < marks.len() {
        marks[number] = true;
    }
}

// Whether precedence itself says how it comes out.
fn is_settled(resolution: Resolution) -> bool
    ensures { result ≡ is_by_precedence resolution }
{
    match resolution {
        Resolution::ShiftKept | Resolution::ReductionKept | Resolution::NeitherKept => true,
        Resolution::Open | Resolution::ShiftGone(_) | Resolution::ReductionGone(_) => false,
    }
}

// Marks the terminals by which precedence settles a conflict.
fn mark_uses(grammar: &Grammar, marks: &mut Vec<bool>, resolved: &Resolved)
    ensures len { vec_len marks.new ≡ vec_len marks.old }
    ensures exact { (t : ℕ) → t < vec_len marks.old
        → IsMarked marks.new.items t ↔ (IsMarked marks.old.items t
        ⊎ Uses grammar.now t resolved.now) }
{
    if !is_settled(resolved.resolution) {
        return;
    }
    mark(marks, resolved.conflict.token);
    if let Some(terminal) = terminal_of_production(grammar, resolved.conflict.production) {
        mark(marks, terminal);
    }
}

/// Of each terminal whether its precedence settled one of the conflicts: as the token, or as the
/// terminal that the production has its precedence of.
pub fn used_terminals(
    alloc: Global,
    grammar: &Grammar,
    conflicts: &[Resolved],
) -> Result<Vec<bool>, AllocError>
    ensures len { IfOk result (λ v. vec_len v ≡ vec_len grammar.now.terminals) }
    ensures exact { IfOk result (λ v. (t : ℕ) → t < vec_len grammar.now.terminals
        → IsMarked v.items t ↔ IsUsed grammar.now conflicts.now t) }
{
    let mut marks = vec![in alloc; false; grammar.terminals.len()]?;
    for resolved in conflicts {
        mark_uses(grammar, &mut marks, resolved);
    }
    Ok(marks)
}
