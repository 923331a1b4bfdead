//! The judge of certificates of an automaton's conflicts: what it accepts is a conflict that each LR(1) automaton has.
#![tactic(auto)]

ghost use Rattle.std.specs.Prelude.{◌≡◌, ◌≢◌, ◌↔◌, IfOk};
ghost use Rattle.certificate.specs.Sets.{AreUseful};
ghost use Rattle.certificate.specs.Shown.{IsShown, HasTwoParses, HasTwoInputs};
ghost use Rattle.conflict_judge.specs.Real.{IsAugmented, IsReal, fork_of};

use automaton::{Conflict, Other};
use certificate::{Action, Certificate, Fork, UsefulSets, Verdict, judge};
use grammar::Grammar;
use std::alloc::{AllocError, Global};

/// What a parser may do in a conflict.
pub fn fork_of(conflict: Conflict) -> Fork
    ensures { result ≡ fork_of conflict }
{
    Fork {
        token: conflict.token,
        production: conflict.production,
        other: match conflict.other {
            Other::Shift => Action::Shift,
            Other::Reduce(production) => Action::Reduce(production),
        },
    }
}

/// What a certificate shows of a conflict. A certificate may come from anywhere.
pub fn judge_conflict(
    alloc: Global,
    grammar: &Grammar,
    useful: &UsefulSets,
    conflict: Conflict,
    certificate: &Certificate,
) -> Result<Verdict, AllocError>
    requires { AreUseful grammar.now.productions.items useful.now }
    ensures ambiguous { result ≡ Ok Verdict.Ambiguous
        → HasTwoParses grammar.now.productions.items (fork_of conflict) }
    ensures two_inputs { result ≡ Ok Verdict.TwoInputs
        → HasTwoInputs grammar.now.productions.items (fork_of conflict) }
    ensures accepted { IfOk result (λ v. (v ≢ Verdict.Refused)
        ↔ IsShown grammar.now.productions.items (fork_of conflict) certificate.now) }
    ensures real { IfOk result (λ v. v ≢ Verdict.Refused → IsAugmented grammar.now.productions.items
        → IsReal grammar.now conflict.token conflict.production (fork_of conflict).other) }
{
    judge(alloc, grammar, useful, fork_of(conflict), certificate)
}
