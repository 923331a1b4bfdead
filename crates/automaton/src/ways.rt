//! The shortest symbols that lead to each state.

ghost use Rattle.std.specs.Prelude.{◌≡◌, IfOk, IfSome, Some};
ghost use Rattle.automaton.specs.States.{walk};

use crate::{Automaton, target};
use grammar::Symbol;
use std::alloc::{AllocError, Global};

/// Where the symbols lead from a state.
pub fn follow(automaton: &Automaton, symbols: &[Symbol], from: usize) -> Option<usize>
    ensures { result ≡ walk automaton.now symbols.now from }
{
    let mut state = from;
    for symbol in symbols {
        state = target(automaton.transitions(state), *symbol)?;
    }
    Some(state)
}

// From which state, and over which symbol.
#[derive(Clone, Copy, Debug)]
struct Step {
    from: usize,
    symbol: Symbol,
}

/// How each state was first met from state 0, going over the transitions in their order, the
/// nearest states first.
#[derive(Debug, Drop)]
pub struct Ways {
    steps: Vec<Option<Step>>,
}

impl Ways {
    /// The ways of an automaton.
    pub fn new(alloc: Global, automaton: &Automaton) -> Result<Ways, AllocError> {
        let mut steps = vec![in alloc; None; automaton.states.len()]?;
        let mut met = vec![in alloc; 0usize]?;
        for i in 0..automaton.states.len() {
            let Some(from) = met.get(i).copied() else {
                break;
            };
            for transition in automaton.transitions(from) {
                let to = transition.to;
                if to != 0 && to < steps.len() && steps[to].is_none() {
                    steps[to] = Some(Step {
                        from,
                        symbol: transition.symbol,
                    });
                    met.push(to)?;
                }
            }
        }
        Ok(Ways { steps })
    }

    /// The shortest list of symbols that leads from state 0 to a state; of several the first in the
    /// order of the transitions. `None` where none leads there.
    pub fn to(
        &self,
        alloc: Global,
        automaton: &Automaton,
        state: usize,
    ) -> Result<Option<Vec<Symbol>>, AllocError>
        ensures { IfOk result (λ way. IfSome way (λ symbols. walk automaton.now symbols.items 0
            ≡ Some state)) }
    {
        let mut symbols = Vec::new(alloc);
        let mut at = state;
        for _ in 0..self.steps.len() {
            let Some(Some(step)) = self.steps.get(at) else {
                break;
            };
            symbols.push(step.symbol)?;
            at = step.from;
        }
        symbols.reverse();
        if follow(automaton, symbols.as_slice(), 0) == Some(state) {
            Ok(Some(symbols))
        } else {
            Ok(None)
        }
    }
}
