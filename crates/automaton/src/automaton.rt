//! States with the tokens of their kernels' items, and where symbols lead.

ghost use Rattle.std.specs.Prelude.{◌≡◌};
ghost use Rattle.automaton.specs.Targets.{same_symbol, target_in};

use crate::Item;
use bit_table::BitTable;
use grammar::Symbol;

/// An item of a kernel, and the row of its tokens.
#[derive(Clone, Copy, Debug)]
pub struct Entry {
    pub item: Item,
    pub tokens: usize,
}

/// Over a symbol to a state.
#[derive(Clone, Copy, Debug)]
pub struct Transition {
    pub symbol: Symbol,
    pub to: usize,
}

/// The kernel of a state, and its transitions.
#[derive(Debug, Drop)]
pub struct State {
    pub kernel: Vec<Entry>,
    pub transitions: Vec<Transition>,
}

/// States, and the tokens of their kernels' items. Nothing is promised of them: that is what the
/// validator is for.
#[derive(Debug, Drop)]
pub struct Automaton {
    pub states: Vec<State>,
    pub tokens: BitTable,
}

// Whether two symbols are one.
fn is_same(a: Symbol, b: Symbol) -> bool
    ensures { result ≡ same_symbol a b }
{
    match a {
        Symbol::Terminal(t) => match b {
            Symbol::Terminal(u) => t == u,
            Symbol::Nonterminal(_) => false,
        },
        Symbol::Nonterminal(n) => match b {
            Symbol::Terminal(_) => false,
            Symbol::Nonterminal(m) => n == m,
        },
    }
}

/// Where the first transition over the symbol leads.
pub fn target(transitions: &[Transition], symbol: Symbol) -> Option<usize>
    ensures { result ≡ target_in transitions.now symbol }
{
    for transition in transitions {
        if is_same(transition.symbol, symbol) {
            return Some(transition.to);
        }
    }
    None
}

impl Automaton {
    ghost use Rattle.automaton.specs.States.{kernel_of, transitions_of};

    /// The kernel of a state; nothing where there is no such state.
    pub fn kernel(&self, state: usize) -> &[Entry]
        ensures { result.now ≡ kernel_of self.now state }
    {
        match self.states.get(state) {
            Some(found) => found.kernel.as_slice(),
            None => &[],
        }
    }

    /// Its transitions.
    pub fn transitions(&self, state: usize) -> &[Transition]
        ensures { result.now ≡ transitions_of self.now state }
    {
        match self.states.get(state) {
            Some(found) => found.transitions.as_slice(),
            None => &[],
        }
    }
}
