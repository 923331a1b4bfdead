//! Items: productions with a dot.

ghost use Rattle.std.specs.Prelude.{◌≡◌, All, vec_len};
ghost use Rattle.grammar.specs.Symbols.{SymbolFits};
ghost use Rattle.automaton.specs.Items.{rest_of};

use grammar::{Grammar, Symbol};

/// A production, and how many of its symbols are passed.
#[derive(Clone, Copy, Debug, PartialEq, Eq, PartialOrd, Ord, Hash)]
pub struct Item {
    pub production: usize,
    pub dot: usize,
}

/// The symbols behind the dot.
pub fn rest(grammar: &Grammar, item: Item) -> &[Symbol]
    ensures rest { result.now ≡ rest_of grammar.now item }
    ensures fits { All (SymbolFits (vec_len grammar.now.terminals)
        (vec_len grammar.now.nonterminals)) result.now }
{
    match grammar.productions.get(item.production) {
        Some(production) => {
            if item.dot < production.right.len() {
                &production.right[item.dot..]
            } else {
                &[]
            }
        }
        None => &[],
    }
}
