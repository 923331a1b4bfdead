// Conflicts and what is said of them (`ConflictClassification` of lr1/error/mod.rs), in numbers.

ghost use Rattle.std.specs.Prelude.{◌≡◌, [], ◌∷◌, eqb, slice_index_or};
ghost use Rattle.conflict_sides.specs.conflict.Numbers.{number_of_class, values_of_class};

use lr1_base::lookahead::TokenSet;
use lr1_base::repr::{NonterminalString, ProductionIndex, StateIndex};

// A conflict (docs/RULES.md, "A conflict"), five words: the action is 0 for a shift, its operand a terminal, or 1 for a reduce, its operand a production. No enum, as any number can be asked and is refused only behind what is wrong with the table.
#[derive(Clone, Copy)]
pub struct Conflict {
    pub state: StateIndex,
    pub production: ProductionIndex,
    pub action: u16,
    pub operand: u16,
    pub token: u16,
}

impl Conflict {
    // Words of scratch for classifying and choosing.
    pub const SCRATCH: usize = 8000;

    // Examples of a side.
    pub const EXAMPLES: usize = 192;

    // Whether its action is a shift.
    pub fn is_shift(self) -> bool
        ensures { result ≡ eqb self.action 0 }
    {
        self.action == 0
    }
}

// A class with its own values; the examples stand in the lent buffers. A nonterminal; a nonterminal and a symbol's kind and number; two spans, the conflict's first.
// In numbers, as a class is written in words: where it is made alone there is a symbol or a span.
#[derive(Clone, Copy)]
pub enum Class {
    Naive,
    Ambiguity,
    Precedence(NonterminalString),
    SuggestInline(NonterminalString),
    SuggestQuestion(NonterminalString, u16, u16),
    AmbiguousReduction(u16, u16, u16, u16),
    InsufficientLookahead,
}

impl Class {
    // A class in words: its number and its own values; a token with it; and one for each token.
    pub const WORDS: usize = 5;

    pub const ENTRY_WORDS: usize = 1 + Class::WORDS;

    pub const ALL_WORDS: usize = TokenSet::LIMIT as usize * Class::ENTRY_WORDS;

    // Its number (docs/RULES.md, "Classes").
    #[tactic(auto, unfolding(crate::specs::conflict::Numbers::number_of_class))]
    pub fn number(self) -> u16
        ensures { result ≡ number_of_class self }
    {
        match self {
            Class::Naive => 0,
            Class::Ambiguity => 1,
            Class::Precedence(_) => 2,
            Class::SuggestInline(_) => 3,
            Class::SuggestQuestion(_, _, _) => 4,
            Class::AmbiguousReduction(_, _, _, _) => 5,
            Class::InsufficientLookahead => 6,
        }
    }

    // Its own values, zeros behind them.
    #[tactic(auto, unfolding(crate::specs::conflict::Numbers::values_of_class))]
    pub fn values(self) -> [u16; 4]
        ensures { let values = values_of_class self in result ≡ (slice_index_or values 0 0 ∷ slice_index_or values 1 0 ∷ slice_index_or values 2 0 ∷ slice_index_or values 3 0 ∷ []) }
    {
        match self {
            Class::Naive => [0; 4],
            Class::Ambiguity => [0; 4],
            Class::Precedence(nonterminal) => [nonterminal.0, 0, 0, 0],
            Class::SuggestInline(nonterminal) => [nonterminal.0, 0, 0, 0],
            Class::SuggestQuestion(nonterminal, kind, symbol) => [nonterminal.0, kind, symbol, 0],
            Class::AmbiguousReduction(start, end, other_start, other_end) => {
                [start, end, other_start, other_end]
            }
            Class::InsufficientLookahead => [0; 4],
        }
    }

    // Whether it is naive.
    #[tactic(auto, unfolding(crate::specs::conflict::Numbers::number_of_class))]
    pub fn is_naive(self) -> bool
        ensures { result ≡ eqb (number_of_class self) 0 }
    {
        matches!(self, Class::Naive)
    }
}

// What classifying answers: the class, and the trials of the action side and of the reduce side.
#[derive(Clone, Copy)]
pub struct Classification {
    pub class: Class,
    pub action_trials: u32,
    pub reduce_trials: u32,
}
