// FIRST sets (lr1/first/mod.rs). The productions stand in words (specs/repr/Packed of lr1_base), a list of symbols is kind and number each (specs/Listed).

#![tactic(auto)]

ghost use Rattle.std.specs.Prelude.{◌≡◌, true, not, ◌++◌, ◌≤◌, ◌<◌};
ghost use Rattle.lr1_base.specs.repr.Sizes.{nonterminal_limit, terminal_limit};
ghost use Rattle.lr1_base.specs.words.Same.{same_words};
ghost use Rattle.lr1_base.specs.repr.Listed.{listed, list_is_fit};
ghost use Rattle.lr1_base.specs.repr.Symbols.{meant, IsInRange};
ghost use Rattle.lr1_base.specs.repr.Packed.{production_in, productions_in};
ghost use Rattle.first.specs.First.{first_of, marked_at_end, first0, first1, join_answers, meets_ahead, disjoint, grown, round, sets_of_first};

use lr1_base::lookahead::TokenSet;
use lr1_base::repr::{Grammar, NonterminalString, Symbol, SymbolIter};

// FIRST of a list: the terminals that begin what it derives, never the end of input; and whether it derives the empty list. A list may have both, one or neither, so they are no Option.
#[derive(Clone, Copy, PartialEq, Eq)]
pub struct Answer {
    pub tokens: TokenSet,
    pub nullable: bool,
}

impl Answer {
    // FIRST of two joined lists from their answers.
    pub fn join(self, next: Answer) -> Answer
        ensures { result ≡ join_answers self next }
    {
        if self.nullable {
            return Answer {
                tokens: self.tokens.union(next.tokens),
                nullable: next.nullable,
            };
        }
        self
    }

    // Whether a lookahead meets it: in a terminal, or in the end of input where the list is nullable.
    pub fn meets(self, terminals: u16, lookahead: TokenSet) -> bool
        ensures { result ≡ meets_ahead terminals self lookahead.0 }
    {
        self.tokens.is_intersecting(lookahead)
            || (self.nullable && lookahead.contains_eof(terminals))
    }

    // Whether no terminal is in both, and not both lists are nullable.
    pub fn is_disjoint(self, other: Answer) -> bool
        ensures { result ≡ disjoint self other }
    {
        self.tokens.is_disjoint(other.tokens) && !(self.nullable && other.nullable)
    }
}

// The sets, one for each nonterminal. The end of input is in a set as its mark of "nullable": these sets are no answer. They stand as words and no `TokenSet`s: the definitions of FIRST, and with them the clauses of what asks it, are of a list of numbers.
#[derive(Clone, Copy)]
pub struct FirstSets {
    pub map: [u64; NonterminalString::LIMIT],
    pub terminals: u16,
    pub ghost few: { terminals ≤ terminal_limit },
}

impl FirstSets {
    // The least solution over all productions: round after round until one changes nothing.
    pub fn new(grammar: Grammar, terminals: u16) -> FirstSets
        requires { terminals ≤ terminal_limit }
        ensures is { result.map ≡ sets_of_first terminals (productions_in grammar.entry.words.now grammar.entry.productions) }
        ensures terminals { result.terminals ≡ terminals }
    {
        let mut sets = FirstSets {
            map: [0u64; NonterminalString::LIMIT],
            terminals,
        };
        while sets.grow(grammar) {}
        sets
    }

    // Of one symbol: the terminal itself, or the nonterminal's set. A terminal of a table never has the end of input.
    fn symbol_first(&self, symbol: Symbol) -> TokenSet
        requires { IsInRange symbol }
        ensures { result.0 ≡ first_of self.now.map (meant symbol) }
    {
        match symbol {
            Symbol::Nonterminal(nonterminal) => TokenSet(self.map[nonterminal.0 as usize]),
            Symbol::Terminal(terminal) => TokenSet::from(terminal),
        }
    }

    // A list comes as words, here and below: callers have parts of packed words, and two lists joined have no iterator before they are known to fit.
    // FIRST of a list of symbols as the sets have it, with the end of input in it exactly if the list may derive the empty string.
    fn end_marked(&self, symbols: &[u16]) -> TokenSet
        requires { list_is_fit nonterminal_limit terminal_limit symbols.now ≡ true }
        ensures { result.0 ≡ marked_at_end self.now.terminals self.now.map (listed symbols.now) }
    {
        let mut result = TokenSet::new();
        for symbol in (SymbolIter { words: symbols }) {
            let mut set = self.symbol_first(symbol);
            let nullable = set.take_eof(self.terminals);
            result = result.union(set);
            if !nullable {
                return result;
            }
        }
        // The list is empty, or of nonterminals each of which may derive the empty string.
        result.with(self.terminals)
    }

    // FIRST of a list of symbols.
    pub fn first0(&self, symbols: &[u16]) -> Answer
        requires { list_is_fit nonterminal_limit terminal_limit symbols.now ≡ true }
        ensures { result ≡ first0 self.now.terminals self.now.map (listed symbols.now) }
    {
        let mut tokens = self.end_marked(symbols);
        let nullable = tokens.take_eof(self.terminals);
        Answer { tokens, nullable }
    }

    // FIRST of a list with an answer, and of the symbols behind it: they are asked only where the answer is nullable.
    fn followed_by(&self, answer: Answer, symbols: &[u16]) -> Answer
        requires { list_is_fit nonterminal_limit terminal_limit symbols.now ≡ true }
        ensures { result ≡ join_answers answer (first0 self.now.terminals self.now.map (listed symbols.now)) }
    {
        if answer.nullable {
            return answer.join(self.first0(symbols));
        }
        answer
    }

    // FIRST of two lists joined. Where the first is odd, a symbol begins with its last word and ends with the other's first; `joined_fits` of repr says why this is no function of its own.
    pub fn first0_joined(&self, xs: &[u16], ys: &[u16]) -> Answer
        requires { list_is_fit nonterminal_limit terminal_limit (xs.now ++ ys.now) ≡ true }
        ensures { result ≡ first0 self.now.terminals self.now.map (listed (xs.now ++ ys.now)) }
    {
        if xs.len() % Symbol::WORDS == 0 {
            let answer = self.first0(xs);
            return self.followed_by(answer, ys);
        }
        let last = xs.len() - 1;
        let straddling = [xs[last], ys[0]];
        let front = self.first0(&xs[..last]);
        let answer = self.followed_by(front, &straddling);
        self.followed_by(answer, &ys[1..])
    }

    // FIRST of a list that a token of the lookahead follows.
    pub fn first1(&self, symbols: &[u16], lookahead: TokenSet) -> TokenSet
        requires { list_is_fit nonterminal_limit terminal_limit symbols.now ≡ true }
        ensures { result.0 ≡ first1 self.now.terminals self.now.map (listed symbols.now) lookahead.0 }
    {
        let answer = self.first0(symbols);
        let tokens = answer.tokens;
        if answer.nullable {
            tokens.union(lookahead)
        } else {
            tokens
        }
    }

    // One production: its nonterminal's set with FIRST of its symbols, and whether that is more.
    fn grow_one(&mut self, grammar: Grammar, production: usize) -> bool
        requires { production < grammar.productions }
        ensures { (self.new.map ≡ grown self.old.terminals self.old.map (production_in grammar.entry.words.now production)) × (result ≡ not (same_words self.new.map self.old.map)) × (self.new.terminals ≡ self.old.terminals) }
    {
        let nonterminal = grammar.owner(production);
        let lookahead = self.end_marked(grammar.symbols(production));
        let mut united = TokenSet(self.map[nonterminal]);
        let changed = united.union_with(lookahead);
        self.map[nonterminal] = united.0;
        changed
    }

    // One round over all productions, in the order of their numbers; whether some set changed.
    fn grow(&mut self, grammar: Grammar) -> bool
        ensures { (self.new.map ≡ round self.old.terminals self.old.map (productions_in grammar.entry.words.now grammar.entry.productions)) × (result ≡ not (same_words self.new.map self.old.map)) × (self.new.terminals ≡ self.old.terminals) }
    {
        let mut changed = false;
        for production in 0..grammar.productions {
            changed |= self.grow_one(grammar, production);
        }
        changed
    }
}
