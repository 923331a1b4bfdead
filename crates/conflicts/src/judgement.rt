// The class of a conflict from what is kept of its examples (`classify` and the three `try_classify_` of lr1/error/mod.rs; docs/RULES.md, "Classes", "Lent words"). Of either side the code has what is kept of the examples, and their order: of the action side `actions`, of the reduce side `reduces`.

ghost use Rattle.std.specs.Prelude.{◌≡◌, false, List, ◌+◌, ◌≤◌, ◌<◌, length, get_or};
ghost use Rattle.lr1_base.specs.repr.Sizes.{example_room};
ghost use Rattle.lr1_base.specs.repr.Meaning.{Production, no_production, production_at};
ghost use Rattle.lr1_base.specs.repr.Packed.{productions_in};
ghost use Rattle.lr1_base.specs.words.Lent.{in_front};
ghost use Rattle.table.specs.Decoded.{meaning};
ghost use Rattle.enumerator.specs.example.Example.{example_words};
ghost use Rattle.conflict_sides.specs.conflict.Judge.{Example, is_same_reading, is_operator_of, ambiguity_of_shift, ambiguity_of_reduce, ambiguity_of, question_of, inline_or, unambiguous, judge};
ghost use Rattle.conflict_sides.specs.conflict.Sorted.{first_fit};
ghost use Rattle.conflict_sides.specs.conflict.Judge as judging;
ghost use Rattle.conflict_sides.specs.outline.Kept.{nth};
ghost use Rattle.conflict_sides.specs.examples.Gathers.{SideKept, is_shift, action_made};
ghost use Rattle.conflicts.specs.judgement.Judging.{InBuffer, Sides, Ordered, picked, pair_in, heads_in, both, Judges, ReadAlike, question_in, optional_one};

use crate::pairs::{SortedSide, Test, first_pair};
use conflict_sides::conflict::Class;
use conflict_sides::examples::{Given, TableConflict, action_again};
use conflict_sides::outline::{KeptSide, Outline, turn_at, write_kept};
use enumerator::example::Example as ExampleBuffer;
use lr1_base::repr::{Grammar, NonterminalString, Symbol, word};

// A class and the examples that are shown with it, by their numbers.
#[derive(Clone, Copy)]
pub struct Judged {
    pub class: Class,
    pub action: Option<usize>,
    pub reduce: Option<usize>,
}

// Example k of the side of the conflict's action, written at the front of a buffer: from its labels where they are kept, else made again.
pub fn write_example(case: TableConflict, side: KeptSide, k: usize, buffer: &mut [u16])
    requires side_kept { (xs : List Example) × (SideKept (meaning case.given.table.words.now) (is_shift case.conflict) (action_made (meaning case.given.table.words.now) case.conflict) xs side.kept.now side.prints.now × (k < length xs)) }
    requires example_room_in_bounds { example_room ≤ length buffer.old }
    ensures { (xs : List Example) → SideKept (meaning case.entry.given.table.words.now) (is_shift case.entry.conflict) (action_made (meaning case.entry.given.table.words.now) case.entry.conflict) xs side.entry.kept.now side.entry.prints.now → k < length xs → buffer.new ≡ in_front (example_words (meaning case.entry.given.table.words.now).productions (nth xs k)) buffer.old }
{
    if k < Outline::LABELLED {
        write_kept(case.given.grammar, side.kept, k, buffer);
        return;
    }
    let outline = side.outline(k);
    let turn = turn_at(side.kept, k);
    action_again(case, outline.label, turn, buffer);
}

// Whether two examples have the same symbols and the same cursor. (No `==` of the buffers: behind the symbols stand reductions, which may differ.)
fn same_reading(action: &[u16], reduce: &[u16]) -> bool
    requires { (ps : List Production) × ((x : Example) × ((y : Example) × (InBuffer ps x action.now × InBuffer ps y reduce.now))) }
    ensures { (ps : List Production) (x y : Example) → InBuffer ps x action.now → InBuffer ps y reduce.now → result ≡ is_same_reading ps x y }
{
    let count = word(action, 0);
    let from = ExampleBuffer::COUNTS;
    let past = from + ExampleBuffer::SYMBOL_WORDS * count;
    count == word(reduce, 0)
        && (word(action, 1) == word(reduce, 1) && action[from..past] == reduce[from..past])
}

// A class that shows an example of each side.
fn with_both(class: Class, x: usize, y: usize) -> Judged
    ensures { result ≡ both class x y }
{
    Judged {
        class,
        action: Some(x),
        reduce: Some(y),
    }
}

// Whether a production is T = T S T, S being the terminal: by the words of its symbols, which is one comparison where symbols would be four. That a production is the grammar's is asked here and below: a type for it would have to hold the grammar.
fn is_operator(grammar: Grammar, production: usize, terminal: u16) -> bool
    requires { production < grammar.productions }
    ensures { result ≡ is_operator_of (get_or (productions_in grammar.entry.words.now grammar.entry.productions) production no_production) terminal }
{
    let nonterminal = grammar.owner(production) as u16;
    let operator = [0, nonterminal, 1, terminal, 0, nonterminal];
    grammar.symbols(production) == operator.as_slice()
}

// The one symbol of production `one`, where `none` has no symbol.
fn optional(grammar: Grammar, none: usize, one: usize) -> Option<Symbol>
    requires { (none < grammar.productions) × (one < grammar.productions) }
    ensures { question_in result ≡ optional_one (get_or (productions_in grammar.entry.words.now grammar.entry.productions) none no_production).symbols (get_or (productions_in grammar.entry.words.now grammar.entry.productions) one no_production).symbols }
{
    if grammar.length(none) == 0 && grammar.length(one) == 1 {
        Some(grammar.symbol(one, 0))
    } else {
        None
    }
}

// `try_classify_question`: the nonterminal has two productions, one empty and one of one symbol.
fn try_classify_question(given: Given, nonterminal: usize) -> Option<Symbol>
    requires { nonterminal < length (meaning given.table.words.now).nonterminals }
    ensures { question_in result ≡ question_of (meaning given.entry.table.words.now) nonterminal }
{
    let grammar = given.grammar;
    let mut productions = given.table.productions(nonterminal);
    let p = productions.next()?.production;
    let q = productions.next()?.production;
    if let Some(_) = productions.next() {
        return None;
    }
    match optional(grammar, p, q) {
        None => optional(grammar, q, p),
        symbol => symbol,
    }
}

// A conflict of the table, and what is kept of its two sides in their order.
// Which examples are kept (`Sides`, `Ordered`) is asked by each function: a ghost field would hold it truncated, and of a truncated fact no examples can be named, as `write_example` asks.
#[derive(Clone, Copy)]
pub struct Judging<'a> {
    pub case: TableConflict<'a>,
    pub actions: SortedSide<'a>,
    pub reduces: SortedSide<'a>,
}

impl<'a> Judging<'a> {
    // Whether examples x and y, made again, are read alike.
    fn same_again(self, x: usize, y: usize) -> bool
        requires { (xs : List Example) × ((ys : List Example) × (Sides (meaning self.case.given.table.words.now) self.case.conflict xs ys self.actions.side.kept.now self.actions.side.prints.now self.reduces.side.kept.now self.reduces.side.prints.now × ((x < length xs) × (y < length ys)))) }
        ensures { (xs ys : List Example) → Sides (meaning self.entry.case.given.table.words.now) self.entry.case.conflict xs ys self.entry.actions.side.kept.now self.entry.actions.side.prints.now self.entry.reduces.side.kept.now self.entry.reduces.side.prints.now → x < length xs → y < length ys → result ≡ is_same_reading (meaning self.entry.case.given.table.words.now).productions (nth xs x) (nth ys y) }
    {
        let mut action = [0u16; ExampleBuffer::WORDS];
        let mut reduce = [0u16; ExampleBuffer::WORDS];
        write_example(self.case, self.actions.side, x, &mut action);
        write_example(self.case.reduced(), self.reduces.side, y, &mut reduce);
        same_reading(&action, &reduce)
    }

    // `try_classify_ambiguity`: the first pair that is read alike, by the numbers of its examples. Prints are equal where two are read alike; where they are equal both are made again and compared, and if they differ the search goes on behind them.
    fn try_classify_ambiguity(self) -> Option<(usize, usize)>
        requires { (xs : List Example) × ((ys : List Example) × (Sides (meaning self.case.given.table.words.now) self.case.conflict xs ys self.actions.side.kept.now self.actions.side.prints.now self.reduces.side.kept.now self.reduces.side.prints.now × (Ordered xs self.actions.order.now × Ordered ys self.reduces.order.now))) }
        ensures { (xs ys : List Example) → Sides (meaning self.entry.case.given.table.words.now) self.entry.case.conflict xs ys self.entry.actions.side.kept.now self.entry.actions.side.prints.now self.entry.reduces.side.kept.now self.entry.reduces.side.prints.now → Ordered xs self.entry.actions.order.now → Ordered ys self.entry.reduces.order.now → ReadAlike (meaning self.entry.case.given.table.words.now).productions xs ys self.entry.actions.order.now self.entry.reduces.order.now result }
    {
        let given = self.case.given;
        let mut begin: (usize, usize) = (0, 0);
        while let Some((i, j)) = first_pair(
            given.sets,
            given.grammar,
            Test::Alike,
            self.actions,
            self.reduces,
            begin,
        ) {
            let x = word(self.actions.order, i);
            let y = word(self.reduces.order, j);
            if self.same_again(x, y) {
                return Some((x, y));
            }
            begin = (i, j + 1);
        }
        None
    }

    // Ambiguity of a shift: precedence where the production is of an operator. The terminal of the action is tested, not the token.
    fn shift_ambiguity(self, x: usize, y: usize) -> Judged
        ensures { (xs ys : List Example) → x < length xs → y < length ys → Judges xs ys result (ambiguity_of_shift (production_at (meaning self.entry.case.given.table.words.now) self.entry.case.conflict.production.0) self.entry.case.conflict.operand (pair_in xs ys x y)) }
    {
        let grammar = self.case.given.grammar;
        let production = self.case.conflict.production.0 as usize;
        if is_operator(grammar, production, self.case.conflict.operand) {
            let nonterminal = NonterminalString(grammar.owner(production) as u16);
            return with_both(Class::Precedence(nonterminal), x, y);
        }
        with_both(Class::Ambiguity, x, y)
    }

    // Ambiguity of a reduce: where both first reductions are to one nonterminal, the action's example alone and both spans, the conflict's first.
    fn reduce_ambiguity(self, x: usize, y: usize) -> Judged
        requires reduces { is_shift self.case.conflict ≡ false }
        requires sides { (xs : List Example) × ((ys : List Example) × (Sides (meaning self.case.given.table.words.now) self.case.conflict xs ys self.actions.side.kept.now self.actions.side.prints.now self.reduces.side.kept.now self.reduces.side.prints.now × ((x < length xs) × (y < length ys)))) }
        ensures { (xs ys : List Example) → Sides (meaning self.entry.case.given.table.words.now) self.entry.case.conflict xs ys self.entry.actions.side.kept.now self.entry.actions.side.prints.now self.entry.reduces.side.kept.now self.entry.reduces.side.prints.now → x < length xs → y < length ys → Judges xs ys result (ambiguity_of_reduce (meaning self.entry.case.given.table.words.now).productions (production_at (meaning self.entry.case.given.table.words.now) self.entry.case.conflict.production.0) (production_at (meaning self.entry.case.given.table.words.now) self.entry.case.conflict.operand) (pair_in xs ys x y)) }
    {
        let grammar = self.case.given.grammar;
        let conflict = self.case.conflict;
        let action = self.actions.side.outline(x);
        let reduce = self.reduces.side.outline(y);
        if action.first == reduce.first {
            let (start, end) = grammar.span(conflict.production.0 as usize);
            let (other_start, other_end) = grammar.span(conflict.operand as usize);
            return Judged {
                class: Class::AmbiguousReduction(start, end, other_start, other_end),
                action: Some(x),
                reduce: None,
            };
        }
        with_both(Class::Ambiguity, x, y)
    }

    // A pair that is read alike, by the action.
    fn ambiguity(self, x: usize, y: usize) -> Judged
        requires { (xs : List Example) × ((ys : List Example) × (Sides (meaning self.case.given.table.words.now) self.case.conflict xs ys self.actions.side.kept.now self.actions.side.prints.now self.reduces.side.kept.now self.reduces.side.prints.now × ((x < length xs) × (y < length ys)))) }
        ensures { (xs ys : List Example) → Sides (meaning self.entry.case.given.table.words.now) self.entry.case.conflict xs ys self.entry.actions.side.kept.now self.entry.actions.side.prints.now self.entry.reduces.side.kept.now self.entry.reduces.side.prints.now → x < length xs → y < length ys → Judges xs ys result (ambiguity_of (meaning self.entry.case.given.table.words.now) self.entry.case.conflict.production.0 self.entry.case.conflict.action self.entry.case.conflict.operand (pair_in xs ys x y)) }
    {
        if self.case.conflict.is_shift() {
            self.shift_ambiguity(x, y)
        } else {
            self.reduce_ambiguity(x, y)
        }
    }

    // A class that shows the first of each order.
    fn with_heads(self, class: Class) -> Judged
        requires { (0 < length self.actions.order.now) × (0 < length self.reduces.order.now) }
        ensures { result ≡ both class (get_or self.entry.actions.order.now 0 0) (get_or self.entry.reduces.order.now 0 0) }
    {
        let x = word(self.actions.order, 0);
        let y = word(self.reduces.order, 0);
        with_both(class, x, y)
    }

    // `try_classify_inline`: the first pair that inlining would help, else insufficient lookahead with the first of each.
    fn try_classify_inline(self) -> Judged
        requires action_value { self.case.conflict.action ≡ 0 }
        requires sides { (xs : List Example) × ((ys : List Example) × (Sides (meaning self.case.given.table.words.now) self.case.conflict xs ys self.actions.side.kept.now self.actions.side.prints.now self.reduces.side.kept.now self.reduces.side.prints.now × (Ordered xs self.actions.order.now × Ordered ys self.reduces.order.now))) }
        ensures { (xs ys : List Example) → Sides (meaning self.entry.case.given.table.words.now) self.entry.case.conflict xs ys self.entry.actions.side.kept.now self.entry.actions.side.prints.now self.entry.reduces.side.kept.now self.entry.reduces.side.prints.now → Ordered xs self.entry.actions.order.now → Ordered ys self.entry.reduces.order.now → Judges xs ys result (inline_or (meaning self.entry.case.given.table.words.now).productions (heads_in xs ys self.entry.actions.order.now self.entry.reduces.order.now) (first_fit (judging.inlines (meaning self.entry.case.given.table.words.now)) (picked xs self.entry.actions.order.now) (picked ys self.entry.reduces.order.now))) }
    {
        let given = self.case.given;
        match first_pair(
            given.sets,
            given.grammar,
            Test::Inline,
            self.actions,
            self.reduces,
            (0, 0),
        ) {
            Some((i, j)) => {
                let x = word(self.actions.order, i);
                let y = word(self.reduces.order, j);
                let reduce = self.reduces.side.outline(y);
                with_both(
                    Class::SuggestInline(NonterminalString(reduce.first as u16)),
                    x,
                    y,
                )
            }
            None => self.with_heads(Class::InsufficientLookahead),
        }
    }

    // A shift where no pair is ambiguous: question, inline, else insufficient lookahead.
    fn shift_unambiguous(self) -> Judged
        requires action_value { self.case.conflict.action ≡ 0 }
        requires sides { (xs : List Example) × ((ys : List Example) × (Sides (meaning self.case.given.table.words.now) self.case.conflict xs ys self.actions.side.kept.now self.actions.side.prints.now self.reduces.side.kept.now self.reduces.side.prints.now × (Ordered xs self.actions.order.now × Ordered ys self.reduces.order.now))) }
        ensures { (xs ys : List Example) → Sides (meaning self.entry.case.given.table.words.now) self.entry.case.conflict xs ys self.entry.actions.side.kept.now self.entry.actions.side.prints.now self.entry.reduces.side.kept.now self.entry.reduces.side.prints.now → Ordered xs self.entry.actions.order.now → Ordered ys self.entry.reduces.order.now → Judges xs ys result (unambiguous (meaning self.entry.case.given.table.words.now) self.entry.case.conflict.production.0 0 (picked xs self.entry.actions.order.now) (picked ys self.entry.reduces.order.now) (heads_in xs ys self.entry.actions.order.now self.entry.reduces.order.now)) }
    {
        let given = self.case.given;
        let nonterminal = given
            .grammar
            .owner(self.case.conflict.production.0 as usize);
        match try_classify_question(given, nonterminal) {
            Some(symbol) => {
                let (kind, number) = symbol.words();
                let own = NonterminalString(nonterminal as u16);
                self.with_heads(Class::SuggestQuestion(own, kind, number))
            }
            None => self.try_classify_inline(),
        }
    }

    // Where no pair is ambiguous: by the action, question and inline being for a shift alone.
    fn unambiguous(self) -> Judged
        requires { (xs : List Example) × ((ys : List Example) × (Sides (meaning self.case.given.table.words.now) self.case.conflict xs ys self.actions.side.kept.now self.actions.side.prints.now self.reduces.side.kept.now self.reduces.side.prints.now × (Ordered xs self.actions.order.now × Ordered ys self.reduces.order.now))) }
        ensures { (xs ys : List Example) → Sides (meaning self.entry.case.given.table.words.now) self.entry.case.conflict xs ys self.entry.actions.side.kept.now self.entry.actions.side.prints.now self.entry.reduces.side.kept.now self.entry.reduces.side.prints.now → Ordered xs self.entry.actions.order.now → Ordered ys self.entry.reduces.order.now → Judges xs ys result (judging.unambiguous (meaning self.entry.case.given.table.words.now) self.entry.case.conflict.production.0 self.entry.case.conflict.action (picked xs self.entry.actions.order.now) (picked ys self.entry.reduces.order.now) (heads_in xs ys self.entry.actions.order.now self.entry.reduces.order.now)) }
    {
        if self.case.conflict.is_shift() {
            self.shift_unambiguous()
        } else {
            self.with_heads(Class::InsufficientLookahead)
        }
    }

    // The class from two sides in their order, neither of them empty: ambiguity first.
    pub fn judge(self) -> Judged
        requires { (xs : List Example) × ((ys : List Example) × (Sides (meaning self.case.given.table.words.now) self.case.conflict xs ys self.actions.side.kept.now self.actions.side.prints.now self.reduces.side.kept.now self.reduces.side.prints.now × (Ordered xs self.actions.order.now × Ordered ys self.reduces.order.now))) }
        ensures { (xs ys : List Example) → Sides (meaning self.entry.case.given.table.words.now) self.entry.case.conflict xs ys self.entry.actions.side.kept.now self.entry.actions.side.prints.now self.entry.reduces.side.kept.now self.entry.reduces.side.prints.now → Ordered xs self.entry.actions.order.now → Ordered ys self.entry.reduces.order.now → Judges xs ys result (judge (meaning self.entry.case.given.table.words.now) self.entry.case.conflict (picked xs self.entry.actions.order.now) (picked ys self.entry.reduces.order.now)) }
    {
        match self.try_classify_ambiguity() {
            Some((x, y)) => self.ambiguity(x, y),
            None => self.unambiguous(),
        }
    }
}
