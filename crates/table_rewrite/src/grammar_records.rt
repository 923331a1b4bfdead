// The records of a grammar, written from its packed productions (docs/RULES.md, "Building states"): record 0, nonterminals, productions, symbols.

ghost use Rattle.std.specs.Prelude.{◌≡◌, true, map, ◌+◌, ◌≤◌, ◌<◌, MatchOption, length};
ghost use Rattle.lr1_base.specs.repr.Sizes.{record_limit, nonterminal_limit, terminal_limit};
ghost use Rattle.lr1_base.specs.repr.Listed.{listed, list_is_fit};
ghost use Rattle.lr1_base.specs.repr.Meaning.{Table, Production};
ghost use Rattle.lr1_base.specs.repr.Packed.{productions_in};
ghost use Rattle.table_rewrite.specs.spelling.Spelled.{chain_from, symbol_quad, quads, size_of, states_at, productions_at, symbols_at, items_place, next_owned_from};
ghost use Rattle.table_rewrite.specs.spelling.Grown.{Grown, Room, Stands};
ghost use Rattle.table_rewrite.specs.grammar_records.Target.{Target, PackedAs, owned_from};

use crate::spelling::{head_of, next_of};
use lr1_base::repr::{Grammar, Symbol, word};
use table::{Counts, put};

// How many symbols all productions have.
pub fn count_symbols(grammar: Grammar) -> usize
    ensures { result ≡ size_of (map (λ (p : Production). p.symbols) (productions_in grammar.entry.words.now grammar.entry.productions)) }
{
    (0..grammar.productions).map(|p| grammar.length(p)).sum()
}

// The lowest production from `from` on of a nonterminal.
pub fn next_owned(grammar: Grammar, owner: usize, from: usize) -> Option<usize>
    ensures { let p = owned_from (productions_in grammar.entry.words.now grammar.entry.productions) owner from in MatchOption result (p ≡ grammar.entry.productions) (λ q. (q < grammar.entry.productions) × (p ≡ q)) }
{
    (from..grammar.productions).find(|&p| grammar.owner(p) == owner)
}

// That production's record, where production 0 is record `at`; 0 for none.
fn next_record(grammar: Grammar, owner: usize, from: usize, at: usize) -> usize
    requires { at ≤ record_limit }
    ensures { (U : Table) → PackedAs U grammar.entry.words.now grammar.entry.productions → at ≡ productions_at U → result ≡ next_owned_from U owner from }
{
    match next_owned(grammar, owner, from) {
        Some(p) => at + p,
        None => 0,
    }
}

// Record 0 and the nonterminals. The grammar, the counts and the table stand beside each other here and below: the two callers have them so, and a struct of them would be made at these two calls alone.
pub fn write_front(grammar: Grammar, counts: Counts, out: &mut [u16])
    requires { (U : Table) × (Target U counts.nonterminals counts.terminals counts.states out.old × PackedAs U grammar.words.now grammar.productions) }
    ensures { (U : Table) → Target U counts.nonterminals counts.terminals counts.states out.old → PackedAs U grammar.entry.words.now grammar.entry.productions → Grown U out.old out.new 0 (states_at U) }
{
    let at = counts.productions_at();
    let all = Counts {
        productions: grammar.productions,
        ..counts
    };
    all.put(out);
    for n in 0..counts.nonterminals {
        let head = next_record(grammar, n, 0, at);
        put(out, 1 + n, head, 0, 0, 0);
    }
}

// The productions.
pub fn write_productions(grammar: Grammar, counts: Counts, out: &mut [u16])
    requires { (U : Table) × (Target U counts.nonterminals counts.terminals counts.states out.old × PackedAs U grammar.words.now grammar.productions) }
    ensures { (U : Table) → Target U counts.nonterminals counts.terminals counts.states out.old → PackedAs U grammar.entry.words.now grammar.entry.productions → Grown U out.old out.new (productions_at U) (symbols_at U) }
{
    let at = counts.productions_at();
    // No index, but where the next production's symbols begin.
    let mut y = at + grammar.productions;
    for p in 0..grammar.productions {
        let owner = grammar.owner(p);
        let many = grammar.length(p);
        let (start, end) = grammar.span(p);
        let next = next_record(grammar, owner, p + 1, at);
        let head = head_of(many, y);
        put(out, at + p, next, head, start as usize, end as usize);
        y += many;
    }
}

// The symbols of one production, from a record on; the record behind them. Here and twice in module state_records of lr1_tables a chain is written by a loop over `next_of`:
// one over all would take each record's words from a closure, whose clauses are longer than the loop.
fn write_chain(symbols: &[u16], begin: usize, out: &mut [u16]) -> usize
    requires symbols_value { list_is_fit nonterminal_limit terminal_limit symbols.now ≡ true }
    requires stands { (U : Table) × (Stands (quads U) begin (chain_from symbol_quad begin (listed symbols.now)) × Room U out.old) }
    ensures { (result ≡ begin + length (listed symbols.now)) × ((U : Table) → Stands (quads U) begin (chain_from symbol_quad begin (listed symbols.now)) → Room U out.old → Grown U out.old out.new begin result) }
{
    let many = symbols.len() / Symbol::WORDS;
    for (i, symbol) in symbols.chunks_exact(Symbol::WORDS).enumerate() {
        let next = next_of(many - i - 1, begin + i);
        put(out, begin + i, next, word(symbol, 0), word(symbol, 1), 0);
    }
    begin + many
}

// The symbols of all productions, from a record on.
pub fn write_symbols(grammar: Grammar, begin: usize, out: &mut [u16])
    requires { (U : Table) × (PackedAs U grammar.words.now grammar.productions × ((begin ≡ symbols_at U) × Room U out.old)) }
    ensures { (U : Table) → PackedAs U grammar.entry.words.now grammar.entry.productions → begin ≡ symbols_at U → Room U out.old → Grown U out.old out.new (symbols_at U) (items_place U) }
{
    let mut at = begin;
    for p in 0..grammar.productions {
        at = write_chain(grammar.symbols(p), at, out);
    }
}
