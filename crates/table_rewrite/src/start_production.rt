// A start production for a grammar (docs/YACC.md): of a nonterminal that stands in no right side and has no other production (specs/start_production/Started).

ghost use Rattle.std.specs.Prelude.{◌≡◌, true, false, [], MatchOption, ◌∷◌, ◌++◌, ◌+◌, ◌<◌};
ghost use Rattle.lr1_base.specs.repr.Reply.{reply_of};
ghost use Rattle.lr1_base.specs.repr.Sizes.{nonterminal_limit, terminal_limit, production_limit};
ghost use Rattle.lr1_base.specs.repr.Lists.{some?};
ghost use Rattle.lr1_base.specs.repr.Meaning.{nonterminal, is_same_symbol, Table};
ghost use Rattle.lr1_base.specs.repr.Listed.{listed, list_is_fit};
ghost use Rattle.lr1_base.specs.repr.Packed.{Packed, productions_in};
ghost use Rattle.table.specs.Decoded.{meaning};
ghost use Rattle.table_rewrite.specs.grammar_records.Target.{PackedAs, owned_from};
ghost use Rattle.table_rewrite.specs.start_production.Started.{uses, is_start_needed, started_in, started_of, Startable, GrammarOf};

use crate::grammar_records::{
    count_symbols, next_owned, write_front, write_productions, write_symbols,
};
use lr1_base::repr::{Grammar, NonterminalString, ProductionIndex, Refusal, Symbol, SymbolIter};
use table::{AcceptedTable, Counts, put};

// Records written and the start production.
#[derive(Clone, Copy)]
pub struct Started {
    pub records: u16,
    pub production: ProductionIndex,
}

// Whether a nonterminal is one of a list's symbols.
fn is_among(symbols: &[u16], n: NonterminalString) -> bool
    requires { list_is_fit nonterminal_limit terminal_limit symbols.now ≡ true }
    ensures { result ≡ some? (is_same_symbol (nonterminal n.0)) (listed symbols.now) }
{
    SymbolIter { words: symbols }.any(|symbol| symbol == Symbol::Nonterminal(n))
}

// Whether it stands in a right side.
fn stands_in(grammar: Grammar, n: NonterminalString) -> bool
    ensures { result ≡ some? (uses n.0) (productions_in grammar.entry.words.now grammar.entry.productions) }
{
    (0..grammar.productions).any(|p| is_among(grammar.symbols(p), n))
}

// The start production that it has: its only one, if it stands in no right side.
fn own_start(grammar: Grammar, n: NonterminalString) -> Option<usize>
    ensures { (U : Table) → PackedAs U grammar.entry.words.now grammar.entry.productions → MatchOption result (is_start_needed U n.0 ≡ true) (λ p. (is_start_needed U n.0 ≡ false) × (p ≡ owned_from (productions_in grammar.entry.words.now grammar.entry.productions) n.0 0)) }
{
    let owner = n.0 as usize;
    let first = next_owned(grammar, owner, 0)?;
    if next_owned(grammar, owner, first + 1).is_none() && !stands_in(grammar, n) {
        Some(first)
    } else {
        None
    }
}

// Puts the start production behind the others. Words and their number, as a `Grammar` is lent to be read alone, and there is no heap.
fn append(grammar: &mut [u16], productions: usize, owner: usize, n: NonterminalString)
    requires packed { Packed grammar.old productions × (productions < production_limit) }
    requires owner_lt_nonterminal_limit { (owner < nonterminal_limit) × (n.0 < nonterminal_limit) }
    ensures { Packed grammar.new (productions + 1) × (productions_in grammar.new (productions + 1) ≡ productions_in grammar.old productions ++ record { nonterminal = owner; symbols = nonterminal n.0 ∷ []; start = 0; end = 0 } ∷ []) }
{
    let base = productions * ProductionIndex::WORDS;
    grammar[base] = owner as u16;
    grammar[base + 1] = 1;
    grammar[base + 2] = 0;
    grammar[base + 3] = 0;
    grammar[base + 4] = 0;
    grammar[base + 5] = n.0;
}

// Writes a grammar alone, if there is room.
pub fn write_started(
    grammar: Grammar,
    counts: Counts,
    production: usize,
    out: &mut [u16],
) -> Result<Started, Refusal>
    requires grammar_of { (U : Table) × GrammarOf U counts.nonterminals counts.terminals counts.states grammar.productions grammar.words.now }
    requires production_lt_production_limit { production < production_limit }
    ensures { (U : Table) → GrammarOf U counts.nonterminals counts.terminals counts.states grammar.entry.productions grammar.entry.words.now → record { answer = reply_of result; out = out.new } ≡ started_in U production out.old }
{
    let begin = counts.productions_at() + grammar.productions;
    let records = begin + count_symbols(grammar);
    if records > out.len() / 4 {
        return Err(Refusal::NoRoom);
    }
    write_front(grammar, counts, out);
    put(out, counts.states_at(), 0, 0, 0, 0);
    write_productions(grammar, counts, out);
    write_symbols(grammar, begin, out);
    Ok(Started {
        records: records as u16,
        production: ProductionIndex(production as u16),
    })
}

// The grammar with a start production, at the front of `out`: its own, or one that is added. Refusals 2, then 17; they change nothing.
pub fn with_start(
    table: AcceptedTable,
    start: NonterminalString,
    out: &mut [u16],
) -> Result<Started, Refusal>
    requires { Startable (meaning table.words.now) start.0 }
    ensures { record { answer = reply_of result; out = out.new } ≡ started_of (meaning table.entry.words.now) start.0 out.old }
{
    // Not by `read_grammar`, whose contract says nothing of the lent words once its `Grammar` is gone: `append` writes behind them.
    let mut words = [0u16; ProductionIndex::ALL_WORDS];
    table.read_productions(&mut words);
    let counts = table.counts();
    let nonterminals = counts.nonterminals;
    let productions = counts.productions;
    let grammar = Grammar {
        words: &words,
        productions,
    };
    if let Some(first) = own_start(grammar, start) {
        return write_started(grammar, counts, first, out);
    }
    if nonterminals == NonterminalString::LIMIT || productions == ProductionIndex::LIMIT {
        return Err(Refusal::Counts);
    }
    append(&mut words, productions, nonterminals, start);
    let more = Counts {
        nonterminals: nonterminals + 1,
        productions: productions + 1,
        ..counts
    };
    let grammar = Grammar {
        words: &words,
        productions: more.productions,
    };
    write_started(grammar, more, productions, out)
}
