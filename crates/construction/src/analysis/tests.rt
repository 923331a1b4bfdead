ghost use Rattle.std.specs.Prelude.{All, IsTrue, vec_len};
ghost use Rattle.grammar.specs.Symbols.{SymbolFits};

use super::*;
use automaton::{Other, Resolution, count_reduce_reduce, count_shift_reduce, resolve};
use grammar::{Associativity, Level, Production, Symbol};
use source::Span;
use std::test::Fail;

// States and conflicts, counted by bison 3.8.2 too.
#[derive(Clone, Copy, Debug, PartialEq, Eq)]
struct Counts {
    states: usize,
    shift_reduce: usize,
    reduce_reduce: usize,
}

const END: Symbol = Symbol::Terminal(0);

// A grammar of this many symbols of each kind; `$end` and `error` are among the terminals, and
// `$accept` is among the nonterminals.
fn start(alloc: Global, terminals: usize, nonterminals: usize) -> Result<Grammar, AllocError> {
    let mut grammar = Grammar::new(alloc);
    for _ in 0..terminals {
        grammar.add_terminal(String::new(alloc))?;
    }
    for _ in 0..nonterminals {
        grammar.add_nonterminal(String::new(alloc))?;
    }
    Ok(grammar)
}

fn fits(grammar: &Grammar, symbols: &[Symbol]) -> bool
    ensures { IsTrue result
        → All (SymbolFits (vec_len grammar.now.terminals)
        (vec_len grammar.now.nonterminals)) symbols.now }
{
    symbols.iter().all(|symbol| grammar.has_symbol(*symbol))
}

fn add(
    alloc: Global,
    grammar: &mut Grammar,
    left: usize,
    right: &[Symbol],
) -> Result<(), AllocError> {
    if left < grammar.nonterminals.len() && fits(grammar, right) {
        grammar.add_production(Production::new(alloc, left, right.to_vec(alloc)?))?;
    }
    Ok(())
}

fn add_level(
    alloc: Global,
    grammar: &mut Grammar,
    associativity: Associativity,
) -> Result<(), AllocError> {
    if 2 < grammar.terminals.len() {
        grammar.add_level(Level {
            associativity,
            terminals: vec![in alloc; 2usize]?,
            span: Span { start: 0, end: 0 },
        })?;
    }
    Ok(())
}

// e: e '+' e | N
fn sums(alloc: Global) -> Result<Grammar, AllocError> {
    let plus = Symbol::Terminal(2);
    let number = Symbol::Terminal(3);
    let e = Symbol::Nonterminal(1);
    let mut grammar = start(alloc, 4, 2)?;
    add(alloc, &mut grammar, 0, &[e, END])?;
    add(alloc, &mut grammar, 1, &[e, plus, e])?;
    add(alloc, &mut grammar, 1, &[number])?;
    Ok(grammar)
}

fn count(alloc: Global, grammar: &Grammar, kind: Kind) -> Result<Counts, Failure> {
    let analysis = conflicts_of_grammar(alloc, grammar, kind)?;
    let clashes = analysis.clashes.as_slice();
    Ok(Counts {
        states: analysis.automaton.states.len(),
        shift_reduce: count_shift_reduce(grammar, true, clashes),
        reduce_reduce: count_reduce_reduce(grammar, true, clashes),
    })
}

// How the only conflict of the sums comes out under a level.
fn outcome(alloc: Global, associativity: Associativity) -> Result<Option<Resolution>, Failure> {
    let mut grammar = sums(alloc)?;
    add_level(alloc, &mut grammar, associativity)?;
    let analysis = conflicts_of_grammar(alloc, &grammar, Kind::Lalr)?;
    let list = resolve(alloc, &grammar, true, analysis.clashes.as_slice())?;
    match list.as_slice() {
        [only] if only.conflict.other == Other::Shift => Ok(Some(only.resolution)),
        _ => Ok(None),
    }
}

#[test]
fn dangling_else(rt: HostRuntime) -> Result<(), Fail> {
    let alloc = rt.alloc();
    let if_word = Symbol::Terminal(2);
    let else_word = Symbol::Terminal(3);
    let statement = Symbol::Nonterminal(1);
    let mut grammar = start(alloc, 5, 2)?;
    add(alloc, &mut grammar, 0, &[statement, END])?;
    add(alloc, &mut grammar, 1, &[if_word, statement])?;
    add(
        alloc,
        &mut grammar,
        1,
        &[if_word, statement, else_word, statement],
    )?;
    add(alloc, &mut grammar, 1, &[Symbol::Terminal(4)])?;
    let wanted = Counts {
        states: 8,
        shift_reduce: 1,
        reduce_reduce: 0,
    };
    assert_eq!(rt; count(alloc, &grammar, Kind::Lalr), Ok(wanted));
    Ok(())
}

#[test]
fn associativity_settles(rt: HostRuntime) -> Result<(), Fail> {
    let alloc = rt.alloc();
    let bare = Counts {
        states: 6,
        shift_reduce: 1,
        reduce_reduce: 0,
    };
    assert_eq!(rt; count(alloc, &sums(alloc)?, Kind::Lalr), Ok(bare));
    assert_eq!(rt;
        outcome(alloc, Associativity::Left),
        Ok(Some(Resolution::ReductionKept))
    );
    assert_eq!(rt;
        outcome(alloc, Associativity::Right),
        Ok(Some(Resolution::ShiftKept))
    );
    assert_eq!(rt;
        outcome(alloc, Associativity::Nonassoc),
        Ok(Some(Resolution::NeitherKept))
    );
    assert_eq!(rt;
        outcome(alloc, Associativity::Precedence),
        Ok(Some(Resolution::Open))
    );
    Ok(())
}

// Bison's manual, "mysterious conflicts": LALR(1) joins two states that LR(1) keeps apart.
#[test]
fn only_lalr_is_in_conflict(rt: HostRuntime) -> Result<(), Fail> {
    let alloc = rt.alloc();
    let id = Symbol::Terminal(2);
    let comma = Symbol::Terminal(3);
    let colon = Symbol::Terminal(4);
    let definition = Symbol::Nonterminal(1);
    let parameters = Symbol::Nonterminal(2);
    let results = Symbol::Nonterminal(3);
    let kind = Symbol::Nonterminal(4);
    let name = Symbol::Nonterminal(5);
    let names = Symbol::Nonterminal(6);
    let mut grammar = start(alloc, 5, 7)?;
    add(alloc, &mut grammar, 0, &[definition, END])?;
    add(alloc, &mut grammar, 1, &[parameters, results, comma])?;
    add(alloc, &mut grammar, 2, &[kind])?;
    add(alloc, &mut grammar, 2, &[names, colon, kind])?;
    add(alloc, &mut grammar, 3, &[kind])?;
    add(alloc, &mut grammar, 3, &[name, colon, kind])?;
    add(alloc, &mut grammar, 4, &[id])?;
    add(alloc, &mut grammar, 5, &[id])?;
    add(alloc, &mut grammar, 6, &[name])?;
    add(alloc, &mut grammar, 6, &[name, comma, names])?;
    let lalr = Counts {
        states: 20,
        shift_reduce: 0,
        reduce_reduce: 1,
    };
    let canonical = Counts {
        states: 22,
        shift_reduce: 0,
        reduce_reduce: 0,
    };
    assert_eq!(rt; count(alloc, &grammar, Kind::Lalr), Ok(lalr));
    assert_eq!(rt;
        count(alloc, &grammar, Kind::Canonical { limit: 100 }),
        Ok(canonical)
    );
    assert_eq!(rt;
        count(alloc, &grammar, Kind::Canonical { limit: 10 }),
        Err(Failure::Limit)
    );
    Ok(())
}
