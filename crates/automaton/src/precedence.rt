//! What precedence says of a production and a token.

ghost use Rattle.std.specs.Prelude.{◌≡◌, None};
ghost use Rattle.automaton.specs.Precedence.{level_of, last_terminal, terminal_of, production_terminal, production_level, compare_levels, choice_of};

use grammar::{Associativity, Grammar, Level, Production, Symbol};

/// What precedence says of a shift and a reduction.
#[derive(Clone, Copy, Debug, PartialEq, Eq)]
pub enum Choice {
    KeepShift,
    KeepReduction,
    /// Neither is kept: the token is an error there.
    KeepNeither,
    Undecided,
}

/// The number of the terminal's level of precedence, the lowest 0.
pub fn level(grammar: &Grammar, terminal: usize) -> Option<usize>
    ensures { result ≡ level_of grammar.now terminal }
{
    grammar
        .levels
        .iter()
        .position(|level| level.terminals.contains(&terminal))
}

// The last terminal of the symbols.
fn last_of(symbols: &[Symbol]) -> Option<usize>
    ensures { result ≡ last_terminal None symbols.now }
{
    let mut last = None;
    for symbol in symbols {
        if let Symbol::Terminal(t) = symbol {
            last = Some(*t);
        }
    }
    last
}

/// The terminal that a production has its precedence of: that of `%prec`, or else the last of its
/// right side.
pub fn precedence_terminal(production: &Production) -> Option<usize>
    ensures { result ≡ terminal_of production.now }
{
    match production.precedence {
        Some(terminal) => Some(terminal),
        None => last_of(production.right.as_slice()),
    }
}

/// The terminal that a production has its precedence of, by the production's number.
pub fn terminal_of_production(grammar: &Grammar, production: usize) -> Option<usize>
    ensures { result ≡ production_terminal grammar.now production }
{
    precedence_terminal(grammar.productions.get(production)?)
}

/// The level of the production's precedence.
pub fn level_of_production(grammar: &Grammar, production: usize) -> Option<usize>
    ensures { result ≡ production_level grammar.now production }
{
    let terminal = terminal_of_production(grammar, production)?;
    level(grammar, terminal)
}

// What the levels of a production and a token say.
fn compare(levels: &[Level], production: Option<usize>, token: Option<usize>) -> Choice
    ensures { result ≡ compare_levels levels.now production token }
{
    let (Some(production), Some(token)) = (production, token) else {
        return Choice::Undecided;
    };
    if token < production {
        return Choice::KeepReduction;
    }
    if production < token {
        return Choice::KeepShift;
    }
    match levels.get(token) {
        Some(level) => match level.associativity {
            Associativity::Left => Choice::KeepReduction,
            Associativity::Right => Choice::KeepShift,
            Associativity::Nonassoc => Choice::KeepNeither,
            Associativity::Precedence => Choice::Undecided,
        },
        None => Choice::Undecided,
    }
}

/// What precedence says where the production may be reduced before the token, and the token may be
/// shifted.
pub fn choose(grammar: &Grammar, production: usize, token: usize) -> Choice
    ensures { result ≡ choice_of grammar.now production token }
{
    compare(
        grammar.levels.as_slice(),
        level_of_production(grammar, production),
        level(grammar, token),
    )
}
