// How many alternatives a yacc text has, how many symbols in all, and the first with too many (specs/counts/Counted).

ghost use Rattle.std.specs.Prelude.{◌≡◌, ◌+◌, ◌≤◌, ◌<◌, length};
ghost use Rattle.yacc_syntax.specs.text.Grammar.{text_limit};
ghost use Rattle.yacc_reader.specs.counts.Counted.{closed, tallied, counts_in, Roomy};

use crate::events::{Saying, said};
use lr1_base::repr::ProductionIndex;
use yacc_syntax::lexer::{Next, next_token};
use yacc_syntax::recognizer::{Mode, moved};

// Alternatives, their symbols, and the first that has too many.
#[derive(Clone, Copy, Default)]
pub struct Counts {
    pub alternatives: usize,
    pub symbols: usize,
    pub long: Option<usize>,
}

// The counts of the alternatives that are closed, and the symbols of the open one.
#[derive(Clone, Copy, Default)]
struct Tally {
    counts: Counts,
    body: usize,
}

// The alternative that was open, closed.
#[tactic(auto, unfolding(crate::specs::counts::Counted::closed, crate::specs::counts::Counted::longer))]
fn close(tally: Tally) -> Tally
    requires { Roomy tally }
    ensures { result ≡ closed tally }
{
    let counts = tally.counts;
    let long = match counts.long {
        None if ProductionIndex::SYMBOLS < tally.body => Some(counts.alternatives),
        found => found,
    };
    Tally {
        counts: Counts {
            alternatives: counts.alternatives + 1,
            symbols: counts.symbols + tally.body,
            long,
        },
        body: 0,
    }
}

#[tactic(auto, unfolding(crate::specs::counts::Counted::tallied))]
fn add(tally: Tally, what: Saying) -> Tally
    requires { Roomy tally }
    ensures { result ≡ tallied tally what }
{
    match what {
        Saying::Defines => Tally { body: 0, ..tally },
        Saying::Uses => Tally {
            body: tally.body + 1,
            ..tally
        },
        Saying::Shuts => close(tally),
        Saying::Lists | Saying::Opens | Saying::Nothing => tally,
    }
}

// The counts of a text; zeros where something is no token.
pub fn count(text: &[u8]) -> Counts
    requires { length text.now ≤ text_limit }
    ensures { result ≡ counts_in text.now }
{
    let mut tally = Tally::default();
    let mut mode = Mode::Top(false);
    let mut at: usize = 0;
    // Any text: where something is no token it answers zeros, which a `for` over `TokenIter` would not tell from the end.
    loop {
        match next_token(text, at) {
            Next::Token(lexeme) => {
                tally = add(tally, said(mode, lexeme.word));
                mode = moved(mode, lexeme.word);
                at = lexeme.past;
            }
            Next::End => {
                return tally.counts;
            }
            Next::Outside => {
                return Counts::default();
            }
        }
    }
}
