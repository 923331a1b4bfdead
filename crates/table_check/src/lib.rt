// The check of a lent table: refusals 1 to 8 with number and place (docs/RULES.md, "Refusals").

#![tactic(auto)]

pub mod areas;
mod chain;
mod counts;
mod fault;
mod held;
mod loose;
pub mod mark;
mod scan;

ghost use Rattle.std.specs.Prelude.{[], ◌∷◌, ◌≡◌, ◌≤◌, ◌*◌, IfOk, replicate};
ghost use Rattle.table.specs.Words.{records};
ghost use Rattle.table.specs.Checked.{checked_of};
ghost use Rattle.table.specs.Refusals.{first_row, check_of};
ghost use Rattle.table_check.specs.Marks.{Sized};

use areas::{Gathered, Surveyed};
pub use loose::Roles;
use lr1_base::repr::{ProductionIndex, Refusal};
use mark::{ALL, FEW, Marks};
use table::{AcceptedTable, RECORD_WORDS};

// What is gathered of the productions, in bytes that are lent for it. A part of its caller: what it is given would wait to be copied, which a small table feels.
#[inline(always)]
fn gather<'a>(
    s: Surveyed<'a>,
    held: &'a mut [u8; ProductionIndex::LIMIT],
    lengths: &'a mut [u8; ProductionIndex::LIMIT],
) -> Gathered<'a>
    requires { held.old ≡ replicate 128 0 }
    ensures { result.surveyed.words.now ≡ s.entry.words.now }
{
    held::hold(s, held);
    counts::count(s, lengths);
    Gathered {
        surveyed: s,
        held,
        lengths,
    }
}

// Rows 3 to 8, of a table that rows 1 and 2 let through, over so many words of marks. The heads of all chains are marked; then one pass looks at each record and marks
// its next as what it is marked as itself, however chains are shared.
fn inspect_within<const N: usize>(table: &[u16]) -> Result<(), Refusal>
    requires sized { Sized table.now }
    requires room { records table.now ≤ N * 64 }
    requires few { N ≤ 128 }
    ensures { checked_of result ≡ first_row table.now (3 ∷ 4 ∷ 5 ∷ 6 ∷ 7 ∷ 8 ∷ []) }
{
    let s = Surveyed {
        words: table,
        areas: areas::survey(table),
    };
    let mut marks = Marks::<N>::of_heads(s);
    let mut held = [0u8; ProductionIndex::LIMIT];
    let mut lengths = [0u8; ProductionIndex::LIMIT];
    let g = gather(s, &mut held, &mut lengths);
    scan::scan(g, &mut marks)
}

// By the number of records. Zeroing the marks is most of the work on a small table.
fn inspect(table: &[u16]) -> Result<(), Refusal>
    requires { Sized table.now }
    ensures { checked_of result ≡ first_row table.now (3 ∷ 4 ∷ 5 ∷ 6 ∷ 7 ∷ 8 ∷ []) }
{
    if table.len() <= FEW * 64 * RECORD_WORDS {
        return inspect_within::<FEW>(table);
    }
    inspect_within::<ALL>(table)
}

// Accepted, or the first row of the table of refusals that has an offending record, and its least such record. The cost is linear in the number of
// records. Unreached loose records are not looked at, area records always are.
pub fn check(table: &[u16]) -> Result<AcceptedTable, Refusal>
    ensures answer { checked_of result ≡ check_of table.now }
    ensures same { IfOk result (λ t. t.words.now ≡ table.now) }
{
    if areas::bad_words(table) {
        return Err(Refusal::Words);
    }
    if areas::bad_counts(table) {
        return Err(Refusal::Counts);
    }
    inspect(table)?;
    Ok(AcceptedTable { words: table })
}
