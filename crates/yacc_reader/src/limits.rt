// Refusals 2, 5 and 17 of a yacc text by its counts (specs/limits/Limited; module counts, proofs/Limits).

ghost use Rattle.std.specs.Prelude.{◌≡◌};
ghost use Rattle.lr1_base.specs.repr.Reply.{reply_of};
ghost use Rattle.yacc_reader.specs.parsed_file.Outcome.{counted_of};
ghost use Rattle.yacc_reader.specs.limits.Limited.{Meant, limited_of};

use crate::counts::Counts;
use lr1_base::repr::{NonterminalString, ProductionIndex, Refusal, Symbol};
use table::RECORD_WORDS;

// What refuses a text of n nonterminals and m terminals that is named well, by its counts and the room there is. A production's record stands behind those of the counts, the nonterminals and the one state. (The lists and not their lengths: the clause says of both that they are left.)
pub fn check_counts(
    n: usize,
    m: usize,
    counts: Counts,
    table: &[u16],
    places: &[u16],
) -> Result<(), Refusal>
    requires { Meant n m counts }
    ensures { (w : Meant n m counts) → counted_of w.source table.now places.now ≡ limited_of w.source (reply_of result) table.now places.now }
{
    if NonterminalString::LIMIT < n
        || Symbol::TERMINALS < m
        || ProductionIndex::LIMIT < counts.alternatives
    {
        return Err(Refusal::Counts);
    }
    if let Some(first) = counts.long {
        return Err(Refusal::TooLong((2 + n + first) as u16));
    }
    let records = 2 + n + counts.alternatives + counts.symbols;
    if table.len() / RECORD_WORDS < records || places.len() < n + m {
        return Err(Refusal::NoRoom);
    }
    Ok(())
}
