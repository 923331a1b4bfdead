// Listings for C and Rust (docs/RULES.md, "Listing"). A listing passes in its parts: start item, whether it is filtered and by what set, count, and whether it is open.
// A fresh one has count 0 and is open, so that opening hands out nothing but its answer.
ghost use Rattle.std.specs.Prelude.{◌≡◌};
ghost use Rattle.enumerator.specs.trials.Advance.{open_of, advance_of};
ghost use Rattle.listing.specs.CallList.{list_of};
ghost use Rattle.lihvemur_c.specs.Exported.{numbers};
ghost use Rattle.lihvemur_c.specs.Listings.{ahead_of, open_numbers, advance_numbers, advanced_numbers, list_numbers, listed_numbers};

use crate::told;
use enumerator::trials::{Advanced, Listing};
use lr1_base::lookahead::TokenSet;
use lr1_base::repr::ProductionIndex;

// The answer at a listing's end (LIHVEMUR_END in C), which is no refusal.
pub const END: u16 = Advanced::END;

// Any lookahead of a listing from its two parts; the set counts only where it is filtered.
fn lookahead_of(filtered: bool, set: u64) -> Option<TokenSet>
    ensures { result ≡ ahead_of filtered set }
{
    filtered.then_some(TokenSet(set))
}

#[unsafe(no_mangle)]
pub extern "C" fn lihvemur_lr0_examples(
    table: &[u16],
    production: u16,
    index: u16,
    graph: &[u16],
    place: &mut u16,
) -> u16
    ensures { numbers result place.new ≡ open_numbers (open_of table.now (record { production = production; index = index }) None graph.now) }
{
    let answer = listing::lr0_examples(table, ProductionIndex(production), index, graph);
    told(answer, place).0
}

#[unsafe(no_mangle)]
pub extern "C" fn lihvemur_lr1_examples(
    table: &[u16],
    production: u16,
    index: u16,
    lookahead: u64,
    graph: &[u16],
    place: &mut u16,
) -> u16
    ensures { numbers result place.new ≡ open_numbers (open_of table.now (record { production = production; index = index }) (Some (record { 0 = lookahead })) graph.now) }
{
    let p = ProductionIndex(production);
    let answer = listing::lr1_examples(table, p, index, TokenSet(lookahead), graph);
    told(answer, place).0
}

// The next example: 0 with an example, `END` at the end, else the refusal. Count and openness are those of the listing after the call, whatever it answers.
#[unsafe(no_mangle)]
pub extern "C" fn lihvemur_advance(
    table: &[u16],
    production: u16,
    index: u16,
    filtered: bool,
    lookahead: u64,
    graph: &[u16],
    scratch: &mut [u16],
    buffer: &mut [u16],
    count: &mut u32,
    is_open: &mut bool,
    place: &mut u16,
) -> u16
    ensures { advance_numbers result place.new count.new is_open.new scratch.new buffer.new ≡ advanced_numbers (advance_of (record { production = record { 0 = production }; index = index; lookahead = ahead_of filtered lookahead; count = count.old; is_open = is_open.old }) table.now graph.now scratch.old buffer.old) }
{
    let mut l = Listing {
        production: ProductionIndex(production),
        index,
        lookahead: lookahead_of(filtered, lookahead),
        count: *count,
        is_open: *is_open,
    };
    let answer = listing::advance(&mut l, table, graph, scratch, buffer);
    *count = l.count;
    *is_open = l.is_open;
    let (number, advanced) = told(answer, place);
    match advanced {
        Some(advanced) => advanced.number(),
        None => number,
    }
}

// A list of calls of `advance` on one listing; the number of calls made stands behind `made`.
#[unsafe(no_mangle)]
pub extern "C" fn lihvemur_examples(
    table: &[u16],
    production: u16,
    index: u16,
    filtered: bool,
    lookahead: u64,
    calls: &[u32],
    graph: &[u16],
    scratch: &mut [u16],
    output: &mut [u16],
    made: &mut usize,
    place: &mut u16,
) -> u16
    ensures { list_numbers result place.new made.new scratch.new output.new ≡ listed_numbers made.old (list_of table.now (record { production = production; index = index }) (ahead_of filtered lookahead) calls.now graph.now scratch.old output.old) }
{
    let p = ProductionIndex(production);
    let ahead = lookahead_of(filtered, lookahead);
    let answer = listing::examples(table, p, index, ahead, calls, graph, scratch, output);
    let (number, count) = told(answer, place);
    if let Some(count) = count {
        *made = count;
    }
    number
}
