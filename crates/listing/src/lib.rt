// Opening a listing, and moving it on in place (docs/RULES.md, "Listing"). Every entry is total, refuses by docs/RULES.md, "Refusals", and is equated with a definition.

#![tactic(auto)]

ghost use Rattle.std.specs.Prelude.{OnOk, IfErr, ◌≡◌, [], ◌∷◌, ◌+◌, ◌≤◌, ◌<◌, ◌%◌, ◌/◌, length, get_or, drop};
ghost use Rattle.lr1_base.specs.repr.Reply.{number_of, place_of, reply_of};
ghost use Rattle.enumerator.specs.trials.Advance.{outcome, open_of, advance_of};
ghost use Rattle.listing.specs.CallList.{number_of_answer, made, made_of, refusal_of_calls, listed, list_of, ended, ended_of};

use enumerator::advance::{open_in, step_in};
use enumerator::trials::{Advanced, Listing};
use lr1_base::lookahead::TokenSet;
use lr1_base::repr::{ProductionIndex, Refusal};
use table_check::check;

// A listing of the examples of a start item: of all, or of those whose `first0` meets the lookahead.
fn open_listing(
    table: &[u16],
    production: ProductionIndex,
    index: u16,
    lookahead: Option<TokenSet>,
    graph: &[u16],
) -> Result<Listing, Refusal>
    ensures { reply_of result ≡ open_of table.now (record { production = production.0; index = index }) lookahead graph.now }
{
    open_in(check(table)?, production, index, lookahead, graph)
}

// A listing of all examples of a start item.
pub fn lr0_examples(
    table: &[u16],
    production: ProductionIndex,
    index: u16,
    graph: &[u16],
) -> Result<Listing, Refusal>
    ensures { reply_of result ≡ open_of table.now (record { production = production.0; index = index }) None graph.now }
{
    open_listing(table, production, index, None, graph)
}

// A listing of the examples of a start item whose `first0` meets the lookahead.
pub fn lr1_examples(
    table: &[u16],
    production: ProductionIndex,
    index: u16,
    lookahead: TokenSet,
    graph: &[u16],
) -> Result<Listing, Refusal>
    ensures { reply_of result ≡ open_of table.now (record { production = production.0; index = index }) (Some lookahead) graph.now }
{
    open_listing(table, production, index, Some(lookahead), graph)
}

// The next example: the listing is lent and moved on in place.
pub fn advance(
    listing: &mut Listing,
    table: &[u16],
    graph: &[u16],
    scratch: &mut [u16],
    buffer: &mut [u16],
) -> Result<Advanced, Refusal>
    ensures { outcome (reply_of result) listing.new scratch.new buffer.new ≡ advance_of listing.old table.now graph.now scratch.old buffer.old }
{
    let accepted = check(table)?;
    step_in(listing, accepted, graph, scratch, buffer)
}

// What a call of a list is lent: how much of the graph and of the scratch, and the length of its buffer.
#[derive(Clone, Copy)]
struct Lent {
    graph: usize,
    scratch: usize,
    buffer: usize,
}

impl Lent {
    // A call's numbers, and the words that are recorded in front of its buffer.
    const NUMBERS: usize = 3;

    const RECORD: usize = 3;

    // Of a call's numbers.
    fn of(numbers: &[u32]) -> Lent
        requires { 3 ≤ length numbers.now }
        ensures read { (result.graph ≡ get_or numbers.now 0 0) × ((result.scratch ≡ get_or numbers.now 1 0) × (result.buffer ≡ get_or numbers.now 2 0)) }
        ensures small { result.buffer < 4294967296 }
    {
        Lent {
            graph: numbers[0] as usize,
            scratch: numbers[1] as usize,
            buffer: numbers[2] as usize,
        }
    }

    // The words of the output that the call asks.
    fn part(self) -> usize
        requires { self.buffer < 4294967296 }
        ensures { result ≡ 3 + self.buffer }
    {
        Lent::RECORD + self.buffer
    }
}

// The number that is recorded of an answer.
fn answer_number(answer: Result<Advanced, Refusal>) -> u16
    ensures { result ≡ number_of_answer (reply_of answer) }
{
    match answer {
        Ok(advanced) => advanced.number(),
        Err(refusal) => refusal.number(),
    }
}

// Refusal 9 for a list of calls that is cut short, 11 for an output that has fewer words than they ask. What is left of the output is counted down, call by call: the sum of what all ask may be above a `usize`.
fn check_calls(calls: &[u32], words: usize) -> Result<(), Refusal>
    ensures fits { OnOk result (refusal_of_calls calls.now words ≡ 0) }
    ensures refused { IfErr result (λ e. (number_of e ≡ refusal_of_calls calls.now words) × (place_of e ≡ 0) × (0 < number_of e)) }
{
    if calls.len() % Lent::NUMBERS != 0 {
        return Err(Refusal::OutOfRange);
    }
    let mut left = words;
    for numbers in calls.chunks_exact(Lent::NUMBERS) {
        let part = Lent::of(numbers).part();
        if left < part {
            return Err(Refusal::TooShort);
        }
        left -= part;
    }
    Ok(())
}

// The three words in front of a call's buffer: the number, and the count in two words, the lower first.
fn write_record(part: &mut [u16], number: u16, count: u32)
    requires { 3 ≤ length part.old }
    ensures { part.new ≡ number ∷ count % 65536 ∷ count / 65536 ∷ drop 3 part.old }
{
    part[0] = number;
    part[1] = (count % 65536) as u16;
    part[2] = (count / 65536) as u16;
}

// One call, lent a beginning of the graph and of the scratch. Its part of the output is three words, the answer's number and the count, and then its buffer.
fn call(
    listing: &mut Listing,
    table: &[u16],
    lent: Lent,
    graph: &[u16],
    scratch: &mut [u16],
    part: &mut [u16],
)
    requires { 3 ≤ length part.old }
    ensures { made listing.new scratch.new part.new ≡ made_of table.now graph.now listing.old lent.graph lent.scratch scratch.old part.old }
{
    let n = lent.graph.min(graph.len());
    let m = lent.scratch.min(scratch.len());
    let answer = advance(
        listing,
        table,
        &graph[..n],
        &mut scratch[..m],
        &mut part[Lent::RECORD..],
    );
    write_record(part, answer_number(answer), listing.count);
}

// The calls, one after another, over one graph and one scratch, each with its own part of the output. Where a part begins is counted by hand: each has a length of its own, and `split_at_mut` would lend the rest anew at each call.
fn make_calls(
    opened: Listing,
    table: &[u16],
    calls: &[u32],
    graph: &[u16],
    scratch: &mut [u16],
    output: &mut [u16],
)
    requires { refusal_of_calls calls.now (length output.old) ≡ 0 }
    ensures { ended scratch.new output.new ≡ ended_of table.now graph.now calls.now opened scratch.old [] output.old }
{
    let mut listing = opened;
    let mut from: usize = 0;
    for numbers in calls.chunks_exact(Lent::NUMBERS) {
        let lent = Lent::of(numbers);
        let to = from + lent.part();
        call(
            &mut listing,
            table,
            lent,
            graph,
            scratch,
            &mut output[from..to],
        );
        from = to;
    }
}

// A listing is opened, and the calls of a list are made on it through `advance`; answers how many. `calls` has three numbers a call: how much of the graph and of the scratch it is
// lent, and the length of its buffer. Of each call the output holds the answer's number, the count in two words, and its buffer. The parameters are those that C hands over.
pub fn examples(
    table: &[u16],
    production: ProductionIndex,
    index: u16,
    lookahead: Option<TokenSet>,
    calls: &[u32],
    graph: &[u16],
    scratch: &mut [u16],
    output: &mut [u16],
) -> Result<usize, Refusal>
    ensures { listed (reply_of result) scratch.new output.new ≡ list_of table.now (record { production = production.0; index = index }) lookahead calls.now graph.now scratch.old output.old }
{
    let fits = check_calls(calls, output.len());
    // The lower refusal by its number, as the definition says it: a derived order of `Refusal` would have to be proved that of the numbers, case by case, for this one test.
    match (
        open_listing(table, production, index, lookahead, graph),
        fits,
    ) {
        (Err(other), Err(own)) => {
            if own.number() < other.number() {
                Err(own)
            } else {
                Err(other)
            }
        }
        (Err(other), Ok(())) => Err(other),
        (Ok(_), Err(own)) => Err(own),
        (Ok(listing), Ok(())) => {
            make_calls(listing, table, calls, graph, scratch, output);
            Ok(calls.len() / Lent::NUMBERS)
        }
    }
}
