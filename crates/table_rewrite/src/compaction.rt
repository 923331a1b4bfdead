// Takes back the records of a table that no chain reaches, in place (specs/compaction/Compaction, specs/compaction/Outcome).

ghost use Rattle.std.specs.Prelude.{true, ◌≡◌, ℕ, ◌+◌, ◌*◌, ◌≤◌, ◌<◌, length, get_or, replicate};
ghost use Rattle.lr1_base.specs.repr.Sizes.{record_limit};
ghost use Rattle.lr1_base.specs.repr.Reply.{reply_of};
ghost use Rattle.table.specs.Words.{word_at, records, loose};
ghost use Rattle.table.specs.Checked.{Accepted};
ghost use Rattle.table.specs.Refusals.{check_of};
ghost use Rattle.table.specs.Quads.{put_quad};
ghost use Rattle.table_check.specs.Known.{AreasOf};
ghost use Rattle.table_rewrite.specs.compaction.Compaction.{reached, count_of, compacted};
ghost use Rattle.table_rewrite.specs.compaction.Outcome.{compact_of};
ghost use Rattle.table_rewrite.specs.compaction.Passes.{Headed, HeadsMarked, Numbers, Numbered, Closing, Followed, Freed};

use lr1_base::repr::Refusal;
use table::{AcceptedTable, RECORD_WORDS, RECORDS, put, word};
use table_check::areas::{Areas, survey};
use table_check::check;

// The heads of chains in word k of the records from `first` up to and without `past`. Both words of a state are heads, so that k is a word's number. (Crate spelling has a `Region` of the same three numbers: which are made, and so the methods, differ.)
#[derive(Clone, Copy)]
struct Heads {
    first: usize,
    past: usize,
    k: usize,
}

impl Heads {
    // Those of the states' items.
    fn items(a: Areas) -> Heads
        ensures { (result.first ≡ a.states_at) × ((result.past ≡ a.productions_at) × (result.k ≡ 0)) }
    {
        Heads {
            first: a.states_at,
            past: a.productions_at,
            k: 0,
        }
    }

    // Those of the states' edges and, behind them, of the productions' symbols.
    fn others(a: Areas) -> Heads
        ensures { (result.first ≡ a.states_at) × ((result.past ≡ a.loose_at) × (result.k ≡ 1)) }
    {
        Heads {
            past: a.loose_at,
            k: 1,
            ..Heads::items(a)
        }
    }
}

// Marks heads.
fn mark_heads(table: AcceptedTable, heads: Heads, numbers: &mut [u16; RECORDS])
    requires first_le_past { (heads.first ≤ heads.past) × ((heads.past ≤ loose table.words.now) × ((heads.k < 4) × Headed table.words.now heads.first heads.past heads.k)) }
    ensures { HeadsMarked table.entry.words.now heads.first heads.past heads.k numbers.old numbers.new }
{
    for r in heads.first..heads.past {
        let x = word(table.words, r, heads.k);
        if x != 0 {
            numbers[x] = 1;
        }
    }
}

// Reached record r gets its new number, and its next is marked (a mark is two lines here and in `mark_heads`: a function of them would have a contract as long).
fn number_one(table: AcceptedTable, r: usize, number: usize, numbers: &mut [u16; RECORDS])
    requires r_value { (reached table.words.now r ≡ true) × (number ≤ record_limit) }
    ensures { Numbered table.entry.words.now numbers.old numbers.new r number }
{
    let x = word(table.words, r, 0);
    if x != 0 {
        numbers[x] = 1;
    }
    numbers[r] = number as u16;
}

// The new number of each reached record, by record: 0 where no chain reaches it, 1 from its mark on until its number comes, in fixed words since there is no heap; the number of records that are left. One ascending pass over the loose records, whose heads are marked: a next index is larger than its record's
// number, so each is marked by the time it is met.
// Counted by hand: the numbers are written while they are read, which the closure of a `filter` could not.
fn number_reached(table: AcceptedTable, a: Areas, numbers: &mut [u16; RECORDS]) -> usize
    requires areas { AreasOf table.words.now a }
    requires numbers_value { numbers.old ≡ replicate record_limit 0 }
    ensures { (result ≡ count_of table.entry.words.now) × Numbers table.entry.words.now numbers.new }
{
    mark_heads(table, Heads::items(a), numbers);
    mark_heads(table, Heads::others(a), numbers);
    let mut count = a.loose_at;
    for r in a.loose_at..a.records {
        if numbers[r] != 0 {
            number_one(table, r, count, numbers);
            count += 1;
        }
    }
    count
}

// Moves record r to the place of its new number, its next index following.
fn move_record(table: &mut [u16], r: usize, number: usize, numbers: &[u16])
    requires r_lt_record_limit { (r < record_limit) × (r * 4 + 3 < length table.old) }
    requires number_lt_record_limit { (number < record_limit) × (number * 4 + 3 < length table.old) }
    requires r_in_bounds { word_at table.old r 0 < length numbers.now }
    ensures { table.new ≡ put_quad table.old number (get_or numbers.now (word_at table.old r 0) 0) (word_at table.old r 1) (word_at table.old r 2) (word_at table.old r 3) }
{
    let x = word(table, r, 0);
    let next = numbers[x] as usize;
    let one = word(table, r, 1);
    let two = word(table, r, 2);
    let three = word(table, r, 3);
    put(table, number, next, one, two, three);
}

// Moves the reached records to their new numbers. A new number is no larger than the old one, so in ascending order nothing is overwritten that is still to be read.
fn move_down(table: &mut [u16], a: Areas, numbers: &[u16])
    requires table_value { (check_of table.old ≡ Accepted) × AreasOf table.old a }
    requires numbers { Numbers table.old numbers.now }
    ensures { Closing table.old table.new (records table.old) }
{
    for r in a.loose_at..a.records {
        let number = numbers[r] as usize;
        if number != 0 {
            move_record(table, r, number, numbers);
        }
    }
}

// Heads follow.
fn follow_heads(table: &mut [u16], heads: Heads, numbers: &[u16])
    requires first_le_past { (heads.first ≤ heads.past) × ((heads.past ≤ record_limit) × ((heads.past * 4 ≤ length table.old) × (heads.k < 4))) }
    requires by_index { (r : ℕ) → heads.first ≤ r → r < heads.past → word_at table.old r heads.k < length numbers.now }
    ensures { Followed numbers.now table.old table.new heads.first heads.past heads.k }
{
    for r in heads.first..heads.past {
        let x = word(table, r, heads.k);
        table[r * RECORD_WORDS + heads.k] = numbers[x];
    }
}

// Zeroes the records from `count` on.
fn free_end(table: &mut [u16], count: usize)
    requires { count ≤ record_limit }
    ensures { Freed table.old table.new count }
{
    let from = count * RECORD_WORDS;
    if from < table.len() {
        table[from..].fill(0);
    }
}

// Over an accepted table: the number of records that are left.
fn close_gaps(table: &mut [u16]) -> usize
    requires { check_of table.old ≡ Accepted }
    ensures { (result ≡ count_of table.old) × (table.new ≡ compacted table.old) }
{
    let a = survey(table);
    let mut numbers = [0u16; RECORDS];
    let count = number_reached(AcceptedTable { words: table }, a, &mut numbers);
    move_down(table, a, &numbers);
    follow_heads(table, Heads::items(a), &numbers);
    follow_heads(table, Heads::others(a), &numbers);
    free_end(table, count);
    count
}

// Closes the gaps of a table in place: the number of records that are left.
pub fn compact(table: &mut [u16]) -> Result<u16, Refusal>
    ensures { record { answer = reply_of result; table = table.new } ≡ compact_of table.old }
{
    check(table)?;
    Ok(close_gaps(table) as u16)
}
