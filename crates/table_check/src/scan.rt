// One pass over the records: the lowest row so far, and the first record that offends against it. Loose records are marked on the way.
ghost use Rattle.std.specs.Prelude.{◌≡◌, [], ◌∷◌, ℕ, ◌+◌, ◌≤◌, ◌<◌};
ghost use Rattle.table.specs.Words.{records, loose};
ghost use Rattle.table.specs.Checked.{checked_of};
ghost use Rattle.table.specs.Refusals.{first_row};
ghost use Rattle.table_check.specs.Passed.{Reaching};
ghost use Rattle.table_check.specs.Rows.{number_of_row, number_of_fault};
ghost use Rattle.table_check.specs.Offences.{row_of, place_of};
ghost use Rattle.table_check.specs.Faults.{fault_at, Best};

use crate::areas::{Gathered, Record};
use crate::fault::Row;
use crate::mark::Marks;
use lr1_base::repr::Refusal;

// A row, and a record that meets it.
#[derive(Clone, Copy)]
pub struct Offence {
    pub row: Row,
    pub place: usize,
}

impl Offence {
    ghost use Rattle.lr1_base.specs.repr.Reply.{number_of as refusal_number, place_of as refusal_place};

    // A method and no `From`: it asks that the place has 16 bits.
    fn refusal(self) -> Refusal
        requires { self.place < 65536 }
        ensures number { refusal_number result ≡ number_of_row self.row }
        ensures place { refusal_place result ≡ self.place }
    {
        let place = self.place as u16;
        match self.row {
            Row::Chain => Refusal::Chain(place),
            Row::Owner => Refusal::Owner(place),
            Row::TooLong => Refusal::TooLong(place),
            Row::Symbol => Refusal::Symbol(place),
            Row::Target => Refusal::Target(place),
            Row::Spare => Refusal::Spare(place),
        }
    }
}

// The lowest row so far with what record r, the next one, meets. A later record goes before only by a lower row.
fn lower(best: Option<Offence>, fault: Option<Row>, r: usize) -> Option<Offence>
    ensures { (f : ℕ → ℕ) → number_of_fault fault ≡ f r → Best f r (row_of best) (place_of best) → Best f (r + 1) (row_of result) (place_of result) }
{
    match (fault, best) {
        (None, _) => best,
        (Some(row), Some(least)) if row >= least.row => best,
        (Some(row), _) => Some(Offence { row, place: r }),
    }
}

// The records before the loose ones. (The second pass is a loop of its own: it writes marks, and over one loop a step that writes is no plainer.)
fn scan_areas(gathered: Gathered) -> Option<Offence>
    ensures { Best (fault_at gathered.entry.surveyed.words.now) (loose gathered.entry.surveyed.words.now) (row_of result) (place_of result) }
{
    let mut best = None;
    for r in 0..gathered.surveyed.areas.loose_at {
        let m = Record { gathered, r }.area_fault();
        best = lower(best, m, r);
    }
    best
}

// What the marks say is asked at each step, here and below: it is of the table and of how many records are passed, and `Marks` holds neither.
// A loose record, all before it passed: the lowest row that it meets, and its next is marked as what it is marked as. Whether the index names a record is asked once, by a test beside that of `Marks::pass`: asked again for row 3, the check of 8,192 records took 609,000 instructions against 498,000.
fn pass<const N: usize>(this: Record, marks: &mut Marks<N>) -> Option<Row>
    requires loose { this.gathered.surveyed.areas.loose_at ≤ this.r }
    requires reaching { Reaching this.gathered.surveyed.words.now this.r marks.old.symbols marks.old.items marks.old.edges }
    ensures value { number_of_fault result ≡ fault_at this.entry.gathered.surveyed.words.now this.entry.r }
    ensures reaching { Reaching this.entry.gathered.surveyed.words.now (this.entry.r + 1) marks.new.symbols marks.new.items marks.new.edges }
{
    let next = this.word(0);
    if this.gathered.surveyed.loose().names(this.r, next) {
        let roles = marks.pass_to(this.r, next);
        return this.loose_fault(roles);
    }
    let roles = marks.roles(this.r);
    if next != 0 && roles.any() {
        return Some(Row::Chain);
    }
    this.loose_fault(roles)
}

// The loose records, after the others. Each is marked by then as all that it is reached as.
fn scan_loose<const N: usize>(
    gathered: Gathered,
    marks: &mut Marks<N>,
    first: Option<Offence>,
) -> Option<Offence>
    requires reaching { Reaching gathered.surveyed.words.now (loose gathered.surveyed.words.now) marks.old.symbols marks.old.items marks.old.edges }
    requires best { Best (fault_at gathered.surveyed.words.now) (loose gathered.surveyed.words.now) (row_of first) (place_of first) }
    ensures { Best (fault_at gathered.entry.surveyed.words.now) (records gathered.entry.surveyed.words.now) (row_of result) (place_of result) }
{
    let mut best = first;
    for r in gathered.surveyed.areas.loose_at..gathered.surveyed.areas.records {
        let m = pass(Record { gathered, r }, marks);
        best = lower(best, m, r);
    }
    best
}

// The first row that has an offending record, and its least such record. All heads are marked.
pub fn scan<const N: usize>(gathered: Gathered, marks: &mut Marks<N>) -> Result<(), Refusal>
    requires { Reaching gathered.surveyed.words.now (loose gathered.surveyed.words.now) marks.old.symbols marks.old.items marks.old.edges }
    ensures { checked_of result ≡ first_row gathered.entry.surveyed.words.now (3 ∷ 4 ∷ 5 ∷ 6 ∷ 7 ∷ 8 ∷ []) }
{
    let first = scan_areas(gathered);
    match scan_loose(gathered, marks, first) {
        None => Ok(()),
        Some(offence) => Err(offence.refusal()),
    }
}
