// A table's size and counts, and the rule of an index.
ghost use Rattle.std.specs.Prelude.{false, ◌≡◌, ◌<◌};
ghost use Rattle.table.specs.Refusals.{row1, row2, used};
ghost use Rattle.table.specs.Words.{word_at, production_records, loose_records, names, against};
ghost use Rattle.table_check.specs.Marks.{Sized};
ghost use Rattle.table_check.specs.Known.{AreasOf, Known, area};

use lr1_base::repr::{NonterminalString, ProductionIndex, StateIndex, Symbol};
use table::{Counts, RECORD_WORDS, RECORDS, word};

// The counts of record 0, the number of records, and where the areas begin.
#[derive(Clone, Copy)]
pub struct Areas {
    pub counts: Counts,
    pub records: usize,
    pub states_at: usize,
    pub productions_at: usize,
    pub loose_at: usize,
}

// The records that an index may name: from `from` up to and without `past`.
#[derive(Clone, Copy)]
pub struct Area {
    pub from: usize,
    pub past: usize,
}

impl Area {
    // Whether index x, held by record r, names one of them by the rule.
    #[tactic(auto, unfolding(table::specs::Words::names))]
    pub fn names(self, r: usize, x: usize) -> bool
        ensures { result ≡ names (area self.from self.past) r x }
    {
        self.from <= x && x < self.past && r < x
    }

    // Whether it is against the rule: not 0, and no such name.
    #[tactic(auto, unfolding(table::specs::Words::against))]
    pub fn against(self, r: usize, x: usize) -> bool
        ensures { result ≡ against (area self.from self.past) r x }
    {
        x != 0 && !self.names(r, x)
    }
}

// A table that rows 1 and 2 let through, with its areas.
#[derive(Clone, Copy)]
pub struct Surveyed<'a> {
    pub words: &'a [u16],
    pub areas: Areas,
    pub ghost of: { AreasOf words.now areas },
}

impl<'a> Surveyed<'a> {
    // What an index of productions may name.
    pub fn productions(self) -> Area
        ensures records { area result.from result.past ≡ production_records self.entry.words.now }
        ensures within { (result.from ≡ self.entry.areas.productions_at) × (result.past ≡ self.entry.areas.loose_at) }
    {
        Area {
            from: self.areas.productions_at,
            past: self.areas.loose_at,
        }
    }

    // What an index of loose records may name.
    pub fn loose(self) -> Area
        ensures records { area result.from result.past ≡ loose_records self.entry.words.now }
        ensures within { (result.from ≡ self.entry.areas.loose_at) × (result.past ≡ self.entry.areas.records) }
    {
        Area {
            from: self.areas.loose_at,
            past: self.areas.records,
        }
    }

    // Whether word k of record r, an index of productions, is against the rule. (Which word is a number, asked here and below, as by `word` of crate table.)
    pub fn bad_production_index(self, r: usize, k: usize) -> bool
        requires { (r < self.areas.records) × (k < 4) }
        ensures { result ≡ against (production_records self.entry.words.now) r (word_at self.entry.words.now r k) }
    {
        self.productions().against(r, word(self.words, r, k))
    }

    // The same of an index of loose records. (Two names for the two areas, which this crate promises.)
    pub fn bad_loose_index(self, r: usize, k: usize) -> bool
        requires { (r < self.areas.records) × (k < 4) }
        ensures { result ≡ against (loose_records self.entry.words.now) r (word_at self.entry.words.now r k) }
    {
        self.loose().against(r, word(self.words, r, k))
    }
}

// What is gathered of its productions too: how many chains hold each, as far as two, and how many symbols it has, as far as seventeen. They are two arrays since each is filled by a pass of its own: over an array of both each pass would have to say that it leaves the other's field alone.
#[derive(Clone, Copy)]
pub struct Gathered<'a> {
    pub surveyed: Surveyed<'a>,
    pub held: &'a [u8; ProductionIndex::LIMIT],
    pub lengths: &'a [u8; ProductionIndex::LIMIT],
    pub ghost known: { Known surveyed.words.now surveyed.areas held.now lengths.now },
}

// Record r of such a table.
#[derive(Clone, Copy)]
pub(crate) struct Record<'a> {
    pub gathered: Gathered<'a>,
    pub r: usize,
    pub ghost inside: { r < gathered.surveyed.areas.records },
}

impl<'a> Record<'a> {
    // Its word k.
    pub(crate) fn word(self, k: usize) -> usize
        requires { k < 4 }
        ensures { result ≡ word_at self.entry.gathered.surveyed.words.now self.entry.r k }
    {
        word(self.gathered.surveyed.words, self.r, k)
    }

    // Whether word k, which is to be spare, is used: not 0.
    #[tactic(auto, unfolding(table::specs::Refusals::used))]
    pub(crate) fn used(self, k: usize) -> bool
        requires { k < 4 }
        ensures { result ≡ used self.entry.gathered.surveyed.words.now self.entry.r k }
    {
        self.word(k) != 0
    }
}

// Row 1: no words, a part of a record, or above 8,192 records.
#[tactic(auto, unfolding(table::specs::Refusals::row1))]
pub fn bad_words(table: &[u16]) -> bool
    ensures { result ≡ row1 table.now }
{
    let words = table.len();
    words == 0 || words % RECORD_WORDS != 0 || words > RECORDS * RECORD_WORDS
}

// Row 2: a count outside its range, or areas longer than the table.
#[tactic(auto, unfolding(table::specs::Refusals::row2, table::specs::Words::records, table::specs::Words::loose, table::specs::Words::production_area, table::specs::Words::state_area))]
pub fn bad_counts(table: &[u16]) -> bool
    requires { row1 table.now ≡ false }
    ensures { result ≡ row2 table.now }
{
    let counts = Counts::of(table);
    counts.nonterminals == 0
        || counts.nonterminals > NonterminalString::LIMIT
        || counts.terminals > Symbol::TERMINALS
        || counts.states == 0
        || counts.states > StateIndex::LIMIT
        || counts.productions > ProductionIndex::LIMIT
        || table.len() / RECORD_WORDS < counts.loose_at()
}

// Read once; what works on the records is handed this by value. That rows 1 and 2 let the words through is asked here and where it is handed on: the type of such words is `Surveyed`, and this is a part of it.
pub fn survey(table: &[u16]) -> Areas
    requires { Sized table.now }
    ensures { AreasOf table.now result }
{
    let counts = Counts::of(table);
    Areas {
        counts,
        records: table.len() / RECORD_WORDS,
        states_at: counts.states_at(),
        productions_at: counts.productions_at(),
        loose_at: counts.loose_at(),
    }
}
