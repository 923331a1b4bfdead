// A chain of an accepted table's loose records, whatever they hold, gone through from a record on; 0 is the end.

ghost use Rattle.std.specs.Prelude.{◌<◌};
ghost use Rattle.table_rewrite.specs.spelling.Grown.{LooseIndex};

use table::{AcceptedTable, word};

// A record: the index of the next, and three words.
#[derive(Clone, Copy)]
pub struct LooseRecord {
    pub next: usize,
    pub one: usize,
    pub two: usize,
    pub three: usize,
    pub ghost small: { (one < 65536) × (two < 65536) × (three < 65536) },
}

// What is left of a chain.
#[derive(Clone, Copy)]
pub struct RecordIter<'a> {
    pub table: AcceptedTable<'a>,
    pub at: usize,
    pub ghost on: { LooseIndex table.words.now at },
}

impl<'a> Iterator for RecordIter<'a> {
    ghost use Rattle.std.specs.Iterator.{item_count};
    ghost use Rattle.table_rewrite.specs.spelling.Grown.{records_from};
    ghost use Rattle.table_rewrite.specs.spelling.Steps.{RecordStep};

    type Item = LooseRecord;

    ghost next_gives = { RecordStep };

    ghost remaining = { item_count (λ s. records_from s.table.words.now s.at) };

    fn next(&mut self) -> Option<LooseRecord> {
        if self.at == 0 {
            return None;
        }
        let words = self.table.words;
        let at = self.at;
        let read = LooseRecord {
            next: word(words, at, 0),
            one: word(words, at, 1),
            two: word(words, at, 2),
            three: word(words, at, 3),
        };
        self.at = read.next;
        Some(read)
    }
}
