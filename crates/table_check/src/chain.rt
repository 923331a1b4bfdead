// A chain of a table that is not yet known to be accepted, gone through from an index on. An index against the rule ends it.
ghost use Rattle.std.specs.Prelude.{◌≡◌, ◌≤◌, ◌<◌};
ghost use Rattle.table.specs.Words.{word_at, chain};
ghost use Rattle.table_check.specs.Known.{area};

use crate::areas::{Area, Surveyed};
use table::word;

// What is left of it: the index `at`, held by record `last`.
#[derive(Clone, Copy)]
pub struct ChainIter<'a> {
    pub surveyed: Surveyed<'a>,
    pub area: Area,
    pub last: usize,
    pub at: usize,
    pub ghost inside: { area.past ≤ surveyed.areas.records },
}

impl<'a> Iterator for ChainIter<'a> {
    ghost use Rattle.std.specs.Iterator.{YieldsFirst, item_count};

    type Item = usize;

    ghost next_gives = { YieldsFirst (λ c. chain c.surveyed.words.now (area c.area.from c.area.past) c.last c.at) };

    ghost remaining = { item_count (λ c. chain c.surveyed.words.now (area c.area.from c.area.past) c.last c.at) };

    fn next(&mut self) -> Option<usize> {
        let at = self.at;
        if !self.area.names(self.last, at) {
            return None;
        }
        self.last = at;
        self.at = word(self.surveyed.words, at, 0);
        Some(at)
    }
}

impl<'a> Surveyed<'a> {
    // The chain of what an index into the area may name, from word k of record r on.
    pub(crate) fn chain(self, named: Area, r: usize, k: usize) -> ChainIter<'a>
        requires word { (r < self.areas.records) × (k < 4) }
        requires inside { named.past ≤ self.areas.records }
        ensures { chain result.surveyed.words.now (area result.area.from result.area.past) result.last result.at ≡ chain self.entry.words.now (area named.from named.past) r (word_at self.entry.words.now r k) }
    {
        ChainIter {
            surveyed: self,
            area: named,
            last: r,
            at: word(self.words, r, k),
        }
    }
}
