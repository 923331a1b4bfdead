// The chains of an accepted table's records, each gone through from a record on; 0 is the end. A record is named by its index, as the words that are lent have it: there is no heap.
// One trait for the three `next`s would be longer than they are: each reads another record and shows another list.

ghost use Rattle.table.specs.Index.{ItemIndex, EdgeIndex, ProductionHead};

use crate::{AcceptedTable, EdgeRecord, ItemRecord, ProductionRecord};

// What is left of a chain of items.
#[derive(Clone, Copy)]
pub struct ItemIter<'a> {
    pub table: AcceptedTable<'a>,
    pub at: usize,
    pub ghost on: { ItemIndex table.words.now at },
}

impl<'a> Iterator for ItemIter<'a> {
    ghost use Rattle.std.specs.Iterator.{item_count};
    ghost use Rattle.table.specs.Decoded.{items_from};
    ghost use Rattle.table.specs.Steps.{ItemStep};

    type Item = ItemRecord;

    ghost next_gives = { ItemStep };

    ghost remaining = { item_count (λ s. items_from s.table.words.now s.at) };

    fn next(&mut self) -> Option<ItemRecord> {
        if self.at == 0 {
            return None;
        }
        let read = self.table.item(self.at);
        self.at = read.next;
        Some(read)
    }
}

// What is left of a chain of edges.
#[derive(Clone, Copy)]
pub struct EdgeIter<'a> {
    pub table: AcceptedTable<'a>,
    pub at: usize,
    pub ghost on: { EdgeIndex table.words.now at },
}

impl<'a> Iterator for EdgeIter<'a> {
    ghost use Rattle.std.specs.Iterator.{item_count};
    ghost use Rattle.table.specs.Decoded.{edges_from};
    ghost use Rattle.table.specs.Steps.{EdgeStep};

    type Item = EdgeRecord;

    ghost next_gives = { EdgeStep };

    ghost remaining = { item_count (λ s. edges_from s.table.words.now s.at) };

    fn next(&mut self) -> Option<EdgeRecord> {
        if self.at == 0 {
            return None;
        }
        let read = self.table.edge(self.at);
        self.at = read.next;
        Some(read)
    }
}

// What is left of a nonterminal's productions.
#[derive(Clone, Copy)]
pub struct ProductionIter<'a> {
    pub table: AcceptedTable<'a>,
    pub at: usize,
    pub ghost on: { ProductionHead table.words.now at },
}

impl<'a> Iterator for ProductionIter<'a> {
    ghost use Rattle.std.specs.Iterator.{item_count};
    ghost use Rattle.table.specs.Decoded.{productions_from};
    ghost use Rattle.table.specs.Steps.{ProductionStep};

    type Item = ProductionRecord;

    ghost next_gives = { ProductionStep };

    ghost remaining = { item_count (λ s. productions_from s.table.words.now s.at) };

    fn next(&mut self) -> Option<ProductionRecord> {
        if self.at == 0 {
            return None;
        }
        let read = self.table.production(self.at);
        self.at = read.next;
        Some(read)
    }
}
