// Stamps of items: from which state an item was last traced on. The items of a state that many pairs enter are traced on once from it, not once for each pair.
ghost use Rattle.std.specs.Prelude.{◌≡◌, ℕ, ◌+◌, ◌*◌, ◌<◌, replicate, ◌≢◌};
ghost use Rattle.lr1_base.specs.repr.Sizes.{production_limit, index_limit};
ghost use Rattle.trace.specs.Stamps.{stamp_words, stamp_read_at};

use lr1_base::item::Item;
use lr1_base::repr::word;

// A byte for each item, in fixed memory, since there is no heap; two to a word, since an array of a byte for each of the 2,176 would have more than 2,000 elements (tests/arrays.py).
#[derive(Clone, Copy)]
pub struct Stamps {
    pub words: [u16; Stamps::WORDS],
}

impl Stamps {
    pub const WORDS: usize = Item::LIMIT / 2;

    pub fn new() -> Stamps
        ensures { result.words ≡ replicate stamp_words 0 }
    {
        Stamps {
            words: [0u16; Stamps::WORDS],
        }
    }

    // An item's stamp: one more than a state's number, 0 for none. (No Option: it is only compared, with one more than a state's number.)
    pub fn at(&self, item: Item) -> usize
        requires { (item.production < production_limit) × (item.index < index_limit) }
        ensures { result ≡ stamp_read_at self.now.words (item.production * index_limit + item.index) }
    {
        let place = item.place();
        let both = word(&self.words, place / 2);
        if place % 2 == 0 {
            both % 256
        } else {
            both / 256
        }
    }

    pub fn put(&mut self, item: Item, stamp: usize)
        requires { (item.production < production_limit) × (item.index < index_limit) × (stamp < 256) }
        ensures index_after { stamp_read_at self.new.words (item.production * index_limit + item.index) ≡ stamp }
        ensures by_index { (c : ℕ) → (c ≢ item.production * index_limit + item.index) → stamp_read_at self.new.words c ≡ stamp_read_at self.old.words c }
    {
        let place = item.place();
        let at = place / 2;
        let both = word(&self.words, at);
        let changed = if place % 2 == 0 {
            both / 256 * 256 + stamp
        } else {
            stamp * 256 + both % 256
        };
        self.words[at] = changed as u16;
    }
}
