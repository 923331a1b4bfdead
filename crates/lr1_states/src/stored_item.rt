// Items with their tokens in words (specs/stored_item/Stored): reading and writing one, moving those with the cursor at a symbol over it, comparing kernels.

ghost use Rattle.std.specs.Prelude.{◌≡◌, ℕ, ◌+◌, ◌-◌, ◌*◌, ◌/◌, ◌^◌, ◌<◌, ◌≤◌, length, option_map};
ghost use Rattle.lr1_base.specs.repr.Sizes.{index_limit, record_limit};
ghost use Rattle.lr1_base.specs.repr.Symbols.{meant};
ghost use Rattle.lr1_states.specs.stored_item.Stored.{entry_at, entries, entry_words, put_entry, moved_over, is_same_kernel, Appended};

use lr1_base::item::Item;
use lr1_base::repr::{Grammar, Symbol, word};

// An item by its place (`Item::place`), with its tokens. They are a bare word, as a state flat is a list of numbers in specs/canonical/States: a `TokenSet` is made of one where its tokens are asked.
#[derive(Clone, Copy, PartialEq)]
pub struct StoredItem {
    pub place: usize,
    pub set: u64,
}

impl StoredItem {
    // Words of one: its place, then its tokens in four, the lowest first.
    pub const WORDS: usize = 5;

    // Words of a kernel of all items: room for any.
    pub const KERNEL_WORDS: usize = Item::LIMIT * StoredItem::WORDS;

    // What a word can hold.
    const BASE: u64 = 65536;

    // The item of its words. No `From` for it and its words: both ask for room, which `from` cannot.
    pub fn of(words: &[u16]) -> StoredItem
        requires { 5 ≤ length words.now }
        ensures { (record { place = result.place; set = result.set } ≡ entry_at words.now 0) × (result.set < 2 ^ 64) }
    {
        let a = u64::from(words[1]);
        let b = u64::from(words[2]);
        let c = u64::from(words[3]);
        let d = u64::from(words[4]);
        StoredItem {
            place: word(words, 0),
            set: a + StoredItem::BASE * (b + StoredItem::BASE * (c + StoredItem::BASE * d)),
        }
    }

    // Its words.
    pub fn words(self) -> [u16; StoredItem::WORDS]
        requires { self.place < 65536 }
        ensures { result ≡ entry_words self.place self.set }
    {
        let a = self.set;
        let b = a / StoredItem::BASE;
        let c = b / StoredItem::BASE;
        let d = c / StoredItem::BASE;
        [
            self.place as u16,
            (a % StoredItem::BASE) as u16,
            (b % StoredItem::BASE) as u16,
            (c % StoredItem::BASE) as u16,
            d as u16,
        ]
    }
}

pub fn read_item(words: &[u16], at: usize) -> StoredItem
    requires { (at < record_limit) × (at * 5 + 5 ≤ length words.now) }
    ensures { (record { place = result.place; set = result.set } ≡ entry_at words.now at) × (result.set < 2 ^ 64) }
{
    let base = at * StoredItem::WORDS;
    StoredItem::of(&words[base..base + StoredItem::WORDS])
}

pub fn write_item(words: &mut [u16], at: usize, item: StoredItem)
    requires { (at < record_limit) × (at * 5 + 5 ≤ length words.old) × (item.place < 65536) }
    ensures { words.new ≡ put_entry words.old at item.place item.set }
{
    let base = at * StoredItem::WORDS;
    words[base..base + StoredItem::WORDS].copy_from_slice(&item.words());
}

// One item, moved over the symbol and put behind the first `many` of the kernel, if its cursor stands there; how many the kernel has then.
fn move_one(
    grammar: Grammar,
    read: StoredItem,
    symbol: Option<Symbol>,
    kernel: &mut [u16],
    many: usize,
) -> usize
    requires within { (read.place < index_limit * grammar.productions) × (read.set < 2 ^ 64) }
    requires room { (many < record_limit) × (many * 5 + 5 ≤ length kernel.old) }
    ensures { Appended grammar.entry.words.now (option_map meant symbol) read.place read.set kernel.old kernel.new many result }
{
    if Item::at(read.place).cursor(grammar) == symbol {
        let next = StoredItem {
            place: read.place + 1,
            set: read.set,
        };
        write_item(kernel, many, next);
        many + 1
    } else {
        many
    }
}

// The items number `from` up to `past` that have their cursor at the symbol, moved over it, at the front of the kernel's words; how many they are (here and at one of them, and no struct of both, which would be of a fixed size and ask more of callers than words enough). With no symbol those with the cursor at their end are moved. Here and in kept_states by number and not as a slice of their words: what is known of the states found speaks of items by number.
pub fn move_over(
    grammar: Grammar,
    words: &[u16],
    from: usize,
    past: usize,
    symbol: Option<Symbol>,
    kernel: &mut [u16],
) -> usize
    requires from_le_past { (from ≤ past) × (past ≤ record_limit) × (past * 5 ≤ length words.now) × ((past - from) * 5 ≤ length kernel.old) }
    requires by_index { (m : ℕ) → from ≤ m → m < past → (entry_at words.now m).place < index_limit * grammar.productions }
    ensures { (result ≤ past - from) × (length kernel.new ≡ length kernel.old) × (entries kernel.new 0 result ≡ moved_over grammar.entry.words.now (option_map meant symbol) (entries words.now from (past - from))) }
{
    let mut many = 0;
    let items = &words[from * StoredItem::WORDS..past * StoredItem::WORDS];
    for item in items.chunks_exact(StoredItem::WORDS) {
        many = move_one(grammar, StoredItem::of(item), symbol, kernel, many);
    }
    many
}

// Whether the items number `from` up to `past` have exactly these past index 0: a kernel is the items of its words.
pub fn same_kernel(words: &[u16], from: usize, past: usize, kernel: &[u16]) -> bool
    requires { (from ≤ past) × (past ≤ record_limit) × (past * 5 ≤ length words.now) }
    ensures { result ≡ is_same_kernel (entries words.now from (past - from)) (entries kernel.now 0 (length kernel.now / 5)) }
{
    let items = &words[from * StoredItem::WORDS..past * StoredItem::WORDS];
    let kept = items
        .chunks_exact(StoredItem::WORDS)
        .map(|item| StoredItem::of(item))
        .filter(|item| Item::at(item.place).index != 0);
    let wanted = kernel.chunks_exact(StoredItem::WORDS);
    kept.eq(wanted.map(|item| StoredItem::of(item)))
}
