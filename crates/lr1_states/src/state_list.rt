// The states found, in words (specs/state_list/Kept): a state flat again, its items counted and stored behind the others, a kernel looked for.

ghost use Rattle.std.specs.Prelude.{◌≡◌, ℕ, suc, ◌+◌, ◌-◌, ◌*◌, ◌/◌, ◌^◌, ◌<◌, ◌≤◌, MatchOption, length, slice_index};
ghost use Rattle.lr1_base.specs.repr.Sizes.{item_limit, record_limit, state_limit};
ghost use Rattle.lr1_states.specs.stored_item.Stored.{entry_at, entries, packed};
ghost use Rattle.lr1_states.specs.state_list.Kept.{unpacked, put_all, states_in, Begun, kernel_place};

use crate::stored_item::{StoredItem, same_kernel, write_item};
use lr1_base::item::Item;
use lr1_base::repr::StateIndex;

// Where the items of the states found begin, and how many states there are: a place for each that a table may have and one behind them, since there is no heap.
#[derive(Clone, Copy)]
pub struct Begins {
    pub items: [usize; Begins::ROWS],
    pub states: usize,
    pub ghost long: { length items ≡ suc state_limit },
}

impl Begins {
    // States of a table at most (refusal 16).
    pub const STATES: usize = StateIndex::LIMIT;

    // Places of them.
    pub const ROWS: usize = Begins::STATES + 1;

    // Without states.
    pub fn new() -> Begins
        ensures { (result.states ≡ 0) × ((k : ℕ) → slice_index result.items k ≡ 0) }
    {
        Begins {
            items: [0; Begins::ROWS],
            states: 0,
        }
    }

    // Where the items of state k begin and end. Here and above a state is asked by its number, and that it is found at each call: a type for it would have to hold the states found.
    pub fn span(&self, k: usize) -> (usize, usize)
        requires { k < state_limit }
        ensures { (result.0 ≡ slice_index self.now.items k) × (result.1 ≡ slice_index self.now.items (k + 1)) }
    {
        (self.items[k], self.items[k + 1])
    }
}

// The items number `from` up to `past`, flat: an item at its place.
pub fn unpack(words: &[u16], from: usize, past: usize) -> [u64; Item::LIMIT]
    requires from_le_past { (from ≤ past) × (past ≤ record_limit) × (past * 5 ≤ length words.now) }
    requires by_index { (m : ℕ) → from ≤ m → m < past → (entry_at words.now m).place < item_limit }
    ensures { result ≡ unpacked (entries words.now from (past - from)) }
{
    let mut map = [0u64; Item::LIMIT];
    let items = &words[from * StoredItem::WORDS..past * StoredItem::WORDS];
    for stored in items.chunks_exact(StoredItem::WORDS) {
        let item = StoredItem::of(stored);
        map[item.place] = item.set;
    }
    map
}

// The items of a state stored from number `begin` on; the number behind them.
pub fn pack(state: &[u64], words: &mut [u16], begin: usize) -> usize
    requires { (length state.now ≤ item_limit) × (record_limit * 5 ≤ length words.old) × (begin + length (packed state.now) ≤ record_limit) }
    ensures { (result ≡ begin + length (packed state.now)) × (words.new ≡ put_all words.old begin (packed state.now)) }
{
    // Counted by hand, as how many are stored is what is answered: a `filter` and a second `enumerate` would count them twice.
    let mut many = begin;
    for (place, &set) in state.iter().enumerate() {
        if set != 0 {
            write_item(words, many, StoredItem { place, set });
            many += 1;
        }
    }
    many
}

// How many items a state has.
pub fn count_items(state: &[u64]) -> usize
    requires { length state.now ≤ item_limit }
    ensures { (result ≡ length (packed state.now)) × (result ≤ item_limit) }
{
    state.iter().filter(|set| **set != 0).count()
}

// The first state that has this kernel.
pub fn find(words: &[u16], begins: &Begins, kernel: &[u16]) -> Option<usize>
    requires { Begun words.now begins.now.items begins.now.states }
    ensures { let k = kernel_place (entries kernel.now 0 (length kernel.now / 5)) (states_in words.now begins.now.items begins.now.states) in MatchOption result (k ≡ begins.now.states) (λ n. (n < begins.now.states) × (k ≡ n)) }
{
    (0..begins.states).find(|&k| {
        let (from, past) = begins.span(k);
        same_kernel(words, from, past, kernel)
    })
}
