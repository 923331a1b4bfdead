// Classes in words: a token with its class, as choosing (docs/RULES.md, "Choosing") answers it by value.

ghost use Rattle.std.specs.Prelude.{◌≡◌, [], ◌∷◌, ◌++◌, ◌+◌, ◌*◌, ◌≤◌, ◌<◌, length, get_or, drop, replicate};
ghost use Rattle.std.proofs.lemmas.List.Edits.{sets};
ghost use Rattle.lr1_base.specs.repr.Sizes.{entry_limit, entry_room, entry_place, entries_room};
ghost use Rattle.conflict_sides.specs.conflict.Numbers.{number_of_class, values_of_class};
ghost use Rattle.lr1_base.specs.repr.Lists.{joined};
ghost use Rattle.conflicts.specs.class_words.Entries.{class_words, with_entry, count_of_values, entry_in, entries_in, entry_words};

use conflict_sides::conflict::Class;

// A class in five words: its number, its own values, zeros.
fn number_class(class: Class) -> [u16; Class::WORDS]
    ensures { result ≡ class_words class }
{
    let [a, b, c, d] = class.values();
    [class.number(), a, b, c, d]
}

// Entry k in six words: token and class.
fn write_words(entries: &mut [u16], k: usize, token: u16, words: [u16; Class::WORDS])
    requires { (k < entry_limit) × (entries_room ≤ length entries.old) }
    ensures { entries.new ≡ sets entries.old (entry_place k) (token ∷ words) }
{
    let at = k * Class::ENTRY_WORDS;
    let from = at + 1;
    let past = at + Class::ENTRY_WORDS;
    entries[at] = token;
    entries[from..past].copy_from_slice(&words);
}

// Entries behind one another, and how many: fixed words, since there is no heap.
#[derive(Drop)]
pub struct EntryList {
    pub words: [u16; Class::ALL_WORDS],
    pub count: usize,
    pub ghost few: { count ≤ entry_limit },
}

impl EntryList {
    // None, and zeros.
    pub fn new() -> EntryList
        ensures { (result.count ≡ 0) × (result.words ≡ replicate entries_room 0) }
    {
        EntryList {
            words: [0; Class::ALL_WORDS],
            count: 0,
        }
    }

    // A token with its class behind them.
    pub fn push(&mut self, token: u16, class: Class)
        requires { self.old.count < entry_limit }
        ensures count { self.new.count ≡ self.old.count + 1 }
        ensures words { self.new.words ≡ with_entry self.old.words self.old.count token class }
        ensures entries { entries_in self.new.words self.new.count ≡ entries_in self.old.words self.old.count ++ record { token = token; class = number_of_class class; values = values_of_class class } ∷ [] }
    {
        let at = self.count;
        write_words(&mut self.words, at, token, number_class(class));
        self.count = at + 1;
    }
}

// How many values a class of a number has. By its number, as words may hold any.
#[tactic(auto, unfolding(crate::specs::class_words::Entries::count_of_values))]
fn value_count(class: u16) -> usize
    ensures { (result ≡ count_of_values class) × (result ≤ 4) }
{
    match class {
        2 => 1,
        3 => 1,
        4 => 3,
        5 => 4,
        _ => 0,
    }
}

// The class of entry k, zeros past its own values.
fn read_class(entries: &[u16], k: usize) -> [u16; Class::WORDS]
    requires { (k < entry_limit) × (length entries.now ≡ entries_room) }
    ensures { get_or entries.now (entry_place k) 0 ∷ result ≡ entry_words (entry_in entries.now k) }
{
    let at = k * Class::ENTRY_WORDS + 1;
    let own = 1 + value_count(entries[at]);
    let mut words = [0u16; Class::WORDS];
    words[..own].copy_from_slice(&entries[at..at + own]);
    words
}

// So many entries copied to the front of `to`, six words each; no other word changes. Entry by entry, as it is asked of any words, also of such with something behind a class's own values.
pub fn copy_entries(from: &[u16], to: &mut [u16], count: usize)
    requires { (count ≤ entry_limit) × (length from.now ≡ entries_room) × (entries_room ≤ length to.old) }
    ensures { to.new ≡ joined entry_words (entries_in from.now count) ++ drop (entry_room * count) to.old }
{
    for k in 0..count {
        let token = from[k * Class::ENTRY_WORDS];
        let words = read_class(from, k);
        write_words(to, k, token, words);
    }
}
