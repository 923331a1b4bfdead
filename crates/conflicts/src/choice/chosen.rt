// What choosing answers.

ghost use Rattle.std.specs.Prelude.{◌≡◌, ◌≤◌};
ghost use Rattle.lr1_base.specs.repr.Sizes.{entry_limit};
ghost use Rattle.conflicts.specs.class_words.Entries.{entries_in};
ghost use Rattle.conflicts.specs.choice.Words.{choice_words};

use conflict_sides::conflict::Class;

// How many tokens are chosen, and six words of each: its token, the number of its class, the class's own values, zeros; zeros behind the last.
// Words as C is handed them, so a number beside them. No `EntryList`: of a reduce/reduce fewer may be chosen than were entered, and behind the last stand zeros.
#[derive(Clone, Copy)]
pub struct Chosen {
    pub count: usize,
    pub entries: [u16; Class::ALL_WORDS],
    pub ghost few: { count ≤ entry_limit },
    pub ghost whole: { entries ≡ choice_words (entries_in entries count) },
}
