// State 0: the closure of the start production's first item with the end (specs/start_state/Start).

ghost use Rattle.std.specs.Prelude.{◌≡◌, true, false, ℕ, MatchResult, ◌+◌, ◌*◌, ◌≤◌, ◌<◌, length, get_or};
ghost use Rattle.lr1_base.specs.repr.Sizes.{record_limit};
ghost use Rattle.lr1_base.specs.repr.Meaning.{Table};
ghost use Rattle.lr1_states.specs.closure.Grammar.{OfTable, Held};
ghost use Rattle.lr1_states.specs.start_state.Start.{Counted, Started};

use crate::goto::{Halt, Source, append, close};
use crate::state_list::Begins;
use crate::stored_item::StoredItem;
use lr1_base::item::Item;
use lr1_base::lookahead::TokenSet;
use lr1_base::repr::ProductionIndex;

// Stored if it has room.
pub fn first_state(
    source: Source,
    start: usize,
    words: &mut [u16],
    begins: &mut Begins,
) -> Result<(), Halt>
    requires held { Held source.grammar.words.now source.grammar.productions source.sets.now.terminals source.sets.now.map }
    requires start_lt_productions { (start < source.grammar.productions) × (source.sizes.fixed ≤ 65536) × (source.sizes.limit ≤ record_limit) × (record_limit * 5 ≤ length words.old) × (get_or begins.old.items 0 0 ≡ 0) }
    ensures { (T : Table) (room : ℕ) → OfTable T source.entry.grammar.words.now source.entry.grammar.productions source.entry.sets.now.terminals source.entry.sets.now.map → Counted T room source.entry.sizes.nonterminals source.entry.sizes.fixed source.entry.sizes.limit → let started = Started T start room words.new begins.new.items in MatchResult result (λ u. started true × (begins.new.states ≡ 1)) (λ h. (h ≡ Halt.Records) × started false) }
{
    let first = Item {
        production: start,
        index: 0,
    };
    let item = StoredItem {
        place: first.place(),
        set: TokenSet::eof(source.sets.terminals).0,
    };
    begins.states = 0;
    let state = close(source, &item.words());
    let items = &state[..ProductionIndex::INDEXES * source.grammar.productions];
    append(items, source.sizes, words, begins)
}
