// Finding the states (`build_states` of lr1/build as far as states and edges): specs/goto/Steps says what is found, specs/goto/Search what stands in the words.

ghost use Rattle.std.specs.Prelude.{◌≡◌, ℕ, ◌+◌, ◌-◌, ◌*◌, ◌/◌, ◌^◌, ◌<◌, ◌≤◌, true, false, List, [], OnErr, MatchResult, length, take, slice_index, slice_index_or};
ghost use Rattle.lr1_base.specs.repr.Sizes.{index_limit, item_limit, record_limit, state_limit};
ghost use Rattle.lr1_base.specs.repr.Meaning.{Table};
ghost use Rattle.lr1_base.specs.repr.Symbols.{meant};
ghost use Rattle.lr1_base.specs.repr.Reply.{number_of, place_of};
ghost use Rattle.lr1_states.specs.closure.Grammar.{OfTable, Held};
ghost use Rattle.lr1_states.specs.canonical.States.{closure, place};
ghost use Rattle.lr1_states.specs.stored_item.Stored.{entries, packed};
ghost use Rattle.lr1_states.specs.state_list.Made.{Made};
ghost use Rattle.lr1_states.specs.goto.Steps.{add_to, goto_to};
ghost use Rattle.lr1_states.specs.goto.Search.{KernelIn, Stored, Search, refusal_of, IsOneOf, Reached};

use crate::closure::transitive_closure;
use crate::state_list::{Begins, count_items, find, pack, unpack};
use crate::stored_item::{StoredItem, move_over};
use first::FirstSets;
use lr1_base::item::Item;
use lr1_base::repr::{Grammar, ProductionIndex, Refusal, Symbol};

// What is known of the table while its states are found: records without states, items and edges, and how many there may be.
#[derive(Clone, Copy)]
pub struct Sizes {
    pub nonterminals: usize,
    pub fixed: usize,
    pub limit: usize,
}

// What a search is given: the grammar, its FIRST sets, the numbers.
#[derive(Clone, Copy)]
pub struct Source<'a> {
    pub grammar: Grammar<'a>,
    pub sets: &'a FirstSets,
    pub sizes: Sizes,
}

// What a search lacks where it halts: a number for a state, or room for its records.
#[derive(Clone, Copy, PartialEq)]
pub enum Halt {
    States,
    Records,
}

impl From<Halt> for Refusal {
    ghost from_gives = { λ h r. (number_of r ≡ refusal_of h) × (place_of r ≡ 0) };

    fn from(halt: Halt) -> Refusal {
        match halt {
            Halt::States => Refusal::TooManyStates,
            Halt::Records => Refusal::NoRoom,
        }
    }
}

// Here and in the crates above that take states, what is given, the words, where states begin and the kernel stand beside each other. Tried as one struct: with the kernel in it a field would be lent to be changed
// while another is lent, or its words copied at each goto; without it every step is proved, and the call in crate lr1_tables is not covered, where the grammar, its sets and the words are lent at lifetimes of their own.
// They are slices, of which each function asks the length: a longer one serves too, and an array type would ask more of callers.
// One state more, by its items flat, stored behind the others if it has room; without it nothing changes.
pub fn append(
    items: &[u64],
    sizes: Sizes,
    words: &mut [u16],
    begins: &mut Begins,
) -> Result<(), Halt>
    requires items_few { (length items.now ≤ item_limit) × (sizes.fixed ≤ 65536) × (sizes.limit ≤ record_limit) }
    requires record_limit_in_bounds { (record_limit * 5 ≤ length words.old) × (begins.old.states < state_limit) × (slice_index begins.old.items begins.old.states ≤ record_limit) }
    ensures { let stored = Stored (sizes.fixed + begins.old.states + 1) sizes.limit (packed items.now) words.old words.new begins.old.items begins.new.items begins.old.states in MatchResult result (λ u. stored true × (begins.new.states ≡ begins.old.states + 1)) (λ h. (h ≡ Halt.Records) × stored false × (words.new ≡ words.old) × (begins.new ≡ begins.old)) }
{
    let states = begins.states;
    let begin = begins.items[states];
    let past = begin + count_items(items);
    if sizes.limit < sizes.fixed + states + 1 + past {
        return Err(Halt::Records);
    }
    begins.items[states + 1] = pack(items, words, begin);
    begins.states = states + 1;
    Ok(())
}

// A kernel closed.
pub fn close(source: Source, kernel: &[u16]) -> [u64; Item::LIMIT]
    requires held { Held source.grammar.words.now source.grammar.productions source.sets.now.terminals source.sets.now.map }
    requires kernel { KernelIn kernel.now (length kernel.now / 5) source.grammar.productions }
    ensures { (length result ≡ item_limit) × ((T : Table) (M : List ℕ) → OfTable T source.entry.grammar.words.now source.entry.grammar.productions source.entry.sets.now.terminals source.entry.sets.now.map → length M ≡ index_limit * source.entry.grammar.productions → entries kernel.now 0 (length kernel.now / 5) ≡ packed M → take (index_limit * source.entry.grammar.productions) result ≡ closure T M) }
{
    let mut state = unpack(kernel, 0, kernel.len() / StoredItem::WORDS);
    transitive_closure(source.grammar, source.sets, &mut state);
    state
}

// A kernel that no state has, closed and stored, or nothing changes: the new state's number, answered as `goto_over` answers it, since `Reached` says of both what is left: a number alone would need a second definition.
fn store(
    source: Source,
    words: &mut [u16],
    begins: &mut Begins,
    kernel: &[u16],
) -> Result<Option<usize>, Halt>
    requires search { Search source words.old begins.old.items begins.old.states }
    requires kernel { KernelIn kernel.now (length kernel.now / 5) source.grammar.productions }
    ensures { OnErr result ((words.new ≡ words.old) × (begins.new ≡ begins.old)) × ((s : Search source.entry words.old begins.old.items begins.old.states) (M : List ℕ) → length M ≡ index_limit * source.entry.grammar.productions → entries kernel.now 0 (length kernel.now / 5) ≡ packed M → Made s.T s.start (closure s.T M) → place (closure s.T M) s.Rs ≡ length s.Rs → Reached s.T s.start s.Rs (add_to s.T s.room (closure s.T M) s.Rs) words.new begins.new.items begins.new.states result) }
{
    let number = begins.states;
    if number == Begins::STATES {
        return Err(Halt::States);
    }
    let state = close(source, kernel);
    let items = &state[..ProductionIndex::INDEXES * source.grammar.productions];
    append(items, source.sizes, words, begins)?;
    Ok(Some(number))
}

// The goto of state k over a symbol; None if no item has its cursor there. Where it halts, the states found are those of before.
pub fn goto_over(
    source: Source,
    words: &mut [u16],
    begins: &mut Begins,
    k: usize,
    symbol: Symbol,
    kernel: &mut [u16],
) -> Result<Option<usize>, Halt>
    requires search { Search source words.old begins.old.items begins.old.states }
    requires k_lt_states { (k < begins.old.states) × IsOneOf source.sizes.nonterminals source.sets.now.terminals (meant symbol) × (item_limit * 5 ≤ length kernel.old) }
    ensures { (length kernel.new ≡ length kernel.old) × OnErr result ((words.new ≡ words.old) × (begins.new ≡ begins.old)) × ((s : Search source.entry words.old begins.old.items begins.old.states) → Reached s.T s.start s.Rs (goto_to s.T s.room (slice_index_or s.Rs k []) s.Rs (meant symbol)) words.new begins.new.items begins.new.states result) }
{
    let (begin, past) = begins.span(k);
    let many = move_over(source.grammar, words, begin, past, Some(symbol), kernel);
    if many == 0 {
        return Ok(None);
    }
    let moved = &kernel[..many * StoredItem::WORDS];
    match find(words, begins, moved) {
        Some(target) => Ok(Some(target)),
        None => store(source, words, begins, moved),
    }
}
