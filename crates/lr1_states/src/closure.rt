// Closing a set of items (`transitive_closure` of lr1/build). A state's sets stand flat, item [production, index] at 17 * production + index
// (specs/canonical/States), and that it does (`Flat`) is asked of it where it is read whole: a struct around the one array would be opened at each use. Beside them one set for each nonterminal, the lookaheads of its index-0 items.
// Each set there is a bare word, as the definitions speak of lists of numbers: a `TokenSet` is made of it where it is read.

ghost use Rattle.std.specs.Prelude.{◌≡◌, ◌+◌, ◌*◌, ◌<◌, ◌≤◌, ◌++◌, length, take, drop};
ghost use Rattle.lr1_base.specs.repr.Sizes.{index_limit, item_limit};
ghost use Rattle.lr1_base.specs.repr.Lists.{below};
ghost use Rattle.lr1_base.specs.repr.Meaning.{Table};
ghost use Rattle.lr1_base.specs.repr.Packed.{production_in};
ghost use Rattle.lr1_states.specs.canonical.States.{closure};
ghost use Rattle.lr1_states.specs.canonical.Aheads.{aheads};
ghost use Rattle.lr1_states.specs.closure.Grammar.{OfTable, Held};
ghost use Rattle.lr1_states.specs.closure.Fed.{Flat, feed, fed_by_items, fed_by_firsts, spread_in};

use first::FirstSets;
use lr1_base::item::Item;
use lr1_base::lookahead::TokenSet;
use lr1_base::repr::{Grammar, NonterminalString, ProductionIndex, Symbol};

// Here and below a grammar and its FIRST sets stand beside each other: what keeps them as one, `Source` of module goto, holds the sizes of a search too, and a struct of the two would be made at the one call from there.
// What an item gives to the nonterminal at its cursor: FIRST of what stands behind it, followed by the item's tokens. An item without a token gives nothing.
fn feed(
    grammar: Grammar,
    sets: &FirstSets,
    item: Item,
    set: TokenSet,
    aheads: &mut [u64; NonterminalString::LIMIT],
)
    requires { item.production < grammar.productions }
    ensures { (T : Table) → OfTable T grammar.entry.words.now grammar.entry.productions sets.now.terminals sets.now.map → aheads.new ≡ feed T aheads.old (drop item.index (production_in grammar.entry.words.now item.production).symbols) set.0 }
{
    if set.0 == 0 {
        return;
    }
    match item.cursor(grammar) {
        Some(Symbol::Nonterminal(at)) => {
            let nonterminal = at.0 as usize;
            let more = sets.first1(item.suffix(grammar), set);
            aheads[nonterminal] = TokenSet(aheads[nonterminal]).union(more).0;
        }
        Some(Symbol::Terminal(_)) => {}
        None => {}
    }
}

// By each item of the set that is closed.
fn feed_items(
    grammar: Grammar,
    sets: &FirstSets,
    kernel: &[u64; Item::LIMIT],
    aheads: &mut [u64; NonterminalString::LIMIT],
)
    ensures { (T : Table) → OfTable T grammar.entry.words.now grammar.entry.productions sets.now.terminals sets.now.map → aheads.new ≡ fed_by_items T kernel.now aheads.old (below (index_limit * grammar.entry.productions)) }
{
    let places = ProductionIndex::INDEXES * grammar.productions;
    for (place, &set) in kernel[..places].iter().enumerate() {
        feed(grammar, sets, Item::at(place), TokenSet(set), aheads);
    }
}

// By the first item of each production.
fn feed_firsts(grammar: Grammar, sets: &FirstSets, aheads: &mut [u64; NonterminalString::LIMIT])
    ensures { (T : Table) → OfTable T grammar.entry.words.now grammar.entry.productions sets.now.terminals sets.now.map → aheads.new ≡ fed_by_firsts T aheads.old (below grammar.entry.productions) }
{
    for production in 0..grammar.productions {
        let item = Item {
            production,
            index: 0,
        };
        let nonterminal = grammar.owner(production);
        let set = TokenSet(aheads[nonterminal]);
        feed(grammar, sets, item, set, aheads);
    }
}

// The lookaheads of each nonterminal's index-0 items: round after round until one changes nothing. Here and above, that grammar and sets are a table's (`Held`) is asked at each call: it names the table, and a ghost field's fact has one proof.
fn aheads_of(
    grammar: Grammar,
    sets: &FirstSets,
    kernel: &[u64; Item::LIMIT],
) -> [u64; NonterminalString::LIMIT]
    requires held { Held grammar.words.now grammar.productions sets.now.terminals sets.now.map }
    requires flat { Flat kernel.now }
    ensures { (T : Table) → OfTable T grammar.entry.words.now grammar.entry.productions sets.now.terminals sets.now.map → aheads T (take (index_limit * grammar.entry.productions) kernel.now) ≡ take (index_limit * grammar.entry.productions) kernel.now ++ result }
{
    let mut aheads = [0u64; NonterminalString::LIMIT];
    let mut changed = true;
    while changed {
        let before = aheads;
        feed_items(grammar, sets, kernel, &mut aheads);
        feed_firsts(grammar, sets, &mut aheads);
        changed = aheads != before;
    }
    aheads
}

// Each production's index-0 item gets its nonterminal's lookaheads besides its own.
fn spread(
    grammar: Grammar,
    aheads: &[u64; NonterminalString::LIMIT],
    state: &mut [u64; Item::LIMIT],
)
    requires { length state.old ≡ item_limit }
    ensures { state.new ≡ spread_in grammar.entry.words.now aheads.now state.old (below grammar.entry.productions) }
{
    for production in 0..grammar.productions {
        let first = Item {
            production,
            index: 0,
        };
        let place = first.place();
        let ahead = TokenSet(aheads[grammar.owner(production)]);
        state[place] = TokenSet(state[place]).union(ahead).0;
    }
}

// closure(I) in place.
pub fn transitive_closure(grammar: Grammar, sets: &FirstSets, state: &mut [u64; Item::LIMIT])
    requires held { Held grammar.words.now grammar.productions sets.now.terminals sets.now.map }
    requires flat { Flat state.old }
    ensures { (length state.new ≡ item_limit) × ((T : Table) → OfTable T grammar.entry.words.now grammar.entry.productions sets.now.terminals sets.now.map → state.new ≡ closure T (take (index_limit * grammar.entry.productions) state.old) ++ drop (index_limit * grammar.entry.productions) state.old) }
{
    let aheads = aheads_of(grammar, sets, state);
    spread(grammar, &aheads, state);
}
