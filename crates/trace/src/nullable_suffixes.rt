// Which items have a nullable suffix, asked once for all of a trace (lr1/trace/reduce; docs/RULES.md, "Tracing").
ghost use Rattle.std.specs.Prelude.{◌≡◌, ◌+◌, ◌*◌, ◌<◌, ◌≤◌, length};
ghost use Rattle.lr1_base.specs.repr.Sizes.{index_limit, item_flags};
ghost use Rattle.lr1_base.specs.repr.Meaning as meaning-of;
ghost use Rattle.lr1_base.specs.repr.Listed.{listed};
ghost use Rattle.lr1_base.specs.repr.Packed.{symbol_words, productions_in};
ghost use Rattle.first.specs.First.{sets_of_first, nullable};
ghost use Rattle.trace.specs.Traced.{suffix_of};
ghost use Rattle.trace.specs.Edges.{item_at};
ghost use Rattle.trace.specs.Ends.{EndsTo, Ends};

use first::FirstSets;
use lr1_base::bits::put;
use lr1_base::item::Item;
use lr1_base::repr::Grammar;

// Whether an item's suffix may derive the empty string. That the sets are the grammar's is asked here and below: sets hold no grammar, and a struct of both would be made for this one pass.
fn item_ends(grammar: Grammar, sets: &FirstSets, item: Item) -> bool
    requires map_value { sets.now.map ≡ sets_of_first sets.now.terminals (productions_in grammar.words.now grammar.productions) }
    requires within { (item.production < grammar.productions) × (item.index ≤ length (listed (symbol_words grammar.words.now item.production))) }
    ensures { (T : meaning-of.Table) → T.productions ≡ productions_in grammar.entry.words.now grammar.entry.productions → T.terminals ≡ sets.now.terminals → result ≡ nullable T (suffix_of T (item_at item.production item.index)) }
{
    let rest = item.suffix(grammar);
    sets.first0(rest).nullable
}

// The flags of one production's items.
fn production_ends(grammar: Grammar, sets: &FirstSets, ends: &mut [u64], production: usize)
    requires map_value { sets.now.map ≡ sets_of_first sets.now.terminals (productions_in grammar.words.now grammar.productions) }
    requires production_lt_productions { (production < grammar.productions) × (length ends.old ≡ item_flags) }
    ensures { (T : meaning-of.Table) → T.productions ≡ productions_in grammar.entry.words.now grammar.entry.productions → T.terminals ≡ sets.now.terminals → EndsTo T ends.old (production * index_limit) → EndsTo T ends.new ((production + 1) * index_limit) }
{
    for index in 0..=grammar.length(production) {
        let item = Item { production, index };
        if item_ends(grammar, sets, item) {
            put(ends, item.place());
        }
    }
}

// The flags of all items, made once: tracing asks for each item that it meets whether its suffix is nullable.
pub fn suffix_ends(grammar: Grammar, sets: &FirstSets) -> [u64; Item::FLAG_WORDS]
    requires map_value { sets.now.map ≡ sets_of_first sets.now.terminals (productions_in grammar.words.now grammar.productions) }
    ensures { (T : meaning-of.Table) → T.productions ≡ productions_in grammar.entry.words.now grammar.entry.productions → T.terminals ≡ sets.now.terminals → Ends T result }
{
    let mut ends = [0u64; Item::FLAG_WORDS];
    for production in 0..grammar.productions {
        production_ends(grammar, sets, &mut ends, production);
    }
    ends
}
