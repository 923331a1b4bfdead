// How many of the nonterminals' chains hold each production, as far as two.
ghost use Rattle.std.specs.Prelude.{◌≡◌, ◌+◌, ◌<◌, replicate};
ghost use Rattle.table.specs.Words.{production_area, word_at};
ghost use Rattle.table.specs.Decoded.{production_chain};
ghost use Rattle.table_check.specs.Marks.{Held};
ghost use Rattle.table_check.specs.Known.{bump};

use crate::areas::Surveyed;
use lr1_base::repr::ProductionIndex;

// One more for each production in the chain of nonterminal n, as far as two.
fn hold_chain(s: Surveyed, n: usize, held: &mut [u8; ProductionIndex::LIMIT])
    requires n_bound { n < word_at s.words.now 0 0 }
    ensures { held.new ≡ bump (production_area s.entry.words.now) held.old (production_chain s.entry.words.now n) }
{
    for r in s.chain(s.productions(), 1 + n, 0) {
        let p = r - s.areas.productions_at;
        held[p] = held[p].min(1) + 1;
    }
}

// The chains of all nonterminals.
pub fn hold(s: Surveyed, held: &mut [u8; ProductionIndex::LIMIT])
    requires held_value { held.old ≡ replicate 128 0 }
    ensures { Held s.entry.words.now held.new }
{
    let count = s.areas.counts.nonterminals;
    for n in 0..count {
        hold_chain(s, n, held);
    }
}
