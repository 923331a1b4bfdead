// How many symbols each production has, as far as seventeen: one too many.
ghost use Rattle.std.specs.Prelude.{◌≡◌, ◌<◌, min, length};
ghost use Rattle.lr1_base.specs.repr.Sizes.{index_limit};
ghost use Rattle.table.specs.Words.{word_at};
ghost use Rattle.table.specs.Decoded.{symbol_chain};
ghost use Rattle.table_check.specs.Marks.{Lengths};

use crate::areas::Surveyed;
use lr1_base::repr::ProductionIndex;

// The symbols of production p. A shared chain costs at most seventeen steps a production.
fn symbol_count(s: Surveyed, p: usize) -> usize
    requires p_bound { p < word_at s.words.now 0 3 }
    ensures { result ≡ min index_limit (length (symbol_chain s.entry.words.now p)) }
{
    s.chain(s.loose(), s.areas.productions_at + p, 1)
        .take(ProductionIndex::INDEXES)
        .count()
}

// Those of all productions.
pub fn count(s: Surveyed, lengths: &mut [u8; ProductionIndex::LIMIT])
    ensures { Lengths s.entry.words.now lengths.new }
{
    let productions = s.areas.counts.productions;
    for p in 0..productions {
        lengths[p] = symbol_count(s, p) as u8;
    }
}
