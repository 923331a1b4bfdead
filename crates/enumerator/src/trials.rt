// Listing the examples of a trace graph (`PathEnumerator` and `FilteredPathEnumerator` of lr1/trace/trace_graph/mod.rs).

ghost use Rattle.std.specs.Prelude.{◌≡◌};
ghost use Rattle.enumerator.specs.trials.Advance.{number_of_advanced};

use lr1_base::item::Item;
use lr1_base::lookahead::TokenSet;
use lr1_base::repr::ProductionIndex;

pub mod machine;

// A listing: its start item, any lookahead, its count and whether it is open. What it has come to stands in the lent words. The count is asked after the end too, and C has the two apart, so they are no Option.
#[derive(Clone, Copy)]
pub struct Listing {
    pub production: ProductionIndex,
    pub index: u16,
    pub lookahead: Option<TokenSet>,
    pub count: u32,
    pub is_open: bool,
}

impl Listing {
    // Its start item.
    pub fn start(self) -> Item
        ensures { (result.production ≡ self.production.0) × (result.index ≡ self.index) }
    {
        Item::of(self.production, self.index)
    }
}

// What a call of `advance` that is not refused answers: an example is in its buffer and its number is the listing's count; or the end.
#[derive(Clone, Copy)]
pub enum Advanced {
    Example,
    End,
}

impl Advanced {
    // The end as a number, behind those by which a listing refuses.
    pub const END: u16 = 16;

    // Its number.
    #[tactic(auto, unfolding(crate::specs::trials::Advance::number_of_advanced))]
    pub fn number(self) -> u16
        ensures { result ≡ number_of_advanced self }
    {
        match self {
            Advanced::Example => 0,
            Advanced::End => Advanced::END,
        }
    }
}
