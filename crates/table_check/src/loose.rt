// Rows 6, 7 and 8 of a loose record, by what it is reached as.
ghost use Rattle.std.specs.Prelude.{◌&&◌, ◌||◌, ◌≡◌, ◌<◌};
ghost use Rattle.table_check.specs.Faults.{symbol_bad, item_bad, range_bad, spare_bad};

use crate::areas::Record;
use lr1_base::repr::symbol_fits;

// The sorts of chains that reach a loose record: a set, since chains may share it.
#[derive(Clone, Copy)]
pub struct Roles {
    pub symbol: bool,
    pub item: bool,
    pub edge: bool,
}

impl Roles {
    // Whether any does.
    pub fn any(self) -> bool
        ensures { result ≡ (self.symbol || (self.item || self.edge)) }
    {
        self.symbol || self.item || self.edge
    }
}

impl<'a> Record<'a> {
    // Row 6: a symbol or an edge.
    #[tactic(auto, unfolding(crate::specs::Faults::symbol_bad))]
    pub fn symbol_fault(self, roles: Roles) -> bool
        ensures { result ≡ symbol_bad self.entry.gathered.surveyed.words.now self.entry.r roles.symbol roles.edge }
    {
        let areas = self.gathered.surveyed.areas;
        let kind = self.word(1);
        let number = self.word(2);
        (roles.symbol || roles.edge)
            && !symbol_fits(
                areas.counts.nonterminals,
                areas.counts.terminals,
                kind,
                number,
            )
    }

    // Row 7 of an item: its production, and its index against the production's length.
    #[tactic(auto, unfolding(crate::specs::Faults::item_bad))]
    fn item_fault(self) -> bool
        ensures { result ≡ item_bad self.entry.gathered.surveyed.words.now self.entry.r }
    {
        let g = self.gathered;
        let production = self.word(1);
        let index = self.word(2);
        production >= g.surveyed.areas.counts.productions
            || (g.lengths[production] as usize) < index
    }

    // Row 7: also the target of an edge.
    #[tactic(auto, unfolding(crate::specs::Faults::range_bad))]
    pub fn range_fault(self, roles: Roles) -> bool
        ensures { result ≡ range_bad self.entry.gathered.surveyed.words.now self.entry.r roles.item roles.edge }
    {
        let states = self.gathered.surveyed.areas.counts.states;
        (roles.item && self.item_fault()) || (roles.edge && states <= self.word(3))
    }

    // Row 8: a symbol or an item; an edge's fourth word is its target.
    #[tactic(auto, unfolding(crate::specs::Faults::spare_bad))]
    pub fn spare_fault(self, roles: Roles) -> bool
        ensures { result ≡ spare_bad self.entry.gathered.surveyed.words.now self.entry.r roles.symbol roles.item }
    {
        (roles.symbol || roles.item) && self.used(3)
    }
}
