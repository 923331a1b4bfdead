// The lowest of rows 3 to 8 against which one record offends, by what the record is.
ghost use Rattle.std.specs.Prelude.{false, ◌≡◌, ◌<◌, ◌≤◌};
ghost use Rattle.table_check.specs.Rows.{number_of_fault};
ghost use Rattle.table_check.specs.Faults.{fault_at, index_bad, fault_of_nonterminal, fault_of_state, fault_of_production, fault_of_loose};

use crate::areas::Record;
use crate::loose::Roles;
use lr1_base::repr::ProductionIndex;

// The refusals that speak of one record, in their order.
#[derive(Clone, Copy, PartialEq, Eq, PartialOrd, Ord)]
pub enum Row {
    Chain = 3,
    Owner = 4,
    TooLong = 5,
    Symbol = 6,
    Target = 7,
    Spare = 8,
}

impl<'a> Record<'a> {
    // Rows 3 and 8: first production, then three spare words.
    #[tactic(auto, unfolding(crate::specs::Faults::fault_of_nonterminal, crate::specs::Faults::choose))]
    fn nonterminal_fault(self) -> Option<Row>
        ensures { number_of_fault result ≡ fault_of_nonterminal self.entry.gathered.surveyed.words.now self.entry.r }
    {
        if self.gathered.surveyed.bad_production_index(self.r, 0) {
            return Some(Row::Chain);
        }
        if self.used(1) || self.used(2) || self.used(3) {
            return Some(Row::Spare);
        }
        None
    }

    // Rows 3 and 8: first item, first edge, two spare words.
    #[tactic(auto, unfolding(crate::specs::Faults::fault_of_state, crate::specs::Faults::choose))]
    fn state_fault(self) -> Option<Row>
        ensures { number_of_fault result ≡ fault_of_state self.entry.gathered.surveyed.words.now self.entry.r }
    {
        let s = self.gathered.surveyed;
        if s.bad_loose_index(self.r, 0) || s.bad_loose_index(self.r, 1) {
            return Some(Row::Chain);
        }
        if self.used(2) || self.used(3) {
            return Some(Row::Spare);
        }
        None
    }

    // Rows 3, 4 and 5: next production and first symbol, the chains that hold it, its length. Spans are free.
    fn production_fault(self) -> Option<Row>
        requires { (self.gathered.surveyed.areas.productions_at ≤ self.r) × (self.r < self.gathered.surveyed.areas.loose_at) }
        ensures { number_of_fault result ≡ fault_of_production self.entry.gathered.surveyed.words.now self.entry.r }
    {
        let g = self.gathered;
        let s = g.surveyed;
        if s.bad_production_index(self.r, 0) || s.bad_loose_index(self.r, 1) {
            return Some(Row::Chain);
        }
        let p = self.r - s.areas.productions_at;
        if g.held[p] != 1 {
            return Some(Row::Owner);
        }
        if g.lengths[p] as usize > ProductionIndex::SYMBOLS {
            return Some(Row::TooLong);
        }
        None
    }

    // Rows 6, 7 and 8, by what the record is reached as, where its next index is not against row 3; reached as nothing, it offends against none.
    #[tactic(auto, unfolding(crate::specs::Faults::fault_of_loose, crate::specs::Faults::choose))]
    pub fn loose_fault(self, roles: Roles) -> Option<Row>
        requires { index_bad self.gathered.surveyed.words.now self.r roles.symbol roles.item roles.edge ≡ false }
        ensures { number_of_fault result ≡ fault_of_loose self.entry.gathered.surveyed.words.now self.entry.r roles.symbol roles.item roles.edge }
    {
        if self.symbol_fault(roles) {
            return Some(Row::Symbol);
        }
        if self.range_fault(roles) {
            return Some(Row::Target);
        }
        if self.spare_fault(roles) {
            return Some(Row::Spare);
        }
        None
    }

    // The lowest row that a record before the loose ones meets.
    pub fn area_fault(self) -> Option<Row>
        requires { self.r < self.gathered.surveyed.areas.loose_at }
        ensures { number_of_fault result ≡ fault_at self.entry.gathered.surveyed.words.now self.entry.r }
    {
        let areas = self.gathered.surveyed.areas;
        match self.r {
            0 => None,
            r if r < areas.states_at => self.nonterminal_fault(),
            r if r < areas.productions_at => self.state_fault(),
            _ => self.production_fault(),
        }
    }
}
