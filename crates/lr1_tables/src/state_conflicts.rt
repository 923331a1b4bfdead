// The conflicts of a state that stands flat: the tokens that each production's complete item reduces with (specs/state_conflicts/Reductions), the terminals that are shifted,
// how many conflicts there are (specs/state_conflicts/Clashed).

ghost use Rattle.std.specs.Prelude.{◌≡◌, ℕ, ◌+◌, ◌-◌, ◌*◌, ◌<◌, ◌≤◌, ◌&&◌, ◌||◌, List, length, take, nat_lt, slice_index};
ghost use Rattle.lr1_base.specs.repr.Sizes.{index_limit, production_limit};
ghost use Rattle.lr1_base.specs.repr.Meaning.{Table};
ghost use Rattle.lr1_base.specs.repr.Lists.{up_from, below, joined};
ghost use Rattle.lr1_base.specs.lookahead.Tokens.{has, meet};
ghost use Rattle.lr1_states.specs.canonical.States.{reduces, clashes};
ghost use Rattle.lr1_states.specs.closure.Grammar.{OfTable};
ghost use Rattle.lr1_states.specs.closure.Fed.{Flat};
ghost use Rattle.lr1_tables.specs.state_conflicts.Clashes.{Shifted};
ghost use Rattle.lr1_tables.specs.state_conflicts.Reductions.{ReducedAs};
ghost use Rattle.lr1_tables.specs.state_conflicts.Clashed.{shifts_at, pairs_in, clashes_in};

use lr1_base::item::Item;
use lr1_base::lookahead::TokenSet;
use lr1_base::repr::{Grammar, ProductionIndex, Symbol};

// Of one production. Of which table the grammar is, and that the state stands flat, is said at each call, here and in conflict_words: the first chooses the table, and a ghost field's fact has one proof; of the second module closure of lr1_states says why.
fn reduction(grammar: Grammar, state: &[u64; Item::LIMIT], production: usize) -> TokenSet
    requires { production < grammar.productions }
    ensures { (T : Table) (terminals : ℕ) (sets : List ℕ) → OfTable T grammar.entry.words.now grammar.entry.productions terminals sets → result.0 ≡ reduces T (take (index_limit * grammar.entry.productions) state.now) production }
{
    let item = Item {
        production,
        index: grammar.length(production),
    };
    TokenSet(state[item.place()])
}

// Of all.
pub fn reductions(grammar: Grammar, state: &[u64; Item::LIMIT]) -> [u64; ProductionIndex::LIMIT]
    ensures { (length result ≡ production_limit) × ((T : Table) (terminals : ℕ) (sets : List ℕ) → OfTable T grammar.entry.words.now grammar.entry.productions terminals sets → ReducedAs T grammar.entry.productions state.now result grammar.entry.productions) }
{
    let mut map = [0u64; ProductionIndex::LIMIT];
    for production in 0..grammar.productions {
        map[production] = reduction(grammar, state, production).0;
    }
    map
}

// The terminal at the cursor of one item, if it has a token, put into the set.
fn shift_one(grammar: Grammar, place: usize, tokens: TokenSet, set: TokenSet) -> TokenSet
    requires { place < index_limit * grammar.productions }
    ensures { (t : ℕ) → has result.0 t ≡ has set.0 t || (nat_lt t 63 && shifts_at grammar.entry.words.now tokens.0 place t) }
{
    if tokens.0 == 0 {
        return set;
    }
    match Item::at(place).cursor(grammar) {
        Some(Symbol::Terminal(terminal)) => set.with(terminal),
        Some(Symbol::Nonterminal(_)) => set,
        None => set,
    }
}

// The terminals that the state shifts. (No `fold`: that a place is below those of the grammar is known of the loop, and a closure would have to ask it.)
pub fn shift_set(grammar: Grammar, state: &[u64; Item::LIMIT]) -> TokenSet
    requires flat { Flat state.now }
    ensures { (T : Table) (terminals : ℕ) (sets : List ℕ) → OfTable T grammar.entry.words.now grammar.entry.productions terminals sets → Shifted T (take (index_limit * grammar.entry.productions) state.now) result.0 }
{
    let places = ProductionIndex::INDEXES * grammar.productions;
    let mut set = TokenSet::new();
    for (place, &tokens) in state[..places].iter().enumerate() {
        set = shift_one(grammar, place, TokenSet(tokens), set);
    }
    set
}

// What a state does by token: the tokens that each production's complete item reduces with, as specs/state_conflicts/Reductions lists them, the terminals that are shifted. Which production is asked is a number, as `Grammar` says of its own.
// Room for every production that a table may have, and how many it has: there is no heap.
#[derive(Clone, Copy)]
pub struct Actions {
    pub reductions: [u64; ProductionIndex::LIMIT],
    pub shifts: TokenSet,
    pub productions: usize,
    pub ghost few: { productions ≤ production_limit },
}

impl Actions {
    // Words of a conflict, as the list of conflicts has them.
    pub const CONFLICT_WORDS: usize = 5;

    // Of a state that stands flat.
    pub fn new(grammar: Grammar, state: &[u64; Item::LIMIT]) -> Actions
        requires flat { Flat state.now }
        ensures productions { result.productions ≡ grammar.entry.productions }
        ensures reductions { (T : Table) (terminals : ℕ) (sets : List ℕ) → OfTable T grammar.entry.words.now grammar.entry.productions terminals sets → ReducedAs T grammar.entry.productions state.now result.reductions grammar.entry.productions }
        ensures shifts { (T : Table) (terminals : ℕ) (sets : List ℕ) → OfTable T grammar.entry.words.now grammar.entry.productions terminals sets → Shifted T (take (index_limit * grammar.entry.productions) state.now) result.shifts.0 }
    {
        Actions {
            reductions: reductions(grammar, state),
            shifts: shift_set(grammar, state),
            productions: grammar.productions,
        }
    }

    // The tokens that both productions reduce with.
    pub fn common(&self, production: usize, other: usize) -> TokenSet
        requires { (production < production_limit) × (other < production_limit) }
        ensures { result.0 ≡ meet (slice_index self.now.reductions production) (slice_index self.now.reductions other) }
    {
        TokenSet(self.reductions[production]).intersection(TokenSet(self.reductions[other]))
    }

    // The tokens of a production that are shifted too.
    pub fn shifts_of(&self, production: usize) -> TokenSet
        requires { production < production_limit }
        ensures { result.0 ≡ meet (slice_index self.now.reductions production) self.now.shifts.0 }
    {
        TokenSet(self.reductions[production]).intersection(self.shifts)
    }

    // How many conflicts a production has with the higher ones.
    fn count_pairs(&self, production: usize) -> usize
        requires { production < self.now.productions }
        ensures { (result ≡ length (pairs_in self.now.reductions production (up_from (production + 1) (self.now.productions - (production + 1))))) × (result ≤ 8192) }
    {
        (production + 1..self.productions)
            .map(|other| self.common(production, other).len())
            .sum()
    }

    // How many conflicts a production has with what is shifted and with the higher ones.
    fn count_of(&self, production: usize) -> usize
        requires { production < self.now.productions }
        ensures { (result ≡ length (clashes_in self.now.reductions self.now.shifts.0 self.now.productions production)) × (result ≤ 8256) }
    {
        self.shifts_of(production).len() + self.count_pairs(production)
    }

    // How many there are.
    fn count(&self) -> usize
        ensures { (result ≡ length (joined (clashes_in self.now.reductions self.now.shifts.0 self.now.productions) (below self.now.productions))) × (result ≤ 1056768) }
    {
        (0..self.productions)
            .map(|production| self.count_of(production))
            .sum()
    }
}

// The conflicts of the state.
pub fn count_state(grammar: Grammar, state: &[u64; Item::LIMIT]) -> usize
    requires flat { Flat state.now }
    ensures { (result ≤ 1056768) × ((T : Table) (terminals : ℕ) (sets : List ℕ) → OfTable T grammar.entry.words.now grammar.entry.productions terminals sets → result ≡ length (clashes T (take (index_limit * grammar.entry.productions) state.now))) }
{
    Actions::new(grammar, state).count()
}
