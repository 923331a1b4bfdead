// The conflicts of a state in words, five each (`clash_words` of specs/canonical/Built of lr1_states), one behind the other from a place of the list on.

ghost use Rattle.std.specs.Prelude.{◌≡◌, ℕ, ◌+◌, ◌-◌, ◌*◌, ◌<◌, ◌≤◌, List, length, take};
ghost use Rattle.lr1_base.specs.repr.Sizes.{index_limit, state_limit};
ghost use Rattle.lr1_base.specs.repr.Lists.{up_from, below, joined};
ghost use Rattle.lr1_base.specs.repr.Meaning.{Table};
ghost use Rattle.lr1_base.specs.lookahead.Tokens.{members};
ghost use Rattle.lr1_base.specs.words.Insert.{put_at};
ghost use Rattle.lr1_states.specs.canonical.States.{clashes};
ghost use Rattle.lr1_states.specs.canonical.Built.{clash_words};
ghost use Rattle.lr1_states.specs.closure.Grammar.{OfTable};
ghost use Rattle.lr1_states.specs.closure.Fed.{Flat};
ghost use Rattle.lr1_tables.specs.state_conflicts.Clashed.{pairs_in, clashes_in};
ghost use Rattle.lr1_tables.specs.conflict_words.Tokens.{token_words};

use crate::state_conflicts::Actions;
use lr1_base::item::Item;
use lr1_base::lookahead::TokenSet;
use lr1_base::repr::Grammar;

// What is done with a token besides reducing, as the Rust's `Action`: it is shifted, or another production is reduced.
#[derive(Clone, Copy)]
pub enum Action {
    Shift,
    Reduce(u16),
}

// A conflict without its token.
#[derive(Clone, Copy)]
pub struct Pair {
    pub state: u16,
    pub production: u16,
    pub action: Action,
}

impl Pair {
    // The words of the conflict on a token: a shift is of the token itself.
    fn words(self, token: u16) -> [u16; Actions::CONFLICT_WORDS]
        ensures { result ≡ token_words self token }
    {
        match self.action {
            Action::Shift => [self.state, self.production, 0, token, token],
            Action::Reduce(other) => [self.state, self.production, 1, other, token],
        }
    }
}

// Here and below the list and a place are lent, and the place behind what was written comes back: a struct of both would say the same of fields behind a `&mut`.
fn write_one(list: &mut [u16], at: usize, pair: Pair, token: u16)
    requires { at + 5 ≤ length list.old }
    ensures { list.new ≡ put_at at (token_words pair token) list.old }
{
    list[at..at + Actions::CONFLICT_WORDS].copy_from_slice(&pair.words(token));
}

// One for each token of the set; the place behind them.
fn write_tokens(list: &mut [u16], at: usize, pair: Pair, set: TokenSet) -> usize
    requires { at + length (joined (token_words pair) (members set.0)) ≤ length list.old }
    ensures { (list.new ≡ put_at at (joined (token_words pair) (members set.0)) list.old) × (result ≡ at + length (joined (token_words pair) (members set.0))) }
{
    let mut place = at;
    for token in set.iter() {
        write_one(list, place, pair, token);
        place += Actions::CONFLICT_WORDS;
    }
    place
}

// Those of a production with the higher ones.
fn write_pairs(
    list: &mut [u16],
    at: usize,
    actions: &Actions,
    state: u16,
    production: usize,
) -> usize
    requires production_lt_productions { production < actions.now.productions }
    requires production_in_bounds { at + length (joined (clash_words state) (pairs_in actions.now.reductions production (up_from (production + 1) (actions.now.productions - (production + 1))))) ≤ length list.old }
    ensures { (list.new ≡ put_at at (joined (clash_words state) (pairs_in actions.now.reductions production (up_from (production + 1) (actions.now.productions - (production + 1))))) list.old) × (result ≡ at + length (joined (clash_words state) (pairs_in actions.now.reductions production (up_from (production + 1) (actions.now.productions - (production + 1)))))) }
{
    let mut place = at;
    for other in production + 1..actions.productions {
        let pair = Pair {
            state,
            production: production as u16,
            action: Action::Reduce(other as u16),
        };
        place = write_tokens(list, place, pair, actions.common(production, other));
    }
    place
}

// All of a production.
fn write_production(
    list: &mut [u16],
    at: usize,
    actions: &Actions,
    state: u16,
    production: usize,
) -> usize
    requires production_lt_productions { production < actions.now.productions }
    requires production_in_bounds { at + length (joined (clash_words state) (clashes_in actions.now.reductions actions.now.shifts.0 actions.now.productions production)) ≤ length list.old }
    ensures { (list.new ≡ put_at at (joined (clash_words state) (clashes_in actions.now.reductions actions.now.shifts.0 actions.now.productions production)) list.old) × (result ≡ at + length (joined (clash_words state) (clashes_in actions.now.reductions actions.now.shifts.0 actions.now.productions production))) }
{
    let pair = Pair {
        state,
        production: production as u16,
        action: Action::Shift,
    };
    let place = write_tokens(list, at, pair, actions.shifts_of(production));
    write_pairs(list, place, actions, state, production)
}

// All of the state's productions.
fn write_actions(list: &mut [u16], at: usize, actions: &Actions, state: u16) -> usize
    requires { at + length (joined (clash_words state) (joined (clashes_in actions.now.reductions actions.now.shifts.0 actions.now.productions) (below actions.now.productions))) ≤ length list.old }
    ensures { (list.new ≡ put_at at (joined (clash_words state) (joined (clashes_in actions.now.reductions actions.now.shifts.0 actions.now.productions) (below actions.now.productions))) list.old) × (result ≡ at + length (joined (clash_words state) (joined (clashes_in actions.now.reductions actions.now.shifts.0 actions.now.productions) (below actions.now.productions)))) }
{
    let mut place = at;
    for production in 0..actions.productions {
        place = write_production(list, place, actions, state, production);
    }
    place
}

// The conflicts of state `number`, which stands flat.
pub fn write_state(
    grammar: Grammar,
    state: &[u64; Item::LIMIT],
    number: usize,
    list: &mut [u16],
    at: usize,
) -> usize
    requires flat { Flat state.now × (number < state_limit) }
    requires by_index { (T : Table) × (terminals : ℕ) × (sets : List ℕ) × OfTable T grammar.words.now grammar.productions terminals sets × (at + length (joined (clash_words number) (clashes T (take (index_limit * grammar.productions) state.now))) ≤ length list.old) }
    ensures { (T : Table) (terminals : ℕ) (sets : List ℕ) → OfTable T grammar.entry.words.now grammar.entry.productions terminals sets → (list.new ≡ put_at at (joined (clash_words number) (clashes T (take (index_limit * grammar.entry.productions) state.now))) list.old) × (result ≡ at + length (joined (clash_words number) (clashes T (take (index_limit * grammar.entry.productions) state.now)))) }
{
    let actions = Actions::new(grammar, state);
    write_actions(list, at, &actions, number as u16)
}
