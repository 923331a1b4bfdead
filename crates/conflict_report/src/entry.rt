ghost use Rattle.std.specs.Prelude.{◌≡◌, ◌↔◌, ℕ, Contains, IfOk, map};
ghost use Rattle.automaton.specs.Alternatives.{AreAlternatives};
ghost use Rattle.conflict_report.specs.Entries.{AreTokensOf, AreStatesOf, IsWholeEntry};

use crate::decision::{Decision, Decisions};
use crate::group::start_of;
use crate::{Findings, Group, Spot};
use automaton::{Alternatives, Item, Other, Ways, items_reading};
use grammar::{Grammar, Symbol};
use std::alloc::{AllocError, Global};

/// An item with its dot before a token.
#[derive(Clone, Copy, Debug, PartialEq, Eq)]
pub struct Shifting {
    pub item: Item,
    pub token: usize,
}

/// What a parser of yacc does before some of the tokens of a conflict.
#[derive(Debug, Drop)]
pub struct Decided {
    pub decision: Decision,
    pub tokens: Vec<usize>,
}

/// All that is said of a pair of rules in conflict.
#[derive(Debug, Drop)]
pub struct Entry {
    pub group: Group,
    /// The tokens of the group, each once, ascending.
    pub tokens: Vec<usize>,
    /// The states of the group, each once, ascending.
    pub states: Vec<usize>,
    /// The items that shift the tokens, in the order of their places in the file; none for a
    /// conflict of two reductions.
    pub shifting: Vec<Shifting>,
    /// A shortest list of symbols that leads to one of the states.
    pub after: Vec<Symbol>,
    /// What the parser does; nothing for a conflict that is settled.
    pub decided: Vec<Decided>,
}

// The numbers of a list, each once, ascending.
fn each_once(mut numbers: Vec<usize>) -> Vec<usize>
    ensures { (n : ℕ) → Contains result.items n ↔ Contains numbers.items n }
{
    numbers.sort_unstable();
    numbers.dedup();
    numbers
}

fn all_tokens(alloc: Global, spots: &[Spot]) -> Result<Vec<usize>, AllocError>
    ensures { IfOk result (λ v. v.items ≡ map (λ s. s.token) spots.now) }
{
    spots.iter().map(|spot| spot.token).collect(alloc)
}

fn all_states(alloc: Global, spots: &[Spot]) -> Result<Vec<usize>, AllocError>
    ensures { IfOk result (λ v. v.items ≡ map (λ s. s.state) spots.now) }
{
    spots.iter().map(|spot| spot.state).collect(alloc)
}

fn tokens_of(alloc: Global, spots: &[Spot]) -> Result<Vec<usize>, AllocError>
    ensures { IfOk result (AreTokensOf spots.now) }
{
    let tokens = all_tokens(alloc, spots)?;
    Ok(each_once(tokens))
}

fn states_of(alloc: Global, spots: &[Spot]) -> Result<Vec<usize>, AllocError>
    ensures { IfOk result (AreStatesOf spots.now) }
{
    let states = all_states(alloc, spots)?;
    Ok(each_once(states))
}

// What the parser does at the spots, each decision with its tokens.
fn decided_at(
    alloc: Global,
    decisions: &Decisions,
    spots: &[Spot],
) -> Result<Vec<Decided>, AllocError> {
    let mut pairs: Vec<(Decision, usize)> = Vec::new(alloc);
    for spot in spots {
        if let Some(decision) = decisions.at(*spot) {
            pairs.push((decision, spot.token))?;
        }
    }
    pairs.sort_unstable();
    pairs.dedup();
    let mut list: Vec<Decided> = Vec::new(alloc);
    for (decision, token) in &pairs {
        let is_new = match list.last() {
            Some(last) => last.decision != *decision,
            None => true,
        };
        if is_new {
            list.push(Decided {
                decision: *decision,
                tokens: Vec::new(alloc),
            })?;
        }
        if let Some(last) = list.last_mut() {
            last.tokens.push(*token)?;
        }
    }
    Ok(list)
}

// Where an item stands in the file: its production and then its dot.
fn place_of(grammar: &Grammar, shifting: Shifting) -> (usize, usize, usize) {
    let production = shifting.item.production;
    (start_of(grammar, production), production, shifting.item.dot)
}

// The items that shift the tokens of a group in its states.
fn shifting_of(
    alloc: Global,
    findings: &Findings,
    alternatives: &Alternatives,
    spots: &[Spot],
) -> Result<Vec<Shifting>, AllocError>
    requires { AreAlternatives findings.now.grammar.now alternatives.now }
{
    let grammar = findings.grammar;
    let mut found = Vec::new(alloc);
    for spot in spots {
        let token = spot.token;
        let automaton = findings.automaton;
        let items = items_reading(alloc, grammar, alternatives, automaton, spot.state, token)?;
        for item in &items {
            found.push(Shifting { item: *item, token })?;
        }
    }
    found.sort_unstable_by_key(|shifting| place_of(grammar, *shifting));
    found.dedup();
    Ok(found)
}

// The shortest list of symbols that leads to one of the states.
fn shortest_way(
    alloc: Global,
    sources: &Sources,
    states: &[usize],
) -> Result<Vec<Symbol>, AllocError> {
    let mut shortest: Option<Vec<Symbol>> = None;
    for state in states {
        let automaton = sources.findings.automaton;
        let Some(way) = sources.ways.to(alloc, automaton, *state)? else {
            continue;
        };
        let is_shorter = match &shortest {
            Some(other) => way.len() < other.len(),
            None => true,
        };
        if is_shorter {
            shortest = Some(way);
        }
    }
    match shortest {
        Some(way) => Ok(way),
        None => Ok(Vec::new(alloc)),
    }
}

/// What groups are looked up in, to say more of them.
#[derive(Drop)]
pub struct Sources<'a> {
    pub alternatives: Alternatives,
    pub decisions: Decisions,
    pub ways: Ways,
    pub findings: &'a Findings<'a>,
}

/// What is said of a group.
pub fn entry_of(alloc: Global, sources: &Sources, group: Group) -> Result<Entry, AllocError>
    requires { AreAlternatives sources.now.findings.now.grammar.now sources.now.alternatives }
    ensures group { IfOk result (λ entry. entry.group ≡ group) }
    ensures whole { IfOk result IsWholeEntry }
{
    let tokens = tokens_of(alloc, group.spots.as_slice())?;
    let states = states_of(alloc, group.spots.as_slice())?;
    let shifting = match group.other {
        Other::Shift => shifting_of(
            alloc,
            sources.findings,
            &sources.alternatives,
            group.spots.as_slice(),
        )?,
        Other::Reduce(_) => Vec::new(alloc),
    };
    let after = shortest_way(alloc, sources, states.as_slice())?;
    let decided = decided_at(alloc, &sources.decisions, group.spots.as_slice())?;
    Ok(Entry {
        group,
        tokens,
        states,
        shifting,
        after,
        decided,
    })
}
