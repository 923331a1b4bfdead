ghost use Rattle.std.specs.Prelude.{◌≡◌, ◌↔◌, ◌<◌, ◌≤◌, ◌+◌, ◌∷◌, take, IsTrue, IsPermutation, IfOk, vec_len, length};
ghost use Rattle.std.specs.List.{flat_map};
ghost use Rattle.conflict_report.specs.Groups.{conflicts_at, AreGroupsOf};

use automaton::{Conflict, Other, Resolution, Resolved};
use grammar::Grammar;
use std::alloc::{AllocError, Global};

/// A state of the parser, and a token before which it is in conflict.
#[derive(Clone, Copy, Debug, PartialEq, Eq, Hash)]
pub struct Spot {
    pub state: usize,
    pub token: usize,
}

/// A production that may be reduced, what else may be done, how that comes out, and each state and
/// token where it is so.
#[derive(Debug, Drop)]
pub struct Group {
    pub production: usize,
    pub other: Other,
    pub resolution: Resolution,
    pub spots: Vec<Spot>,
}

// What conflicts are sorted by: the place of the first of both rules, then the rules and how it
// comes out, then the token.
#[derive(Clone, Copy, Debug, PartialEq, Eq, PartialOrd, Ord)]
struct Key {
    start: usize,
    production: usize,
    other: usize,
    resolution: usize,
    token: usize,
    state: usize,
}

fn is_same_other(a: Other, b: Other) -> bool
    ensures { IsTrue result ↔ (a ≡ b) }
{
    a == b
}

fn is_same_resolution(a: Resolution, b: Resolution) -> bool
    ensures { IsTrue result ↔ (a ≡ b) }
{
    a == b
}

// Whether two conflicts are of one pair and come out alike.
fn is_alike(one: Resolved, other: Resolved) -> bool
    ensures { IsTrue result ↔ ((one.conflict.production ≡ other.conflict.production)
        × (one.conflict.other ≡ other.conflict.other) × (one.resolution ≡ other.resolution)) }
{
    one.conflict.production == other.conflict.production
        && is_same_other(one.conflict.other, other.conflict.other)
        && is_same_resolution(one.resolution, other.resolution)
}

/// Where a production begins in the file; 0 where it stands in none.
pub fn start_of(grammar: &Grammar, production: usize) -> usize {
    match grammar.productions.get(production) {
        Some(production) => production.span.start,
        None => 0,
    }
}

fn rank_of(resolution: Resolution) -> usize {
    match resolution {
        Resolution::Open => 0,
        Resolution::ReductionKept => 1,
        Resolution::ShiftKept => 2,
        Resolution::NeitherKept => 3,
        Resolution::ShiftGone(q) | Resolution::ReductionGone(q) => q.saturating_add(4),
    }
}

fn key_of(grammar: &Grammar, resolved: Resolved) -> Key {
    let Conflict {
        state,
        token,
        production,
        other,
    } = resolved.conflict;
    let start = start_of(grammar, production);
    let (start, other) = match other {
        Other::Shift => (start, 0),
        Other::Reduce(q) => (start.min(start_of(grammar, q)), q.saturating_add(1)),
    };
    Key {
        start,
        production,
        other,
        resolution: rank_of(resolved.resolution),
        token,
        state,
    }
}

fn spot_of(conflict: Conflict) -> Spot
    ensures { result ≡ record { state = conflict.state; token = conflict.token } }
{
    Spot {
        state: conflict.state,
        token: conflict.token,
    }
}

// The group of a conflict and of those directly behind it that are of the same pair and come out
// alike.
fn group_of(alloc: Global, first: Resolved, behind: &[Resolved]) -> Result<Group, AllocError>
    ensures some { IfOk result (λ group. 0 < vec_len group.spots) }
    ensures within { IfOk result (λ group. vec_len group.spots ≤ length behind.now + 1) }
    ensures front { IfOk result (λ group.
        conflicts_at group ≡ take (vec_len group.spots) (first ∷ behind.now)) }
{
    let mut spots = Vec::new(alloc);
    spots.push(spot_of(first.conflict))?;
    for resolved in behind {
        if !is_alike(*resolved, first) {
            break;
        }
        spots.push(spot_of(resolved.conflict))?;
    }
    Ok(Group {
        production: first.conflict.production,
        other: first.conflict.other,
        resolution: first.resolution,
        spots,
    })
}

// Each run of conflicts of one pair as a group.
fn groups_of(alloc: Global, conflicts: &[Resolved]) -> Result<Vec<Group>, AllocError>
    ensures { IfOk result (λ groups. flat_map conflicts_at groups.items ≡ conflicts.now) }
{
    let mut groups = Vec::new(alloc);
    let mut at = 0;
    while at < conflicts.len() {
        let group = group_of(alloc, conflicts[at], &conflicts[at + 1..])?;
        at += group.spots.len();
        groups.push(group)?;
    }
    Ok(groups)
}

// Each conflict as a group.
fn singles_of(alloc: Global, conflicts: &[Resolved]) -> Result<Vec<Group>, AllocError>
    ensures { IfOk result (λ groups. flat_map conflicts_at groups.items ≡ conflicts.now) }
{
    let mut groups = Vec::new(alloc);
    for resolved in conflicts {
        groups.push(group_of(alloc, *resolved, &[])?)?;
    }
    Ok(groups)
}

// The conflicts in the order of their rules' places in the file.
fn in_order(
    alloc: Global,
    grammar: &Grammar,
    conflicts: &[Resolved],
) -> Result<Vec<Resolved>, AllocError>
    ensures { IfOk result (λ sorted. IsPermutation conflicts.now sorted.items) }
{
    let mut sorted = conflicts.to_vec(alloc)?;
    sorted.sort_unstable_by_key(|resolved| key_of(grammar, *resolved));
    Ok(sorted)
}

/// The conflicts by pairs: a production with the shifts, or two productions, with all states and
/// tokens where they come out alike. The groups are in the order of their places in the file.
pub fn by_rules(
    alloc: Global,
    grammar: &Grammar,
    conflicts: &[Resolved],
) -> Result<Vec<Group>, AllocError>
    ensures { IfOk result (λ groups. AreGroupsOf conflicts.now groups.items) }
{
    let sorted = in_order(alloc, grammar, conflicts)?;
    groups_of(alloc, sorted.as_slice())
}

/// The conflicts one by one, in the order of their places in the file: a group for each.
pub fn one_by_one(
    alloc: Global,
    grammar: &Grammar,
    conflicts: &[Resolved],
) -> Result<Vec<Group>, AllocError>
    ensures { IfOk result (λ groups. AreGroupsOf conflicts.now groups.items) }
{
    let sorted = in_order(alloc, grammar, conflicts)?;
    singles_of(alloc, sorted.as_slice())
}
