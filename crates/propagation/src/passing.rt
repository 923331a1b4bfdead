//! Passing bits on along edges.

ghost use Rattle.std.specs.Prelude.{◌≡◌, ℕ, ◌+◌, ◌<◌, ◌≤◌, ◌↔◌, All, OnOk};
ghost use Rattle.std.specs.Bool.{OnTrue, OnFalse};
ghost use Rattle.bit_table.specs.Bits.{room};
ghost use Rattle.bit_table.specs.Table.{Has, SameShape, KeepsBits};
ghost use Rattle.bit_table.specs.declared.table.BitTable.{BitTable};
ghost use Rattle.propagation.specs.Edges.{EdgeFits, IsSound, IsClosed, ComesAlong};

use crate::outgoing::Outgoing;
use bit_table::BitTable;
use std::alloc::{AllocError, Global};
use std::collections::VecDeque;

/// What one row has, the other has too.
#[derive(Clone, Copy, Debug, PartialEq, Eq)]
pub struct Edge {
    pub from: usize,
    pub to: usize,
}

// Passes on along one edge, and answers the row that has something new.
fn pass(table: &mut BitTable, edges: &[Edge], number: usize) -> Option<usize>
    requires { All (EdgeFits table.old.rows) edges.now }
    ensures shape { SameShape table.old table.new }
    ensures keeps { KeepsBits table.old table.new }
    ensures sound { (start : BitTable) → IsSound start edges.now table.old
        → IsSound start edges.now table.new }
{
    if number >= edges.len() {
        return None;
    }
    let edge = edges[number];
    let passed = table.add_row(edge.to, edge.from);
    if passed { Some(edge.to) } else { None }
}

// The rows whose edges have something to pass on.
#[derive(Drop)]
struct Waiting {
    queue: VecDeque<usize>,
    waits: Vec<bool>,
}

impl Waiting {
    fn push(&mut self, row: usize) -> Result<(), AllocError> {
        if let Some(waits) = self.waits.get_mut(row) {
            if *waits {
                return Ok(());
            }
            *waits = true;
            self.queue.push_back(row)?;
        }
        Ok(())
    }

    fn pop(&mut self) -> Option<usize> {
        let row = self.queue.pop_front()?;
        if let Some(waits) = self.waits.get_mut(row) {
            *waits = false;
        }
        Some(row)
    }
}

// Passes on along the edges of one row, and lets the rows wait that have something new.
fn pass_from(
    table: &mut BitTable,
    edges: &[Edge],
    numbers: &[usize],
    waiting: &mut Waiting,
) -> Result<(), AllocError>
    requires { All (EdgeFits table.old.rows) edges.now }
    ensures shape { SameShape table.old table.new }
    ensures keeps { KeepsBits table.old table.new }
    ensures sound { (start : BitTable) → IsSound start edges.now table.old
        → IsSound start edges.now table.new }
{
    for number in numbers {
        if let Some(row) = pass(table, edges, *number) {
            waiting.push(row)?;
        }
    }
    Ok(())
}

// Passes on from each row, and again from those that have something new, until there are none.
fn spread(alloc: Global, table: &mut BitTable, edges: &[Edge]) -> Result<(), AllocError>
    requires { All (EdgeFits table.old.rows) edges.now }
    ensures shape { SameShape table.old table.new }
    ensures keeps { KeepsBits table.old table.new }
    ensures sound { (start : BitTable) → IsSound start edges.now table.old
        → IsSound start edges.now table.new }
{
    let outgoing = Outgoing::new(alloc, edges, table.rows)?;
    let mut waiting = Waiting {
        queue: VecDeque::new(alloc),
        waits: vec![in alloc; false; table.rows]?,
    };
    for row in 0..table.rows {
        waiting.push(row)?;
    }
    for _ in 0..usize::MAX {
        let Some(row) = waiting.pop() else {
            break;
        };
        pass_from(table, edges, outgoing.of(row), &mut waiting)?;
    }
    Ok(())
}

// Passes on along each edge once, and answers whether something was new.
fn round(table: &mut BitTable, edges: &[Edge]) -> bool
    requires { All (EdgeFits table.old.rows) edges.now }
    ensures shape { SameShape table.old table.new }
    ensures keeps { KeepsBits table.old table.new }
    ensures sound { (start : BitTable) → IsSound start edges.now table.old
        → IsSound start edges.now table.new }
    ensures closed { OnFalse result (IsClosed edges.now table.new) }
    ensures room { (room table.new.words.items ≤ room table.old.words.items)
        × OnTrue result (room table.new.words.items < room table.old.words.items) }
{
    let mut changed = false;
    for edge in edges {
        if table.add_row(edge.to, edge.from) {
            changed = true;
        }
    }
    changed
}

/// Passes on along the edges until nothing is new: a row then has what the rows had from which the
/// edges lead to it, and nothing else.
pub fn propagate(alloc: Global, table: &mut BitTable, edges: &[Edge]) -> Result<(), AllocError>
    requires { All (EdgeFits table.old.rows) edges.now }
    ensures shape { SameShape table.old table.new }
    ensures exact { OnOk result ((row column : ℕ)
        → Has table.new row column ↔ ComesAlong table.old edges.now row column) }
{
    spread(alloc, table, edges)?;
    // It leaves nothing to pass on, which this shows.
    while round(table, edges) {}
    Ok(())
}
