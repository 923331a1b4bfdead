// The deepest recursion that an accepted table can reach: each pair of 128 states and 32 nonterminals is entered. The reduce trace enters every one inside the one before:
// 4,096 pairs, 8,193 calls. A shift trace stays inside a state, so that no more than its 32 nest; here each of the 128 states is traced. Prints a trace a line: 0 and the
// number of edges, or the refusal and its place.
// Productions: 0, of nonterminal 0, is t0 N31; k from 1 to 31, of nonterminal k, is the nonterminal before; 32, of nonterminal 0, is t1 t0; 33 to 35, of nonterminal 0,
// are N31 16 times. Every state has the item of 0 behind t0, those of 1 to 31 at the beginning, and those of 33 to 35 up to index 14, which are more than the small
// arrays of a trace hold. t0 leads from each state to the next, t1 from all to the last.
#![tactic(auto)]

ghost use Rattle.std.specs.Prelude.{◌≡◌, ◌+◌, ◌*◌, ◌≤◌, ◌<◌};

use lr1::{backtrace_reduce, backtrace_shift};
use lr1_base::repr::{ProductionIndex, Refusal};
use state_graph::StateIndex;
use trace_graph::TraceGraph;

const RECORDS: usize = 453;

const WORDS: usize = RECORDS * 4;

// The words of a record. Four fields and no array, so that each bound names its word.
#[derive(Clone, Copy)]
struct Row(u16, u16, u16, u16);

// (Not by `put` of crate table, which takes numbers: here they are words.)
fn put(table: &mut [u16; WORDS], number: u16, row: Row)
    requires { number < 453 }
{
    let at = number as usize * 4;
    table[at..at + 4].copy_from_slice(&[row.0, row.1, row.2, row.3]);
}

// A row with a step added.
fn next_row(row: Row, step: Row) -> Row
    requires row_bound { (row.0 < 1000) × ((row.1 < 1000) × ((row.2 < 1000) × (row.3 < 1000))) }
    requires step_bound { (step.0 ≤ 1) × ((step.1 ≤ 1) × ((step.2 ≤ 1) × (step.3 ≤ 1))) }
    ensures { (result.0 ≤ row.0 + 1) × ((result.1 ≤ row.1 + 1) × ((result.2 ≤ row.2 + 1) × (result.3 ≤ row.3 + 1))) }
{
    Row(
        row.0 + step.0,
        row.1 + step.1,
        row.2 + step.2,
        row.3 + step.3,
    )
}

// Records one after another, each a step on from the one before.
fn put_rows(table: &mut [u16; WORDS], first: u16, count: u16, row: Row, step: Row)
    requires records { (count ≤ 128) × (first + count ≤ 453) }
    requires row_bound { (row.0 ≤ 500) × ((row.1 ≤ 500) × ((row.2 ≤ 500) × (row.3 ≤ 500))) }
    requires step_bound { (step.0 ≤ 1) × ((step.1 ≤ 1) × ((step.2 ≤ 1) × (step.3 ≤ 1))) }
{
    let mut words = row;
    for i in 0..count {
        put(table, first + i, words);
        words = next_row(words, step);
    }
}

// Record 0, nonterminals from 1, productions from 161.
fn put_productions(table: &mut [u16; WORDS]) {
    put(table, 0, Row(32, 2, 128, 36));
    put_rows(table, 1, 32, Row(161, 0, 0, 0), Row(1, 0, 0, 0));
    put(table, 161, Row(193, 197, 0, 0));
    put_rows(table, 162, 31, Row(0, 199, 0, 0), Row(0, 1, 0, 0));
    put(table, 193, Row(194, 230, 0, 0));
    put_rows(table, 194, 2, Row(195, 232, 0, 0), Row(1, 0, 0, 0));
    put(table, 196, Row(0, 232, 0, 0));
}

// Symbols from 197.
fn put_symbols(table: &mut [u16; WORDS]) {
    put(table, 197, Row(198, 1, 0, 0));
    put(table, 198, Row(0, 0, 31, 0));
    put_rows(table, 199, 31, Row(0, 0, 0, 0), Row(0, 0, 1, 0));
    put(table, 230, Row(231, 1, 1, 0));
    put(table, 231, Row(0, 1, 0, 0));
    put_rows(table, 232, 15, Row(233, 0, 31, 0), Row(1, 0, 0, 0));
    put(table, 247, Row(0, 0, 31, 0));
}

// Items from 248.
fn put_items(table: &mut [u16; WORDS]) {
    put(table, 248, Row(249, 0, 1, 0));
    put_rows(table, 249, 31, Row(250, 1, 0, 0), Row(1, 1, 0, 0));
    put_rows(table, 280, 15, Row(281, 33, 0, 0), Row(1, 0, 1, 0));
    put_rows(table, 295, 15, Row(296, 34, 0, 0), Row(1, 0, 1, 0));
    put_rows(table, 310, 14, Row(311, 35, 0, 0), Row(1, 0, 1, 0));
    put(table, 324, Row(0, 35, 14, 0));
}

// States from 33, edges from 325.
fn put_states(table: &mut [u16; WORDS]) {
    put_rows(table, 33, 128, Row(248, 325, 0, 0), Row(0, 1, 0, 0));
    put_rows(table, 325, 127, Row(452, 1, 0, 1), Row(0, 0, 0, 1));
    put(table, 452, Row(0, 1, 1, 127));
}

fn say<R: Print>(rt: &R, answer: Result<u16, Refusal>) {
    let _ = match answer {
        Ok(count) => println!(rt; "0 {count}"),
        Err(refusal) => println!(rt; "{refusal}"),
    };
}

fn main(rt: HostRuntime) {
    let mut table = [0u16; WORDS];
    let mut graph = [0u16; TraceGraph::WORDS];
    let mut scratch = [0u16; TraceGraph::SCRATCH];
    put_productions(&mut table);
    put_symbols(&mut table);
    put_items(&mut table);
    put_states(&mut table);
    say(
        &rt,
        backtrace_shift(
            &table,
            StateIndex(127),
            ProductionIndex(32),
            1,
            &mut graph,
            &mut scratch,
        ),
    );
    say(
        &rt,
        backtrace_reduce(
            &table,
            StateIndex(127),
            ProductionIndex(0),
            0,
            &mut graph,
            &mut scratch,
        ),
    );
}
