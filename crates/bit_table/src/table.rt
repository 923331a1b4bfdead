//! The table and what is done with its rows.

ghost use Rattle.std.specs.Prelude.{◌≡◌, ◌≢◌, ℕ, ◌+◌, ◌*◌, ◌/◌, ◌<◌, ◌≤◌, ◌↔◌, ◌⊎◌, IsTrue, IfOk, vec_len};
ghost use Rattle.std.specs.Bool.{OnTrue, OnFalse};
ghost use Rattle.bit_table.specs.Bits.{room};

use crate::words::{are_zero, clear, has_all, or_from, or_range, or_word};
use std::alloc::{AllocError, Global};

/// A table of bits.
#[derive(Debug, Drop)]
pub struct BitTable {
    pub words: Vec<u64>,
    pub width: usize,
    pub rows: usize,
    pub columns: usize,
    ghost sized: { vec_len words ≡ rows * width },
    ghost wide: { columns ≤ 64 * width },
}

impl BitTable {
    ghost use Rattle.bit_table.specs.Table.{Has, SameShape, KeepsBits};

    /// A table with no bit set.
    pub fn new(alloc: Global, rows: usize, columns: usize) -> Result<BitTable, AllocError>
        ensures rows { IfOk result (λ t. t.rows ≡ rows) }
        ensures columns { IfOk result (λ t. t.columns ≡ columns) }
        ensures empty { IfOk result (λ t. (r c : ℕ) → ¬ (Has t r c)) }
    {
        let width = columns / 64 + 1;
        let Some(len) = rows.checked_mul(width) else {
            return Err(AllocError);
        };
        let words = vec![in alloc; 0u64; len]?;
        Ok(BitTable {
            words,
            width,
            rows,
            columns,
        })
    }

    /// Whether a bit is set.
    pub fn contains(&self, row: usize, column: usize) -> bool
        requires row { row < self.now.rows }
        requires column { column < self.now.columns }
        ensures { IsTrue result ↔ Has self.now row column }
    {
        (self.words[row * self.width + column / 64] >> (column % 64)) & 1 == 1
    }

    /// Sets a bit, and says whether it was not set.
    pub fn insert(&mut self, row: usize, column: usize) -> bool
        requires row { row < self.old.rows }
        requires column { column < self.old.columns }
        ensures shape { SameShape self.old self.new }
        ensures keeps { KeepsBits self.old self.new }
        ensures adds { Has self.new row column }
        ensures only { (r c : ℕ) → Has self.new r c → Has self.old r c
            ⊎ ((r ≡ row) × (c ≡ column)) }
        ensures same { OnFalse result (KeepsBits self.new self.old) }
        ensures room { (room self.new.words.items ≤ room self.old.words.items)
            × OnTrue result (room self.new.words.items < room self.old.words.items) }
    {
        let at = row * self.width + column / 64;
        or_word(&mut self.words, at, 1 << (column % 64))
    }

    /// Sets what another row has, and says whether one of those bits was not set.
    pub fn add_row(&mut self, into: usize, from: usize) -> bool
        requires into { into < self.old.rows }
        requires from { from < self.old.rows }
        ensures shape { SameShape self.old self.new }
        ensures keeps { KeepsBits self.old self.new }
        ensures adds { (c : ℕ) → Has self.old from c → Has self.new into c }
        ensures only { (r c : ℕ) → Has self.new r c → Has self.old r c
            ⊎ ((r ≡ into) × Has self.old from c) }
        ensures same { OnFalse result (KeepsBits self.new self.old) }
        ensures room { (room self.new.words.items ≤ room self.old.words.items)
            × OnTrue result (room self.new.words.items < room self.old.words.items) }
    {
        if into == from {
            return false;
        }
        let width = self.width;
        or_range(&mut self.words, into * width, from * width, width)
    }

    /// Sets in a row what a row of another table has, and says whether one of those bits was not
    /// set.
    pub fn add_row_of(&mut self, into: usize, other: &BitTable, from: usize) -> bool
        requires into { into < self.old.rows }
        requires from { from < other.now.rows }
        requires columns { other.now.columns ≤ self.old.columns }
        ensures shape { SameShape self.old self.new }
        ensures keeps { KeepsBits self.old self.new }
        ensures adds { (c : ℕ) → Has other.now from c → Has self.new into c }
        ensures same { OnFalse result (KeepsBits self.new self.old) }
        ensures room { (room self.new.words.items ≤ room self.old.words.items)
            × OnTrue result (room self.new.words.items < room self.old.words.items) }
    {
        let width = self.width;
        let mut used = other.width;
        if width < used {
            used = width;
        }
        or_from(
            &mut self.words,
            into * width,
            other.words.as_slice(),
            from * other.width,
            used,
        )
    }

    /// Whether a row has all that a row of another table has.
    pub fn includes(&self, row: usize, other: &BitTable, from: usize) -> bool
        requires row { row < self.now.rows }
        requires from { from < other.now.rows }
        requires columns { other.now.columns ≤ self.now.columns }
        ensures { IsTrue result → (c : ℕ) → Has other.now from c → Has self.now row c }
    {
        let mut used = other.width;
        if self.width < used {
            used = self.width;
        }
        has_all(
            self.words.as_slice(),
            row * self.width,
            other.words.as_slice(),
            from * other.width,
            used,
        )
    }

    /// Whether a row has no bit set.
    pub fn is_empty_row(&self, row: usize) -> bool
        requires { row < self.now.rows }
        ensures { IsTrue result → (c : ℕ) → ¬ (Has self.now row c) }
    {
        are_zero(self.words.as_slice(), row * self.width, self.width)
    }

    /// Takes all bits of a row away.
    pub fn clear_row(&mut self, row: usize)
        requires { row < self.old.rows }
        ensures shape { SameShape self.old self.new }
        ensures empty { (c : ℕ) → ¬ (Has self.new row c) }
        ensures only { KeepsBits self.new self.old }
    {
        let width = self.width;
        clear(&mut self.words, row * width, width);
    }
}
