//! The lines of a text, found once, and the line and column of each place.

ghost use Rattle.std.specs.Prelude.{◌≡◌, ◌≢◌, ℕ, ◌+◌, ◌-◌, ◌≤◌, ◌<◌, ◌==◌, length, take, count_by, slice_index, vec_len, IfOk};
ghost use Rattle.source.specs.Lines.{BeginsLine, newlines};

use std::alloc::{AllocError, Global};

/// A place in a text: its line and its column, in bytes, both from 1.
#[derive(Clone, Copy, Debug, PartialEq, Eq)]
pub struct Place {
    pub line: usize,
    pub column: usize,
}

/// A text, and where each of its lines begins.
#[derive(Drop)]
pub struct Lines<'a> {
    pub text: &'a [u8],
    pub starts: Vec<usize>,
    ghost begins: { (k : ℕ) → k < vec_len starts
        → BeginsLine text.now k (slice_index starts.items k) },
    ghost all: { vec_len starts ≡ 1 + newlines text.now },
}

impl<'a> Lines<'a> {
    /// Finds the lines of a text, in one pass over it.
    pub fn new(alloc: Global, text: &'a [u8]) -> Result<Lines<'a>, AllocError>
        ensures { IfOk result (λ r. r.text ≡ text.entry) }
    {
        let starts = starts_of(alloc, text)?;
        Ok(Lines { text, starts })
    }

    // The number of the line, from 0, that a byte is on.
    fn index_at(&self, at: usize) -> usize
        requires { at ≤ length self.now.text.now }
        ensures within { result < vec_len self.now.starts }
        ensures behind { slice_index self.now.starts.items result ≤ at }
        ensures before { result + 1 < vec_len self.now.starts
            → at < slice_index self.now.starts.items (result + 1) }
    {
        let mut low = 0;
        let mut high = self.starts.len();
        while high - low > 1 {
            let middle = low + (high - low) / 2;
            if self.starts[middle] <= at {
                low = middle;
            } else {
                high = middle;
            }
        }
        low
    }

    /// The place of the byte at `at`, or of the end of the text.
    pub fn place(&self, at: usize) -> Place
        requires { at ≤ length self.now.text.now }
        ensures line { result.line ≡ 1 + newlines (take at self.now.text.now) }
        // The line begins `column - 1` bytes before: no newline stands from there to the place,
        // and one stands right before, unless the text begins there.
        ensures within { (1 ≤ result.column) × (result.column ≤ at + 1) }
        ensures one_line { (k : ℕ) → at + 1 ≤ k + result.column → k < at
            → slice_index self.now.text.now k ≢ 10 }
        ensures begins { result.column < at + 1
            → slice_index self.now.text.now (at - result.column) ≡ 10 }
    {
        let index = self.index_at(at);
        Place {
            line: index + 1,
            column: at - self.starts[index] + 1,
        }
    }

    /// The line of this number, from 1, without its newline. It is empty where there is none.
    pub fn line(&self, number: usize) -> &'a [u8] {
        let Some(start) = self.starts.get(number.saturating_sub(1)).copied() else {
            return &[];
        };
        let end = match self.starts.get(number).copied() {
            Some(next) => next.saturating_sub(1),
            None => self.text.len(),
        };
        if start <= end && end <= self.text.len() {
            &self.text[start..end]
        } else {
            &[]
        }
    }
}

// Where the lines of a text begin.
fn starts_of(alloc: Global, text: &[u8]) -> Result<Vec<usize>, AllocError>
    ensures begins { IfOk result (λ v. (k : ℕ) → k < vec_len v
        → BeginsLine text.now k (slice_index v.items k)) }
    ensures all { IfOk result (λ v. vec_len v ≡ 1 + newlines text.now) }
{
    let mut starts = Vec::new(alloc);
    starts.push(0)?;
    for i in 0..text.len() {
        if text[i] == b'\n' {
            starts.push(i + 1)?;
        }
    }
    Ok(starts)
}
