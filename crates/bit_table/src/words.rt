//! Bits in runs of words.

ghost use Rattle.std.specs.Prelude.{◌≡◌, ℕ, ◌+◌, ◌<◌, ◌≤◌, ◌⊎◌, IsTrue, length, slice_index};
ghost use Rattle.std.specs.Bool.{OnTrue, OnFalse};
ghost use Rattle.std.specs.Int.{bit_at};
ghost use Rattle.bit_table.specs.Bits.{IsOn, Keeps, room};

/// Sets the bits of the mask in the word at `i`, and says whether one of them was not set.
pub fn or_word(words: &mut [u64], i: usize, mask: u64) -> bool
    requires { i < length words.old }
    ensures keeps { Keeps words.old words.new }
    ensures adds { (b : ℕ) → bit_at mask b ≡ 1 → IsOn words.new i b }
    ensures only { (j b : ℕ) → IsOn words.new j b → IsOn words.old j b
        ⊎ ((j ≡ i) × (bit_at mask b ≡ 1)) }
    ensures same { OnFalse result (words.new ≡ words.old) }
    ensures less { OnTrue result (room words.new < room words.old) }
{
    let old = words[i];
    let new = old | mask;
    if new == old {
        return false;
    }
    words[i] = new;
    true
}

/// Sets what the words from `from` on have in those from `into` on, and says whether one of those
/// bits was not set.
pub fn or_range(words: &mut [u64], into: usize, from: usize, width: usize) -> bool
    requires into { into + width ≤ length words.old }
    requires from { from + width ≤ length words.old }
    requires apart { (into + width ≤ from) ⊎ (from + width ≤ into) }
    ensures keeps { Keeps words.old words.new }
    ensures adds { (k b : ℕ) → k < width → IsOn words.old (from + k) b
        → IsOn words.new (into + k) b }
    ensures only { (j b : ℕ) → IsOn words.new j b
        → IsOn words.old j b
        ⊎ ((k : ℕ) × (k < width) × (j ≡ into + k) × IsOn words.old (from + k) b) }
    ensures same { OnFalse result (words.new ≡ words.old) }
    ensures less { OnTrue result (room words.new < room words.old) }
{
    let mut changed = false;
    for k in 0..width {
        let mask = words[from + k];
        if or_word(words, into + k, mask) {
            changed = true;
        }
    }
    changed
}

/// Sets what other words have from `from` on in those from `into` on, and says whether one of those
/// bits was not set.
pub fn or_from(words: &mut [u64], into: usize, other: &[u64], from: usize, width: usize) -> bool
    requires into { into + width ≤ length words.old }
    requires from { from + width ≤ length other.now }
    ensures keeps { Keeps words.old words.new }
    ensures adds { (k b : ℕ) → k < width → IsOn other.now (from + k) b
        → IsOn words.new (into + k) b }
    ensures same { OnFalse result (words.new ≡ words.old) }
    ensures less { OnTrue result (room words.new < room words.old) }
{
    let mut changed = false;
    for k in 0..width {
        let mask = other[from + k];
        if or_word(words, into + k, mask) {
            changed = true;
        }
    }
    changed
}

/// Whether the words from `at` on have all that others have from `from` on.
pub fn has_all(words: &[u64], at: usize, other: &[u64], from: usize, width: usize) -> bool
    requires at { at + width ≤ length words.now }
    requires from { from + width ≤ length other.now }
    ensures { IsTrue result → (k b : ℕ) → k < width → IsOn other.now (from + k) b
        → IsOn words.now (at + k) b }
{
    for k in 0..width {
        let mine = words[at + k];
        let wanted = other[from + k];
        if mine | wanted != mine {
            return false;
        }
    }
    true
}

/// Whether the words from `at` on have no bit set.
pub fn are_zero(words: &[u64], at: usize, width: usize) -> bool
    requires { at + width ≤ length words.now }
    ensures { IsTrue result → (k : ℕ) → k < width → slice_index words.now (at + k) ≡ 0 }
{
    for k in 0..width {
        if words[at + k] != 0 {
            return false;
        }
    }
    true
}

/// Takes all bits of the words from `at` on away.
pub fn clear(words: &mut [u64], at: usize, width: usize)
    requires { at + width ≤ length words.old }
    ensures zero { (k : ℕ) → k < width → slice_index words.new (at + k) ≡ 0 }
    ensures only { Keeps words.new words.old }
{
    for k in 0..width {
        words[at + k] = 0;
    }
}
