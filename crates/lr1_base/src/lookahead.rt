// Token sets (lr1/lookahead.rs): one word, bit k for token k. The terminals are 0 to T - 1, and T is the end of input; what the Rust takes from
// thread-local storage, the number of terminals, is an argument. `fits` asks for at most 63 terminals; every other operation is total: a token above 63 is not contained and not inserted.

ghost use Rattle.std.specs.Prelude.{◌≡◌, true, false, ◌&&◌, ◌||◌, not, [], ◌∷◌, ℕ, suc, ◌^◌, ◌≤◌, ◌<◌, length, eqb, ltb};
ghost use Rattle.lr1_base.specs.lookahead.Tokens.{has, union, meet, without, with, members, up_to};
ghost use Rattle.std.specs.Iterator.{YieldsFirst, item_count};

use crate::repr::Symbol;

#[derive(Clone, Copy, PartialEq, Eq)]
pub struct TokenSet(pub u64);

impl TokenSet {
    // The tokens that a set can hold.
    pub const LIMIT: u16 = 64;

    // The empty set: `new` as in the Rust, with a contract that a derived `Default` would not have.
    pub fn new() -> TokenSet
        ensures { (result.0 ≡ 0) × ((k : ℕ) → has result.0 k ≡ false) }
    {
        TokenSet(0)
    }

    // All terminals and the end of input.
    pub fn all(terminals: u16) -> TokenSet
        ensures { (result.0 ≡ up_to terminals) × ((k : ℕ) → has result.0 k ≡ ltb k 64 && not (ltb terminals k)) }
    {
        if terminals < TokenSet::LIMIT - 1 {
            TokenSet((1 << (terminals + 1)) - 1)
        } else {
            TokenSet(u64::MAX)
        }
    }

    pub fn eof(terminals: u16) -> TokenSet
        ensures { (result.0 ≡ with 0 terminals) × ((k : ℕ) → has result.0 k ≡ ltb k 64 && eqb k terminals) }
    {
        TokenSet::from(terminals)
    }

    pub fn len(self) -> usize
        ensures { result ≡ length (members self.0) }
    {
        u64::count_ones(self.0) as usize
    }

    // The set with a token.
    pub fn with(self, token: u16) -> TokenSet
        ensures is { result.0 ≡ with self.0 token }
        ensures members { (k : ℕ) → has result.0 k ≡ has self.0 k || (ltb k 64 && eqb k token) }
    {
        if token < TokenSet::LIMIT {
            TokenSet(self.0 | 1 << token)
        } else {
            self
        }
    }

    // Says whether the set changed.
    pub fn insert(&mut self, token: u16) -> bool
        ensures is { self.new.0 ≡ with self.old.0 token }
        ensures changed { result ≡ ltb token 64 && not (has self.old.0 token) }
        ensures members { (k : ℕ) → has self.new.0 k ≡ has self.old.0 k || (ltb k 64 && eqb k token) }
    {
        let there = self.contains(token);
        *self = self.with(token);
        token < TokenSet::LIMIT && !there
    }

    pub fn insert_eof(&mut self, terminals: u16) -> bool
        ensures is { self.new.0 ≡ with self.old.0 terminals }
        ensures changed { result ≡ ltb terminals 64 && not (has self.old.0 terminals) }
        ensures members { (k : ℕ) → has self.new.0 k ≡ has self.old.0 k || (ltb k 64 && eqb k terminals) }
    {
        self.insert(terminals)
    }

    pub fn union(self, set: TokenSet) -> TokenSet
        ensures is { result.0 ≡ union self.0 set.0 }
        ensures members { (k : ℕ) → has result.0 k ≡ has self.0 k || has set.0 k }
    {
        TokenSet(self.0 | set.0)
    }

    // Says whether the set changed.
    pub fn union_with(&mut self, set: TokenSet) -> bool
        ensures is { self.new.0 ≡ union self.old.0 set.0 }
        ensures changed { result ≡ not (eqb (union self.old.0 set.0) self.old.0) }
        ensures members { (k : ℕ) → has self.new.0 k ≡ has self.old.0 k || has set.0 k }
    {
        let before = *self;
        *self = before.union(set);
        *self != before
    }

    pub fn intersection(self, set: TokenSet) -> TokenSet
        ensures { (result.0 ≡ meet self.0 set.0) × ((k : ℕ) → has result.0 k ≡ has self.0 k && has set.0 k) }
    {
        TokenSet(self.0 & set.0)
    }

    pub fn contains(self, token: u16) -> bool
        ensures { result ≡ has self.0 token }
    {
        token < TokenSet::LIMIT && (self.0 >> token) & 1 == 1
    }

    pub fn contains_eof(self, terminals: u16) -> bool
        ensures { result ≡ has self.0 terminals }
    {
        self.contains(terminals)
    }

    // Whether the set holds terminals and the end of input alone.
    pub fn fits(self, terminals: usize) -> bool
        requires { terminals ≤ 63 }
        ensures { result ≡ ltb self.0 (2 ^ suc terminals) }
    {
        terminals >= Symbol::TERMINALS || self.0 < 1 << (terminals + 1)
    }

    // If this set contains the end of input, removes it and says so.
    pub fn take_eof(&mut self, terminals: u16) -> bool
        ensures is { self.new.0 ≡ without self.old.0 terminals }
        ensures changed { result ≡ has self.old.0 terminals }
        ensures members { (k : ℕ) → has self.new.0 k ≡ has self.old.0 k && not (eqb k terminals) }
    {
        let there = self.contains(terminals);
        if there {
            *self = TokenSet(self.0 - (1 << terminals));
        }
        there
    }

    pub fn is_disjoint(self, other: TokenSet) -> bool
        ensures { (result ≡ eqb (meet self.0 other.0) 0) × (result ≡ true → (k : ℕ) → has self.0 k && has other.0 k ≡ false) × (((k : ℕ) → has self.0 k && has other.0 k ≡ false) → result ≡ true) }
    {
        self.0 & other.0 == 0
    }

    pub fn is_intersecting(self, other: TokenSet) -> bool
        ensures { result ≡ not (eqb (meet self.0 other.0) 0) }
    {
        !self.is_disjoint(other)
    }

    pub fn iter(self) -> TokenSetIter
        ensures { result.0 ≡ self.0 }
    {
        TokenSetIter(self.0)
    }
}

// The set of one token.
impl From<u16> for TokenSet {
    ghost from_gives = { λ token set. (set.0 ≡ with 0 token) × ((k : ℕ) → has set.0 k ≡ ltb k 64 && eqb k token) };

    fn from(token: u16) -> TokenSet {
        TokenSet::new().with(token)
    }
}

// What is left of a set that is gone through in order.
#[derive(Clone, Copy)]
pub struct TokenSetIter(pub u64);

impl Iterator for TokenSetIter {
    type Item = u16;

    ghost next_gives = { YieldsFirst (λ s. members s.0) };

    ghost remaining = { item_count (λ s. members s.0) };

    fn next(&mut self) -> Option<u16> {
        let word = self.0;
        if word == 0 {
            return None;
        }
        let token = u64::trailing_zeros(word);
        self.0 = word - (1 << token);
        Some(token as u16)
    }
}
