//! Conflicts, alone and by their states and tokens.

ghost use Rattle.std.specs.List.Sorted.{IsStrictlyIncreasing};

/// Where a state can do more than one thing before a token: whether it shifts, and the productions
/// that may be reduced, ascending.
#[derive(Debug, Drop)]
pub struct Clash {
    pub state: usize,
    pub token: usize,
    pub shifts: bool,
    pub reductions: Vec<usize>,
    ghost ascending: { IsStrictlyIncreasing reductions.items },
}

/// What a reduction is in conflict with.
#[derive(Clone, Copy, Debug, PartialEq, Eq)]
pub enum Other {
    Shift,
    /// The reduction of another production, of a higher number.
    Reduce(usize),
}

/// In a state a production may be reduced before a token, and something else may be done.
#[derive(Clone, Copy, Debug, PartialEq, Eq)]
pub struct Conflict {
    pub state: usize,
    pub token: usize,
    pub production: usize,
    pub other: Other,
}
