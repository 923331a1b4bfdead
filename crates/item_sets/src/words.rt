// Parts of a request. Every function is total: words that a request has not are zeros.
ghost use Rattle.std.specs.Prelude.{◌<◌, ◌≤◌};

// What a request asks about: a table, and further words.
#[derive(Clone, Copy)]
pub struct Request<'a> {
    pub table: &'a [u16],
    pub more: &'a [u16],
}

impl<'a> Request<'a> {
    pub fn at(self, i: usize) -> u16 {
        self.more.get(i).copied().unwrap_or(0)
    }

    pub fn number(self, i: usize) -> usize
        ensures { result < 65536 }
    {
        self.at(i) as usize
    }

    // A set of tokens from its four words, the lowest first.
    pub fn set_at(self, i: usize) -> u64 {
        front(rest(self.more, i), 4)
            .iter()
            .rev()
            .fold(0, |set, word| set << 16 | *word as u64)
    }
}

// The first n words, or all.
fn front<'a>(words: &'a [u16], n: usize) -> &'a [u16] {
    let to = n.min(words.len());
    &words[..to]
}

// The words from a place on.
fn rest<'a>(words: &'a [u16], n: usize) -> &'a [u16] {
    let from = n.min(words.len());
    &words[from..]
}
