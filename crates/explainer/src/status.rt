ghost use Rattle.std.specs.Prelude.{◌≡◌, max};
ghost use Rattle.explainer.specs.Statuses.{number_of};

/// What a run comes to, the least grave first.
#[derive(Clone, Copy, Debug, PartialEq, Eq)]
pub enum Status {
    /// No conflicts but the expected ones.
    Expected,
    /// Conflicts.
    Conflicts,
    /// A file is no grammar that is read.
    Unread,
    /// A limit was met.
    Limited,
    /// A mistake in the command line, or a file that cannot be read or written.
    Failed,
}

impl Status {
    /// The exit status of the process.
    pub fn code(self) -> u8
        ensures { result ≡ number_of self }
    {
        match self {
            Status::Expected => 0,
            Status::Conflicts => 1,
            Status::Unread => 2,
            Status::Limited => 3,
            Status::Failed => 4,
        }
    }

    /// The graver of two.
    pub fn graver(self, other: Status) -> Status
        ensures { number_of result ≡ max (number_of self) (number_of other) }
    {
        if self.code() < other.code() {
            other
        } else {
            self
        }
    }
}
