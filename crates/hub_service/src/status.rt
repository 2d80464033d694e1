//! The program's outcome.
ghost use Rattle.std.specs.Prelude.{◌≡◌};
ghost use Rattle.hub_service.specs.Status.{exit_status};

/// The program's outcome.
#[derive(Clone, Copy, Debug, PartialEq, Eq)]
pub enum Status {
    Done,
    /// The input, a word or the request was refused.
    Refused,
    /// The words are not a command line of the program, or ask for help. Help goes to standard error too, so standard
    /// output has only results.
    Usage,
    /// The store, reading, writing or memory failed.
    Failed,
}

impl Status {
    /// Returns the exit status.
    pub fn code(self) -> u8
        ensures { result ≡ exit_status self }
    {
        match self {
            Status::Done => 0,
            Status::Refused => 1,
            Status::Usage => 2,
            Status::Failed => 3,
        }
    }
}
