//! How the program ends.
ghost use Rattle.std.specs.Prelude.{◌≡◌};
ghost use Rattle.redact_program.specs.Status.{exit_status};

/// How the program ended.
#[derive(Clone, Copy, Debug, PartialEq, Eq)]
pub enum Status {
    /// The answer is printed.
    Done,
    /// The report, the view or a word was refused.
    Refused,
    /// The words are not the program's, or ask for help.
    Usage,
    /// Reading, writing or memory failed.
    Failed,
    /// The answer is printed: the search found nothing.
    NotFound,
}

impl Status {
    /// Returns the exit status.
    pub fn code(self) -> u8
        ensures { result ≡ exit_status self }
    {
        match self {
            Status::Done => 0,
            Status::Refused => 1,
            Status::Usage => 2,
            Status::Failed => 3,
            Status::NotFound => 4,
        }
    }
}
