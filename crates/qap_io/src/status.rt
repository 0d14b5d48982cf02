// How programs end.

/// How a program ends.
#[derive(Clone, Copy, Debug, PartialEq, Eq)]
pub enum Status {
    /// It has done what was asked.
    Done,
    /// It has refused an input, or a device has failed.
    Refused,
    /// The command line is invalid.
    Usage,
    /// Memory ran out.
    OutOfMemory,
    /// It has stopped before its end.
    Unfinished,
    /// It has stopped at the limit that it was given, with an answer for what it had done by then.
    Stopped,
}

impl Status {
    ghost use Rattle.std.specs.Prelude.{◌≡◌};
    ghost use Rattle.qap_io.specs.Status.{exit_code};

    /// The exit status, from 0 to 5.
    pub fn code(self) -> u8
        ensures { result ≡ exit_code self }
    {
        match self {
            Status::Done => 0,
            Status::Refused => 1,
            Status::Usage => 2,
            Status::OutOfMemory => 3,
            Status::Unfinished => 4,
            Status::Stopped => 5,
        }
    }
}
