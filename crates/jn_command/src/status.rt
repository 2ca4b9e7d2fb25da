//! The statuses of the program.
ghost use Rattle.std.specs.Prelude.{◌≡◌};
ghost use Rattle.jn_command.specs.Status.{number_of};

/// What a run of the program came to.
#[derive(Clone, Copy, Debug, PartialEq, Eq)]
pub enum Status {
    /// The files are accepted; where their run was asked for, their main returned.
    Ok,
    /// A rule is broken.
    Rejected,
    /// The files are not of the subset; or they are accepted, and have no single main to run.
    Refused,
    /// The files are accepted, and the run of their main ended by an exception of Java (JLS 8, 11.1.1).
    RunFault,
    /// The files are accepted, and the run of their main was stopped: after the steps that were asked for, or at a limit.
    Stopped,
    /// A file could not be read.
    ReadFault,
    /// The output could not be written.
    WriteFault,
    /// No memory was found.
    OutOfMemory,
    /// The words are not those of a command.
    Usage,
}

impl Status {
    /// The number with which the program ends.
    pub fn number(self) -> u8
        ensures { result ≡ number_of self }
    {
        match self {
            Status::Ok => 0,
            Status::Rejected => 1,
            Status::Refused => 2,
            Status::RunFault => 3,
            Status::Stopped => 4,
            Status::ReadFault => 5,
            Status::WriteFault => 6,
            Status::OutOfMemory => 7,
            Status::Usage => 64,
        }
    }
}
