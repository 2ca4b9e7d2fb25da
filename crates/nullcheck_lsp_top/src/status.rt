//! How a server ends.
ghost use Rattle.std.specs.Prelude.{◌≡◌};
ghost use Rattle.nullcheck_lsp_top.specs.Answer as spec;

/// How a server ends (Language Server Protocol 3.17, "exit": 0 after `shutdown`, else 1).
#[derive(Clone, Copy, Debug, PartialEq, Eq)]
pub enum Status {
    /// `exit` came after `shutdown`.
    Done,
    /// `exit` came without it, or the input ended.
    Ended,
    /// The input couldn't be read.
    ReadFault,
    /// The output couldn't be written.
    WriteFault,
    /// No memory was found.
    OutOfMemory,
    /// There are other words than those that are known.
    Usage,
}

impl Status {
    /// The number with which the program ends.
    pub fn number(self) -> u8
        ensures { result ≡ spec.number_of self }
    {
        match self {
            Status::Done => 0,
            Status::Ended => 1,
            Status::ReadFault => 5,
            Status::WriteFault => 6,
            Status::OutOfMemory => 7,
            Status::Usage => 64,
        }
    }
}
