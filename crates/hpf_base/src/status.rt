//! How a run of the program ends.

ghost use Rattle.std.specs.Prelude.{◌≡◌};
ghost use Rattle.hpf_base.specs.Status.{exit_code_of};

/// The status that the program exits with.
#[derive(Clone, Copy, Debug, PartialEq, Eq)]
pub enum Status {
    /// The action ended.
    Done,
    /// The text breaks a rule of the language.
    Refused,
    /// The words are no job.
    Usage,
    /// The run stopped at a fault.
    Fault,
    /// The source could not be read.
    ReadFault,
    /// Standard output or standard error could not be written.
    WriteFault,
    /// A growth was refused.
    Memory,
    /// The source is longer than the limit.
    TooLong,
}

impl Status {
    /// The number that the process exits with: 0 for `Done`, then as the variants stand.
    pub fn exit_code(self) -> u8
        ensures { result ≡ exit_code_of self }
    {
        match self {
            Status::Done => 0,
            Status::Refused => 1,
            Status::Usage => 2,
            Status::Fault => 3,
            Status::ReadFault => 4,
            Status::WriteFault => 5,
            Status::Memory => 6,
            Status::TooLong => 7,
        }
    }
}
