/// How the program ends.
#[derive(Clone, Copy, Debug, PartialEq, Eq)]
pub enum Status {
    /// The work was done and all of it was written.
    Ok,
    /// The record is not lawful for the script.
    Unlawful,
    /// The words are no known form. Nothing was read.
    Usage,
    /// The script is refused.
    Refused,
    /// A read failed. Nothing was written.
    ReadFault,
    /// A write failed. What was written is the front of what was due.
    WriteFault,
    /// There was no memory. Nothing was written.
    Memory,
}

impl Status {
    ghost use Rattle.std.specs.Prelude.{◌≡◌};
    ghost use Rattle.k42_input.specs.Endings.{exit_number};

    /// The number that the process ends with.
    pub fn number(self) -> u8
        ensures { result ≡ exit_number self }
    {
        match self {
            Status::Ok => 0,
            Status::Unlawful => 1,
            Status::Usage => 2,
            Status::Refused => 3,
            Status::ReadFault => 4,
            Status::WriteFault => 5,
            Status::Memory => 6,
        }
    }
}
