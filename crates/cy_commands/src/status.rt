// How the program ends.
ghost use Rattle.std.specs.Prelude.{◌≡◌};
ghost use Rattle.cy_commands.specs.Status.{code_of};

/// How a call of the program ends, with the status that the process has then.
#[derive(Clone, Copy, Debug, PartialEq, Eq)]
pub enum Status {
    /// All was done: 0.
    Done,
    /// A file is of no form that is taken: 1.
    Refused,
    /// The words are of no known form: 2.
    Usage,
    /// The store failed: 3.
    StoreFault,
    /// A stream that is written to failed: 4.
    SinkFault,
    /// A counted limit is passed: 5.
    Limit,
    /// There is no memory: 6.
    Memory,
}

impl Status {
    /// The exit status of the process.
    pub fn code(self) -> u8
        ensures { result ≡ code_of self }
    {
        match self {
            Status::Done => 0,
            Status::Refused => 1,
            Status::Usage => 2,
            Status::StoreFault => 3,
            Status::SinkFault => 4,
            Status::Limit => 5,
            Status::Memory => 6,
        }
    }
}
