ghost use Rattle.std.specs.Prelude.{◌≡◌};
ghost use Rattle.og_tool.specs.Statuses.{code_of};

/// How a call of the program ended.
#[derive(Clone, Copy, Debug, PartialEq, Eq)]
pub enum Status {
    /// The command's output was written whole.
    Done,
    /// The model file violates a rule, and the line that names it was written.
    Refused,
    /// The words have no form of a command, and nothing was written.
    Usage,
    /// A file could not be read.
    ReadFault,
    /// The output could not be written, and a front of it was.
    WriteFault,
    /// Memory could not be had.
    NoMemory,
    /// The program's file holds no program that can be run over the model, or a bad line of the stimuli was reached. The line
    /// that names the rule was written last.
    BadFile,
    /// A run had not come to its end after as many statements as a stimulus may take.
    Past,
    /// A run ended with a fault.
    Faulted,
    /// A run ended where the program could not go on.
    Stuck,
    /// A file has more than 67,108,864 bytes.
    TooLarge,
}

impl Status {
    /// The exit status of the program.
    pub fn code(&self) -> u8
        ensures { result ≡ code_of self.now }
    {
        match self {
            Status::Done => 0,
            Status::Refused => 1,
            Status::Usage => 2,
            Status::ReadFault => 3,
            Status::WriteFault => 4,
            Status::NoMemory => 5,
            Status::BadFile => 6,
            Status::Past => 7,
            Status::Faulted => 8,
            Status::Stuck => 9,
            Status::TooLarge => 11,
        }
    }
}
