//! How a run ends.
ghost use Rattle.std.specs.Prelude.{◌≡◌};

/// How a run ended.
#[derive(Clone, Copy, Debug, PartialEq, Eq)]
pub enum Status {
    /// One product meets all requirements.
    Consistent,
    /// No product meets all requirements, and the report says which to give up.
    Explained,
    /// The model alone has no product.
    Background,
    /// A check needed more learned clauses than it was allowed.
    Limit,
    /// The certificate shows what it says.
    Verified,
    /// The certificate doesn't show what it says.
    Rejected,
    /// The generated text was written.
    Generated,
    /// The words of the command line aren't in the grammar.
    BadWords,
    /// The model file is refused.
    BadModel,
    /// The configuration file is refused.
    BadConfig,
    /// The problem has too many variables.
    TooLarge,
    /// There was no memory. Nothing was written.
    Memory,
    /// A file could not be read.
    ReadFault,
    /// The text could not be written whole.
    WriteFault,
}

impl Status {
    ghost use Rattle.command_line.specs.Status.{code_of};

    /// The exit code of the program.
    pub fn code(self) -> u8
        ensures { result ≡ code_of self }
    {
        match self {
            Status::Consistent | Status::Verified | Status::Generated => 0,
            Status::Explained => 1,
            Status::Background => 2,
            Status::Limit => 3,
            Status::Rejected => 4,
            Status::BadWords => 64,
            Status::BadModel => 65,
            Status::BadConfig => 66,
            Status::TooLarge => 67,
            Status::Memory => 70,
            Status::ReadFault => 74,
            Status::WriteFault => 75,
        }
    }
}
