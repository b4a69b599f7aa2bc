//! How a call ended.

ghost use Rattle.std.specs.Prelude.{◌≡◌, Some};
ghost use Rattle.js_tool.specs.Status.{exit_code as code_of, status_text};

use std::fmt;

/// How a call ended. Prints as its name, followed by the line's number if it has one.
#[derive(Clone, Copy, Debug, PartialEq, Eq)]
pub enum Status {
    /// Everything was read and written.
    Done,
    /// The source failed.
    ReadFault,
    /// The words name no command.
    Usage,
    /// This line, counted from 1, is the first that cannot be read.
    BadLine { line: u64 },
    /// The sink failed.
    WriteFault,
    OutOfMemory,
    /// The command refused its input. It writes a line that says why, as far as the sink takes it.
    Refused,
    /// The input is longer than `MOST_BYTES`.
    TooLong,
}

impl Status {
    /// Returns the exit status of the program.
    pub fn exit_code(self) -> u8
        ensures { result ≡ code_of self }
    {
        match self {
            Status::Done => 0,
            Status::ReadFault => 1,
            Status::Usage => 2,
            Status::BadLine { .. } => 3,
            Status::WriteFault => 4,
            Status::OutOfMemory => 5,
            Status::Refused => 6,
            Status::TooLong => 7,
        }
    }
}

impl fmt::Display for Status {
    ghost output = { λ s. Some (status_text s) };

    fn fmt<W: fmt::Write>(&self, f: &mut fmt::Formatter<W>) -> fmt::Result {
        let text = match self {
            Status::Done => "Done",
            Status::ReadFault => "ReadFault",
            Status::Usage => "Usage",
            Status::BadLine { line } => return write!(f, "BadLine {line}"),
            Status::WriteFault => "WriteFault",
            Status::OutOfMemory => "OutOfMemory",
            Status::Refused => "Refused",
            Status::TooLong => "TooLong",
        };
        f.write_str(text)
    }
}
