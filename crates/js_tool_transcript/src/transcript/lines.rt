//! The forms of lines.

/// Which lines are read.
#[derive(Clone, Copy)]
pub enum Lines {
    /// The lines of a transcript, as `replay` reads them.
    Plain,
    /// The same, and extended lines, in which a message may have its payload in base64 or a length
    /// that is not its payload's, and the first line the options of an ordered reader.
    Extended,
}
