//! What the words of a command line ask for.

/// What the program is to do.
#[derive(Clone, Copy, Debug, PartialEq, Eq)]
pub enum Task {
    /// Writes the messages of a stream.
    Consume,
    /// Publishes the lines of standard input.
    Publish,
}

/// What the words ask for. A word that was not given is `None`.
#[derive(Clone, Copy)]
pub struct Options<'a> {
    pub task: Task,
    /// The stream's name, or the subject of the messages.
    pub name: &'a str,
    /// The file that the server's bytes are read from.
    pub from: &'a str,
    /// The file that bytes for the server are written to.
    pub to: &'a str,
    pub user: Option<&'a str>,
    pub password: Option<&'a str>,
    pub token: Option<&'a str>,
    /// Whether the server delivers unasked.
    pub is_push: bool,
    pub filter: Option<&'a str>,
    /// The first stream sequence.
    pub start: Option<u64>,
    /// How many messages are wanted.
    pub count: Option<u64>,
    /// The file that everything that the reader meets is written to.
    pub record: Option<&'a str>,
    /// What the message ids of the lines begin with.
    pub id: Option<&'a str>,
}
