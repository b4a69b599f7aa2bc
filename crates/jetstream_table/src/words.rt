//! The words of the command line.

ghost use Rattle.std.specs.Prelude.{◌≡◌};
ghost use Rattle.jetstream_table.specs.Words.{expected_by};

/// What is written to a key.
#[derive(Clone, Copy, Debug, PartialEq, Eq)]
pub enum Write<'a> {
    Put(&'a str),
    Create(&'a str),
    Update { value: &'a str, revision: u64 },
    Delete,
    Purge,
}

/// What the program is to do with a bucket.
#[derive(Clone, Copy, Debug, PartialEq, Eq)]
pub enum Task<'a> {
    /// Writes what is kept of the bucket, once nothing is to come.
    Table,
    /// Writes each change of the bucket.
    Watch,
    /// Asks the server for a key.
    Get { key: &'a str },
    /// Writes to a key.
    Write { key: &'a str, write: Write<'a> },
}

/// What the words ask for.
#[derive(Clone, Copy, Debug, PartialEq, Eq)]
pub struct Options<'a> {
    pub bucket: &'a str,
    pub task: Task<'a>,
    /// Whether it goes on over another connection when one is lost.
    pub is_again: bool,
    /// The file that the server's bytes are read from.
    pub from: &'a str,
    /// The file that bytes for the server are written to.
    pub to: &'a str,
}

impl<'a> Options<'a> {
    /// The connection that they name.
    pub fn connection(&self) -> js_pipe::Options<'a> {
        js_pipe::Options {
            task: js_pipe::Task::Consume,
            name: self.bucket,
            from: self.from,
            to: self.to,
            user: None,
            password: None,
            token: None,
            is_push: false,
            filter: None,
            start: None,
            count: None,
            record: None,
            id: None,
        }
    }
}

impl Write<'_> {
    /// The revision that the key's last entry is expected to have, where it is one.
    pub fn expected(self) -> Option<u64>
        ensures { result ≡ expected_by self.entry }
    {
        match self {
            Write::Create(_) => Some(0),
            Write::Update { revision, .. } => Some(revision),
            Write::Put(_) | Write::Delete | Write::Purge => None,
        }
    }
}

// What a bucket and a task are, and whether it goes on, by the words before those of the files.
fn read_task<'a>(words: &[&'a str]) -> Option<(&'a str, Task<'a>, bool)> {
    let (bucket, key, write) = match *words {
        ["table", bucket] => return Some((bucket, Task::Table, false)),
        ["table", bucket, "--again"] => return Some((bucket, Task::Table, true)),
        ["watch", bucket] => return Some((bucket, Task::Watch, false)),
        ["watch", bucket, "--again"] => return Some((bucket, Task::Watch, true)),
        ["get", bucket, key] => return Some((bucket, Task::Get { key }, false)),
        ["put", bucket, key, value] => (bucket, key, Write::Put(value)),
        ["create", bucket, key, value] => (bucket, key, Write::Create(value)),
        ["update", bucket, key, value, revision] => {
            let revision = revision.parse().ok()?;
            (bucket, key, Write::Update { value, revision })
        }
        ["delete", bucket, key] => (bucket, key, Write::Delete),
        ["purge", bucket, key] => (bucket, key, Write::Purge),
        _ => return None,
    };
    Some((bucket, Task::Write { key, write }, false))
}

/// Reads the words of the command line, without the program's name. Returns `None` if they name no
/// command.
pub fn read_words<'a>(words: &[&'a str]) -> Option<Options<'a>> {
    let (command, files) = words.split_at(words.len().saturating_sub(4));
    let ["--from", from, "--to", to] = *files else {
        return None;
    };
    let (bucket, task, is_again) = read_task(command)?;
    Some(Options {
        bucket,
        task,
        is_again,
        from,
        to,
    })
}
