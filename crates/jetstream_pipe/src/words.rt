//! The words of the command line.

use clap::{Arg, ArgAction, ArgMatches, Command, Error, value_parser};
use js_pipe::{Options, Task};
use std::alloc::{AllocError, Global};

/// How a word is written.
#[derive(Clone, Copy, Debug, PartialEq, Eq)]
enum Kind {
    /// A word without dashes, which must be there.
    Required,
    /// A word that is there or not.
    Switch,
    /// A word before a text.
    Text,
    /// A word before a number.
    Number,
}

/// A word of a command, and its line of help.
#[derive(Clone, Copy, Debug)]
struct Word {
    name: &'static str,
    value: &'static str,
    kind: Kind,
    help: &'static str,
}

const CONNECTION: &[Word] = &[
    Word {
        name: "from",
        value: "FILE",
        kind: Kind::Text,
        help: "The file that the server's bytes are read from [default: /dev/fd/3]",
    },
    Word {
        name: "to",
        value: "FILE",
        kind: Kind::Text,
        help: "The file that bytes for the server are written to [default: /dev/fd/4]",
    },
    Word {
        name: "user",
        value: "NAME",
        kind: Kind::Text,
        help: "A name, for a server that asks for one",
    },
    Word {
        name: "password",
        value: "TEXT",
        kind: Kind::Text,
        help: "The password of --user",
    },
    Word {
        name: "token",
        value: "TEXT",
        kind: Kind::Text,
        help: "A token, for a server that asks for one",
    },
];

const CONSUME: &[Word] = &[
    Word {
        name: "name",
        value: "STREAM",
        kind: Kind::Required,
        help: "The stream's name",
    },
    Word {
        name: "push",
        value: "",
        kind: Kind::Switch,
        help: "Has the server deliver, in place of asking it for messages",
    },
    Word {
        name: "filter",
        value: "SUBJECT",
        kind: Kind::Text,
        help: "Only messages whose subject matches",
    },
    Word {
        name: "start",
        value: "SEQUENCE",
        kind: Kind::Number,
        help: "The first stream sequence; without it the first message that is left",
    },
    Word {
        name: "count",
        value: "N",
        kind: Kind::Number,
        help: "Ends after so many messages",
    },
    Word {
        name: "record",
        value: "FILE",
        kind: Kind::Text,
        help: "Replaces this file by a recording of all that the reader meets, for `wilfjodi rerun`",
    },
];

const PUBLISH: &[Word] = &[
    Word {
        name: "name",
        value: "SUBJECT",
        kind: Kind::Required,
        help: "The subject of the messages",
    },
    Word {
        name: "id",
        value: "TEXT",
        kind: Kind::Text,
        help: "Gives line N the Nats-Msg-Id TEXT-N: the server stores it once",
    },
];

fn arg_of<'a>(alloc: Global, word: Word) -> Arg<'a> {
    let arg = Arg::new(alloc, word.name).help(word.help);
    match word.kind {
        Kind::Required => arg.value_name(word.value).required(true),
        Kind::Switch => arg.long(word.name).action(ArgAction::SetTrue),
        Kind::Text => arg.long(word.name).value_name(word.value),
        Kind::Number => arg
            .long(word.name)
            .value_name(word.value)
            .value_parser(value_parser!(u64)),
    }
}

// With the word that must be there too.
fn with_needed<'a>(arg: Arg<'a>, name: &str) -> Result<Arg<'a>, AllocError> {
    match name {
        "user" => arg.requires_arg("password"),
        "password" => arg.requires_arg("user"),
        "token" => arg.conflicts_with("user"),
        _ => Ok(arg),
    }
}

fn add<'a>(
    command: Result<Command<'a>, AllocError>,
    arg: Result<Arg<'a>, AllocError>,
) -> Result<Command<'a>, AllocError> {
    match (command, arg) {
        (Ok(command), Ok(arg)) => command.arg(arg),
        _ => Err(AllocError),
    }
}

fn add_all<'a>(
    alloc: Global,
    mut command: Result<Command<'a>, AllocError>,
    words: &[Word],
) -> Result<Command<'a>, AllocError> {
    for &word in words {
        command = add(command, with_needed(arg_of(alloc, word), word.name));
    }
    command
}

fn consume_command<'a>(alloc: Global) -> Result<Command<'a>, AllocError> {
    let about =
        "Writes the messages of a stream, in order and without a gap: sequence, subject, payload";
    let command = Command::new(alloc, "consume").about(about);
    add_all(alloc, add_all(alloc, Ok(command), CONSUME), CONNECTION)
}

fn publish_command<'a>(alloc: Global) -> Result<Command<'a>, AllocError> {
    let about = "Publishes each line of standard input, and writes its number and stream sequence";
    let command = Command::new(alloc, "publish").about(about);
    add_all(alloc, add_all(alloc, Ok(command), PUBLISH), CONNECTION)
}

fn with_subcommand<'a>(
    command: Result<Command<'a>, AllocError>,
    subcommand: Result<Command<'a>, AllocError>,
) -> Result<Command<'a>, AllocError> {
    match (command, subcommand) {
        (Ok(command), Ok(subcommand)) => command.subcommand(subcommand),
        _ => Err(AllocError),
    }
}

fn command<'a>(alloc: Global) -> Result<Command<'a>, AllocError> {
    let command = Command::new(alloc, "jetstream_pipe")
        .about("JetStream over two files that are a connection to a server")
        .version("0.1.0")
        .subcommand_required(true);
    let command = with_subcommand(Ok(command), consume_command(alloc));
    with_subcommand(command, publish_command(alloc))
}

fn options_of<'a>(task: Task, words: &ArgMatches<'a>) -> Options<'a> {
    Options {
        task,
        name: words.get_str("name").unwrap_or(""),
        from: words.get_str("from").unwrap_or("/dev/fd/3"),
        to: words.get_str("to").unwrap_or("/dev/fd/4"),
        user: words.get_str("user"),
        password: words.get_str("password"),
        token: words.get_str("token"),
        is_push: words.get_flag("push"),
        filter: words.get_str("filter"),
        start: words.get_one::<u64>("start"),
        count: words.get_one::<u64>("count"),
        record: words.get_str("record"),
        id: words.get_str("id"),
    }
}

// What the words ask for. None where they name no command, which clap has refused before.
fn task_of<'a>(matches: &ArgMatches<'a>) -> Option<Options<'a>> {
    match matches.subcommand()? {
        ("consume", words) => Some(options_of(Task::Consume, words)),
        (_, words) => Some(options_of(Task::Publish, words)),
    }
}

/// Reads the words of the command line, the program's name first. `Ok(None)` stands for no command,
/// which clap refuses before.
///
/// # Errors
///
/// Fails with what clap says of the words: what is wrong with them, or the help or the version that
/// they ask for.
pub fn read_words<'a>(alloc: Global, words: &'a [String]) -> Result<Option<Options<'a>>, Error> {
    let matches = command(alloc)?.try_get_matches_from(words);
    match matches {
        Ok(matches) => {
            let options = task_of(&matches);
            drop(matches);
            Ok(options)
        }
        Err(error) => Err(error),
    }
}
