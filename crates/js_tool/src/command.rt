//! The words of a command line, and the command that they name. Only this module reads them.

ghost use Rattle.std.specs.Prelude.{◌≡◌, ◌∷◌, [], map, option_and_then, option_map, string_bytes, None};
ghost use Rattle.js_tool.specs.Command.{asked, asked_of_tool, command_of as command_in, follow_of as follow_in, generate_of as generate_in, number_of, own, own_of, plain, window_of as window_in, with_option as with_option_in};
ghost use Rattle.js_tool.specs.LogCommand.{bookmark, bookmark_number as bookmark_number_in, project_of as project_in, project_up_to as project_up_to_in, relay_of as relay_in, sessions_bookmark, wanted, wanted_of_log, wanted_of};

use js_base::is_valid_subject;
use js_codes::is_valid_name;
use js_message::read_u64;

/// What `follow` writes besides the text of the replay. By default it writes nothing else.
#[derive(Clone, Copy, Debug, PartialEq, Eq)]
pub struct FollowOptions {
    /// `--details`: for each message that a line hands out, its time, what is pending, its headers,
    /// and its payload in base64 if it is no text.
    pub details: bool,
    /// `--wakes`: after each line that was answered, when the consumer wakes.
    pub wakes: bool,
}

/// The command that a command line asks for. It borrows from the words.
#[derive(Clone, Copy)]
pub enum Command<'a> {
    /// `--help`: writes the page of all words.
    Help,
    /// `--version`: writes the version.
    Version,
    /// `follow`: answers a transcript as its lines arrive, and writes more with its options.
    Follow(FollowOptions),
    /// `explain`: says in plain English what a transcript's replay does and why.
    Explain,
    /// `rerun`: replays a transcript that may have extended lines, with [`rerun`](crate::rerun).
    Rerun,
    /// A command of this crate, which [`run`](crate::run) executes.
    Tool(ToolCommand<'a>),
    /// A command over everything that a transcript's replay yields.
    Log(LogCommand<'a>),
    /// `sessions`: writes the results of sessions. The first one starts at the bookmark `next`,
    /// which is above 0.
    Sessions { next: u64 },
}

/// A command of this crate. If a number is out of its limits, the command does nothing and
/// [`run`](crate::run) returns `Usage`.
#[derive(Clone, Copy)]
pub enum ToolCommand<'a> {
    /// Reads a transcript and writes the text of its run.
    Replay,
    /// Replays the first `events` events of the transcript that a seed gives, at most 200,000, and
    /// writes their counts.
    Generate {
        seed: u64,
        events: u64,
    },
    /// Writes what this acknowledgement subject says.
    Info {
        subject: &'a str,
    },
    /// Runs threads that take permits of one window, and writes their counts. Limits: 1 to
    /// 4,294,967,295 permits, 1 to 8 threads, and at most 100,000 takes by each thread.
    Window {
        capacity: u64,
        threads: u64,
        calls: u64,
    },
}

/// A command over the yields of a transcript's replay.
#[derive(Clone, Copy)]
pub enum LogCommand<'a> {
    /// Writes the last entry of each subject that a filter matches, of all yields or of those up to
    /// a sequence.
    Project {
        filter: &'a str,
        sequence: Option<u64>,
    },
    /// Writes all yields, and the holes between them.
    Mirror,
    /// Writes the transcript of a consumer that receives all yields. Both names are valid.
    Relay {
        stream: &'a str,
        name: &'a str,
    },
}

/// Returns the command that the words name, or `None` if they have none of the forms. The numbers
/// of a [`ToolCommand`] may be out of their limits.
pub fn command_of(words: &[String]) -> Option<Command<'_>>
    // What is asked for is said kind by kind; words of one kind ask for nothing of another.
    ensures own { option_and_then own result ≡ own_of (map string_bytes words.now) }
    ensures tool { option_and_then asked_of_tool result ≡ command_in (map string_bytes words.now) }
    ensures log { option_and_then wanted_of_log result ≡ wanted_of (map string_bytes words.now) }
    ensures sessions { option_and_then bookmark result ≡ sessions_bookmark (map string_bytes words.now) }
{
    match words {
        [] => None,
        [name] => one_word(name.as_str()),
        [name, word] => two_words(name.as_str(), word.as_str()),
        [name, first, second] => three_words(name.as_str(), first.as_str(), second.as_str()),
        [name, capacity, threads, calls] => four_words(
            name.as_str(),
            capacity.as_str(),
            threads.as_str(),
            calls.as_str(),
        ),
        [_, _, _, _, _, ..] => None,
    }
}

fn one_word<'a>(name: &str) -> Option<Command<'a>>
    ensures own { option_and_then own result ≡ own_of (name.now ∷ []) }
    ensures tool { option_and_then asked_of_tool result ≡ command_in (name.now ∷ []) }
    ensures log { option_and_then wanted_of_log result ≡ wanted_of (name.now ∷ []) }
    ensures sessions { option_and_then bookmark result ≡ None }
{
    match name {
        "--help" => Some(Command::Help),
        "--version" => Some(Command::Version),
        "follow" => Some(Command::Follow(no_options())),
        "explain" => Some(Command::Explain),
        "rerun" => Some(Command::Rerun),
        "replay" => Some(Command::Tool(ToolCommand::Replay)),
        "mirror" => Some(Command::Log(LogCommand::Mirror)),
        _ => None,
    }
}

fn two_words<'a>(name: &str, word: &'a str) -> Option<Command<'a>>
    ensures own { option_and_then own result ≡ own_of (name.now ∷ word.now ∷ []) }
    ensures tool { option_and_then asked_of_tool result ≡ command_in (name.now ∷ word.now ∷ []) }
    ensures log { option_and_then wanted_of_log result ≡ wanted_of (name.now ∷ word.now ∷ []) }
    ensures sessions { option_and_then bookmark result ≡ sessions_bookmark (name.now ∷ word.now ∷ []) }
{
    match name {
        "follow" => Some(Command::Follow(with_option(no_options(), word)?)),
        "info" => Some(Command::Tool(ToolCommand::Info { subject: word })),
        "project" => Some(Command::Log(project_of(word, None)?)),
        "sessions" => Some(Command::Sessions {
            next: bookmark_number(word)?,
        }),
        _ => None,
    }
}

#[tactic(auto, unfolding(crate::specs::LogCommand::three_words))]
fn three_words<'a>(name: &str, first: &'a str, second: &'a str) -> Option<Command<'a>>
    ensures own { option_and_then own result ≡ own_of (name.now ∷ first.now ∷ second.now ∷ []) }
    ensures tool { option_and_then asked_of_tool result ≡ command_in (name.now ∷ first.now ∷ second.now ∷ []) }
    ensures log { option_and_then wanted_of_log result ≡ wanted_of (name.now ∷ first.now ∷ second.now ∷ []) }
    ensures sessions { option_and_then bookmark result ≡ None }
{
    match name {
        "follow" => Some(Command::Follow(follow_of(first, second)?)),
        "generate" => Some(Command::Tool(generate_of(first, second)?)),
        "project" => Some(Command::Log(project_up_to(first, second)?)),
        "relay" => Some(Command::Log(relay_of(first, second)?)),
        _ => None,
    }
}

fn four_words<'a>(name: &str, capacity: &str, threads: &str, calls: &str) -> Option<Command<'a>>
    ensures own { option_and_then own result ≡ None }
    ensures tool { option_and_then asked_of_tool result ≡ command_in (name.now ∷ capacity.now ∷ threads.now ∷ calls.now ∷ []) }
    ensures log { option_and_then wanted_of_log result ≡ None }
    ensures sessions { option_and_then bookmark result ≡ None }
{
    match name {
        "window" => Some(Command::Tool(window_of(capacity, threads, calls)?)),
        _ => None,
    }
}

// No option.
fn no_options() -> FollowOptions
    ensures { result ≡ plain }
{
    FollowOptions {
        details: false,
        wakes: false,
    }
}

// The options with the one that a word names.
fn with_option(options: FollowOptions, word: &str) -> Option<FollowOptions>
    ensures { result ≡ with_option_in options word.now }
{
    match word {
        "--details" => Some(FollowOptions {
            details: true,
            wakes: options.wakes,
        }),
        "--wakes" => Some(FollowOptions {
            details: options.details,
            wakes: true,
        }),
        _ => None,
    }
}

// The options that two words name.
#[tactic(auto, unfolding(crate::specs::Command::follow_of))]
fn follow_of(first: &str, second: &str) -> Option<FollowOptions>
    ensures { result ≡ follow_in first.now second.now }
{
    let options = with_option(no_options(), first)?;
    with_option(options, second)
}

#[tactic(auto, unfolding(crate::specs::Command::generate_of))]
fn generate_of<'a>(seed: &str, events: &str) -> Option<ToolCommand<'a>>
    ensures { option_and_then asked result ≡ generate_in seed.now events.now }
{
    let seed = read_number(seed)?;
    let events = read_number(events)?;
    Some(ToolCommand::Generate { seed, events })
}

#[tactic(auto, unfolding(crate::specs::Command::window_of))]
fn window_of<'a>(capacity: &str, threads: &str, calls: &str) -> Option<ToolCommand<'a>>
    ensures { option_and_then asked result ≡ window_in capacity.now threads.now calls.now }
{
    let capacity = read_number(capacity)?;
    let threads = read_number(threads)?;
    let calls = read_number(calls)?;
    Some(ToolCommand::Window {
        capacity,
        threads,
        calls,
    })
}

#[tactic(auto, unfolding(crate::specs::LogCommand::project_of))]
fn project_of(filter: &str, sequence: Option<u64>) -> Option<LogCommand<'_>>
    ensures { option_map wanted result ≡ project_in filter.now sequence }
{
    if is_valid_subject(filter) {
        Some(LogCommand::Project { filter, sequence })
    } else {
        None
    }
}

#[tactic(auto, unfolding(crate::specs::LogCommand::project_up_to))]
fn project_up_to<'a>(filter: &'a str, sequence: &str) -> Option<LogCommand<'a>>
    ensures { option_map wanted result ≡ project_up_to_in filter.now sequence.now }
{
    let sequence = read_number(sequence)?;
    project_of(filter, Some(sequence))
}

#[tactic(auto, unfolding(crate::specs::LogCommand::relay_of))]
fn relay_of<'a>(stream: &'a str, name: &'a str) -> Option<LogCommand<'a>>
    ensures { option_map wanted result ≡ relay_in stream.now name.now }
{
    if is_valid_name(stream) && is_valid_name(name) {
        Some(LogCommand::Relay { stream, name })
    } else {
        None
    }
}

#[tactic(auto, unfolding(crate::specs::LogCommand::bookmark_number))]
fn bookmark_number(word: &str) -> Option<u64>
    ensures { result ≡ bookmark_number_in word.now }
{
    let number = read_number(word)?;
    if 0 < number { Some(number) } else { None }
}

// The number below 2^64 that a word of 1 to 20 decimal digits is. A sign is none of its digits.
fn read_number(word: &str) -> Option<u64>
    ensures { result ≡ number_of word.now }
{
    if word.len() > 20 || word.as_bytes().first() == Some(&b'+') {
        return None;
    }
    read_u64(word)
}
