//! What `bench/` measures. Each line of standard input names a benchmark with its numbers, and is run once, in order:
//!
//! | Line | What is done | What is printed |
//! |---|---|---|
//! | `parse CALLS SUBJECT` | an acknowledgement subject is read CALLS times | whether it reads |
//! | `publish MESSAGES AT_ONCE` | MESSAGES are published over an `OutboxLink`, AT_ONCE of them pushed at once | how many were stored, and how many were in flight at most |
//! | `pull MESSAGES`, `push MESSAGES` | an ordered consumer of that kind reads MESSAGES, of which none is lost | how many it yields |
//! | `deliver MESSAGES` | MESSAGES are delivered to inboxes that nobody reads | how many these are |
//! | `table CHANGES KEYS` | a live table reads CHANGES from an ordered push consumer, each of the next of KEYS keys | how many it tells, and how many entries it keeps |
//! | `receive MESSAGES` | a connection receives MESSAGES of 128 bytes, and takes each from its inbox | how many these are |
//! | `send MESSAGES` | MESSAGES of 128 bytes are published over a connection, and its bytes sent | how many bytes these are |
//! | `hear SEED PIECES` | a connection hears PIECES of hostile bytes that are drawn by SEED | what came of them |
//! | `lose SEEDS` | for each number below SEEDS, a pull and a push consumer read a log each from a `TestServer`, through losses | how many of each kind yield theirs whole |
//!
//! `lose` alone has a server. What the others measure is a part of this client, to which the answers are written down; `publish` answers each message with the next
//! sequence.
//!
//! `pull`, `push` and `deliver` count in whole batches of 500, `receive` and `send` in those of 1000. A word that is no number counts as 0. Any other line ends the program with an error that names it.
#![tactic(auto)]

mod batches;
mod hostile;
mod lossy;
mod lossy_server;
mod parse;
mod publish;
mod reader;
mod round;
mod table;
mod texts;
mod wire;

use js_ordered_stream::{pull, push};
use reader::Kind;
use std::alloc::{AllocError, Global};
use std::io::{self, BufRead, BufReader};
use std::sync::Wait;
use std::test::Fail;

fn main(rt: HostRuntime) -> Result<(), Fail> {
    let input = BufReader::new(rt.alloc(), rt.reader())?;
    for line in input.lines(rt.alloc()) {
        run_line(&rt, line)?;
    }
    Ok(())
}

fn run_line(
    rt: &(impl Print + AllocGlobal + Wait),
    line: Result<String, io::Error>,
) -> Result<(), Fail> {
    let line = line?;
    let run = run_words_of(rt, line.as_str());
    drop(line);
    run
}

fn run_words_of(rt: &(impl Print + AllocGlobal + Wait), line: &str) -> Result<(), Fail> {
    let words = words(rt.alloc(), line)?;
    let run = run(rt, line, &words);
    drop(words);
    run
}

// The words of a line, after single spaces.
fn words(alloc: Global, line: &str) -> Result<Vec<&str>, AllocError> {
    let mut words = Vec::new(alloc);
    for word in line.split(' ') {
        words.push(word)?;
    }
    Ok(words)
}

// Runs the benchmark that the words of a line name.
fn run(rt: &(impl Print + AllocGlobal + Wait), line: &str, words: &[&str]) -> Result<(), Fail> {
    match *words {
        ["parse", calls, subject] => parse::run(rt, number(calls), subject),
        ["publish", messages, at_once] => publish::run(rt, number(messages), number(at_once)),
        ["pull", messages] => batches::read::<pull::Ordered>(rt, Kind::Pull, number(messages)),
        ["push", messages] => batches::read::<push::Ordered>(rt, Kind::Push, number(messages)),
        ["deliver", messages] => batches::deliver_alone(rt, number(messages)),
        ["table", changes, keys] => table::run(rt, number(changes), number(keys)),
        ["receive", messages] => wire::receive_messages(rt, number(messages)),
        ["send", messages] => wire::send_messages(rt, number(messages)),
        ["hear", seed, pieces] => hostile::hear_hostile(rt, number(seed), number(pieces)),
        ["lose", seeds] => lossy::lose(rt, number(seeds)),
        _ => Err(Fail::new(format_args!("no benchmark: {line}"))),
    }
}

// The number that a word is, or 0.
fn number(word: &str) -> u64 {
    word.parse().unwrap_or(0)
}
