//! Lists of streams, and the stream of a subject.

use crate::server::{
    Answered, Asked, Case, Reply, Words, answer_word, outcome, polled, scope, word,
};
use crate::tables::says;
use crate::words::add_line;
use js_base::{Next, OutOfMemory};
use js_call::ApiScope;
use js_call_streams::{ListItem, Listing, StreamsError, stream_by_subject, stream_names, streams};
use js_link::{Link, ScriptedServer};
use std::alloc::Global;

/// A page of the names of all streams, from the first, the second or the third on.
const FIRST: Asked = ("$JS.API.STREAM.NAMES", r#"{"offset":0,"subject":null}"#);

const SECOND: Asked = ("$JS.API.STREAM.NAMES", r#"{"offset":1,"subject":null}"#);

const THIRD: Asked = ("$JS.API.STREAM.NAMES", r#"{"offset":2,"subject":null}"#);

/// A page of the names of the streams that take a subject.
const TAKING: Asked = (
    "$JS.API.STREAM.NAMES",
    r#"{"offset":0,"subject":"events.x"}"#,
);

/// A page of what the server knows of all streams.
const INFOS: Asked = ("$JS.API.STREAM.LIST", r#"{"offset":0}"#);

/// What a page that was not got is answered with.
const FAULT: Reply = (None, r#"{"error":{"code":503,"err_code":10008}}"#);

/// A page with what the server knows of one stream.
const KNOWN: Reply = (
    None,
    r#"{"total":1,"streams":[{"config":{"name":"events"},"created":"2026-01-01T00:00:00Z","state":{"messages":7,"bytes":70,"first_seq":1,"last_seq":7}}]}"#,
);

// What a poll of a list hands out.
fn next_word<T: Answered>(alloc: Global, next: &Next<Result<T, StreamsError>>) -> Words {
    match next {
        Next::Item(item) => answer_word(alloc, item),
        Next::Pending => word(alloc, "pending"),
        Next::End => word(alloc, "end"),
        Next::OutOfMemory => Err(OutOfMemory),
    }
}

/// What the next poll of a list hands out.
pub(crate) fn next<T: ListItem + Answered, L: Link>(
    alloc: Global,
    list: &mut Listing<T>,
    link: &mut L,
) -> Words {
    let next = list.poll_next(alloc, link, 0);
    let words = next_word(alloc, &next);
    drop(next);
    words
}

// Adds what the next poll hands out to the words before it, as a line.
fn add_next<T: ListItem + Answered, L: Link>(
    alloc: Global,
    list: &mut Listing<T>,
    link: &mut L,
    words: &mut String,
) -> Result<(), OutOfMemory> {
    let word = next(alloc, list, link)?;
    add_line(words, word.as_str())
}

// What a list hands out in so many polls, each word with a line's end.
fn handed_out<T: ListItem + Answered, L: Link>(
    alloc: Global,
    list: &mut Listing<T>,
    link: &mut L,
    polls: u64,
) -> Words {
    let mut words = String::new(alloc);
    for _ in 0..polls {
        add_next(alloc, list, link, &mut words)?;
    }
    Ok(words)
}

fn listed<T: ListItem + Answered, L: Link>(
    alloc: Global,
    list: Result<Listing<T>, OutOfMemory>,
    link: &mut L,
    polls: u64,
) -> Words {
    match list {
        Ok(mut list) => {
            let words = handed_out(alloc, &mut list, link, polls);
            drop(list);
            words
        }
        Err(OutOfMemory) => Err(OutOfMemory),
    }
}

/// What is listed.
#[derive(Clone, Copy, Drop)]
enum List {
    /// The names of all streams, in so many polls.
    Names(u64),
    /// What the server knows of all streams, in so many polls.
    Infos(u64),
    /// The first stream of a subject.
    BySubject(&'static str),
}

fn names<L: Link>(alloc: Global, link: &mut L, scope: &ApiScope, polls: u64) -> Words {
    listed(alloc, stream_names(alloc, scope), link, polls)
}

fn infos<L: Link>(alloc: Global, link: &mut L, scope: &ApiScope, polls: u64) -> Words {
    listed(alloc, streams(alloc, scope), link, polls)
}

fn by_subject<L: Link>(alloc: Global, link: &mut L, scope: &ApiScope, subject: &str) -> Words {
    polled(alloc, link, stream_by_subject(alloc, scope, subject))
}

fn outcome_text_in<L: Link>(alloc: Global, link: &mut L, scope: &ApiScope, list: List) -> Words {
    match list {
        List::Names(polls) => names(alloc, link, scope, polls),
        List::Infos(polls) => infos(alloc, link, scope, polls),
        List::BySubject(subject) => by_subject(alloc, link, scope, subject),
    }
}

impl Case for List {
    fn outcome_text(self, alloc: Global, server: &mut ScriptedServer) -> Words {
        let scope = scope(alloc, "$JS.API", None)?;
        outcome_text_in(alloc, server, &scope, self)
    }
}

/// A list that is polled so often, what it asks and is replied, and what it hands out.
const LISTS: &[(List, &[(Asked, Reply)], &str)] = &[
    // A page is handed out from its end.
    (
        List::Names(5),
        &[
            (FIRST, (None, r#"{"total":3,"streams":["a","b"]}"#)),
            (THIRD, (None, r#"{"total":3,"streams":["c"]}"#)),
        ],
        "b\na\nc\nend\nend\n",
    ),
    // A page that was not got is asked for again.
    (
        List::Names(5),
        &[
            (FIRST, (None, r#"{"total":2,"streams":["a"]}"#)),
            (SECOND, FAULT),
            (SECOND, (None, r#"{"streams":["b"]}"#)),
            (SECOND, (None, r#"{"total":2,"streams":["b"]}"#)),
        ],
        "a\nrequest failed: unknown (code 503, error code 10008)\nrequest failed: total: missing\nb\nend\n",
    ),
    // An empty page ends the list until the next poll.
    (
        List::Names(4),
        &[
            (FIRST, (None, r#"{"total":1}"#)),
            (FIRST, (None, r#"{"total":1,"streams":[]}"#)),
            (FIRST, (None, r#"{"total":1,"streams":["a"]}"#)),
        ],
        "end\nend\na\nend\n",
    ),
    (List::Infos(2), &[(INFOS, KNOWN)], "events 7\nend\n"),
];

#[test]
fn lists_are_handed_out(rt: HostRuntime) {
    for &(list, script, wanted) in LISTS {
        says(&rt, wanted, outcome(rt.alloc(), list, script), wanted);
    }
}

/// A subject, what is asked and replied, and what the search for its stream comes to.
const SEARCHES: &[(&str, &[(Asked, Reply)], &str)] = &[
    (
        "events.x",
        &[(TAKING, (None, r#"{"total":3,"streams":["a","b"]}"#))],
        "b",
    ),
    (
        "events.x",
        &[(TAKING, (None, r#"{"total":0,"streams":null}"#))],
        "stream not found",
    ),
    (
        "events.x",
        &[(TAKING, FAULT)],
        "request error: unknown (code 503, error code 10008)",
    ),
    ("a b", &[], "invalid subject"),
];

#[test]
fn the_stream_of_a_subject_is_the_first_item(rt: HostRuntime) {
    for &(subject, script, wanted) in SEARCHES {
        let found = outcome(rt.alloc(), List::BySubject(subject), script);
        says(&rt, wanted, found, wanted);
    }
}
