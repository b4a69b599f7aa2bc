//! Calls on buckets of keys, and on the account.

use crate::server::polled;
use crate::stores::script::{Asked, Reply};
use crate::stores::server::{ContextCase, Row, context, polled_twice, says_each, serving};
use crate::tables::says;
use crate::words::Words;
use js_base::{OutOfMemory, Text};
use js_context::Context;
use js_link::ScriptedServer;
use js_store::{StoreCalls, kv};
use std::alloc::Global;

/// How the bucket is told.
const CFG: &str = "cfg KV_cfg $KV.cfg. - false KV_cfg";

/// A bucket's name, how many values of a key it keeps, and how long markers stand.
type Made = (&'static str, i64, Option<u64>);

/// A call on a bucket of keys, or on the account.
#[derive(Clone, Copy, Drop)]
enum Call {
    Account,
    Get(&'static str),
    Delete(&'static str),
    Create(Made),
    Update(Made),
    Put(Made),
}

fn config(alloc: Global, made: Made) -> Result<kv::Config, OutOfMemory> {
    Ok(kv::Config {
        bucket: Text::from_str(alloc, made.0)?,
        history: made.1,
        limit_markers: made.2,
        ..kv::Config::new(alloc)
    })
}

fn created(alloc: Global, context: &Context, server: &mut ScriptedServer, made: Made) -> Words {
    let config = config(alloc, made)?;
    polled(alloc, server, context.create_key_value(alloc, config))
}

fn updated(alloc: Global, context: &Context, server: &mut ScriptedServer, made: Made) -> Words {
    let config = config(alloc, made)?;
    polled(alloc, server, context.update_key_value(alloc, config))
}

fn created_or_updated(
    alloc: Global,
    context: &Context,
    server: &mut ScriptedServer,
    made: Made,
) -> Words {
    let config = config(alloc, made)?;
    polled(
        alloc,
        server,
        context.create_or_update_key_value(alloc, config),
    )
}

fn got(alloc: Global, context: &Context, server: &mut ScriptedServer, bucket: &str) -> Words {
    polled(alloc, server, context.get_key_value(alloc, bucket))
}

fn removed(alloc: Global, context: &Context, server: &mut ScriptedServer, bucket: &str) -> Words {
    polled(alloc, server, context.delete_key_value(alloc, bucket))
}

fn queried(alloc: Global, context: &Context, server: &mut ScriptedServer) -> Words {
    polled(alloc, server, context.query_account(alloc))
}

impl ContextCase for Call {
    fn outcome_text(self, alloc: Global, context: &Context, server: &mut ScriptedServer) -> Words {
        match self {
            Call::Account => queried(alloc, context, server),
            Call::Get(bucket) => got(alloc, context, server, bucket),
            Call::Delete(bucket) => removed(alloc, context, server, bucket),
            Call::Create(made) => created(alloc, context, server, made),
            Call::Update(made) => updated(alloc, context, server, made),
            Call::Put(made) => created_or_updated(alloc, context, server, made),
        }
    }
}

/// Calls, what they ask and are replied, and what they come to.
const CALLS: &[Row<Call>] = &[
    (Call::Account, &[(Asked::Account, Reply::Level0)], "96 0"),
    (Call::Account, &[(Asked::Account, Reply::Level1)], "96 1"),
    (
        Call::Account,
        &[(Asked::Account, Reply::Nobody)],
        "JetStream unavailable: requested JetStream resource does not exist",
    ),
    (
        Call::Account,
        &[(Asked::Account, Reply::Wrong)],
        "JetStream error: no (code 400, error code 10058)",
    ),
    (
        Call::Account,
        &[(Asked::Account, Reply::Old)],
        "error: reserved_memory: missing",
    ),
    (Call::Get("cfg"), &[(Asked::Info, Reply::Known)], CFG),
    (
        Call::Get("cfg"),
        &[(Asked::Info, Reply::Mirror)],
        "cfg KV_cfg $KV.src. $JS.hub.API.$KV.src. false KV_cfg",
    ),
    (
        Call::Get("cfg"),
        &[(Asked::Info, Reply::NoBucket)],
        "invalid Key Value Store name",
    ),
    (
        Call::Get("cfg"),
        &[(Asked::Info, Reply::Absent)],
        "failed to get the bucket: unknown (code 404, error code 10059)",
    ),
    (
        Call::Get("cfg"),
        &[(Asked::Info, Reply::Nobody)],
        "failed to get the bucket: request error: requested JetStream resource does not exist",
    ),
    (Call::Get("a.b"), &[], "invalid Key Value Store name"),
    (Call::Get(""), &[], "invalid Key Value Store name"),
    (
        Call::Delete("cfg"),
        &[(Asked::Delete, Reply::Deleted)],
        "deleted",
    ),
    (
        Call::Delete("cfg"),
        &[(Asked::Delete, Reply::Wrong)],
        "JetStream error: no (code 400, error code 10058)",
    ),
    (Call::Delete("a.b"), &[], "invalid Key Value Store name"),
    (
        Call::Create(("cfg", 0, None)),
        &[
            (Asked::Account, Reply::Level0),
            (Asked::Create, Reply::Known),
        ],
        CFG,
    ),
    (
        Call::Create(("cfg", 64, Some(1_000_000_000))),
        &[
            (Asked::Account, Reply::Level1),
            (Asked::CreateMarked, Reply::Known),
        ],
        CFG,
    ),
    (
        Call::Create(("cfg", 0, Some(1_000_000_000))),
        &[(Asked::Account, Reply::Level0)],
        "limit markers not supported",
    ),
    (
        Call::Create(("cfg", 0, None)),
        &[(Asked::Account, Reply::Nobody)],
        "JetStream error: JetStream unavailable: requested JetStream resource does not exist",
    ),
    (
        Call::Create(("cfg", 0, None)),
        &[
            (Asked::Account, Reply::Level0),
            (Asked::Create, Reply::Wrong),
        ],
        "bucket creation failed: no (code 400, error code 10058)",
    ),
    (Call::Create(("cfg", 65, None)), &[], "too long history"),
    (
        Call::Create(("a.b", 65, None)),
        &[],
        "invalid Key Value Store name",
    ),
    (
        Call::Update(("cfg", 1, None)),
        &[
            (Asked::Account, Reply::Level0),
            (Asked::Update, Reply::Mirror),
        ],
        "cfg KV_cfg $KV.src. $JS.hub.API.$KV.src. false KV_cfg",
    ),
    (
        Call::Update(("cfg", 1, None)),
        &[
            (Asked::Account, Reply::Level0),
            (Asked::Update, Reply::Absent),
        ],
        "bucket does not exist: unknown (code 404, error code 10059)",
    ),
    (
        Call::Update(("cfg", 1, None)),
        &[
            (Asked::Account, Reply::Level0),
            (Asked::Update, Reply::Wrong),
        ],
        "JetStream error: no (code 400, error code 10058)",
    ),
    (
        Call::Update(("cfg", 1, Some(1))),
        &[(Asked::Account, Reply::Level0)],
        "limit markers not supported",
    ),
    (Call::Update(("cfg", 65, None)), &[], "too long history"),
    (
        Call::Put(("cfg", 0, None)),
        &[
            (Asked::Account, Reply::Level0),
            (Asked::Update, Reply::Known),
        ],
        CFG,
    ),
    (
        Call::Put(("cfg", 0, None)),
        &[
            (Asked::Account, Reply::Level0),
            (Asked::Update, Reply::Absent),
            (Asked::Create, Reply::Known),
        ],
        CFG,
    ),
    (
        Call::Put(("cfg", 0, None)),
        &[
            (Asked::Account, Reply::Level0),
            (Asked::Update, Reply::Wrong),
        ],
        "JetStream error: no (code 400, error code 10058)",
    ),
    (
        Call::Put(("cfg", 0, None)),
        &[(Asked::Account, Reply::Old)],
        "JetStream error: error: reserved_memory: missing",
    ),
];

#[test]
fn calls_on_keys_ask_and_answer(rt: HostRuntime) {
    let context = context(&rt, rt.alloc(), "$JS.API").expect(&rt, "context");
    says_each(&rt, rt.alloc(), &context, CALLS);
    drop(context);
}

/// A bucket under another prefix of the API, which is told.
const ELSEWHERE: &[Row<Call>] = &[(
    Call::Get("cfg"),
    &[(Asked::InfoElsewhere, Reply::Known)],
    "cfg KV_cfg $KV.cfg. - true KV_cfg",
)];

#[test]
fn another_api_is_told(rt: HostRuntime) {
    let context = context(&rt, rt.alloc(), "$JS.hub.API").expect(&rt, "context");
    says_each(&rt, rt.alloc(), &context, ELSEWHERE);
    drop(context);
}

// What the making of a bucket comes to whose account is told at once, and whose stream is not within 200 nanoseconds.
fn late_over(alloc: Global, context: &Context, server: &mut ScriptedServer) -> Words {
    let config = config(alloc, ("cfg", 0, None))?;
    polled_twice(alloc, server, context.create_key_value(alloc, config))
}

fn late(alloc: Global, context: &Context) -> Words {
    let mut server = serving(alloc, &[(Asked::Account, Reply::Level0)])?;
    let words = late_over(alloc, context, &mut server);
    drop(server);
    words
}

#[test]
fn a_stream_that_is_not_made_in_time_is_told(rt: HostRuntime) {
    let context = context(&rt, rt.alloc(), "$JS.API").expect(&rt, "context");
    let wanted = "timed out: jetstream request timed out: timed out";
    says(&rt, wanted, late(rt.alloc(), &context), wanted);
    drop(context);
}
