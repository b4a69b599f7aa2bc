//! Calls on buckets of objects.

use crate::server::polled;
use crate::stores::script::{Asked, Reply};
use crate::stores::server::{ContextCase, Row, context, says_each};
use crate::words::Words;
use js_base::{OutOfMemory, Text};
use js_context::Context;
use js_link::ScriptedServer;
use js_store::{StoreCalls, object_store};
use std::alloc::Global;

/// A call on the bucket of objects of a name.
#[derive(Clone, Copy, Drop)]
enum Call {
    Create(&'static str),
    Get(&'static str),
    Delete(&'static str),
}

fn config(alloc: Global, bucket: &str) -> Result<object_store::Config, OutOfMemory> {
    Ok(object_store::Config {
        bucket: Text::from_str(alloc, bucket)?,
        compression: true,
        ..object_store::Config::new(alloc)
    })
}

fn created(alloc: Global, context: &Context, server: &mut ScriptedServer, bucket: &str) -> Words {
    let config = config(alloc, bucket)?;
    polled(alloc, server, context.create_object_store(alloc, config))
}

fn got(alloc: Global, context: &Context, server: &mut ScriptedServer, bucket: &str) -> Words {
    polled(alloc, server, context.get_object_store(alloc, bucket))
}

fn removed(alloc: Global, context: &Context, server: &mut ScriptedServer, bucket: &str) -> Words {
    polled(alloc, server, context.delete_object_store(alloc, bucket))
}

impl ContextCase for Call {
    fn outcome_text(self, alloc: Global, context: &Context, server: &mut ScriptedServer) -> Words {
        match self {
            Call::Create(bucket) => created(alloc, context, server, bucket),
            Call::Get(bucket) => got(alloc, context, server, bucket),
            Call::Delete(bucket) => removed(alloc, context, server, bucket),
        }
    }
}

/// Calls, what they ask and are replied, and what they come to.
const CALLS: &[Row<Call>] = &[
    (
        Call::Create("files"),
        &[(Asked::CreateObjects, Reply::KnownObjects)],
        "files OBJ_files",
    ),
    (
        Call::Create("files"),
        &[(Asked::CreateObjects, Reply::Wrong)],
        "bucket creation failed: no (code 400, error code 10058)",
    ),
    (Call::Create("a.b"), &[], "invalid Key Value Store name"),
    (
        Call::Get("files"),
        &[(Asked::ObjectsInfo, Reply::KnownObjects)],
        "files OBJ_files",
    ),
    (
        Call::Get("files"),
        &[(Asked::ObjectsInfo, Reply::Nobody)],
        "failed to get Object Store: request error: requested JetStream resource does not exist",
    ),
    (Call::Get("a.b"), &[], "invalid Object Store bucket name"),
    (
        Call::Delete("files"),
        &[(Asked::DeleteObjects, Reply::Deleted)],
        "done",
    ),
    (
        Call::Delete("files"),
        &[(Asked::DeleteObjects, Reply::Absent)],
        "failed to get Object Store: unknown (code 404, error code 10059)",
    ),
    (
        Call::Delete("a.b"),
        &[],
        "failed to get Object Store: invalid stream name",
    ),
];

#[test]
fn calls_on_objects_ask_and_answer(rt: HostRuntime) {
    let context = context(&rt, rt.alloc(), "$JS.API").expect(&rt, "context");
    says_each(&rt, rt.alloc(), &context, CALLS);
    drop(context);
}
