//! The server's error, where a kind of errors holds it.

use crate::tables::same;
use js_call_consumers::{
    ConsumerCreateStrictErrorKind, ConsumerErrorKind, ConsumerInfoErrorKind,
    ConsumerUpdateErrorKind,
};
use js_call_streams::{CreateStreamErrorKind, GetStreamErrorKind};
use js_codes::{ErrorCode, errors};

// What a server answers that does not know the stream.
fn unknown() -> errors::Error {
    errors::Error {
        code: 404,
        err_code: ErrorCode::STREAM_NOT_FOUND,
        description: None,
    }
}

// The code of the error that is held, 0 where none is.
fn code_of(held: Option<&errors::Error>) -> u64 {
    match held {
        Some(error) => error.code(),
        None => 0,
    }
}

fn held_by_streams() -> (u64, u64) {
    let get = GetStreamErrorKind::JetStream(unknown());
    let create = CreateStreamErrorKind::JetStream(unknown());
    (code_of(get.api_error()), code_of(create.api_error()))
}

fn held_by_consumers() -> (u64, u64) {
    let create = ConsumerErrorKind::JetStream(unknown());
    let info = ConsumerInfoErrorKind::JetStream(unknown());
    (code_of(create.api_error()), code_of(info.api_error()))
}

fn held_by_changes() -> (u64, u64) {
    let strict = ConsumerCreateStrictErrorKind::JetStream(unknown());
    let update = ConsumerUpdateErrorKind::JetStream(unknown());
    (code_of(strict.api_error()), code_of(update.api_error()))
}

fn none_by_streams() -> (u64, u64) {
    let get = GetStreamErrorKind::Request;
    let create = CreateStreamErrorKind::NotFound;
    (code_of(get.api_error()), code_of(create.api_error()))
}

fn none_by_consumers() -> (u64, u64) {
    let create = ConsumerErrorKind::Other;
    let info = ConsumerInfoErrorKind::NotFound;
    (code_of(create.api_error()), code_of(info.api_error()))
}

fn none_by_changes() -> (u64, u64) {
    let strict = ConsumerCreateStrictErrorKind::AlreadyExists;
    let update = ConsumerUpdateErrorKind::DoesNotExist;
    (code_of(strict.api_error()), code_of(update.api_error()))
}

#[test]
fn kinds_hold_the_servers_error(rt: HostRuntime) {
    same(&rt, "streams", held_by_streams(), (404, 404));
    same(&rt, "consumers", held_by_consumers(), (404, 404));
    same(&rt, "changes", held_by_changes(), (404, 404));
    same(&rt, "streams", none_by_streams(), (0, 0));
    same(&rt, "consumers", none_by_consumers(), (0, 0));
    same(&rt, "changes", none_by_changes(), (0, 0));
}
