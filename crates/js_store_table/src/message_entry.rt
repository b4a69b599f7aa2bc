//! The entry that a message of a bucket's stream reports.
ghost use Rattle.std.specs.Prelude.{◌≡◌, IfOk, option_map};
ghost use Rattle.std.specs.Option.{option_copied};
ghost use Rattle.js_message.specs.Info.{shown};
ghost use Rattle.js_store_table.specs.MessageEntry.{Tells, entry_with, info_in as info_in_reply, key_in as key_in_subject, told_by};

use js_base::{Message, OutOfMemory, Subject, Text, TryClone, all_3};
use js_message::{Info, parse_info};
use js_store_keys::{Entry, operation_of};
use std::alloc::Global;

/// Why a message gives no entry.
#[derive(Clone, Copy, Debug, PartialEq, Eq)]
pub(crate) enum Untold {
    /// The message is not one of the bucket's: its subject does not begin with the bucket's prefix,
    /// or it does not say where it stands in the stream.
    NoEntry,
    OutOfMemory,
}

// Where a message with this reply subject stands.
fn info_in(reply: &Option<Subject>) -> Option<Info<'_>>
    ensures { option_map shown result ≡ info_in_reply reply.now }
{
    match reply {
        None => None,
        Some(reply) => match parse_info(reply.as_str()) {
            Ok(info) => Some(info),
            Err(_) => None,
        },
    }
}

// The key of a subject.
fn key_in<'a>(prefix: &str, subject: &'a str) -> Option<&'a str>
    ensures { option_copied result ≡ key_in_subject prefix.now subject.now }
{
    subject.strip_prefix(prefix)
}

// The entry of a key.
fn entry_with(
    alloc: Global,
    bucket: &Text,
    key: &str,
    message: &Message,
    info: &Info<'_>,
) -> Result<Entry, OutOfMemory>
    ensures { IfOk result (λ entry. entry ≡ entry_with bucket.now key.now message.now (shown info.now)) }
{
    let (bucket, key, value) = all_3(
        bucket.try_clone(),
        Text::from_str(alloc, key),
        message.payload.try_clone(),
    )?;
    Ok(Entry {
        bucket,
        key,
        value,
        revision: info.stream_sequence,
        operation: operation_of(message.headers.as_ref()),
        created: info.published.as_nanosecond(),
        delta: info.pending,
    })
}

/// Returns the entry that a message reports. Its subject has to begin with the prefix of the
/// bucket's keys.
pub(crate) fn entry_of(
    alloc: Global,
    bucket: &Text,
    prefix: &str,
    message: &Message,
) -> Result<Entry, Untold>
    ensures { Tells (told_by bucket.now prefix.now message.now) result }
{
    let Some(info) = info_in(&message.reply) else {
        return Err(Untold::NoEntry);
    };
    let Some(key) = key_in(prefix, message.subject.as_str()) else {
        return Err(Untold::NoEntry);
    };
    match entry_with(alloc, bucket, key, message, &info) {
        Ok(entry) => Ok(entry),
        Err(OutOfMemory) => Err(Untold::OutOfMemory),
    }
}
