//! Which buckets keep the last value of each key.
ghost use Rattle.std.specs.Prelude.{◌≡◌, ℕ, List, pos};
ghost use Rattle.js_ordered_table.specs.Gapless.{Server, Entry as Yield};
ghost use Rattle.js_ordered_table.specs.declared.setup.OrderedSetup.{OrderedSetup};
ghost use Rattle.js_store.specs.Kv.{history_of};
ghost use Rattle.js_store.specs.declared.kv.Config.{Config};
ghost use Rattle.js_store_keys.specs.declared.entry.Entry.{Entry};
ghost use Rattle.js_store_table.specs.Removals.{KeepsLast};
ghost use Rattle.js_store_table.specs.TableRows.{KeyRows};
ghost use Rattle.jetstream_event_log.specs.BucketLimits.{IsAnswer, NothingExpires, BucketOvertakes, BucketKeepsLast, BucketHasRows, bucket_limits, keeps_by, limits_of, may_be_full as may_be_full_in, refuses_by};

use js_json_stream_bodies::stream::{self, DiscardPolicy, RetentionPolicy};
use js_store_table::{limits_keep_the_last, rows_are_those_of_the_log};

fn may_be_full(config: &stream::Config) -> bool
    ensures { result ≡ may_be_full_in config.now }
{
    config.max_messages > 0 || config.max_bytes > 0
}

fn refuses_when_full(config: &stream::Config) -> bool
    ensures { result ≡ refuses_by config.now.discard (may_be_full_in config.now) }
{
    match config.discard {
        DiscardPolicy::New => true,
        DiscardPolicy::Old => !may_be_full(config),
    }
}

fn keeps_acknowledged(retention: RetentionPolicy) -> bool
    ensures { result ≡ keeps_by retention }
{
    match retention {
        RetentionPolicy::Limits => true,
        RetentionPolicy::Interest | RetentionPolicy::WorkQueue => false,
    }
}

/// Returns whether a stream with this configuration keeps the last message of each subject for as
/// long as its server removes messages only by the stream's limits and by purges of keys. Pass the
/// configuration that the server returned, `store.stream.info.config`, before you rely on the rows
/// of a table of the bucket.
///
/// It does if the stream has no limit of age and lets no message say by itself how long it is kept,
/// retains messages by limits, denies requests to delete a message, and refuses new messages when it
/// is full, or is never full because neither its messages nor its bytes have a limit. A limit of
/// messages per subject does no harm: it removes only what later messages have overtaken.
///
/// A request that purges the stream is not looked at: it removes any message, unless `deny_purge`
/// denies it, which a bucket's configuration does not.
pub fn keeps_last_of_each_key(config: &stream::Config) -> bool
    ensures { IsAnswer (limits_of config.now) result }
{
    config.max_age == 0
        && !config.allow_message_ttl
        && config.deny_delete
        && keeps_acknowledged(config.retention)
        && refuses_when_full(config)
}

/// Proves that a bucket of this crate keeps the last change of each key, and that its table is that
/// of its log, unless its values expire.
///
/// The limits of the stream that a bucket's [configuration](js_store::kv::Config) makes keep the
/// last of each key exactly if `max_age` is 0 and `limit_markers` is `None`. The history, which is
/// how many messages of a key the stream keeps, `max_bytes` and all else do no harm: a full bucket
/// refuses new values. Then each message that the bucket's server removed within these limits was
/// overtaken, the last change of each key is still there, and the rows of a table are those of the
/// bucket's log: the premise of [`rows_are_those_of_the_log`] is met.
///
/// Not covered are requests that purge the stream, which a bucket's stream does not deny, and
/// messages with the header `Nats-Rollup` that are no purge of a key. A bucket that copies another
/// one has only what that one had when it was copied. Does nothing when called.
pub fn buckets_keep_the_last()
    ensures kept { (config : Config) → NothingExpires config → KeepsLast (bucket_limits config) }
    ensures only { (config : Config) → KeepsLast (bucket_limits config) → NothingExpires config }
    ensures history { (config : Config) → pos (bucket_limits config).messages_per_subject ≡ history_of config.history }
    ensures overtaken { (config : Config) (removed : List ℕ) (log : List Entry) → BucketOvertakes config removed log }
    ensures last { (config : Config) (removed : List ℕ) (log : List Entry) → BucketKeepsLast config removed log }
    ensures rows { (s : Server) (setup : OrderedSetup) (yields : List Yield) (config : Config) (rows : KeyRows) (told : List Entry) → BucketHasRows s setup yields config rows told }
{
    limits_keep_the_last();
    rows_are_those_of_the_log();
}
