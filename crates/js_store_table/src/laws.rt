//! What is proved of the rows of a table and the log of its bucket.
ghost use Rattle.std.specs.Prelude.{ℕ, List};
ghost use Rattle.js_ordered_table.specs.Gapless.{Server, Entry as Yield};
ghost use Rattle.js_ordered_table.specs.declared.setup.OrderedSetup.{OrderedSetup};
ghost use Rattle.js_store_keys.specs.declared.entry.Entry.{Entry};
ghost use Rattle.js_store_table.specs.BucketLog.{HasLogsRows};
ghost use Rattle.js_store_table.specs.Removals.{Limits, HasBucketsRows, LimitsOvertake, LimitsKeepLast};
ghost use Rattle.js_store_table.specs.TableRows.{KeyRows};
ghost use Rattle.js_store_table.specs.WorkedLimits as example;
ghost use Rattle.js_store_table.specs.WorkedLogs as worked;

/// Proves that the rows of a table are those of its bucket's log, from the configured start of its
/// reader up to the last change that it returned. It says which entries each key has, and in which
/// order, as if the table had read every message of the bucket.
///
/// The premise is that the server was honest, so that the reader's yields leave no gap, and that
/// each removed message of the bucket was overtaken: the log has a later purge of its key, or as
/// many later messages of its key as the bucket keeps. For a bucket whose limits keep the last of
/// each key ([`limits_keep_the_last`]), it suffices that its server removed within these limits.
/// Does nothing when called.
pub fn rows_are_those_of_the_log()
    ensures rows { (s : Server) (setup : OrderedSetup) (yields : List Yield) (history : ℕ) (rows : KeyRows) (told : List Entry) → HasLogsRows s setup yields history rows told }
    ensures by_limits { (s : Server) (setup : OrderedSetup) (yields : List Yield) (limits : Limits) (rows : KeyRows) (told : List Entry) → HasBucketsRows s setup yields limits rows told }
{}

/// Proves a small example of a removed message that was overtaken, and of one that was not. In
/// both, the bucket keeps two messages of a key, and the first message was removed. In the first
/// the log has two later ones of its key, and the changes returned have the log's rows. In the
/// second it has one, and a row has one entry less: the premise is needed. Does nothing when
/// called.
pub fn worked_logs()
    ensures overtaken { worked.HasItsRows 2 worked.first_removed worked.three_changes worked.last_two }
    ensures left_behind { worked.LacksAnEntry 2 worked.first_removed worked.two_changes worked.last_one }
{}

/// Proves that a bucket with these limits keeps the last message of each key, and that each message
/// that its server removed was overtaken: the premise of [`rows_are_those_of_the_log`].
///
/// The limits are those of the bucket's stream: so many messages of a subject, no limit of age for
/// the stream or for single messages, a full stream refuses new messages, acknowledged messages
/// stay, and requests to delete a message are denied. The server then removes a message only if its
/// subject has as many later messages as the limit, or if a later purge of its key rolled up the
/// subject. The log goes up to the last change that was returned, so what was removed because of
/// still later messages is not covered: this is met once the table is current.
///
/// It does not hold if the bucket has a limit of age, or if somebody purges the stream by a request
/// or publishes a message with the header `Nats-Rollup` that is no purge of a key. Does nothing when
/// called.
pub fn limits_keep_the_last()
    ensures overtaken { (limits : Limits) (removed : List ℕ) (log : List Entry) → LimitsOvertake limits removed log }
    ensures last { (limits : Limits) (removed : List ℕ) (log : List Entry) → LimitsKeepLast limits removed log }
{}

/// Proves a small example of limits that remove what was overtaken alone, and one of a limit of age
/// that removes more. In both, the bucket keeps two messages of a key, and the first message was
/// removed. Without a limit of age the server may remove it once two later messages of its key are
/// there, and not sooner. With one it may remove it beside a single later message: a row then has
/// one entry less than the log. Does nothing when called.
pub fn worked_limits()
    ensures by_history { example.RemovesOvertaken (example.two_kept 0) worked.first_removed worked.three_changes worked.two_changes }
    ensures by_age { example.RemovesByAge (example.two_kept 1_000_000_000) 2 worked.first_removed worked.two_changes worked.last_one }
{}
