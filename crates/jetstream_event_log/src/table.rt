//! A live table of the keys of a bucket: each change that an ordered consumer of the bucket's
//! stream hands out, and the last entries of each key. [`put`], [`create`], [`update`], [`delete`]
//! and [`purge`] return the message of a write; publish it like any other message. [`get`] returns
//! the request that reads a key from the server without a table, and [`read_answer`] reads the
//! answer.
//!
//! # A table of a bucket
//!
//! ```text
//! let places = key_places(&store)?;                                    // 1. where the bucket's keys are
//! let rows = Rows::new(alloc, &places, 0)?;                            // 2. or those of an earlier table
//! let config = reader_config(alloc, &places, rows.next_sequence())?;   // 3. a consumer from where they end
//! let creating = context.create_consumer_on_stream(alloc, config, store.stream_name.as_str())?;
//! let table = open_reader(alloc, &mut link, consumer)?.table(rows);    // 4. once it is created
//! table.poll_next(alloc, &mut link, now);                              // 5. the next change
//! ```
pub use crate::bucket_limits::{buckets_keep_the_last, keeps_last_of_each_key};
pub use crate::key_places::{key_places, key_reads};
pub use crate::session_rows::rows_over_sessions_are_those_of_the_log;
pub use crate::table_reader::{TableReader, open_reader, reader_config};
pub use js_store_keys::{
    GetError, GetRequest, KeyPlaces, KeyReads, Operation, WriteError, WriteRefusal, create, delete,
    get, is_valid_key, operation_of, purge, put, read_answer, refusal_of, update,
};
pub use js_store_table::{
    Entry, OrderedReader, Rows, Table, TableError, limits_keep_the_last, rows_are_those_of_the_log,
    worked_limits, worked_logs,
};
