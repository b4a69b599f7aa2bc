//! Pull requests.

ghost use Rattle.std.specs.Prelude.{◌≡◌, Ok, Option, Result, string_bytes, option_copied};
ghost use Rattle.serde_json.specs.Data.{Members, no_members};
ghost use Rattle.js_json_members.specs.Object.{Holds};
ghost use Rattle.js_json_members.specs.Member.{GivesAs};
ghost use Rattle.js_json_members.specs.Rows.{with_row, with_rows, where_some, text_data, text_of};
ghost use Rattle.js_json_members.specs.declared.key.Key.TheVariants.{Id as id};
ghost use Rattle.js_json_members.specs.declared.error.ReadError.{ReadError};
ghost use Rattle.js_json.specs.Batch.{new_batch_config, batch_config_rows, batch_config_value, pull_request_value};

use js_base::{Nanos, OutOfMemory, Text, TryClone};
use js_json_members::{Key, Object, ReadError, ToValue};
use serde_json::Value;
use std::alloc::Global;

/// What a pull request asks for.
#[derive(Debug, PartialEq, Eq, Drop)]
pub struct BatchConfig {
    /// How many messages to ask for.
    pub batch: u64,
    /// How long the server keeps the request, in nanoseconds.
    pub expires: Option<Nanos>,
    /// Whether the server answers at once if it has no message.
    pub no_wait: bool,
    /// How many bytes to ask for at most. 0 means no limit.
    pub max_bytes: u64,
    /// The idle heartbeat of the request, in nanoseconds. 0 means no heartbeats.
    pub idle_heartbeat: Nanos,
    /// How many messages must be pending for the consumer.
    pub min_pending: Option<u64>,
    /// How many messages must be waiting for their acknowledgement.
    pub min_ack_pending: Option<u64>,
    /// The priority group of the reader.
    pub group: Option<Text>,
    /// The priority of the reader in the group.
    pub priority: Option<u64>,
}

impl BatchConfig {
    /// Returns the default request: every number 0 and nothing else set.
    pub fn new() -> BatchConfig
        ensures { result ≡ new_batch_config }
    {
        BatchConfig {
            batch: 0,
            expires: None,
            no_wait: false,
            max_bytes: 0,
            idle_heartbeat: 0,
            min_pending: None,
            min_ack_pending: None,
            group: None,
            priority: None,
        }
    }

    /// Returns the JSON body of the request, with the id `pin` of the pinned client if given. Fails
    /// only with `OutOfMemory`.
    #[tactic(auto, unfolding(crate::specs::Batch::pull_request_value, js_json_members::specs::Rows::text_of))]
    pub fn request_text(&self, alloc: Global, pin: Option<&Text>) -> Result<String, ReadError>
        ensures { GivesAs string_bytes result (text_of (pull_request_value (option_copied pin.entry) self.now)) }
    {
        let request = self.put_rows(alloc, with_pin(alloc, pin)).finish()?;
        Ok(request.to_string(alloc)?)
    }

    fn put_rows(&self, alloc: Global, object: Object) -> Object
        ensures { (rows : Result Members ReadError) → Holds object rows
            → Holds result (with_rows rows (batch_config_rows self.now)) }
    {
        object
            .always(alloc, Key::Batch, &self.batch)
            .where_some(alloc, Key::Expires, &self.expires)
            .unless_blank(alloc, Key::NoWait, &self.no_wait)
            .always(alloc, Key::MaxBytes, &self.max_bytes)
            .unless_blank(alloc, Key::IdleHeartbeat, &self.idle_heartbeat)
            .or_null(alloc, Key::MinPending, &self.min_pending)
            .or_null(alloc, Key::MinAckPending, &self.min_ack_pending)
            .or_null(alloc, Key::Group, &self.group)
            .or_null(alloc, Key::Priority, &self.priority)
    }
}

#[tactic(auto, unfolding(js_json_members::specs::Rows::with_row, js_json_members::specs::Rows::where_some, js_json_members::specs::Rows::always))]
fn with_pin(alloc: Global, pin: Option<&Text>) -> Object
    ensures { Holds result (with_row id (where_some text_data id (option_copied pin.entry)) (Ok no_members)) }
{
    match pin {
        None => Object::new(alloc),
        Some(pin) => Object::new(alloc).always(alloc, Key::Id, pin),
    }
}

impl TryClone for BatchConfig {
    fn try_clone(&self) -> Result<BatchConfig, OutOfMemory> {
        Ok(BatchConfig {
            batch: self.batch,
            expires: self.expires,
            no_wait: self.no_wait,
            max_bytes: self.max_bytes,
            idle_heartbeat: self.idle_heartbeat,
            min_pending: self.min_pending,
            min_ack_pending: self.min_ack_pending,
            group: self.group.try_clone()?,
            priority: self.priority,
        })
    }
}

impl ToValue for BatchConfig {
    ghost written = { batch_config_value };

    #[tactic(auto, unfolding(crate::specs::Batch::batch_config_value))]
    fn to_value(&self, alloc: Global) -> Result<Value, ReadError> {
        self.put_rows(alloc, Object::new(alloc)).finish()
    }
}
