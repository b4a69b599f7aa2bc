//! What the server reports about a stream.

ghost use Rattle.js_json_members.specs.Member.{nested as nested_in};
ghost use Rattle.js_json_stream_bodies.specs.State.{state_fields};
ghost use Rattle.js_json_stream_bodies.specs.StreamInfo.{info_fields};

use crate::stream::config::Config;
use jiff::Timestamp;
use js_base::{OutOfMemory, TryClone, all_3};
use js_json_members::{FromValue, Key, Member, ReadError, nested, required};
use serde_json::Value;
use std::alloc::Global;

/// What the server reports about a stream.
#[derive(Debug, PartialEq, Eq, Drop)]
pub struct Info {
    /// The configuration, including what the server chose.
    pub config: Config,
    /// When the stream was created.
    pub created: Timestamp,
    /// What the stream stores.
    pub state: State,
}

impl TryClone for Info {
    fn try_clone(&self) -> Result<Info, OutOfMemory> {
        Ok(Info {
            config: self.config.try_clone()?,
            created: self.created,
            state: self.state,
        })
    }
}

impl FromValue for Info {
    ghost fields = { info_fields };

    #[tactic(auto, unfolding(crate::specs::StreamInfo::info_fields))]
    fn from_fields(alloc: Global, object: &Value) -> Result<Info, ReadError> {
        let (config, created, state) = all_3(
            required(alloc, object, Key::Config),
            required(alloc, object, Key::Created),
            required(alloc, object, Key::State),
        )?;
        Ok(Info {
            config,
            created,
            state,
        })
    }
}

impl Member for Info {
    ghost reads = { nested_in info_fields };

    fn read(alloc: Global, key: Key, value: &Value) -> Result<Info, ReadError> {
        nested(alloc, key, value)
    }
}

/// What a stream stores.
#[derive(Clone, Copy, Debug, PartialEq, Eq)]
pub struct State {
    /// Number of messages.
    pub messages: u64,
    /// Size of the messages, in bytes.
    pub bytes: u64,
    /// The sequence of the first message still stored.
    pub first_sequence: u64,
    /// The sequence of the last message that arrived.
    pub last_sequence: u64,
}

impl TryClone for State {
    fn try_clone(&self) -> Result<State, OutOfMemory> {
        Ok(*self)
    }
}

impl FromValue for State {
    ghost fields = { state_fields };

    #[tactic(auto, unfolding(crate::specs::State::state_fields))]
    fn from_fields(alloc: Global, object: &Value) -> Result<State, ReadError> {
        Ok(State {
            messages: required(alloc, object, Key::Messages)?,
            bytes: required(alloc, object, Key::Bytes)?,
            first_sequence: required(alloc, object, Key::FirstSeq)?,
            last_sequence: required(alloc, object, Key::LastSeq)?,
        })
    }
}

impl Member for State {
    ghost reads = { nested_in state_fields };

    fn read(alloc: Global, key: Key, value: &Value) -> Result<State, ReadError> {
        nested(alloc, key, value)
    }
}
