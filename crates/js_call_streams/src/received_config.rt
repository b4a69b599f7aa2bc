//! A stream's configuration as the server sent it.
ghost use Rattle.std.specs.Prelude.{◌≡◌, false, nat_eq, IfOk};
ghost use Rattle.std.specs.Cmp.{partial_equiv_from_equiv};
ghost use Rattle.std.specs.Cmp.Lexicographic.{pointwise, nat_list_eq_equiv};
ghost use Rattle.serde_json.specs.View.{view};
ghost use Rattle.serde_json.specs.Written.{has_float as has_float_in, compact_text};
ghost use Rattle.js_json_members.specs.Member.{Gives};
ghost use Rattle.js_call_streams.specs.ReceivedConfig.{kept_info_fields, whole, with_config};
ghost use Rattle.js_call_streams.specs.KeptText.{IsKeptOf};

use js_base::{Boxed, OutOfMemory, Text};
use js_json_members::{FromValue, Key, Member, ReadError, has_float, required};
use js_json_stream_bodies::stream::Info;
use serde_json::Value;
use std::alloc::Global;
use std::marker::Model;

/// The configuration of a stream exactly as the server sent it, including the members that `Config`
/// does not name.
#[derive(Drop)]
#[derive_where(Debug)]
pub struct ReceivedConfig {
    // The compact text of the object.
    text: Text,
    // The object, over which an update writes.
    #[derive_where(skip)]
    value: Boxed<Value>,
}

impl Model for ReceivedConfig {
    ghost use Rattle.std.specs.Prelude.{List, ℕ};
    ghost use Rattle.serde_json.specs.View.{view as data_of};
    ghost use Rattle.js_call_streams.specs.KeptText.{IsKeptOf};

    ghost Value = { List ℕ };

    ghost view = { λ k. k.text };

    ghost invariant = { λ k. IsKeptOf k.text (data_of k.value) };
}

impl ReceivedConfig {
    /// Returns its compact JSON.
    pub fn as_str(&self) -> &str
        ensures { result.now ≡ self.now }
    {
        self.text.as_str()
    }

    // The value that was read.
    pub(crate) fn value(&self) -> &Value
        ensures { IsKeptOf self.now (view result.now) }
    {
        self.value.get()
    }
}

// What is kept of a value in which no float stands.
#[tactic(auto, using(crate::proofs::KeptAsRead::kept_as))]
fn received_config_of(alloc: Global, value: &Value) -> Result<ReceivedConfig, OutOfMemory>
    requires { has_float_in (view value.now) ≡ false }
    ensures { IfOk result (λ kept. kept ≡ compact_text (view value.now)) }
{
    let text = value.to_string(alloc)?;
    let copy = Boxed::new(alloc, value.clone()?)?;
    Ok(ReceivedConfig {
        text: Text::from(text),
        value: copy,
    })
}

impl Member for ReceivedConfig {
    ghost reads = { whole };

    fn read(alloc: Global, _key: Key, value: &Value) -> Result<ReceivedConfig, ReadError> {
        if has_float(value) {
            return Err(ReadError::Float);
        }
        Ok(received_config_of(alloc, value)?)
    }
}

impl PartialEq for ReceivedConfig {
    ghost eq = { pointwise nat_eq };

    ghost laws = { partial_equiv_from_equiv nat_list_eq_equiv };

    fn eq(&self, other: &ReceivedConfig) -> bool {
        self.as_str() == other.as_str()
    }
}

impl Eq for ReceivedConfig {
    ghost laws = { nat_list_eq_equiv };
}

/// What the server reports about a stream, and the stream's configuration as it was sent.
#[derive(Debug, PartialEq, Eq, Drop)]
pub struct ReceivedInfo {
    /// What the server reports about the stream.
    pub info: Info,
    /// The configuration as it was sent.
    pub config: ReceivedConfig,
}

// The configuration beside what was read before it, which is not opened here.
fn with_config<I: Drop>(
    alloc: Global,
    object: &Value,
    info: I,
) -> Result<(I, ReceivedConfig), ReadError>
    ensures { Gives result (with_config info (view object.now)) }
{
    let config = required(alloc, object, Key::Config)?;
    Ok((info, config))
}

impl FromValue for ReceivedInfo {
    ghost fields = { kept_info_fields };

    #[tactic(auto, unfolding(crate::specs::ReceivedConfig::kept_info_fields))]
    fn from_fields(alloc: Global, object: &Value) -> Result<ReceivedInfo, ReadError> {
        let info = Info::from_fields(alloc, object)?;
        let (info, config) = with_config(alloc, object, info)?;
        Ok(ReceivedInfo { info, config })
    }
}
