//! The first line of a transcript: the settings, the consumer's configuration, and the server's
//! info about it.

ghost use Rattle.std.specs.Prelude.{◌≡◌, Option, Some, codes, IfOk, unwrap_or, List, ℕ};
ghost use Rattle.std.specs.Option.{option_copied};
ghost use Rattle.serde_json.specs.View.{view};
ghost use Rattle.js_json_members.specs.Member.{Gives, GivesAs, given as given_in, required as required_in, named, nested as nested_in, text};
ghost use Rattle.js_json_members.specs.declared.key.Key.TheVariants as key;
ghost use Rattle.js_json.specs.ConsumerInfo.{info_fields};
ghost use Rattle.js_tool_transcript.specs.ExtendedSetup.{with_resilience as with_options, extended_setup_fields as extended_in, extended_setup_of as extended_of, extended_setup_line as extended_line, setup_line_in as line_of_form};
ghost use Rattle.js_tool_transcript.specs.Setup.{mode_named, settings_fields as settings_in, settings as settings_member, ordered_setup as ordered_in, setup_with as with_in, setup_fields as setup_in, setup_of as setup_of_in, setup_line as line_in};

use super::extended_name::{ExtendedName, has_only_with};
use super::lines::Lines;
use super::members::text_of;
use super::resilience::resilience_member;
use js_base::{Moment, OutOfMemory, Text, all_5, both};
use js_json::consumer::FromConsumer;
use js_json::{consumer, pull, push};
use js_json_members::{
    Key, Member, Named, ReadError, by_text, defaulted, given, has_only, nested, required, value_of,
};
use js_ordered_table::{OrderedSetup, Settings};
use js_pull::Resilience;
use serde_json::Value;
use std::alloc::Global;

/// Who asks for messages: the client of a pull consumer asks, and the server of a push consumer
/// sends them unasked.
#[derive(Clone, Copy)]
pub(crate) enum Mode {
    Pull,
    Push,
}

impl Named for Mode {
    ghost value_of = { mode_named };

    #[tactic(auto, unfolding(crate::specs::Setup::mode_named))]
    fn from_name(name: &str) -> Option<Mode> {
        match name {
            "pull" => Some(Mode::Pull),
            "push" => Some(Mode::Push),
            _ => None,
        }
    }
}

impl Member for Mode {
    ghost reads = { named mode_named };

    fn read(_alloc: Global, key: Key, value: &Value) -> Result<Mode, ReadError> {
        by_text(key, value)
    }
}

/// What a replay starts from.
#[derive(Drop)]
pub struct Setup {
    pub settings: Settings,
    pub setup: OrderedSetup,
    /// The server's info about the first consumer.
    pub first: consumer::Info,
    pub start: Moment,
}

// The text of a member that may be absent.
#[tactic(auto, unfolding(js_json_members::specs::Member::given))]
fn given_text(object: &Value, key: Key) -> Result<Option<&str>, ReadError>
    ensures { GivesAs option_copied result (given_in text key (view object.now)) }
{
    match object.get(key.name()) {
        None => Ok(None),
        Some(value) => Ok(Some(text_of(key, value)?)),
    }
}

fn text_or(alloc: Global, found: Option<&str>, default: &str) -> Result<Text, OutOfMemory>
    ensures { IfOk result (λ t. t ≡ unwrap_or (option_copied found.entry) default.now) }
{
    match found {
        Some(text) => Text::from_str(alloc, text),
        None => Text::from_str(alloc, default),
    }
}

#[tactic(auto, unfolding(crate::specs::Setup::settings_fields))]
fn settings_fields(alloc: Global, object: &Value) -> Result<Settings, ReadError>
    ensures { Gives result (settings_in (view object.now)) }
{
    let api_prefix = given_text(object, Key::ApiPrefix)?;
    let inbox_prefix = given_text(object, Key::InboxPrefix)?;
    let context_timeout: Option<u64> = defaulted(alloc, object, Key::ContextTimeout)?;
    let request_timeout: Option<Option<u64>> = given(alloc, object, Key::RequestTimeout)?;
    let retries: Option<u32> = given(alloc, object, Key::Retries)?;
    let (api_prefix, inbox_prefix) = both(
        text_or(alloc, api_prefix, "$JS.API"),
        text_or(alloc, inbox_prefix, "_INBOX.t"),
    )?;
    Ok(Settings {
        api_prefix,
        inbox_prefix,
        context_timeout,
        request_timeout: request_timeout.unwrap_or(Some(10_000_000_000)),
        retries: retries.unwrap_or(4_294_967_295),
        resilience: Resilience::none(),
    })
}

#[tactic(auto, unfolding(js_json_members::specs::Member::required, crate::specs::Members::only))]
fn settings_of(alloc: Global, object: &Value) -> Result<Settings, ReadError>
    ensures { Gives result (required_in settings_member key.Settings (view object.now)) }
{
    let key = Key::Settings;
    match object.get(key.name()) {
        None => Err(ReadError::Missing { key }),
        Some(value) => {
            if has_only(
                value,
                &[
                    Key::ApiPrefix,
                    Key::InboxPrefix,
                    Key::ContextTimeout,
                    Key::RequestTimeout,
                    Key::Retries,
                ],
            ) {
                settings_fields(alloc, value)
            } else {
                Err(ReadError::WrongKind { key })
            }
        }
    }
}

#[tactic(auto, unfolding(crate::specs::Setup::ordered_setup))]
fn ordered_setup(mode: Mode, config: consumer::Config) -> Result<OrderedSetup, ReadError>
    ensures { Gives result (ordered_in mode config) }
{
    let key = Key::DeliverSubject;
    match mode {
        Mode::Pull => match pull::OrderedConfig::try_from_consumer_config(config) {
            Ok(config) => Ok(OrderedSetup::Pull(config)),
            Err(_) => Err(ReadError::Missing { key }),
        },
        Mode::Push => match push::OrderedConfig::try_from_consumer_config(config) {
            Ok(config) => Ok(OrderedSetup::Push(config)),
            Err(_) => Err(ReadError::Missing { key }),
        },
    }
}

#[tactic(auto, unfolding(js_json_members::specs::Member::required))]
fn first_info(alloc: Global, object: &Value) -> Result<consumer::Info, ReadError>
    ensures { Gives result (required_in (nested_in info_fields) key.Info (view object.now)) }
{
    let key = Key::Info;
    match object.get(key.name()) {
        None => Err(ReadError::Missing { key }),
        Some(value) => nested(alloc, key, value),
    }
}

#[tactic(auto, unfolding(crate::specs::Setup::setup_with))]
fn setup_with(
    mode: Mode,
    start: Moment,
    settings: Settings,
    config: consumer::Config,
    first: consumer::Info,
) -> Result<Setup, ReadError>
    ensures { Gives result (with_in mode start settings config first) }
{
    match ordered_setup(mode, config) {
        Ok(setup) => Ok(Setup {
            settings,
            setup,
            first,
            start,
        }),
        Err(error) => {
            drop(settings);
            drop(first);
            Err(error)
        }
    }
}

#[tactic(auto, unfolding(crate::specs::Setup::setup_fields))]
fn setup_fields(alloc: Global, object: &Value) -> Result<Setup, ReadError>
    ensures { Gives result (setup_in (view object.now)) }
{
    let (mode, start, settings, config, first) = all_5(
        required(alloc, object, Key::Mode),
        required(alloc, object, Key::Start),
        settings_of(alloc, object),
        required(alloc, object, Key::Config),
        first_info(alloc, object),
    )?;
    setup_with(mode, start, settings, config, first)
}

/// Reads the setup in the value of a line.
///
/// Fails with `NotJson` if the value is no object or has a key that a setup does not have.
/// Otherwise fails with the error of the first member that cannot be read, or because memory runs
/// out.
#[tactic(auto, unfolding(crate::specs::Members::value_as))]
pub fn setup_of(alloc: Global, value: &Value) -> Result<Setup, ReadError>
    ensures { Gives result (setup_of_in (view value.now)) }
{
    if has_only(
        value,
        &[Key::Mode, Key::Start, Key::Settings, Key::Config, Key::Info],
    ) {
        setup_fields(alloc, value)
    } else {
        Err(ReadError::NotJson)
    }
}

/// Reads the setup on a line.
#[tactic(auto, unfolding(crate::specs::Members::line_as))]
pub fn setup_line(alloc: Global, line: &[u8]) -> Result<Setup, ReadError>
    ensures { Gives result (line_in line.now) }
{
    let value = value_of(alloc, line)?;
    let setup = setup_of(alloc, &value);
    drop(value);
    setup
}

// ---- extended lines

fn with_resilience(resilience: Option<Resilience>, mut setup: Setup) -> Setup
    ensures { result ≡ with_options resilience setup }
{
    if let Some(resilience) = resilience {
        setup.settings.resilience = resilience;
    }
    setup
}

#[tactic(auto, unfolding(crate::specs::ExtendedSetup::extended_setup_fields))]
fn extended_setup_fields(alloc: Global, object: &Value) -> Result<Setup, ReadError>
    ensures { Gives result (extended_in (view object.now)) }
{
    let (resilience, setup) = both(
        resilience_member(alloc, object),
        setup_fields(alloc, object),
    )?;
    Ok(with_resilience(resilience, setup))
}

fn extended_setup_of(alloc: Global, value: &Value) -> Result<Setup, ReadError>
    ensures { Gives result (extended_of (view value.now)) }
{
    if has_only_with(
        value,
        &[Key::Mode, Key::Start, Key::Settings, Key::Config, Key::Info],
        &[ExtendedName::Resilience],
    ) {
        extended_setup_fields(alloc, value)
    } else {
        Err(ReadError::NotJson)
    }
}

fn extended_setup_line(alloc: Global, line: &[u8]) -> Result<Setup, ReadError>
    ensures { Gives result (extended_line line.now) }
{
    let value = value_of(alloc, line)?;
    let setup = extended_setup_of(alloc, &value);
    drop(value);
    setup
}

/// Reads the setup on a first line of a form. In `Lines::Extended` the line may have the options of
/// an ordered reader beside the setup; in `Lines::Plain` all options are off.
pub fn setup_line_in(alloc: Global, lines: Lines, line: &[u8]) -> Result<Setup, ReadError>
    ensures { Gives result (line_of_form lines line.now) }
{
    match lines {
        Lines::Plain => setup_line(alloc, line),
        Lines::Extended => extended_setup_line(alloc, line),
    }
}
