//! Names, subjects, bodies and timeouts of an ordered consumer.
ghost use Rattle.std.specs.Prelude.{◌≡◌, IfOk, IsOk, Some, decimal, string_bytes, ◌++◌};
ghost use Rattle.js_pull.specs.Limits.{body_of};
ghost use Rattle.js_ordered_table.specs.Passes.{input_of};
ghost use Rattle.js_ordered_table.specs.Texts as texts;
ghost use Rattle.js_base.specs.ApiSubject.{under, consumer_api_subject, named_subject};

use crate::consumer::{Opened, Recreation};
use crate::consumer_context::ConsumerContext;
use crate::run::Start;
use crate::setup::{OrderedSetup, Settings};
use bytes::Bytes;
use js_base::{
    Nanos, OutOfMemory, Subject, Text, TryClone, consumer_api_subject, named_subject, replace_with,
    with_word,
};
use js_json::consumer::{Action, Config, CreateRequest, DeliverPolicy, IntoConsumerConfig};
use js_json_members::{ReadError, ToValue};
use std::alloc::{AllocError, Global};

// ---- timeouts

// How long an API request is waited for: as the context says, else as the connection says.
fn timeout(settings: &Settings) -> Option<Nanos>
    ensures { result ≡ texts.timeout settings.now }
{
    match settings.context_timeout {
        Some(own) => Some(own),
        None => settings.request_timeout,
    }
}

/// Returns how long the requests of a recreation wait for their answers, in nanoseconds: ten
/// seconds if no setting says otherwise.
pub fn recreation_timeout(settings: &Settings) -> Nanos
    ensures { result ≡ texts.recreation_timeout settings.now }
{
    match timeout(settings) {
        Some(wait) => wait,
        None => 10_000_000_000,
    }
}

// How long a pull reader waits for its consumer's info. The first reader's wait has no bound of its own.
pub(crate) fn info_timeout(recreation_count: u64, settings: &Settings) -> Option<Nanos>
    ensures { result ≡ texts.info_timeout recreation_count settings.now }
{
    if recreation_count == 0 {
        timeout(settings)
    } else {
        Some(recreation_timeout(settings))
    }
}

// ---- setups

// What a configuration asks the server for. It is generic, since what a configuration is made of is then not looked into.
fn asked_by<C: TryClone + IntoConsumerConfig>(
    alloc: Global,
    config: &C,
) -> Result<Config, OutOfMemory>
    ensures { IfOk result (λ asked. asked ≡ C.config config.now) }
{
    match config.try_clone() {
        Ok(config) => Ok(config.into_consumer_config(alloc)),
        Err(OutOfMemory) => Err(OutOfMemory),
    }
}

impl OrderedSetup {
    // What the setup asks the server for.
    fn to_config(&self, alloc: Global) -> Result<Config, OutOfMemory>
        ensures { IfOk result (λ config. config ≡ texts.config_of self.now) }
    {
        match self {
            OrderedSetup::Pull(config) => asked_by(alloc, config),
            OrderedSetup::Push(config) => asked_by(alloc, config),
        }
    }

    /// Returns the one filter subject, which may be empty.
    pub fn filter_subject(&self) -> &str
        ensures { result.now ≡ (texts.config_of self.now).filter_subject }
    {
        match self {
            OrderedSetup::Pull(config) => config.filter_subject.as_str(),
            OrderedSetup::Push(config) => config.filter_subject.as_str(),
        }
    }

    fn deliver_policy(&self) -> DeliverPolicy
        ensures { result ≡ (texts.config_of self.now).deliver_policy }
    {
        match self {
            OrderedSetup::Pull(config) => config.deliver_policy,
            OrderedSetup::Push(config) => config.deliver_policy,
        }
    }

    /// Returns the sequence from which the setup starts, if it names one above 0.
    pub fn configured_start(&self) -> Option<u64>
        ensures { result ≡ texts.configured_start self.now }
    {
        match self.deliver_policy() {
            DeliverPolicy::ByStartSequence { start_sequence: 0 } => None,
            DeliverPolicy::ByStartSequence { start_sequence } => Some(start_sequence),
            _ => None,
        }
    }
}

// ---- names and subjects

// `base` and a number, with a mark between.
fn numbered(alloc: Global, base: &str, mark: &str, number: u64) -> Result<String, AllocError>
    ensures { IfOk result (λ text. string_bytes text ≡ base.now ++ mark.now ++ decimal number) }
{
    format!(in alloc; "{base}{mark}{number}")
}

/// Returns the name of the consumer that the recreation with this number creates. Fails with
/// `OutOfMemory` if memory runs out.
pub fn consumer_name(
    alloc: Global,
    context: &ConsumerContext<'_>,
    recreation_count: u64,
) -> Result<Text, OutOfMemory>
    ensures { IfOk result (λ name. name ≡ texts.consumer_name (input_of context.now) recreation_count) }
{
    Ok(Text::from(numbered(alloc, context.first.name.as_str(), "_", recreation_count)?))
}

/// Returns the subject of the inbox with this number. Fails with `OutOfMemory` if memory runs out.
pub fn inbox_subject(
    alloc: Global,
    context: &ConsumerContext<'_>,
    inbox: u64,
) -> Result<Subject, OutOfMemory>
    ensures { IfOk result (λ subject. subject ≡ texts.inbox_subject (input_of context.now) inbox) }
{
    Ok(Subject::from(numbered(alloc, context.settings.inbox_prefix.as_str(), ".", inbox)?))
}

// The subject of a request on a consumer, by the words of the call.
fn consumer_subject(
    alloc: Global,
    context: &ConsumerContext<'_>,
    words: &str,
    name: &str,
) -> Result<Subject, OutOfMemory>
    ensures { IfOk result (λ subject. subject ≡ under context.now.settings.now.api_prefix (consumer_api_subject words.now context.now.first.now.stream_name name.now)) }
{
    let subject = consumer_api_subject(alloc, words, context.first.stream_name.as_str(), name)?;
    let prefix = context.settings.api_prefix.as_str();
    let whole = with_word(alloc, prefix, subject.as_str());
    drop(subject);
    Ok(Subject::from(whole?))
}

// The subject of a request that names a consumer, and what it reads.
fn filtered_subject(
    alloc: Global,
    context: &ConsumerContext<'_>,
    words: &str,
    name: &str,
    filter: &str,
) -> Result<Subject, OutOfMemory>
    ensures { IfOk result (λ subject. subject ≡ under context.now.settings.now.api_prefix (named_subject (under words.now context.now.first.now.stream_name) name.now filter.now)) }
{
    let on_stream = with_word(alloc, words, context.first.stream_name.as_str())?;
    let named = named_subject(alloc, on_stream.as_str(), name, filter);
    drop(on_stream);
    let subject = named?;
    let prefix = context.settings.api_prefix.as_str();
    let whole = with_word(alloc, prefix, subject.as_str());
    drop(subject);
    Ok(Subject::from(whole?))
}

/// Returns the subject of the request that deletes the old consumer. Fails with `OutOfMemory` if
/// memory runs out.
pub fn delete_subject(
    alloc: Global,
    context: &ConsumerContext<'_>,
    recreation: &Recreation,
) -> Result<Subject, OutOfMemory>
    ensures { IfOk result (λ subject. subject ≡ texts.delete_subject (input_of context.now) recreation.now) }
{
    consumer_subject(
        alloc,
        context,
        "CONSUMER.DELETE",
        recreation.old_name.as_str(),
    )
}

/// Returns the subject of the request that creates the new consumer. Fails with `OutOfMemory` if
/// memory runs out.
pub fn create_subject(
    alloc: Global,
    context: &ConsumerContext<'_>,
    recreation: &Recreation,
) -> Result<Subject, OutOfMemory>
    ensures { IfOk result (λ subject. subject ≡ texts.create_subject (input_of context.now) recreation.now) }
{
    filtered_subject(
        alloc,
        context,
        "CONSUMER.CREATE",
        recreation.new_name.as_str(),
        context.setup.filter_subject(),
    )
}

// ---- bodies

fn policy_of(start: Start) -> DeliverPolicy
    ensures { result ≡ texts.policy_of start }
{
    match start {
        Start::All => DeliverPolicy::All,
        Start::From(start_sequence) => DeliverPolicy::ByStartSequence { start_sequence },
    }
}

fn opened_subject(alloc: Global, opened: &Option<Opened>) -> Result<Option<Text>, OutOfMemory>
    ensures { IfOk result (λ subject. subject ≡ texts.opened_subject opened.now) }
{
    match opened {
        None => Ok(None),
        Some(opened) => Ok(Some(Text::from_str(alloc, opened.subject.as_str())?)),
    }
}

// The configuration has this name, start and inbox from now on.
fn set_up(config: &mut Config, name: Text, start: Start, deliver_subject: Option<Text>)
    ensures { config.new ≡ record config.old {
      name = Some name;
      deliver_policy = texts.policy_of start;
      deliver_subject = deliver_subject;
    } }
{
    replace_with(&mut config.name, Some(name));
    config.deliver_policy = policy_of(start);
    replace_with(&mut config.deliver_subject, deliver_subject);
}

// The setup's configuration with this name, start and inbox. The texts are there already, so that nothing can go wrong beside the configuration.
fn config_with(
    alloc: Global,
    context: &ConsumerContext<'_>,
    name: Text,
    start: Start,
    deliver_subject: Option<Text>,
) -> Result<Config, OutOfMemory>
    ensures { IfOk result (λ config. config ≡ record (texts.config_of context.now.setup.now) {
      name = Some name;
      deliver_policy = texts.policy_of start;
      deliver_subject = deliver_subject;
    }) }
{
    match context.setup.to_config(alloc) {
        Ok(mut config) => {
            set_up(&mut config, name, start, deliver_subject);
            Ok(config)
        }
        Err(OutOfMemory) => {
            drop(name);
            drop(deliver_subject);
            Err(OutOfMemory)
        }
    }
}

fn asked_config(
    alloc: Global,
    context: &ConsumerContext<'_>,
    recreation: &Recreation,
) -> Result<Config, OutOfMemory>
    ensures { IfOk result (λ config. config ≡ texts.asked_config (input_of context.now) recreation.now) }
{
    let name = recreation.new_name.try_clone()?;
    match opened_subject(alloc, &recreation.opened) {
        Ok(deliver_subject) => {
            config_with(alloc, context, name, recreation.start, deliver_subject)
        }
        Err(OutOfMemory) => {
            drop(name);
            Err(OutOfMemory)
        }
    }
}

// The body of a request that is let go, each member of which has a text.
#[tactic(auto, using(crate::proofs::CreateBodies::memory_alone))]
fn request_body<R: ToValue + Drop>(alloc: Global, request: R) -> Result<Bytes, OutOfMemory>
    requires written { IsOk (R.written request) }
    ensures { IfOk result (λ body. body ≡ body_of (R.written request)) }
{
    let text = request.to_text(alloc);
    drop(request);
    match text {
        Ok(text) => Ok(Bytes::from_string(text)?),
        Err(ReadError::OutOfMemory) => Err(OutOfMemory),
        Err(_) => unreachable!(),
    }
}

/// Returns the body of the request that creates the new consumer. Fails with `OutOfMemory` if
/// memory runs out.
#[tactic(auto, using(crate::proofs::CreateBodies::create_written))]
pub fn create_body(
    alloc: Global,
    context: &ConsumerContext<'_>,
    recreation: &Recreation,
) -> Result<Bytes, OutOfMemory>
    ensures { IfOk result (λ body. body ≡ texts.create_body (input_of context.now) recreation.now) }
{
    let stream_name = context.first.stream_name.try_clone()?;
    match asked_config(alloc, context, recreation) {
        Ok(config) => request_body(
            alloc,
            CreateRequest {
                action: Action::CreateOrUpdate,
                config,
                stream_name,
            },
        ),
        Err(OutOfMemory) => {
            drop(stream_name);
            Err(OutOfMemory)
        }
    }
}
