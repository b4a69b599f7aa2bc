//! One error type for programs that only report errors.
ghost use Rattle.std.specs.Prelude.{◌≡◌};
ghost use Rattle.jetstream.specs.AnyError.{IsOwn, any_text};
ghost use Rattle.jetstream.specs.declared.any_error.AnyError.TheVariants as any;

mod from;

use js_base::{OutOfMemory, Text};
use js_call::{RequestError, SendError};
use js_call_consumers::{
    ConsumerCreateStrictError, ConsumerError, ConsumerInfoError, ConsumerUpdateError,
};
use js_call_streams::{AccountError, CreateStreamError, GetStreamByNameError, GetStreamError};
use js_context::{BuildError, PublishError};
use js_json::consumer::ConfigError;
use js_json_members::ReadError;
use js_link::LinkError;
use js_link_connection::ConnectionError;
use js_message::{AckError, InfoError, MessageInfoError, StreamMessageError};
use js_readers::ordered::OrderedError;
use js_readers::pull::{BatchError, BatchItemError, BatchRequestError, MessagesError, StreamError};
use js_store::{CreateKeyValueError, KeyValueError, ObjectStoreError, UpdateKeyValueError};
use std::alloc::{AllocError, AllocFailed, Global};
use std::{error, fmt, io};

/// What stopped a program: an error of this client, of its connection, of input or output, or of
/// the program itself. It prints what that error prints.
#[derive(Debug, Drop)]
pub enum AnyError {
    /// Memory ran out.
    OutOfMemory,
    /// The link refused a call.
    Link(LinkError),
    /// A connection did not do all of its work.
    Connection(ConnectionError),
    /// Creating a stream failed.
    CreateStream(CreateStreamError),
    /// Looking up a stream failed.
    GetStream(GetStreamError),
    /// Creating or looking up a consumer failed.
    Consumer(ConsumerError),
    /// Sending or storing a message failed.
    Publish(PublishError),
    /// Opening a consumer's messages failed.
    Stream(StreamError),
    /// Asking for a batch failed.
    Batch(BatchError),
    /// Sending a pull request failed.
    BatchRequest(BatchRequestError),
    /// A stream of a pull consumer's messages returned an error in place of a message.
    Messages(MessagesError),
    /// A batch returned an error in place of a message.
    BatchItem(BatchItemError),
    /// The messages of a push consumer returned an error in place of a message.
    PushMessages(js_readers::push::MessagesError),
    /// An ordered consumer returned an error in place of a message.
    Ordered(OrderedError),
    /// Asking about the account failed.
    Account(AccountError),
    /// No stream was found for a subject.
    FindStream(GetStreamByNameError),
    /// A request got no reply, or a list no next page.
    Request(RequestError),
    /// Sending a request that awaits no reply failed.
    Send(SendError),
    /// Building a context failed.
    Build(BuildError),
    /// Asking for the info of a consumer failed.
    ConsumerInfo(ConsumerInfoError),
    /// Creating a consumer that must not exist yet failed.
    CreateConsumerStrict(ConsumerCreateStrictError),
    /// Updating a consumer failed.
    UpdateConsumer(ConsumerUpdateError),
    /// A configuration does not convert to that kind of consumer.
    ConsumerConfig(ConfigError),
    /// Looking up or deleting a key-value bucket failed.
    KeyValue(KeyValueError),
    /// Creating a bucket, of keys or of objects, failed.
    CreateKeyValue(CreateKeyValueError),
    /// Updating a key-value bucket failed.
    UpdateKeyValue(UpdateKeyValueError),
    /// Looking up or deleting an object bucket failed.
    ObjectStore(ObjectStoreError),
    /// Acknowledging a message failed.
    Ack(AckError),
    /// A message does not tell its place in its stream.
    MessageInfo(MessageInfoError),
    /// A text is not an acknowledgement subject.
    AckSubject(InfoError),
    /// A message cannot be read as one of a stream.
    StreamMessage(StreamMessageError),
    /// A value could not be read or written.
    Read(ReadError),
    /// Input or output failed.
    Io(io::Error),
    /// An error of the program's own, as text.
    Own(Text),
}

impl AnyError {
    /// Makes an error of the program's own that prints `text`. If memory runs out, it returns
    /// `OutOfMemory` instead.
    pub fn own(alloc: Global, text: &str) -> AnyError
        ensures { IsOwn text.now result }
    {
        match Text::from_str(alloc, text) {
            Ok(text) => AnyError::Own(text),
            Err(_) => AnyError::OutOfMemory,
        }
    }
}

impl fmt::Display for AnyError {
    ghost output = { λ error. any_text error };

    fn fmt<W: fmt::Write>(&self, f: &mut fmt::Formatter<W>) -> fmt::Result {
        match self {
            AnyError::OutOfMemory => write!(f, "out of memory"),
            AnyError::Link(error) => write!(f, "{error}"),
            AnyError::Connection(error) => write!(f, "{error}"),
            AnyError::CreateStream(error) => write!(f, "{error}"),
            AnyError::GetStream(error) => write!(f, "{error}"),
            AnyError::Consumer(error) => write!(f, "{error}"),
            AnyError::Publish(error) => write!(f, "{error}"),
            AnyError::Stream(error) => write!(f, "{error}"),
            AnyError::Batch(error) => write!(f, "{error}"),
            AnyError::BatchRequest(error) => write!(f, "{error}"),
            AnyError::Messages(error) => write!(f, "{error}"),
            AnyError::BatchItem(error) => write!(f, "{error}"),
            AnyError::PushMessages(error) => write!(f, "{error}"),
            AnyError::Ordered(error) => write!(f, "{error}"),
            AnyError::Account(error) => write!(f, "{error}"),
            AnyError::FindStream(error) => write!(f, "{error}"),
            AnyError::Request(error) => write!(f, "{error}"),
            AnyError::Send(error) => write!(f, "{error}"),
            AnyError::Build(error) => write!(f, "{error}"),
            AnyError::ConsumerInfo(error) => write!(f, "{error}"),
            AnyError::CreateConsumerStrict(error) => write!(f, "{error}"),
            AnyError::UpdateConsumer(error) => write!(f, "{error}"),
            AnyError::ConsumerConfig(error) => write!(f, "{error}"),
            AnyError::KeyValue(error) => write!(f, "{error}"),
            AnyError::CreateKeyValue(error) => write!(f, "{error}"),
            AnyError::UpdateKeyValue(error) => write!(f, "{error}"),
            AnyError::ObjectStore(error) => write!(f, "{error}"),
            AnyError::Ack(error) => write!(f, "{error}"),
            AnyError::MessageInfo(error) => write!(f, "{error}"),
            AnyError::AckSubject(error) => write!(f, "{error}"),
            AnyError::StreamMessage(error) => write!(f, "{error}"),
            AnyError::Read(error) => write!(f, "{error}"),
            AnyError::Io(error) => write!(f, "{error}"),
            AnyError::Own(text) => write!(f, "{text}"),
        }
    }
}

impl error::Error for AnyError {}

impl From<OutOfMemory> for AnyError {
    ghost from_gives = { λ _ told. told ≡ any.OutOfMemory };

    fn from(_error: OutOfMemory) -> AnyError {
        AnyError::OutOfMemory
    }
}

impl From<AllocError> for AnyError {
    ghost from_gives = { λ _ told. told ≡ any.OutOfMemory };

    fn from(_error: AllocError) -> AnyError {
        AnyError::OutOfMemory
    }
}

impl<T: Drop> From<AllocFailed<T>> for AnyError {
    ghost from_gives = { λ _ told. told ≡ any.OutOfMemory };

    fn from(_error: AllocFailed<T>) -> AnyError {
        AnyError::OutOfMemory
    }
}
