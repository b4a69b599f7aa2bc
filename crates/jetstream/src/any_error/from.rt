//! How each error becomes an `AnyError`.
ghost use Rattle.std.specs.Prelude.{◌≡◌};
ghost use Rattle.jetstream.specs.AnyError.{of_worker};
ghost use Rattle.jetstream.specs.declared.any_error.AnyError.TheVariants as any;

use crate::any_error::AnyError;
use js_call::{RequestError, SendError};
use js_call_consumers::{
    ConsumerCreateStrictError, ConsumerError, ConsumerInfoError, ConsumerUpdateError,
};
use js_call_streams::{AccountError, CreateStreamError, GetStreamByNameError, GetStreamError};
use js_context::{BuildError, PublishError};
use js_json::consumer::ConfigError;
use js_json_members::ReadError;
use js_link::LinkError;
use js_link_connection::ConnectionError;
use js_message::{AckError, InfoError, MessageInfoError, StreamMessageError};
use js_readers::ordered::OrderedError;
use js_readers::pull::{BatchError, BatchItemError, BatchRequestError, MessagesError, StreamError};
use js_readers_worker::WorkerError;
use js_store::{CreateKeyValueError, KeyValueError, ObjectStoreError, UpdateKeyValueError};
use std::io;

impl From<LinkError> for AnyError {
    ghost from_gives = { λ error told. told ≡ any.Link error };

    fn from(error: LinkError) -> AnyError {
        AnyError::Link(error)
    }
}

impl From<ConnectionError> for AnyError {
    ghost from_gives = { λ error told. told ≡ any.Connection error };

    fn from(error: ConnectionError) -> AnyError {
        AnyError::Connection(error)
    }
}

impl From<PublishError> for AnyError {
    ghost from_gives = { λ error told. told ≡ any.Publish error };

    fn from(error: PublishError) -> AnyError {
        AnyError::Publish(error)
    }
}

impl From<io::Error> for AnyError {
    ghost from_gives = { λ error told. told ≡ any.Io error };

    fn from(error: io::Error) -> AnyError {
        AnyError::Io(error)
    }
}

impl From<CreateStreamError> for AnyError {
    ghost from_gives = { λ error told. told ≡ any.CreateStream error };

    fn from(error: CreateStreamError) -> AnyError {
        AnyError::CreateStream(error)
    }
}

impl From<GetStreamError> for AnyError {
    ghost from_gives = { λ error told. told ≡ any.GetStream error };

    fn from(error: GetStreamError) -> AnyError {
        AnyError::GetStream(error)
    }
}

impl From<ConsumerError> for AnyError {
    ghost from_gives = { λ error told. told ≡ any.Consumer error };

    fn from(error: ConsumerError) -> AnyError {
        AnyError::Consumer(error)
    }
}

impl From<MessagesError> for AnyError {
    ghost from_gives = { λ error told. told ≡ any.Messages error };

    fn from(error: MessagesError) -> AnyError {
        AnyError::Messages(error)
    }
}

impl From<StreamError> for AnyError {
    ghost from_gives = { λ error told. told ≡ any.Stream error };

    fn from(error: StreamError) -> AnyError {
        AnyError::Stream(error)
    }
}

impl From<BatchError> for AnyError {
    ghost from_gives = { λ error told. told ≡ any.Batch error };

    fn from(error: BatchError) -> AnyError {
        AnyError::Batch(error)
    }
}

impl From<BatchRequestError> for AnyError {
    ghost from_gives = { λ error told. told ≡ any.BatchRequest error };

    fn from(error: BatchRequestError) -> AnyError {
        AnyError::BatchRequest(error)
    }
}

impl From<BatchItemError> for AnyError {
    ghost from_gives = { λ error told. told ≡ any.BatchItem error };

    fn from(error: BatchItemError) -> AnyError {
        AnyError::BatchItem(error)
    }
}

impl From<js_readers::push::MessagesError> for AnyError {
    ghost from_gives = { λ error told. told ≡ any.PushMessages error };

    fn from(error: js_readers::push::MessagesError) -> AnyError {
        AnyError::PushMessages(error)
    }
}

impl From<OrderedError> for AnyError {
    ghost from_gives = { λ error told. told ≡ any.Ordered error };

    fn from(error: OrderedError) -> AnyError {
        AnyError::Ordered(error)
    }
}

impl From<AccountError> for AnyError {
    ghost from_gives = { λ error told. told ≡ any.Account error };

    fn from(error: AccountError) -> AnyError {
        AnyError::Account(error)
    }
}

impl From<GetStreamByNameError> for AnyError {
    ghost from_gives = { λ error told. told ≡ any.FindStream error };

    fn from(error: GetStreamByNameError) -> AnyError {
        AnyError::FindStream(error)
    }
}

impl From<RequestError> for AnyError {
    ghost from_gives = { λ error told. told ≡ any.Request error };

    fn from(error: RequestError) -> AnyError {
        AnyError::Request(error)
    }
}

impl From<SendError> for AnyError {
    ghost from_gives = { λ error told. told ≡ any.Send error };

    fn from(error: SendError) -> AnyError {
        AnyError::Send(error)
    }
}

impl From<BuildError> for AnyError {
    ghost from_gives = { λ error told. told ≡ any.Build error };

    fn from(error: BuildError) -> AnyError {
        AnyError::Build(error)
    }
}

impl From<ConsumerInfoError> for AnyError {
    ghost from_gives = { λ error told. told ≡ any.ConsumerInfo error };

    fn from(error: ConsumerInfoError) -> AnyError {
        AnyError::ConsumerInfo(error)
    }
}

impl From<ConsumerCreateStrictError> for AnyError {
    ghost from_gives = { λ error told. told ≡ any.CreateConsumerStrict error };

    fn from(error: ConsumerCreateStrictError) -> AnyError {
        AnyError::CreateConsumerStrict(error)
    }
}

impl From<ConsumerUpdateError> for AnyError {
    ghost from_gives = { λ error told. told ≡ any.UpdateConsumer error };

    fn from(error: ConsumerUpdateError) -> AnyError {
        AnyError::UpdateConsumer(error)
    }
}

impl From<ConfigError> for AnyError {
    ghost from_gives = { λ error told. told ≡ any.ConsumerConfig error };

    fn from(error: ConfigError) -> AnyError {
        AnyError::ConsumerConfig(error)
    }
}

impl From<KeyValueError> for AnyError {
    ghost from_gives = { λ error told. told ≡ any.KeyValue error };

    fn from(error: KeyValueError) -> AnyError {
        AnyError::KeyValue(error)
    }
}

impl From<CreateKeyValueError> for AnyError {
    ghost from_gives = { λ error told. told ≡ any.CreateKeyValue error };

    fn from(error: CreateKeyValueError) -> AnyError {
        AnyError::CreateKeyValue(error)
    }
}

impl From<UpdateKeyValueError> for AnyError {
    ghost from_gives = { λ error told. told ≡ any.UpdateKeyValue error };

    fn from(error: UpdateKeyValueError) -> AnyError {
        AnyError::UpdateKeyValue(error)
    }
}

impl From<ObjectStoreError> for AnyError {
    ghost from_gives = { λ error told. told ≡ any.ObjectStore error };

    fn from(error: ObjectStoreError) -> AnyError {
        AnyError::ObjectStore(error)
    }
}

impl From<AckError> for AnyError {
    ghost from_gives = { λ error told. told ≡ any.Ack error };

    fn from(error: AckError) -> AnyError {
        AnyError::Ack(error)
    }
}

impl From<MessageInfoError> for AnyError {
    ghost from_gives = { λ error told. told ≡ any.MessageInfo error };

    fn from(error: MessageInfoError) -> AnyError {
        AnyError::MessageInfo(error)
    }
}

impl From<InfoError> for AnyError {
    ghost from_gives = { λ error told. told ≡ any.AckSubject error };

    fn from(error: InfoError) -> AnyError {
        AnyError::AckSubject(error)
    }
}

impl From<StreamMessageError> for AnyError {
    ghost from_gives = { λ error told. told ≡ any.StreamMessage error };

    fn from(error: StreamMessageError) -> AnyError {
        AnyError::StreamMessage(error)
    }
}

impl From<ReadError> for AnyError {
    ghost from_gives = { λ error told. told ≡ any.Read error };

    fn from(error: ReadError) -> AnyError {
        AnyError::Read(error)
    }
}

impl From<WorkerError<MessagesError>> for AnyError {
    ghost from_gives = { λ error told. told ≡ of_worker any.Messages error };

    fn from(error: WorkerError<MessagesError>) -> AnyError {
        match error {
            WorkerError::Subscription(error) => AnyError::Messages(error),
            WorkerError::Ack(error) => AnyError::Ack(error),
        }
    }
}

impl From<WorkerError<js_readers::push::MessagesError>> for AnyError {
    ghost from_gives = { λ error told. told ≡ of_worker any.PushMessages error };

    fn from(error: WorkerError<js_readers::push::MessagesError>) -> AnyError {
        match error {
            WorkerError::Subscription(error) => AnyError::PushMessages(error),
            WorkerError::Ack(error) => AnyError::Ack(error),
        }
    }
}
