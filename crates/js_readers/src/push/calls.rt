//! The call that reads a push consumer.
ghost use Rattle.std.specs.Prelude.{◌≡◌};
ghost use Rattle.std.specs.Option.{option_copied};
ghost use Rattle.js_json.specs.declared.push.Config as push;
ghost use Rattle.js_call_consumers.specs.declared.consumer.Consumer.{Consumer};
ghost use Rattle.js_readers.specs.PushCalls.{OpensMessages};

use crate::pull::{StreamError, StreamErrorKind, message_timeout, stream_error_kind};
use crate::push::messages::Messages;
use js_base::{Error, Text};
use js_call_consumers::PushConsumer;
use js_link::Link;
use std::alloc::Global;

/// The call that reads a push consumer.
pub trait PushCalls: Drop {
    /// The consumer that it reads.
    ghost pushes: { Self → Consumer push.Config };

    /// Subscribes to the consumer's deliver subject, as its cached info has it, in its queue group
    /// if it has one. It sends nothing else.
    ///
    /// Fails with `Other` if the info has no deliver subject or the link fails, and with
    /// `OutOfMemory` if memory runs out. Nothing was sent then.
    fn messages<L: Link>(self, alloc: Global, link: &mut L) -> Result<Messages, StreamError>
        ensures { OpensMessages result (pushes self) (L.view link.old) (L.view link.new) };
}

// Opens the reader of a consumer.
fn open<L: Link>(
    alloc: Global,
    link: &mut L,
    consumer: &PushConsumer,
) -> Result<Messages, StreamError>
    ensures { OpensMessages result consumer.now (L.view link.old) (L.view link.new) }
{
    let Some(subject) = &consumer.info.config.deliver_subject else {
        return Err(Error::new(StreamErrorKind::Other));
    };
    let group = text_of(&consumer.info.config.deliver_group);
    match link.subscribe(alloc, subject.as_str(), group) {
        Ok(inbox) => {
            let timeout = message_timeout(&consumer.scope);
            Ok(Messages::new(inbox.0, consumer.config.idle_heartbeat, timeout))
        }
        Err(error) => Err(Error::new(stream_error_kind(error))),
    }
}

fn text_of(text: &Option<Text>) -> Option<&str>
    ensures { option_copied result ≡ text.now }
{
    match text {
        None => None,
        Some(text) => Some(text.as_str()),
    }
}

impl PushCalls for PushConsumer {
    ghost pushes = { λ consumer. consumer };

    fn messages<L: Link>(self, alloc: Global, link: &mut L) -> Result<Messages, StreamError> {
        let opened = open(alloc, link, &self);
        drop(self);
        opened
    }
}
