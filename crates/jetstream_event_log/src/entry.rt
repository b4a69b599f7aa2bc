//! The log entry of a message.
ghost use Rattle.std.specs.Prelude.{◌≡◌};
ghost use Rattle.js_message.specs.Message.{info_of};
ghost use Rattle.jetstream_event_log.specs.Entry.{entry_of};

use js_base::Entry;
use js_message::{Message, MessageInfoError};

/// Returns what a log keeps of a message that a consumer handed out: its stream sequence, its
/// subject and its payload. Drops the rest of the message.
///
/// # Errors
///
/// Those of [`Message::info`]: fails with `NoReply` if the message has no reply subject, and with
/// `Unreadable` if its reply subject is no acknowledgement subject. The message is dropped.
pub fn entry_of_message(message: Message) -> Result<Entry, MessageInfoError>
    ensures { result ≡ entry_of message.message (info_of message.message.reply) }
{
    let sequence = match message.info() {
        Ok(info) => info.stream_sequence,
        Err(error) => {
            drop(message);
            return Err(error);
        }
    };
    let Message {
        message,
        timeout: _,
    } = message;
    let js_base::Message {
        subject,
        payload,
        ..
    } = message;
    Ok(Entry {
        subject,
        sequence,
        payload,
    })
}
