//! What a row of a stream meets at its link. If memory runs out for the pin of a message that was
//! taken, the stream holds the message, and it counts as unread.
ghost use Rattle.std.specs.Prelude.{◌≡◌, IfOk, None, OnErr, Option, Some};
ghost use Rattle.js_base.specs.declared.message.Message.{Message as SpecMessage};
ghost use Rattle.js_link.specs.Wish.{message_of};
ghost use Rattle.js_pull.specs.Rows.{row_of};
ghost use Rattle.js_pull.specs.declared.rows.Due.TheVariants as due_of;
ghost use Rattle.js_pull.specs.HeldMessage.{seen};
ghost use Rattle.js_pull.specs.Stream.{IsMeeting};

use crate::{Due, Finding, Reader, Spare, informed_of};
use js_base::{Message, OutOfMemory, replace_with};
use js_link::{InboxId, Link, Met, Taken, ask, take};
use std::alloc::Global;

/// What a row met, and what was allocated for it.
#[derive(Drop)]
pub(crate) struct Meeting {
    pub met: Met,
    pub spare: Spare,
}

// A message is held from now on, or none.
fn hold(held: &mut Option<Message>, message: Option<Message>)
    ensures { held.new ≡ message }
{
    replace_with(held, message);
}

// The first message of the inbox, if there is one.
fn take_first<L: Link>(
    reader: &Reader,
    held: &mut Option<Message>,
    alloc: Global,
    link: &mut L,
) -> Result<Meeting, OutOfMemory>
    requires { held.old ≡ None }
    ensures met { IfOk result (λ m. (reply : Option SpecMessage) → IsMeeting due_of.CheckArrival reply reader.now m (L.view link.old) (seen held.new reader.now.source.inbox (L.view link.new))) }
    ensures refused { OnErr result (seen held.new reader.now.source.inbox (L.view link.new) ≡ L.view link.old) }
{
    let met = take(link, reader.source.inbox);
    match reader.pin_of(alloc, &met) {
        Ok(pin) => Ok(Meeting {
            met,
            spare: Spare {
                informed: Finding::Nothing,
                pin,
            },
        }),
        Err(_) => {
            hold(held, met.into_message());
            Err(OutOfMemory)
        }
    }
}

// The message that was held, if its inbox is still open. What lies behind it is held then.
fn take_held<L: Link>(
    reader: &Reader,
    held: &mut Option<Message>,
    alloc: Global,
    link: &mut L,
    message: Message,
) -> Result<Meeting, OutOfMemory>
    requires { held.old ≡ None }
    ensures met { IfOk result (λ m. (reply : Option SpecMessage) → IsMeeting due_of.CheckArrival reply reader.now m (seen (Some message) reader.now.source.inbox (L.view link.old)) (seen held.new reader.now.source.inbox (L.view link.new))) }
    ensures refused { OnErr result (seen held.new reader.now.source.inbox (L.view link.new) ≡ seen (Some message) reader.now.source.inbox (L.view link.old)) }
{
    let met = Met::Took(message);
    match reader.pin_of(alloc, &met) {
        Err(_) => {
            hold(held, met.into_message());
            Err(OutOfMemory)
        }
        Ok(pin) => match link.take(InboxId(reader.source.inbox)) {
            Taken::Closed => {
                drop(met);
                drop(pin);
                Ok(Meeting {
                    met: Met::Shut,
                    spare: Spare {
                        informed: Finding::Nothing,
                        pin: None,
                    },
                })
            }
            Taken::Empty => Ok(Meeting {
                met,
                spare: Spare {
                    informed: Finding::Nothing,
                    pin,
                },
            }),
            Taken::Message(next) => {
                hold(held, Some(next));
                Ok(Meeting {
                    met,
                    spare: Spare {
                        informed: Finding::Nothing,
                        pin,
                    },
                })
            }
        },
    }
}

// What a row meets that looks at no inbox.
fn ask_for<L: Link>(
    reader: &Reader,
    alloc: Global,
    link: &mut L,
    due: Due,
    reply: &Option<Message>,
) -> Result<Meeting, OutOfMemory>
    requires { due ≡ due_of.CheckArrival → ⊥ }
    ensures met { IfOk result (λ m. IsMeeting due reply.now reader.now m (L.view link.old) (L.view link.new)) }
    ensures refused { OnErr result (L.view link.new ≡ L.view link.old) }
{
    let informed = informed_of(alloc, due, reply)?;
    let wish = reader.wish(alloc, due)?;
    let asked = ask(alloc, link, &wish);
    drop(wish);
    let met = asked?;
    Ok(Meeting {
        met,
        spare: Spare {
            informed,
            pin: None,
        },
    })
}

/// Returns what a row meets. Fails with `OutOfMemory` if memory runs out: the link, with the held
/// message counted as unread, is then unchanged.
pub(crate) fn meet<L: Link>(
    reader: &Reader,
    held: &mut Option<Message>,
    alloc: Global,
    link: &mut L,
    due: Due,
    reply: &Option<Message>,
) -> Result<Meeting, OutOfMemory>
    ensures met { IfOk result (λ m. IsMeeting due reply.now reader.now m (seen held.old reader.now.source.inbox (L.view link.old)) (seen held.new reader.now.source.inbox (L.view link.new))) }
    ensures refused { OnErr result (seen held.new reader.now.source.inbox (L.view link.new) ≡ seen held.old reader.now.source.inbox (L.view link.old)) }
{
    match due {
        Due::CheckArrival => match held.take() {
            None => take_first(reader, held, alloc, link),
            Some(message) => take_held(reader, held, alloc, link, message),
        },
        _ => ask_for(reader, alloc, link, due, reply),
    }
}
