//! The line that reports an error of sessions.

ghost use Rattle.std.specs.Prelude.{◌≡◌, ◌++◌, ◌∷◌, [], codes, IfOk, OnOk};
ghost use Rattle.serde_json.specs.Data.{string};
ghost use Rattle.js_tool_transcript.specs.Text.{count, field_name, line_text};
ghost use Rattle.js_tool_event_log.specs.SessionTexts.{refusal_text, replay_refusal_text};

use js_event_log_sessions::SessionsError;
use js_ordered::{Field, ReplayError};
use js_tool_transcript::{Cell, field_text, push_line};
use std::alloc::{AllocError, Global};

fn push_named(out: &mut Vec<u8>, name: &[u8], session: u64) -> Result<(), AllocError>
    ensures { OnOk result (out.new.items ≡ out.old.items ++ line_text (string (codes "refused") ∷ string name.now ∷ count session ∷ [])) }
{
    push_line(
        out,
        &[
            Cell::Text(b"refused"),
            Cell::Text(name),
            Cell::Number(session),
        ],
    )
}

fn push_numbered(
    out: &mut Vec<u8>,
    name: &[u8],
    session: u64,
    number: u64,
) -> Result<(), AllocError>
    ensures { OnOk result (out.new.items ≡ out.old.items ++ line_text (string (codes "refused") ∷ string name.now ∷ count session ∷ count number ∷ [])) }
{
    push_line(
        out,
        &[
            Cell::Text(b"refused"),
            Cell::Text(name),
            Cell::Number(session),
            Cell::Number(number),
        ],
    )
}

fn push_bad_settings(out: &mut Vec<u8>, session: u64, field: Field) -> Result<(), AllocError>
    ensures { OnOk result (out.new.items ≡ out.old.items ++ line_text (string (codes "refused") ∷ string (codes "BadSettings") ∷ count session ∷ string (field_name field) ∷ [])) }
{
    push_line(
        out,
        &[
            Cell::Text(b"refused"),
            Cell::Text(b"BadSettings"),
            Cell::Number(session),
            Cell::Text(field_text(field)),
        ],
    )
}

fn push_replay(out: &mut Vec<u8>, session: u64, error: ReplayError) -> Result<(), AllocError>
    ensures { OnOk result (out.new.items ≡ out.old.items ++ replay_refusal_text session error) }
{
    match error {
        ReplayError::NoDeliverSubject => push_named(out, b"NoDeliverSubject", session),
        ReplayError::BadSettings { field } => push_bad_settings(out, session, field),
        ReplayError::BadEvent { place } => push_numbered(out, b"BadEvent", session, place),
        ReplayError::SequenceEnd { place } => push_numbered(out, b"SequenceEnd", session, place),
        ReplayError::OutOfMemory => push_named(out, b"OutOfMemory", session),
    }
}

fn push_refusal(out: &mut Vec<u8>, refusal: SessionsError) -> Result<(), AllocError>
    ensures { OnOk result (out.new.items ≡ out.old.items ++ refusal_text refusal) }
{
    match refusal {
        SessionsError::WrongStart { session, next } => {
            push_numbered(out, b"WrongStart", session, next)
        }
        SessionsError::WrongFilter { session } => push_named(out, b"WrongFilter", session),
        SessionsError::Replay { session, error } => push_replay(out, session, error),
        SessionsError::BookmarkEnd { session } => push_named(out, b"BookmarkEnd", session),
        SessionsError::OutOfMemory => push_line(
            out,
            &[Cell::Text(b"refused"), Cell::Text(b"OutOfMemory")],
        ),
    }
}

/// Returns the line of an error: its name, the session that failed (counted from 1), and the
/// error's other fields.
pub(crate) fn refusal_line(alloc: Global, refusal: SessionsError) -> Result<Vec<u8>, AllocError>
    ensures { IfOk result (λ line. line.items ≡ refusal_text refusal) }
{
    let mut out = Vec::new(alloc);
    push_refusal(&mut out, refusal)?;
    Ok(out)
}
