//! Texts in quotes, as JSON writes them.

ghost use Rattle.std.specs.Prelude.{◌≡◌, ◌<◌, ◌≤◌, ◌++◌, ◌∷◌, [], length, take, drop, OnOk, IsTrue};
ghost use Rattle.std.specs.Char.{digit_char};
ghost use Rattle.json.specs.Print.{escape_letter as letter_of, escape_byte, escape, quoted};

use std::alloc::AllocError;

/// Adds a text in quotes, with the shortest escapes.
pub(crate) fn push_quoted(out: &mut Vec<u8>, text: &[u8]) -> Result<(), AllocError>
    ensures { OnOk result (out.new.items ≡ out.old.items ++ quoted text.now) }
{
    out.push(b'"')?;
    push_text(out, text)?;
    out.push(b'"')?;
    Ok(())
}

// What stands for itself goes in by whole runs.
fn push_text(out: &mut Vec<u8>, text: &[u8]) -> Result<(), AllocError>
    ensures { OnOk result (out.new.items ≡ out.old.items ++ escape text.now) }
{
    let mut rest = text;
    while !rest.is_empty() {
        let plain = plain_front(rest);
        out.extend_from_slice(&rest[..plain])?;
        if plain == rest.len() {
            return Ok(());
        }
        push_escaped(out, rest[plain])?;
        rest = &rest[plain + 1..];
    }
    Ok(())
}

/// Returns how many bytes at the front need no escape.
pub(crate) fn plain_front(bytes: &[u8]) -> usize
    ensures within { result ≤ length bytes.now }
    ensures plain { escape bytes.now ≡ take result bytes.now ++ escape (drop result bytes.now) }
    ensures same { escape (take result bytes.now) ≡ take result bytes.now }
{
    let mut count = 0;
    for byte in bytes {
        if !is_plain(*byte) {
            return count;
        }
        count += 1;
    }
    count
}

#[tactic(auto, unfolding(json::specs::Print::escape_byte))]
fn is_plain(byte: u8) -> bool
    ensures { IsTrue result → escape_byte byte ≡ byte ∷ [] }
{
    byte >= 32 && byte != b'"' && byte != b'\\'
}

#[tactic(auto, unfolding(json::specs::Print::escape_byte))]
fn push_escaped(out: &mut Vec<u8>, byte: u8) -> Result<(), AllocError>
    ensures { OnOk result (out.new.items ≡ out.old.items ++ escape_byte byte) }
{
    let letter = escape_letter(byte);
    if letter > 0 {
        out.extend_from_slice(&[b'\\', letter])?;
    } else if byte < 32 {
        out.extend_from_slice(&[
            b'\\',
            b'u',
            b'0',
            b'0',
            hex_digit(byte / 16),
            hex_digit(byte % 16),
        ])?;
    } else {
        out.push(byte)?;
    }
    Ok(())
}

fn escape_letter(byte: u8) -> u8
    ensures { result ≡ letter_of byte }
{
    match byte {
        b'"' | b'\\' => byte,
        8 => b'b',
        12 => b'f',
        b'\n' => b'n',
        b'\r' => b'r',
        b'\t' => b't',
        _ => 0,
    }
}

fn hex_digit(digit: u8) -> u8
    requires { digit < 16 }
    ensures { result ≡ digit_char digit }
{
    if digit < 10 {
        b'0' + digit
    } else {
        b'a' - 10 + digit
    }
}
