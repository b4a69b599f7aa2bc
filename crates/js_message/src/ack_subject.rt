//! Acknowledgement subjects, read by their whole grammar.
ghost use Rattle.std.specs.Prelude.{◌≡◌, ℕ, ◌+◌, ◌<◌, ◌≤◌, length};
ghost use Rattle.std.specs.Option.{option_copied};
ghost use Rattle.std.specs.Result.{result_map_both};
ghost use Rattle.js_base.specs.Subject.{tokens};
ghost use Rattle.js_message.specs.AckSubject.{ack, seven_at, domain_of, i128_of, of_tokens, read_then};
ghost use Rattle.js_message.specs.DotPositions.{IsScanned};
ghost use Rattle.js_message.specs.Info.{shown_result, instant_of};

use crate::dot_positions::Dots;
use crate::info::Info;
use crate::info_error::InfoError;
use crate::numbers::{read_i64, read_i128, read_u64};
use jiff::Timestamp;
use js_base::all_5;

fn instant(nanoseconds: i128) -> Result<Timestamp, InfoError>
    ensures { result_map_both (λ t. t.nanosecond) (λ e. e) result ≡ instant_of nanoseconds }
{
    match Timestamp::from_nanosecond(nanoseconds) {
        Ok(instant) => Ok(instant),
        Err(_) => Err(InfoError::Instant),
    }
}

// Reads the token of a time, which stands at the place.
fn read_instant(token: &str, place: usize) -> Result<Timestamp, InfoError>
    ensures { result_map_both (λ t. t.nanosecond) (λ e. e) result ≡ read_then (i128_of token.now) place instant_of }
{
    let nanoseconds = read_i128(token).ok_or(not_a_number(place))?;
    instant(nanoseconds)
}

// Reads the seven tokens, of which the first is at the place, from left to right. The other texts are cut once all numbers
// have been read.
fn read_seven<'a>(
    text: &'a str,
    dots: &Dots,
    place: usize,
    domain: Option<&'a str>,
    acc_hash: Option<&'a str>,
) -> Result<Info<'a>, InfoError>
    requires dots { IsScanned text.now dots.now }
    requires within { place + 6 ≤ dots.now.count }
    requires kept { place < 3 }
    ensures { shown_result result ≡ seven_at place (option_copied domain.entry) (option_copied acc_hash.entry) (tokens text.now) }
{
    let delivered = read_i64(dots.token(text, place + 2)).ok_or(not_a_number(place + 2));
    let stream_sequence = read_u64(dots.token(text, place + 3)).ok_or(not_a_number(place + 3));
    let consumer_sequence = read_u64(dots.token(text, place + 4)).ok_or(not_a_number(place + 4));
    let published = read_instant(dots.token(text, place + 5), place + 5);
    let pending = read_u64(dots.token(text, place + 6)).ok_or(not_a_number(place + 6));
    let (delivered, stream_sequence, consumer_sequence, published, pending) = all_5(
        delivered,
        stream_sequence,
        consumer_sequence,
        published,
        pending,
    )?;
    Ok(Info {
        domain,
        acc_hash,
        stream: dots.token(text, place),
        consumer: dots.token(text, place + 1),
        stream_sequence,
        consumer_sequence,
        delivered,
        pending,
        published,
        token: dots.get(text, place + 7),
    })
}

fn not_a_number(place: usize) -> InfoError
    ensures { result ≡ InfoError.Number place }
{
    InfoError::Number {
        place: place as u64,
    }
}

// `_` is no domain.
fn domain(token: &str) -> Option<&str>
    ensures { option_copied result ≡ domain_of token.now }
{
    if token == "_" { None } else { Some(token) }
}

// Reads the short form.
fn read_short<'a>(text: &'a str, dots: &Dots) -> Result<Info<'a>, InfoError>
    requires dots { IsScanned text.now dots.now }
    requires short { dots.now.count ≡ 6 }
    ensures { shown_result result ≡ of_tokens (tokens text.now) }
{
    read_seven(text, dots, 0, None, None)
}

// Reads the long form.
fn read_long<'a>(text: &'a str, dots: &Dots) -> Result<Info<'a>, InfoError>
    requires dots { IsScanned text.now dots.now }
    requires long { 8 ≤ dots.now.count }
    ensures { shown_result result ≡ of_tokens (tokens text.now) }
{
    let domain = domain(dots.token(text, 0));
    let acc_hash = dots.token(text, 1);
    read_seven(text, dots, 2, domain, Some(acc_hash))
}

// Reads the tokens that follow the prefix.
fn read_tokens(text: &str) -> Result<Info<'_>, InfoError>
    ensures { shown_result result ≡ of_tokens (tokens text.now) }
{
    let dots = Dots::of(text);
    match dots.count() {
        6 => read_short(text, &dots),
        n if n >= 8 => read_long(text, &dots),
        n => Err(InfoError::TokenCount { n: n as u64 + 1 }),
    }
}

/// Parses the acknowledgement subject of a message (ADR-15). It allocates nothing.
///
/// The text begins with `$JS.ACK.`, and the rest is cut at every dot. Seven tokens are the stream,
/// the consumer, how often the message was delivered, its stream sequence, its consumer sequence,
/// when it was stored in nanoseconds since 1970, and how many messages are pending. Nine or more
/// tokens are the domain (`_` for none), the account's hash and those seven; a tenth is kept, and
/// later ones are ignored.
///
/// Fails with `Prefix` if the text does not begin with `$JS.ACK.`, and with `TokenCount` for any
/// other number of tokens. The tokens are read from left to right, and the first bad one decides:
/// `Number` with its place, or `Instant`.
pub fn parse_info(reply: &str) -> Result<Info<'_>, InfoError>
    ensures { shown_result result ≡ ack reply.now }
{
    match reply.strip_prefix("$JS.ACK.") {
        Some(text) => read_tokens(text),
        None => Err(InfoError::Prefix),
    }
}
