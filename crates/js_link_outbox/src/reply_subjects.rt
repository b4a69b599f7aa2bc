//! The reply subjects of requests.
ghost use Rattle.std.specs.Prelude.{◌≡◌, ◌≢◌, ◌<◌, ◌^◌, ℕ, IfOk, IfSome, MatchOption, string_bytes};
ghost use Rattle.std.specs.Char.{is_ascii_digit};
ghost use Rattle.std.specs.Fmt.{decimal};
ghost use Rattle.std.specs.List.{list_all};
ghost use Rattle.js_link_outbox.specs.Outbox.{answer_subject, answers_subject, inbox_subject, fresh_subject};
ghost use Rattle.js_link_outbox.specs.Numerals.{begins_well, is_written};

use js_base::{OutOfMemory, Subject};
use std::alloc::Global;

// Whether there is a digit, and no zero before others.
fn begins_well(digits: &[u8]) -> bool
    ensures { result ≡ begins_well digits.now }
{
    match digits {
        [] => false,
        [first, rest @ ..] => *first != b'0' || rest.is_empty(),
    }
}

fn are_digits(digits: &[u8]) -> bool
    ensures { result ≡ list_all is_ascii_digit digits.now }
{
    digits.iter().all(|byte| byte.is_ascii_digit())
}

// Whether the text is a number as it is written: digits, and no zero before others.
fn is_written(digits: &[u8]) -> bool
    ensures { result ≡ is_written digits.now }
{
    begins_well(digits) && are_digits(digits)
}

// The number that was written as this text.
fn read_number(text: &str) -> Option<u64>
    ensures value { MatchOption result ((n : ℕ) → n < 2 ^ 64 → text.now ≢ decimal n) (λ n. text.now ≡ decimal n) }
    ensures small { IfSome result (λ n. n < 2 ^ 64) }
{
    if !is_written(text.as_bytes()) {
        return None;
    }
    text.parse::<u64>().ok()
}

// The number of the request whose reply subject this is.
#[tactic(auto, unfolding(crate::specs::Outbox::answer_subject))]
pub(crate) fn request_of(front: &str, subject: &str) -> Option<u64>
    ensures small { IfSome result (λ n. n < 2 ^ 64) }
    ensures value { MatchOption result ((n : ℕ) → n < 2 ^ 64 → subject.now ≢ answer_subject front.now n) (λ n. subject.now ≡ answer_subject front.now n) }
{
    let number = subject.strip_prefix(front)?;
    read_number(number)
}

#[tactic(auto, unfolding(crate::specs::Outbox::answer_subject))]
fn answer_text(alloc: Global, front: &str, number: u64) -> Result<String, OutOfMemory>
    ensures { IfOk result (λ text. string_bytes text ≡ answer_subject front.now number) }
{
    Ok(format!(in alloc; "{front}{number}")?)
}

#[tactic(auto, unfolding(crate::specs::Outbox::answers_subject))]
fn answers_text(alloc: Global, front: &str) -> Result<String, OutOfMemory>
    ensures { IfOk result (λ text. string_bytes text ≡ answers_subject front.now) }
{
    Ok(format!(in alloc; "{front}*")?)
}

#[tactic(auto, unfolding(crate::specs::Outbox::inbox_subject))]
fn inbox_text(alloc: Global, front: &str, number: u64) -> Result<String, OutOfMemory>
    ensures { IfOk result (λ text. string_bytes text ≡ inbox_subject front.now number) }
{
    Ok(format!(in alloc; "{front}i.{number}")?)
}

#[tactic(auto, unfolding(crate::specs::Outbox::fresh_subject))]
fn fresh_text(alloc: Global, front: &str, number: u64) -> Result<String, OutOfMemory>
    ensures { IfOk result (λ text. string_bytes text ≡ fresh_subject front.now number) }
{
    Ok(format!(in alloc; "{front}f.{number}")?)
}

// The reply subject of a request.
pub(crate) fn answer_subject(
    alloc: Global,
    front: &str,
    number: u64,
) -> Result<Subject, OutOfMemory>
    ensures { IfOk result (λ subject. subject ≡ answer_subject front.now number) }
{
    Ok(Subject::from(answer_text(alloc, front, number)?))
}

// The subject that stands for all of them.
pub(crate) fn answers_subject(alloc: Global, front: &str) -> Result<Subject, OutOfMemory>
    ensures { IfOk result (λ subject. subject ≡ answers_subject front.now) }
{
    Ok(Subject::from(answers_text(alloc, front)?))
}

// The subject of an inbox.
pub(crate) fn inbox_subject(alloc: Global, front: &str, number: u64) -> Result<Subject, OutOfMemory>
    ensures { IfOk result (λ subject. subject ≡ inbox_subject front.now number) }
{
    Ok(Subject::from(inbox_text(alloc, front, number)?))
}

// A subject under which nothing is opened.
pub(crate) fn fresh_subject(alloc: Global, front: &str, number: u64) -> Result<Subject, OutOfMemory>
    ensures { IfOk result (λ subject. subject ≡ fresh_subject front.now number) }
{
    Ok(Subject::from(fresh_text(alloc, front, number)?))
}
