//! An acknowledgement subject that is read over and over.

ghost use Rattle.std.specs.Prelude.{◌≡◌, is_ok};
ghost use Rattle.js_message.specs.AckSubject.{ack};

use js_message::parse_info;
use std::test::Fail;

/// Reads a subject so many times, and prints whether it reads.
pub fn run(rt: &impl Print, calls: u64, subject: &str) -> Result<(), Fail> {
    println!(rt; "{}", reads_often(subject, calls))?;
    Ok(())
}

// Whether the subject is an acknowledgement subject.
fn reads(subject: &str) -> bool
    ensures { result ≡ is_ok (ack subject.now) }
{
    parse_info(subject).is_ok()
}

// What the last of so many calls answers.
fn reads_often(subject: &str, calls: u64) -> bool {
    let mut answer = false;
    for _ in 0..calls {
        answer = reads(subject);
    }
    answer
}
