//! Numbers in a line.

ghost use Rattle.std.specs.Prelude.{◌≡◌};
ghost use Rattle.js_base.specs.Numeral.{unsigned_of};
ghost use Rattle.js_link_wire.specs.Lines.{Gives};
ghost use Rattle.js_link_wire.specs.Words.{number_of};

use crate::damage::{Damage, Unread};

// The number that decimal digits alone write, without a sign.
#[tactic(auto, unfolding(crate::specs::Words::number_of))]
pub(crate) fn number_of(word: &str) -> Result<u64, Unread>
    ensures { Gives (λ number. number) result (number_of word.now) }
{
    match word.as_bytes() {
        [b'+', ..] => Err(Unread::Damaged(Damage::BadNumber)),
        _ => match parsed(word) {
            Some(number) => Ok(number),
            None => Err(Unread::Damaged(Damage::BadNumber)),
        },
    }
}

fn parsed(word: &str) -> Option<u64>
    ensures { result ≡ unsigned_of 64 word.now }
{
    word.parse::<u64>().ok()
}
