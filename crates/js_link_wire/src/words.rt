//! The words of a line, which blanks separate.

ghost use Rattle.std.specs.Prelude.{◌≡◌, ◌<◌, ◌∷◌, length, [], MatchOption};
ghost use Rattle.std.specs.Option.{option_copied};
ghost use Rattle.js_link_wire.specs.Words.{words, words_left, parts, parts_left};

use std::marker::Model;

/// The words of a text, one by one. Blanks before, between and after them do not count. Contracts
/// see the list of the words that are left.
#[derive(Drop)]
pub(crate) struct Words<'a> {
    rest: Option<&'a str>,
}

impl<'a> Model for Words<'a> {
    ghost use Rattle.std.specs.Prelude.{ℕ, List};
    ghost use Rattle.std.specs.Option.{option_copied};
    ghost use Rattle.js_link_wire.specs.Words.{words_left};

    ghost Value = { List (List ℕ) };

    ghost view = { λ w. words_left (option_copied w.rest) };
}

impl<'a> Words<'a> {
    /// Returns the words of a text.
    pub fn new(text: &'a str) -> Words<'a>
        ensures { result ≡ words text.now }
    {
        Words { rest: Some(text) }
    }

    /// Removes and returns the next word, or returns `None` if no word is left.
    pub fn next(&mut self) -> Option<&'a str>
        ensures { MatchOption result (self.old ≡ []) (λ word. self.old ≡ word.now ∷ self.new) }
    {
        let (word, rest) = next_word(self.rest);
        self.rest = rest;
        word
    }
}

// The next word, and what follows it.
fn next_word(text: Option<&str>) -> (Option<&str>, Option<&str>)
    ensures { MatchOption result.0 (words_left (option_copied text.entry) ≡ []) (λ word. words_left (option_copied text.entry) ≡ word.now ∷ words_left (option_copied result.1)) }
{
    let mut left = text;
    while let Some(text) = left {
        let (part, rest) = cut(text);
        if !part.is_empty() {
            return (Some(part), rest);
        }
        left = rest;
    }
    (None, None)
}

// What stands before the first blank, and what follows it.
fn cut(text: &str) -> (&str, Option<&str>)
    ensures parts { parts text.now ≡ result.0.now ∷ parts_left (option_copied result.1) }
    ensures shorter { MatchOption (option_copied result.1) (length result.0.now ≡ length text.now) (λ rest. length rest < length text.now) }
{
    match text.split_once(' ') {
        Some((part, rest)) => (part, Some(rest)),
        None => (text, None),
    }
}
