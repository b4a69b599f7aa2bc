//! The tokens of a subject, which its dots separate.

ghost use Rattle.std.specs.Prelude.{◌≡◌, ◌<◌, ◌∷◌, ◌==◌, length, [], MatchOption};
ghost use Rattle.std.specs.Option.{option_copied};
ghost use Rattle.js_base.specs.Subject.{tokens, tokens_left};

use std::marker::Model;

/// The tokens of a text that are still to be read.
/// A text is cut at every dot. Contracts see the list of the tokens that are left.
#[derive(Drop)]
pub struct Tokens<'a> {
    rest: Option<&'a str>,
}

impl<'a> Model for Tokens<'a> {
    ghost use Rattle.std.specs.Prelude.{ℕ, List};
    ghost use Rattle.std.specs.Option.{option_copied};
    ghost use Rattle.js_base.specs.Subject.{tokens_left};

    ghost Value = { List (List ℕ) };

    ghost view = { λ t. tokens_left (option_copied t.rest) };
}

impl<'a> Tokens<'a> {
    /// Returns all tokens of a text: one more than it has dots.
    pub fn new(text: &'a str) -> Tokens<'a>
        ensures { result ≡ tokens text.now }
    {
        Tokens { rest: Some(text) }
    }

    /// Returns whether no token is left.
    pub fn is_empty(&self) -> bool
        ensures { result ≡ (length self.now == 0) }
    {
        self.rest.is_none()
    }

    /// Removes and returns the next token, or returns `None` if none is left.
    pub fn next(&mut self) -> Option<&'a str>
        ensures cut { MatchOption result (self.old ≡ []) (λ token. self.old ≡ token.now ∷ self.new) }
        ensures end { MatchOption result (self.new ≡ []) (λ _. 0 < length self.old) }
    {
        let text = self.rest?;
        let (token, rest) = cut(text);
        self.rest = rest;
        Some(token)
    }

    /// Removes and returns the next token.
    /// Call it only if a token is left.
    pub fn take(&mut self) -> &'a str
        requires { 0 < length self.old }
        ensures { self.old ≡ result.now ∷ self.new }
    {
        let text = self.rest.unwrap();
        let (token, rest) = cut(text);
        self.rest = rest;
        token
    }
}

// Returns the first token, and the text after its dot if there is one.
fn cut(text: &str) -> (&str, Option<&str>)
    ensures { tokens text.now ≡ result.0.now ∷ tokens_left (option_copied result.1) }
{
    match text.split_once('.') {
        Some((token, rest)) => (token, Some(rest)),
        None => (text, None),
    }
}
