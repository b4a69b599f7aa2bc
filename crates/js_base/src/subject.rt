//! Subjects, and which subjects a filter matches.

ghost use Rattle.std.specs.Prelude.{◌≡◌, ◌==◌, ◌∷◌, [], IfOk, string_bytes, nat_eq, not};
ghost use Rattle.std.specs.Cmp.Lexicographic.{pointwise, nat_list_eq_equiv};
ghost use Rattle.std.specs.Cmp.{partial_equiv_from_equiv};
ghost use Rattle.std.specs.List.{list_all};
ghost use Rattle.std.specs.Str.{bytes_eq};
ghost use Rattle.std.specs.Char.{is_ascii_whitespace};
ghost use Rattle.js_base.specs.Subject.{is_valid_subject, token_matches, subject_matches};

use crate::memory::{OutOfMemory, TryClone};
use crate::subject_tokens::Tokens;
use std::alloc::Global;
use std::fmt;
use std::marker::Model;

/// The subject that a message is published on: tokens joined by dots.
/// Contracts see its text.
#[derive(Debug, Drop)]
pub struct Subject {
    text: String,
}

impl Model for Subject {
    ghost use Rattle.std.specs.Prelude.{List, ℕ, string_bytes};

    ghost Value = { List ℕ };

    ghost view = { λ s. string_bytes s.text };
}

impl Subject {
    /// Returns a subject with a copy of the text, and does not check the text.
    /// `is_valid_subject` tells whether you may send it. Fails with `OutOfMemory` if memory runs
    /// out.
    pub fn new(alloc: Global, text: &str) -> Result<Subject, OutOfMemory>
        ensures { IfOk result (λ subject. subject ≡ text.now) }
    {
        Ok(Subject {
            text: String::from_str(alloc, text)?,
        })
    }

    /// Returns the text of the subject.
    pub fn as_str(&self) -> &str
        ensures { result.now ≡ self.now }
    {
        self.text.as_str()
    }
}

impl fmt::Display for Subject {
    ghost use Rattle.std.specs.Prelude.{Some};

    ghost output = { λ subject. Some subject };

    fn fmt<W: fmt::Write>(&self, f: &mut fmt::Formatter<W>) -> fmt::Result {
        f.write_str(self.as_str())
    }
}

impl From<String> for Subject {
    ghost from_gives = { λ text subject. subject ≡ string_bytes text };

    fn from(text: String) -> Subject {
        Subject { text }
    }
}

impl TryClone for Subject {
    fn try_clone(&self) -> Result<Subject, OutOfMemory> {
        Ok(Subject {
            text: self.text.clone()?,
        })
    }
}

impl PartialEq for Subject {
    ghost eq = { pointwise nat_eq };

    ghost laws = { partial_equiv_from_equiv nat_list_eq_equiv };

    fn eq(&self, other: &Subject) -> bool {
        self.as_str() == other.as_str()
    }
}

impl Eq for Subject {
    ghost laws = { nat_list_eq_equiv };
}

fn has_no_space(text: &[u8]) -> bool
    ensures { result ≡ list_all (λ c. not (is_ascii_whitespace c)) text.now }
{
    text.iter().all(|byte| !byte.is_ascii_whitespace())
}

/// Returns whether a text is a valid subject.
/// A valid subject is not empty, has no ASCII white space, and neither begins nor ends with a dot.
pub fn is_valid_subject(subject: &str) -> bool
    ensures { result ≡ is_valid_subject subject.now }
{
    match subject.as_bytes() {
        [] => false,
        [first, ..] => has_no_space(subject.as_bytes())
            && *first != b'.'
            && !subject.ends_with('.'),
    }
}

fn token_matches(filter: &str, token: &str) -> bool
    ensures { result ≡ token_matches filter.now token.now }
{
    filter == "*" || filter == token
}

fn is_full_wildcard(filter: &str) -> bool
    ensures { result ≡ bytes_eq filter.now (62 ∷ []) }
{
    filter == ">"
}

/// Returns whether a filter matches a subject.
/// Both are cut at every dot and compared token by token. In the filter, `*` matches any one token,
/// and `>` as the last token matches one or more tokens. Every other token matches only itself.
pub fn subject_matches(filter: &str, subject: &str) -> bool
    ensures { result ≡ subject_matches filter.now subject.now }
{
    let mut filters = Tokens::new(filter);
    let mut tokens = Tokens::new(subject);
    while let Some(filter) = filters.next() {
        let Some(token) = tokens.next() else {
            return false;
        };
        if filters.is_empty() && is_full_wildcard(filter) {
            return true;
        }
        if !token_matches(filter, token) {
            return false;
        }
    }
    tokens.is_empty()
}
