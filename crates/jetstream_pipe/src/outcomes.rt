//! What became of the lines of standard input.

ghost use Rattle.std.specs.Prelude.{◌≡◌, [], true, false, None, is_none, OnOk, OnErr, IfErr};
ghost use Rattle.std.specs.Io.KnownBytes.{Appends};
ghost use Rattle.jetstream_pipe.specs.Outcomes.{Adds, AddsPublished, number_of as number_of_tag};
ghost use Rattle.js_pipe.specs.declared.failure.Failure.TheVariants.{Fault};

use js_context_queue::{Published, Tag};
use js_pipe::{Failure, add_outcome_line, write_page};
use js_tool_io::Sink;
use std::alloc::{AllocError, Global};

/// What became of the lines of standard input.
#[derive(Drop)]
pub struct Outcomes {
    /// Lines that are not written yet.
    page: Vec<u8>,
    /// Whether a line is not known to be stored.
    has_failed: bool,
}

fn number_of(tag: Tag) -> u64
    ensures { result ≡ number_of_tag tag.0 }
{
    tag.0.saturating_add(1)
}

impl Outcomes {
    /// Nothing is known yet.
    pub fn new(alloc: Global) -> Outcomes
        ensures { (result.page.items ≡ []) × (result.has_failed ≡ false) }
    {
        Outcomes {
            page: Vec::new(alloc),
            has_failed: false,
        }
    }

    /// Whether a line is not known to be stored.
    pub fn has_failed(&self) -> bool
        ensures { result ≡ self.now.has_failed }
    {
        self.has_failed
    }

    // Adds the line of an outcome.
    fn add_line(&mut self, alloc: Global, tag: Tag, stored: Option<u64>) -> Result<(), AllocError>
        ensures ok { OnOk result (Adds tag.0 stored (is_none stored) self.old self.new) }
        ensures err { OnErr result (self.new.page.items ≡ self.old.page.items) }
        ensures stays { self.old.has_failed ≡ true → self.new.has_failed ≡ true }
    {
        add_outcome_line(alloc, &mut self.page, number_of(tag), stored)?;
        if stored.is_none() {
            self.has_failed = true;
        }
        Ok(())
    }

    /// Adds the outcome that a queue handed out, and tells on standard error why a line is not
    /// stored.
    pub fn add<R: Eprint>(
        &mut self,
        rt: &R,
        alloc: Global,
        published: &Published,
    ) -> Result<(), AllocError>
        ensures ok { OnOk result (AddsPublished published.now self.old self.new) }
        ensures stays { self.old.has_failed ≡ true → self.new.has_failed ≡ true }
    {
        let tag = published.tag;
        match &published.outcome {
            Ok(ack) => self.add_line(alloc, tag, Some(ack.sequence)),
            Err(error) => {
                let number = number_of(tag);
                let _ = eprintln!(rt; "line {number}: {error}");
                self.add_line(alloc, tag, None)
            }
        }
    }

    /// Adds the outcome of a line that was not sent.
    pub fn add_unsent(&mut self, alloc: Global, tag: Tag) -> Result<(), AllocError>
        ensures ok { OnOk result (Adds tag.0 None true self.old self.new) }
        ensures stays { self.old.has_failed ≡ true → self.new.has_failed ≡ true }
    {
        self.add_line(alloc, tag, None)
    }

    /// Writes the lines that are not written yet. Fails with `Fault` if the output fails.
    pub fn write<K: Sink>(&mut self, output: &mut K) -> Result<(), Failure>
        ensures ok { OnOk result (Appends (K.taken output.old) (K.taken output.new) self.old.page.items) }
        ensures empty { OnOk result (self.new.page.items ≡ []) }
        ensures failure { IfErr result (λ failure. failure ≡ Fault) }
        ensures same { self.new.has_failed ≡ self.old.has_failed }
    {
        write_page(&mut self.page, output)
    }
}
