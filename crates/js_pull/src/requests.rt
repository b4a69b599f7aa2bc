//! The subjects and bodies of a pull reader's requests.
ghost use Rattle.std.specs.Prelude.{◌≡◌, IfOk};
ghost use Rattle.js_pull.specs.Reader as rows;
ghost use Rattle.js_pull.specs.Limits.{pull_body};

use crate::reader::{PullSource, Reader};
use bytes::Bytes;
use js_base::{OutOfMemory, Subject, consumer_api_subject, with_word};
use js_json_members::ReadError;
use std::alloc::Global;

impl PullSource {
    // The subject of a request on the consumer, by the words of the call.
    fn api_subject(&self, alloc: Global, words: &str) -> Result<Subject, OutOfMemory>
        ensures { IfOk result (λ subject. subject ≡ rows.api_subject self.now.api words.now self.now.stream self.now.name) }
    {
        let subject = consumer_api_subject(alloc, words, self.stream.as_str(), self.name.as_str())?;
        Ok(Subject::from(with_word(alloc, self.api.as_str(), subject.as_str())?))
    }

    /// Returns the subject of a pull request. Fails with `OutOfMemory` if memory runs out.
    pub fn pull_subject(&self, alloc: Global) -> Result<Subject, OutOfMemory>
        ensures { IfOk result (λ subject. subject ≡ rows.pull_subject self.now) }
    {
        self.api_subject(alloc, "CONSUMER.MSG.NEXT")
    }

    /// Returns the subject of a request for the consumer's info. Fails with `OutOfMemory` if memory
    /// runs out.
    pub fn info_subject(&self, alloc: Global) -> Result<Subject, OutOfMemory>
        ensures { IfOk result (λ subject. subject ≡ rows.info_subject self.now) }
    {
        self.api_subject(alloc, "CONSUMER.INFO")
    }
}

impl Reader {
    /// Returns the body of a pull request. Fails with `OutOfMemory` if memory runs out.
    #[tactic(auto, using(crate::proofs::RequestBodies::lacks_memory))]
    pub fn pull_body(&self, alloc: Global) -> Result<Bytes, OutOfMemory>
        ensures { IfOk result (λ body. body ≡ pull_body self.now.pin self.now.source.config) }
    {
        match self.source.config.request_text(alloc, self.pin.as_ref()) {
            Ok(text) => Ok(Bytes::from_string(text)?),
            Err(ReadError::OutOfMemory) => Err(OutOfMemory),
            // Whatever is asked for can be written.
            Err(_) => unreachable!(),
        }
    }
}
