//! Calls on streams.

use crate::answers::{Refusal, refused, stream_info, succeeded};
use crate::configs::StreamConfig;
use crate::json::{formatted, json_of, number_at, quoted, text_at};
use crate::log::Log;
use crate::server::{Stream, TestServer, stream_mut, stream_of};
use js_base::{OutOfMemory, Text, both, replace_with, subject_matches};
use std::alloc::Global;

impl Stream {
    fn info(&self, alloc: Global) -> Result<String, OutOfMemory> {
        stream_info(alloc, &self.log, self.consumers.len())
    }

    // Whether it stores messages that a filter matches.
    fn is_among(&self, filter: &str) -> bool {
        filter.is_empty()
            || self.log.config.subjects.iter().any(|subject| {
                subject_matches(filter, subject.as_str())
                    || subject_matches(subject.as_str(), filter)
            })
    }

    // The answer to a request that creates it once more: it is refused if the configuration is
    // another one.
    fn answer_again(&self, alloc: Global, config: &StreamConfig) -> Result<String, OutOfMemory> {
        if self.log.config.text.as_str() == config.text.as_str() {
            self.info(alloc)
        } else {
            refused(alloc, Refusal::StreamNameInUse)
        }
    }
}

impl TestServer {
    /// Adds a stream of one subject, which may have wildcards, as if a client had created it. If
    /// there is a stream of that name already, nothing changes.
    ///
    /// Fails with `OutOfMemory` if memory runs out.
    pub fn add_stream(
        &mut self,
        alloc: Global,
        name: &str,
        subject: &str,
    ) -> Result<(), OutOfMemory> {
        let (quoted_name, subject) = both(quoted(alloc, name), quoted(alloc, subject))?;
        let body = format!(in alloc; r#"{{"name":{quoted_name},"subjects":[{subject}]}}"#)?;
        drop(self.create_stream(alloc, name, body.as_bytes())?);
        Ok(())
    }

    fn read_config(
        &self,
        alloc: Global,
        name: &str,
        body: &[u8],
    ) -> Result<StreamConfig, OutOfMemory> {
        let object = json_of(alloc, body)?;
        let config = StreamConfig::read(alloc, name, &object);
        drop(object);
        config
    }

    pub(crate) fn create_stream(
        &mut self,
        alloc: Global,
        name: &str,
        body: &[u8],
    ) -> Result<String, OutOfMemory> {
        let config = self.read_config(alloc, name, body)?;
        if let Some(stream) = stream_of(&self.streams, name) {
            let answer = stream.answer_again(alloc, &config);
            drop(config);
            return answer;
        }
        self.push_stream(alloc, name, config)?;
        self.stream_info(alloc, name)
    }

    fn push_stream(
        &mut self,
        alloc: Global,
        name: &str,
        config: StreamConfig,
    ) -> Result<(), OutOfMemory> {
        let (config, name) = both(Ok(config), Text::from_str(alloc, name))?;
        let log = Log::new(alloc, name, config, self.connection.now());
        let consumers = Vec::new(alloc);
        self.streams.push(Stream { log, consumers })?;
        Ok(())
    }

    pub(crate) fn update_stream(
        &mut self,
        alloc: Global,
        name: &str,
        body: &[u8],
    ) -> Result<String, OutOfMemory> {
        let config = self.read_config(alloc, name, body)?;
        match stream_mut(&mut self.streams, name) {
            None => {
                drop(config);
                refused(alloc, Refusal::StreamNotFound)
            }
            Some(stream) => {
                replace_with(&mut stream.log.config, config);
                stream.info(alloc)
            }
        }
    }

    pub(crate) fn stream_info(&self, alloc: Global, name: &str) -> Result<String, OutOfMemory> {
        match stream_of(&self.streams, name) {
            None => refused(alloc, Refusal::StreamNotFound),
            Some(stream) => stream.info(alloc),
        }
    }

    pub(crate) fn delete_stream(
        &mut self,
        alloc: Global,
        name: &str,
    ) -> Result<String, OutOfMemory> {
        let before = self.streams.len();
        self.streams
            .retain(|stream| stream.log.name.as_str() != name);
        if self.streams.len() == before {
            return refused(alloc, Refusal::StreamNotFound);
        }
        succeeded(alloc)
    }

    pub(crate) fn purge_stream(
        &mut self,
        alloc: Global,
        name: &str,
        body: &[u8],
    ) -> Result<String, OutOfMemory> {
        let request = json_of(alloc, body)?;
        let below = match number_at(&request, "seq") {
            0 => u64::MAX,
            sequence => sequence,
        };
        let filter = text_at(&request, "filter").unwrap_or(">");
        let purged = self.purge(alloc, name, filter, below);
        drop(request);
        purged
    }

    fn purge(
        &mut self,
        alloc: Global,
        name: &str,
        filter: &str,
        below: u64,
    ) -> Result<String, OutOfMemory> {
        let Some(stream) = stream_mut(&mut self.streams, name) else {
            return refused(alloc, Refusal::StreamNotFound);
        };
        let before = stream.log.messages.len();
        stream.log.purge(filter, below);
        let purged = before.saturating_sub(stream.log.messages.len());
        formatted(format!(in alloc; r#"{{"success":true,"purged":{purged}}}"#))
    }

    pub(crate) fn stream_names(&self, alloc: Global, body: &[u8]) -> Result<String, OutOfMemory> {
        let request = json_of(alloc, body)?;
        let filter = text_at(&request, "subject").unwrap_or("");
        let answer = self.names_page(alloc, filter, number_at(&request, "offset"));
        drop(request);
        answer
    }

    // A page of the names of streams: all from the offset on.
    fn names_page(&self, alloc: Global, filter: &str, offset: u64) -> Result<String, OutOfMemory> {
        let mut names = String::new(alloc);
        let mut total: u64 = 0;
        for stream in self.streams.as_slice() {
            if stream.is_among(filter) {
                total = total.saturating_add(1);
                if total > offset {
                    push_name(alloc, &mut names, stream.log.name.as_str())?;
                }
            }
        }
        let names = names.as_str();
        formatted(format!(in alloc;
            r#"{{"total":{total},"offset":{offset},"limit":1024,"streams":[{names}]}}"#
        ))
    }
}

fn push_name(alloc: Global, names: &mut String, name: &str) -> Result<(), OutOfMemory> {
    if !names.is_empty() {
        names.push_str(",")?;
    }
    let name = quoted(alloc, name)?;
    names.push_str(name.as_str())?;
    Ok(())
}
