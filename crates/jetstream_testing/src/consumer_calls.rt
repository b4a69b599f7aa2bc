//! Calls on consumers, and pull requests.

use crate::acks::{Ack, AckPlace};
use crate::answers::{Refusal, consumer_info, refused, succeeded};
use crate::api::split_name;
use crate::configs::ConsumerConfig;
use crate::connection::Connection;
use crate::consumer::Consumer;
use crate::json::{formatted, json_of, quoted, text_at};
use crate::pulls::{Pull, Wanted, read_wanted};
use crate::server::{Published, Stream, TestServer, stream_mut, stream_of};
use js_base::{Moment, OutOfMemory, StatusCode, Subject, Text, TryClone, both, replace_with};
use serde_json::Value;
use std::alloc::Global;

// What a request to create a consumer asks for.
#[derive(Drop)]
struct Creation {
    name: Text,
    config: ConsumerConfig,
}

impl Stream {
    fn consumer_info(&self, alloc: Global, name: &str) -> Result<String, OutOfMemory> {
        match consumer_of(&self.consumers, name) {
            None => refused(alloc, Refusal::ConsumerNotFound),
            Some(consumer) => consumer_info(alloc, &self.log, consumer),
        }
    }

    // Creates a consumer, or gives the one of its name the new configuration.
    fn put_consumer(
        &mut self,
        alloc: Global,
        creation: Creation,
        now: Moment,
    ) -> Result<(), OutOfMemory> {
        let Creation { name, config } = creation;
        if let Some(consumer) = consumer_mut(&mut self.consumers, name.as_str()) {
            replace_with(&mut consumer.config, config);
            return Ok(());
        }
        let consumer = Consumer::new(alloc, name, config, &self.log, now);
        self.consumers.push(consumer)?;
        Ok(())
    }

    // Why a consumer is not created or updated, if it is not.
    fn refusal(&self, creation: &Creation, action: &str) -> Option<Refusal> {
        match consumer_of(&self.consumers, creation.name.as_str()) {
            None if action == "update" => Some(Refusal::ConsumerDoesNotExist),
            Some(known)
                if action == "create"
                    && known.config.text.as_str() != creation.config.text.as_str() => {
                Some(Refusal::ConsumerExists)
            }
            _ => None,
        }
    }

    fn create_consumer(
        &mut self,
        alloc: Global,
        creation: Creation,
        action: &str,
        now: Moment,
    ) -> Result<String, OutOfMemory> {
        if let Some(refusal) = self.refusal(&creation, action) {
            drop(creation);
            return refused(alloc, refusal);
        }
        let name = creation.name.try_clone();
        let (creation, name) = both(Ok(creation), name)?;
        let put = self.put_consumer(alloc, creation, now);
        let (name, ()) = both(Ok(name), put)?;
        self.consumer_info(alloc, name.as_str())
    }

    fn delete_consumer(
        &mut self,
        alloc: Global,
        connection: &mut Connection,
        name: &str,
    ) -> Result<String, OutOfMemory> {
        let Some(consumer) = consumer_of(&self.consumers, name) else {
            return refused(alloc, Refusal::ConsumerNotFound);
        };
        consumer.end_all_pulls(alloc, connection)?;
        self.consumers
            .retain(|consumer| consumer.name.as_str() != name);
        succeeded(alloc)
    }

    // Settles a message of one of its consumers. A message of a work queue is removed when it is
    // done.
    pub(crate) fn settle(&mut self, place: AckPlace<'_>, ack: Ack, now: Moment) {
        let Some(consumer) = consumer_mut(&mut self.consumers, place.consumer) else {
            return;
        };
        let is_done = consumer.settle(ack, place.sequence, now);
        if is_done && self.log.config.is_work_queue {
            self.log.remove(place.sequence);
        }
    }

    fn queue_pull(
        &mut self,
        alloc: Global,
        connection: &mut Connection,
        name: &str,
        inbox: Subject,
        wanted: Wanted,
    ) -> Result<(), OutOfMemory> {
        match consumer_mut(&mut self.consumers, name) {
            None => {
                drop(inbox);
                Ok(())
            }
            Some(consumer) if consumer.config.deliver_to.is_some() => {
                refuse_pull(alloc, connection, inbox)
            }
            Some(consumer) => consumer.queue_pull(Pull::new(inbox, wanted, connection.now())),
        }
    }
}

// The consumer of a name.
fn consumer_of<'a>(consumers: &'a Vec<Consumer>, name: &str) -> Option<&'a Consumer> {
    consumers
        .iter()
        .find(|consumer| consumer.name.as_str() == name)
}

// The consumer of a name, to be changed.
fn consumer_mut<'a>(consumers: &'a mut Vec<Consumer>, name: &str) -> Option<&'a mut Consumer> {
    consumers
        .iter_mut()
        .find(|consumer| consumer.name.as_str() == name)
}

// A push consumer takes no pull requests.
fn refuse_pull(
    alloc: Global,
    connection: &mut Connection,
    inbox: Subject,
) -> Result<(), OutOfMemory> {
    let code = StatusCode::REQUEST_TERMINATED;
    let told = connection.tell(alloc, inbox.as_str(), code, "Consumer is push based", &[]);
    drop(inbox);
    told
}

impl TestServer {
    /// Adds a durable pull consumer of a stream, which reads all of it and wants each message
    /// acknowledged, as if a client had created it. If there is no such stream, nothing changes.
    ///
    /// Fails with `OutOfMemory` if memory runs out.
    pub fn add_consumer(
        &mut self,
        alloc: Global,
        stream: &str,
        name: &str,
    ) -> Result<(), OutOfMemory> {
        let (quoted_name, names) = both(quoted(alloc, name), names_of(alloc, stream, name))?;
        let body = format!(in alloc;
            r#"{{"config":{{"durable_name":{quoted_name},"deliver_policy":"all","ack_policy":"explicit"}}}}"#
        );
        let (names, body) = both(Ok(names), body.map_err(OutOfMemory::from))?;
        drop(self.create_consumer(alloc, names.as_str(), body.as_bytes())?);
        Ok(())
    }

    pub(crate) fn create_consumer(
        &mut self,
        alloc: Global,
        names: &str,
        body: &[u8],
    ) -> Result<String, OutOfMemory> {
        let request = json_of(alloc, body)?;
        let created = self.create_as_asked(alloc, names, &request);
        drop(request);
        created
    }

    fn create_as_asked(
        &mut self,
        alloc: Global,
        names: &str,
        request: &Value,
    ) -> Result<String, OutOfMemory> {
        let (stream, rest) = split_name(names);
        let (name, _filter) = split_name(rest);
        let Some(config) = request.get("config") else {
            return refused(alloc, Refusal::BadRequest);
        };
        let action = text_at(request, "action").unwrap_or("");
        let now = self.connection.now();
        let (name, config) = both(
            self.consumer_name(alloc, name, config),
            ConsumerConfig::read(alloc, config),
        )?;
        let creation = Creation { name, config };
        match stream_mut(&mut self.streams, stream) {
            None => {
                drop(creation);
                refused(alloc, Refusal::StreamNotFound)
            }
            Some(stream) => stream.create_consumer(alloc, creation, action, now),
        }
    }

    // The name of a consumer: that of the subject, or of the configuration, or a new one.
    fn consumer_name(
        &mut self,
        alloc: Global,
        name: &str,
        config: &Value,
    ) -> Result<Text, OutOfMemory> {
        let durable = text_at(config, "durable_name").unwrap_or("");
        let given = text_at(config, "name").unwrap_or(durable);
        if !name.is_empty() {
            return Text::from_str(alloc, name);
        }
        if !given.is_empty() {
            return Text::from_str(alloc, given);
        }
        self.named = self.named.saturating_add(1);
        let number = self.named;
        Ok(Text::from(format!(in alloc; "consumer_{number}")?))
    }

    pub(crate) fn consumer_info(&self, alloc: Global, names: &str) -> Result<String, OutOfMemory> {
        let (stream, name) = split_name(names);
        match stream_of(&self.streams, stream) {
            None => refused(alloc, Refusal::StreamNotFound),
            Some(stream) => stream.consumer_info(alloc, name),
        }
    }

    pub(crate) fn delete_consumer(
        &mut self,
        alloc: Global,
        names: &str,
    ) -> Result<String, OutOfMemory> {
        let (stream, name) = split_name(names);
        match stream_mut(&mut self.streams, stream) {
            None => refused(alloc, Refusal::StreamNotFound),
            Some(stream) => stream.delete_consumer(alloc, &mut self.connection, name),
        }
    }

    // Keeps a pull request until it is met. One to a consumer that is not there is not answered.
    pub(crate) fn queue_pull(
        &mut self,
        alloc: Global,
        names: &str,
        published: &Published,
    ) -> Result<(), OutOfMemory> {
        let Some(reply) = &published.reply else {
            return Ok(());
        };
        let (stream, name) = split_name(names);
        let (inbox, wanted) = both(
            reply.try_clone(),
            read_wanted(alloc, published.payload.as_slice()),
        )?;
        match stream_mut(&mut self.streams, stream) {
            None => {
                drop(inbox);
                Ok(())
            }
            Some(stream) => stream.queue_pull(alloc, &mut self.connection, name, inbox, wanted),
        }
    }
}

fn names_of(alloc: Global, stream: &str, name: &str) -> Result<String, OutOfMemory> {
    formatted(format!(in alloc; "{stream}.{name}"))
}
