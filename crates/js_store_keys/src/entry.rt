//! Entries of a bucket.
use crate::operation::Operation;
use bytes::Bytes;
use js_base::{OutOfMemory, Text, TryClone, all_3};

/// A change of a key, as one message of the bucket's stream reports it.
#[derive(Debug, PartialEq, Eq, Drop)]
pub struct Entry {
    /// The bucket's name.
    pub bucket: Text,
    /// The key.
    pub key: Text,
    /// Its value, which may be empty, or the payload of a deletion.
    pub value: Bytes,
    /// The message's sequence in the bucket's stream.
    pub revision: u64,
    /// What the message does to the key.
    pub operation: Operation,
    /// When the stream stored the message, in nanoseconds since 1970.
    pub created: i128,
    /// How many messages the consumer still had to deliver after this one; 0 if the entry was read
    /// without a consumer.
    pub delta: u64,
}

impl TryClone for Entry {
    fn try_clone(&self) -> Result<Entry, OutOfMemory> {
        let (bucket, key, value) = all_3(
            self.bucket.try_clone(),
            self.key.try_clone(),
            self.value.try_clone(),
        )?;
        Ok(Entry {
            bucket,
            key,
            value,
            revision: self.revision,
            operation: self.operation,
            created: self.created,
            delta: self.delta,
        })
    }
}
