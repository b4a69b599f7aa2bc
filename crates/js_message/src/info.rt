//! The contents of an acknowledgement subject.
use jiff::Timestamp;

/// The contents of an acknowledgement subject. Its texts borrow from the subject.
#[derive(Clone, Debug, Drop)]
pub struct Info<'a> {
    /// The domain of the stream, if it has one.
    pub domain: Option<&'a str>,
    /// The hash of the account. Only the long form has it.
    pub acc_hash: Option<&'a str>,
    /// The name of the stream.
    pub stream: &'a str,
    /// The name of the consumer.
    pub consumer: &'a str,
    /// The message's sequence in its stream.
    pub stream_sequence: u64,
    /// The number of this delivery by its consumer, counted from 1.
    pub consumer_sequence: u64,
    /// How often the message was delivered.
    pub delivered: i64,
    /// How many messages the consumer has yet to deliver.
    pub pending: u64,
    /// When the stream stored the message.
    pub published: Timestamp,
    /// The tenth token, if there is one.
    pub token: Option<&'a str>,
}
