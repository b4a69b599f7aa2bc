//! Messages that came from a stream: their place in it, and their acknowledgement.
pub use js_message::{
    AckError, AckKind, Acker, DoubleAck, Info, InfoError, Message, MessageInfoError,
    OutboundMessage, PublishMessage, StreamMessage, StreamMessageError, StreamMessageErrorKind,
    parse_info,
};
