//! A connection that speaks the NATS client protocol, without input and output: you hand in the
//! bytes that your socket read, and write the bytes that it has for you.
pub use js_link_connection::{
    ConnectOptions, Connection, ConnectionError, Credentials, ServerInfo,
};
