//! The options of a connection.

ghost use Rattle.std.specs.Prelude.{◌≡◌, IfOk};
ghost use Rattle.js_link_connection.specs.ConnectText.{plain_options};

use js_base::{Nanos, OutOfMemory, Text, both};
use std::alloc::Global;

/// How a client identifies itself to a server that asks.
#[derive(Debug, PartialEq, Eq, Drop)]
pub enum Credentials {
    /// Nothing.
    Anonymous,
    /// A name and a password.
    User { user: Text, password: Text },
    /// A token.
    Token(Text),
}

/// The options of a connection.
#[derive(Debug, PartialEq, Eq, Drop)]
pub struct ConnectOptions {
    /// The client's name, if it has one. A server shows it in its lists.
    pub name: Option<Text>,
    /// How the client identifies itself if the server asks.
    pub credentials: Credentials,
    /// The prefix of the subjects of inboxes, for example `_INBOX`.
    pub inbox_prefix: Text,
    /// The token after the prefix. No other client of the server may have the same: take a random
    /// one.
    pub inbox_token: Text,
    /// The time in nanoseconds after which a PING is sent if nothing came.
    pub quiet_time: Nanos,
    /// The greatest length in bytes of a message that is accepted from the server, headers and
    /// payload together. A longer one counts as damage.
    pub longest_body: u64,
}

impl ConnectOptions {
    /// Creates the options of a client without name and credentials, with inboxes under `_INBOX`, a
    /// PING after a minute, and bodies of at most 64 MiB, which is the most that a server allows.
    /// Fails with `OutOfMemory` if memory runs out.
    pub fn new(alloc: Global, inbox_token: Text) -> Result<ConnectOptions, OutOfMemory>
        ensures { IfOk result (λ options. options ≡ plain_options inbox_token) }
    {
        let prefix = Text::from_str(alloc, "_INBOX");
        let (inbox_token, inbox_prefix) = both(Ok(inbox_token), prefix)?;
        Ok(ConnectOptions {
            name: None,
            credentials: Credentials::Anonymous,
            inbox_prefix,
            inbox_token,
            quiet_time: 60_000_000_000,
            longest_body: 67_108_864,
        })
    }
}
