//! A connection over two files, with a thread that reads.

ghost use Rattle.std.specs.Prelude.{◌≡◌};
ghost use Rattle.js_pipe.specs.Failure.{failure_of as failure_of_error};

use crate::failure::{Failure, tell, told};
use crate::lines::Came;
use crate::options::Options;
use crossbeam_channel::{Receiver, RecvTimeoutError};
use js_base::{Moment, OutOfMemory, Text, Turn, earlier};
use js_call::State;
use js_link_connection::{ConnectOptions, Connection, ConnectionError, Credentials};
use js_link_outbox::OutboxLink;
use std::alloc::Global;
use std::fs::{File, OpenOptions};
use std::io::{self, Write};
use std::random::RandomSource;
use std::rt::Files;
use std::sync::Wait;
use std::time::{Clock, Duration, Instant};

const LOST: &str = "the connection is lost";

/// What came while a program slept.
#[derive(Drop)]
pub enum Happened {
    /// Bytes, or nothing until the moment.
    Something,
    /// A line of standard input.
    Line(Vec<u8>),
    /// The end of standard input: whether it was read to its end.
    NoMoreLines { is_whole: bool },
}

/// The end of a connection that a program has: what polls go over, and what its threads bring.
#[derive(Drop)]
pub struct Session {
    connection: Connection,
    came: Receiver<Came>,
    to: File,
    beginning: Instant,
}

fn text_of(alloc: Global, text: Option<&str>) -> Result<Text, OutOfMemory> {
    Text::from_str(alloc, text.unwrap_or(""))
}

fn user_credentials(alloc: Global, options: &Options<'_>) -> Result<Credentials, OutOfMemory> {
    let user = text_of(alloc, options.user)?;
    match text_of(alloc, options.password) {
        Ok(password) => Ok(Credentials::User { user, password }),
        Err(OutOfMemory) => {
            drop(user);
            Err(OutOfMemory)
        }
    }
}

fn credentials(alloc: Global, options: &Options<'_>) -> Result<Credentials, OutOfMemory> {
    if options.user.is_some() {
        return user_credentials(alloc, options);
    }
    match options.token {
        Some(_) => Ok(Credentials::Token(text_of(alloc, options.token)?)),
        None => Ok(Credentials::Anonymous),
    }
}

// A token that no other client has.
fn fresh_token(rt: &impl RandomSource, alloc: Global) -> io::Result<Text> {
    let mut bytes = [0_u8; 8];
    rt.fill_bytes(&mut bytes)?;
    let number = u64::from_be_bytes(bytes);
    Ok(Text::from(format!(in alloc; "{number:x}")?))
}

fn connect_options<R: RandomSource + Eprint>(
    rt: &R,
    alloc: Global,
    options: &Options<'_>,
) -> Result<ConnectOptions, Failure> {
    let token = told(rt, fresh_token(rt, alloc), Failure::Fault)?;
    let mut connect = ConnectOptions::new(alloc, token)?;
    match credentials(alloc, options) {
        Ok(credentials) => {
            connect.credentials = credentials;
            Ok(connect)
        }
        Err(OutOfMemory) => {
            drop(connect);
            Err(Failure::OutOfMemory)
        }
    }
}

// A connection that was just made.
fn connection<R: RandomSource + Eprint>(
    rt: &R,
    alloc: Global,
    options: &Options<'_>,
) -> Result<Connection, Failure> {
    let connect = connect_options(rt, alloc, options)?;
    let connection = Connection::new(alloc, &connect);
    drop(connect);
    match connection {
        Ok(mut connection) => {
            connection.made(0);
            Ok(connection)
        }
        Err(error) => Err(tell(rt, &error, Failure::OutOfMemory)),
    }
}

// The failure that stands for an error of the connection.
fn failure_of(error: &ConnectionError) -> Failure
    ensures { result ≡ failure_of_error error.now }
{
    match error {
        ConnectionError::Damaged { .. }
        | ConnectionError::BadHeaders { .. }
        | ConnectionError::BadInfo { .. }
        | ConnectionError::Silent => Failure::Lost,
        ConnectionError::Refused { .. } | ConnectionError::Unwritable(_) => Failure::Refused,
        ConnectionError::OutOfMemory | ConnectionError::Unread => Failure::OutOfMemory,
    }
}

// Tells an error of the connection.
fn tell_of<R: Eprint>(rt: &R, error: ConnectionError) -> Failure {
    let failure = tell(rt, &error, failure_of(&error));
    drop(error);
    failure
}

// Tells what the server refuses. The connection goes on, unless the client is not let in.
fn tell_refused<R: Eprint>(rt: &R, text: Text) -> Result<(), Failure> {
    let is_let_in = !text.as_str().contains("Authorization");
    let _ = eprintln!(rt; "the server says {text}");
    drop(text);
    if is_let_in {
        Ok(())
    } else {
        Err(Failure::Refused)
    }
}

impl Session {
    /// Opens the file that is written to, over a connection that was just made.
    pub fn open<R: Files<File = File> + Clock + RandomSource + Eprint>(
        rt: &R,
        alloc: Global,
        options: &Options<'_>,
        came: Receiver<Came>,
    ) -> Result<Session, Failure> {
        let beginning = told(rt, Instant::now(rt), Failure::Fault)?;
        let to = OpenOptions::new().write(true).open(rt, options.to);
        let to = told(rt, to, Failure::Fault)?;
        let connection = connection(rt, alloc, options)?;
        Ok(Session {
            connection,
            came,
            to,
            beginning,
        })
    }

    /// The present moment. Fails with `Fault` if the clock fails.
    pub fn now<R: Clock + Eprint>(&self, rt: &R) -> Result<Moment, Failure> {
        let now = told(rt, Instant::now(rt), Failure::Fault)?;
        let nanos = now.duration_since(self.beginning).as_nanos();
        Ok(u64::try_from(nanos).unwrap_or(u64::MAX))
    }

    /// The link over which states are polled.
    pub fn link(&mut self) -> &mut OutboxLink {
        self.connection.link_mut()
    }

    /// Ends the connection: what was sent and has no answer gets none.
    pub fn end(&mut self) {
        self.connection.lost();
        self.connection.link_mut().close();
    }

    /// Sends what polls have left to be sent.
    pub fn send<R: Eprint>(&mut self, rt: &R, alloc: Global) -> Result<(), Failure> {
        if let Err(error) = self.connection.write(alloc) {
            return Err(tell_of(rt, error));
        }
        let bytes = self.connection.to_send();
        let count = bytes.len();
        if count > 0 {
            if self.to.write_all(bytes).is_err() {
                return Err(tell(rt, &LOST, Failure::Lost));
            }
            self.connection.sent(count);
        }
        Ok(())
    }

    // How long nothing needs to be done. None where only the connection can bring something.
    fn wait(&self, now: Moment, until: Option<Moment>) -> Option<Duration> {
        let until = earlier(until, self.connection.wakes_at())?;
        Some(Duration::from_nanos(until.saturating_sub(now)))
    }

    // What comes first, or None at the moment.
    fn came<R: Clock + Wait>(&self, rt: &R, wait: Option<Duration>) -> Option<Came> {
        let came = match wait {
            None => self
                .came
                .recv(rt)
                .map_err(|_| RecvTimeoutError::Disconnected),
            Some(wait) => self.came.recv_timeout(rt, wait),
        };
        match came {
            Ok(came) => Some(came),
            Err(RecvTimeoutError::Timeout) => None,
            Err(RecvTimeoutError::Disconnected) => Some(Came::Lost),
        }
    }

    /// Sends, then sleeps until something comes, or until that moment.
    ///
    /// # Errors
    ///
    /// `Lost` if the connection ended, does not answer or brings damaged bytes; `Refused` if the
    /// server does not let the client in; `Fault` if the clock fails; `OutOfMemory`. Each is told
    /// on standard error.
    pub fn turn<R: Clock + Wait + Eprint>(
        &mut self,
        rt: &R,
        alloc: Global,
        until: Option<Moment>,
    ) -> Result<Happened, Failure> {
        self.send(rt, alloc)?;
        let now = self.now(rt)?;
        let wait = self.wait(now, until);
        match self.came(rt, wait) {
            Some(came) => self.take(rt, alloc, came),
            None => self.wake(rt),
        }
    }

    fn wake<R: Clock + Eprint>(&mut self, rt: &R) -> Result<Happened, Failure> {
        let now = self.now(rt)?;
        match self.connection.woken(now) {
            Ok(()) => Ok(Happened::Something),
            Err(error) => Err(tell_of(rt, error)),
        }
    }

    fn take<R: Clock + Wait + Eprint>(
        &mut self,
        rt: &R,
        alloc: Global,
        came: Came,
    ) -> Result<Happened, Failure> {
        match came {
            Came::Bytes(bytes) => {
                let received = self.receive(rt, alloc, &bytes);
                drop(bytes);
                received
            }
            Came::Line(line) => Ok(Happened::Line(line)),
            Came::NoMoreLines { is_whole } => Ok(Happened::NoMoreLines { is_whole }),
            Came::Lost => Err(tell(rt, &LOST, Failure::Lost)),
            Came::OutOfMemory => Err(tell(rt, &OutOfMemory, Failure::OutOfMemory)),
        }
    }

    // The server's refusals are told, and what came behind them is read.
    fn receive<R: Clock + Wait + Eprint>(
        &mut self,
        rt: &R,
        alloc: Global,
        bytes: &[u8],
    ) -> Result<Happened, Failure> {
        let now = self.now(rt)?;
        let mut received = self.connection.received(alloc, bytes, now);
        for _ in rt.forever() {
            match received {
                Ok(()) => break,
                Err(ConnectionError::Refused { text }) => tell_refused(rt, text)?,
                Err(error) => return Err(tell_of(rt, error)),
            }
            received = self.connection.received(alloc, &[], now);
        }
        Ok(Happened::Something)
    }

    /// Polls a call until it has its answer. Fails as `turn` does.
    pub fn answer<S: State, R: Clock + Wait + Eprint>(
        &mut self,
        rt: &R,
        alloc: Global,
        call: S,
    ) -> Result<S::Answer, Failure> {
        let mut call = call;
        for _ in rt.forever() {
            let now = self.now(rt)?;
            call = match call.poll(alloc, self.link(), now) {
                Turn::Ready(answer) => return Ok(answer),
                Turn::Pending(later) => later,
                Turn::OutOfMemory(later) => {
                    drop(later);
                    return Err(Failure::OutOfMemory);
                }
            };
            drop(self.turn(rt, alloc, call.wakes_at())?);
        }
        unreachable!()
    }
}
