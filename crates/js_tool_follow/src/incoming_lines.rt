//! The lines of a peer, each as soon as it arrives.

ghost use Rattle.std.specs.Prelude.{◌≡◌, ◌<◌, ◌≤◌, ◌+◌, ◌++◌, [], ℕ, List, length, take, drop, nat_lt, if◌then◌else◌, MatchOption, IfOk, IsErrOf};
ghost use Rattle.std.specs.Io.KnownBytes.{Consumes, IsAtEnd};
ghost use Rattle.js_tool_io.specs.Causes.{Rose};
ghost use Rattle.js_tool.specs.declared.command.FollowOptions.{FollowOptions};
ghost use Rattle.js_tool_follow.specs.IncomingLines.{HasNoFeed, IsFirstFeed, IsNext, lines_left};
ghost use Rattle.js_tool_follow.specs.Punctuality.{Holds, TurnsSoFar, IsPunctual, HearsNext};
ghost use Rattle.js_tool_follow.specs.Standing.{answered};
ghost use Rattle.js_tool_follow.specs.Peer.{HasRead, TakesRead};

use crate::peer::Peer;
use js_tool_io::{Failed, Stop};
use memchr::memchr;
use std::alloc::{AllocError, Global};
use std::marker::Model;

const BUFFER: usize = 65_536;

/// What was read next.
#[derive(Clone, Copy)]
pub(crate) enum Incoming {
    /// A line, after which more may come.
    Line,
    /// The last line, which has no line feed.
    Last,
    /// No more lines come.
    End,
}

/// The lines of a peer. It holds the bytes read after the last line, and nothing of earlier lines.
/// Contracts see the line that was read last, and the bytes after it.
#[derive(Drop)]
pub(crate) struct IncomingLines {
    buffer: Vec<u8>,
    held: Vec<u8>,
    from: usize,
    count: usize,
    next: usize,
}

impl Model for IncomingLines {
    ghost use Rattle.std.specs.Prelude.{◌+◌, ◌≤◌, ◌<◌, take, drop, vec_len};
    ghost use Rattle.js_tool_follow.specs.IncomingLines.{Held};

    ghost Value = { Held };

    ghost view = { λ l. record { line = take l.count (drop l.from l.held.items); left = drop l.next l.held.items } };

    ghost invariant = { λ l. (l.from + l.count ≤ vec_len l.held) × (l.next ≤ vec_len l.held) × (0 < vec_len l.buffer) };
}

impl IncomingLines {
    /// Creates a reader that has read no line yet.
    pub(crate) fn new(alloc: Global) -> Result<IncomingLines, AllocError>
        ensures { IfOk result (λ lines. lines.left ≡ []) }
    {
        Ok(IncomingLines {
            buffer: vec![in alloc; 0u8; BUFFER]?,
            held: Vec::new(alloc),
            from: 0,
            count: 0,
            next: 0,
        })
    }

    // Lets go the lines that were read.
    fn let_go(&mut self, alloc: Global) -> Result<(), AllocError>
        ensures { self.new.left ≡ self.old.left }
    {
        if self.next > 0 {
            self.held = Vec::from_slice(alloc, &self.held[self.next..])?;
            self.from = 0;
            self.count = 0;
            self.next = 0;
        }
        Ok(())
    }

    // Reads once, behind what is left.
    fn fill<P: Peer>(&mut self, alloc: Global, peer: &mut P) -> Result<usize, Stop>
        ensures grown { IfOk result (λ count. (bytes : List ℕ) × (self.new.left ≡ self.old.left ++ bytes) × (length bytes ≡ count)
            × Consumes (P.view peer.old).left (P.view peer.new).left bytes × TakesRead (P.view peer.old).turns (P.view peer.new).turns bytes) }
        ensures at_end { IfOk result (λ count. count ≡ 0 → IsAtEnd (P.view peer.new).left) }
        ensures punctual { (asked : FollowOptions) → (lines : List (List ℕ)) → HasNoFeed self.old.left (length self.old.left)
            → Holds (P.view peer.old).turns (TurnsSoFar asked lines self.old.left (answered asked lines) (answered asked lines))
            → Holds (P.view peer.new).turns (IsPunctual asked) }
        ensures fault { IsErrOf result Stop.Fault → Rose (P.view peer.old).read_faults (P.view peer.new).read_faults }
        ensures not_long { IsErrOf result Stop.TooLong → ⊥ }
        ensures reads { HasRead (P.view peer.old) (P.view peer.new) }
    {
        self.let_go(alloc)?;
        let count = match peer.read(&mut self.buffer) {
            Ok(count) => count,
            Err(Failed) => return Err(Stop::Fault),
        };
        self.held.extend_from_slice(&self.buffer[..count])?;
        Ok(count)
    }

    // The place of the first line feed in what is left, of which so many bytes were searched before.
    fn first_feed(&self, searched: usize) -> Option<usize>
        requires within { searched ≤ length self.now.left }
        requires before { HasNoFeed self.now.left searched }
        ensures { MatchOption result (HasNoFeed self.now.left (length self.now.left)) (IsFirstFeed self.now.left) }
    {
        match memchr(b'\n', &self.left()[searched..]) {
            Some(end) => Some(searched + end),
            None => None,
        }
    }

    // The line that ends at this place of what is left.
    fn cut(&mut self, end: usize)
        requires { end < length self.old.left }
        ensures line { self.new.line ≡ take end self.old.left }
        ensures left { self.new.left ≡ drop (end + 1) self.old.left }
    {
        self.from = self.next;
        self.count = end;
        self.next += end + 1;
    }

    // The last line, if there is one.
    fn cut_last(&mut self) -> Incoming
        ensures line { self.new.line ≡ self.old.left }
        ensures left { self.new.left ≡ [] }
        ensures some { result ≡ (if nat_lt 0 (length self.old.left) then Incoming.Last else Incoming.End) }
    {
        let count = self.held.len() - self.next;
        self.from = self.next;
        self.count = count;
        self.next = self.held.len();
        if count > 0 {
            Incoming::Last
        } else {
            Incoming::End
        }
    }

    /// Reads the next line, if one is left. The last one may have no line feed.
    ///
    /// # Errors
    ///
    /// Fails with `Fault` if the peer fails, and with `OutOfMemory` if memory runs out. The longest
    /// line takes as much memory as it is long.
    pub(crate) fn read<P: Peer>(&mut self, alloc: Global, peer: &mut P) -> Result<Incoming, Stop>
        ensures line { IfOk result (λ next. IsNext next (lines_left self.old.left (P.view peer.old).left) self.new.line (lines_left self.new.left (P.view peer.new).left)) }
        ensures heard { (asked : FollowOptions) → (lines : List (List ℕ))
            → Holds (P.view peer.old).turns (TurnsSoFar asked lines self.old.left (answered asked lines) (answered asked lines))
            → HearsNext asked lines result self.new.line self.new.left (P.view peer.new).turns }
        ensures fault { IsErrOf result Stop.Fault → Rose (P.view peer.old).read_faults (P.view peer.new).read_faults }
        ensures not_long { IsErrOf result Stop.TooLong → ⊥ }
        ensures reads { HasRead (P.view peer.old) (P.view peer.new) }
    {
        let mut searched = 0;
        'reads: loop {
            if let Some(end) = self.first_feed(searched) {
                self.cut(end);
                return Ok(Incoming::Line);
            }
            searched = self.left().len();
            if self.fill(alloc, peer)? == 0 {
                return Ok(self.cut_last());
            }
        }
    }

    fn left(&self) -> &[u8]
        ensures { result.now ≡ self.now.left }
    {
        &self.held[self.next..]
    }

    /// Returns the line that was read last, without its line feed.
    pub(crate) fn line(&self) -> &[u8]
        ensures { result.now ≡ self.now.line }
    {
        &self.held[self.from..][..self.count]
    }
}
