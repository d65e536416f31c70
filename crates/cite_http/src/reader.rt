// A reader of messages.
ghost use Rattle.std.specs.Prelude.{◌≡◌, [], ◌&&◌, not, nat_lt, length, IfOk, OnOk, OnErr, OnSome, ◌<◌};
ghost use Rattle.cite_http.specs.Heads.{begun};
ghost use Rattle.cite_http.specs.Messages.{Gives, whole, fed};

use crate::ask::Ask;
use crate::cuts::rest_from;
use crate::first::find_first;
use crate::found::{Found, Progress, UNSEARCHED};
use crate::heads::line_ends;
use crate::message::{Message, read_message};
use crate::route::Route;
use crate::router::make_router;
use cite_schema::NoMemory;
use matchit::Router;
use std::alloc::Global;
use std::marker::Model;

/// Reads messages out of bytes that come in pieces. Contracts see its rest, which is the bytes that were fed and not yet
/// given as messages, and whether a closing message was given.
///
/// The time is linear in the bytes, however they are cut: where a search for the end of a head stopped is kept, and so
/// is how many bytes a message with a body wants. Messages leave the buffer by an offset; what is left is moved to the
/// front only where at least as much was given before it.
#[derive(Drop)]
pub struct Reader {
    router: Router<Route>,
    bytes: Vec<u8>,
    start: usize,
    progress: Progress,
    closed: bool,
}

impl Model for Reader {
    ghost use Rattle.cite_http.specs.Messages.{Rest};

    ghost Value = { Rest };

    ghost use Rattle.cite_http.specs.Held.{rest_of, Holds};

    ghost view = { rest_of };

    ghost invariant = { Holds };
}

impl Reader {
    /// A reader that was fed nothing. The memory that it takes is that of the table of routes.
    pub fn make(alloc: Global) -> Result<Reader, NoMemory>
        ensures { IfOk result (λ reader. reader ≡ whole []) }
    {
        match make_router(alloc) {
            Ok(router) => Ok(Reader {
                router,
                bytes: Vec::new(alloc),
                start: 0,
                progress: UNSEARCHED,
                closed: false,
            }),
            Err(_) => Err(NoMemory),
        }
    }

    /// Appends a piece to the rest; without memory nothing changes. The cost is that of the piece, and over all pieces
    /// that of the bytes fed: the buffer grows by doubling.
    pub fn feed(&mut self, piece: &[u8]) -> Result<(), NoMemory>
        ensures ok { OnOk result (self.new ≡ fed self.old piece.now) }
        ensures err { OnErr result (self.new ≡ self.old) }
    {
        self.compact();
        self.bytes.extend_from_slice(piece)?;
        Ok(())
    }

    // Moves the rest to the front of the buffer, where at least as many bytes were given.
    fn compact(&mut self)
        ensures { self.new ≡ self.old }
    {
        let len = self.bytes.len();
        if self.start > 0 && self.start >= len - self.start {
            self.bytes.copy_within(self.start..len, 0);
            self.bytes.truncate(len - self.start);
            self.start = 0;
        }
    }

    /// The first message of the rest, whose bytes leave it, or `None` exactly where the rest ends before or inside a
    /// message, or a closing message was given. Line ends before a message are dropped. Without memory nothing changes.
    ///
    /// A call searches bytes that no call before it searched, parses a head at most twice, and copies what the message
    /// hands on.
    pub fn next(&mut self) -> Result<Option<Message>, NoMemory>
        ensures ok { IfOk result (λ given. Gives self.old given self.new) }
        ensures shorter { IfOk result (λ given. OnSome given (length self.new.bytes < length self.old.bytes)) }
        ensures err { OnErr result (self.new ≡ self.old) }
    {
        if self.closed {
            return Ok(None);
        }
        let alloc = *self.bytes.allocator();
        let rest = rest_from(&self.bytes, self.start);
        let first = find_first(rest, self.progress);
        match first.found {
            Found::Unfinished(progress) => {
                self.start += first.skipped;
                self.progress = progress;
                Ok(None)
            }
            Found::Refused(status, size) => {
                self.start += first.skipped + size;
                self.progress = UNSEARCHED;
                self.closed = true;
                Ok(Some(Message {
                    ask: Ask::Bad(status),
                    closing: true,
                }))
            }
            Found::Whole(frame) => {
                let text = rest_from(rest, first.skipped);
                let message = read_message(alloc, &self.router, text, frame)?;
                self.start += first.skipped + frame.end;
                self.progress = UNSEARCHED;
                self.closed = message.closing;
                Ok(Some(message))
            }
        }
    }

    /// Whether a message is begun: something other than line ends stands in the rest, and no closing message was given.
    /// It takes no memory.
    pub fn inside(&self) -> bool
        ensures { result ≡ (not self.now.closed && nat_lt 0 (length (begun self.now.bytes))) }
    {
        let rest = &self.bytes[self.start..];
        !self.closed && line_ends(rest) < rest.len()
    }
}
