//! HTTP messages and responses byte for byte (RFC 9110 and RFC 9112, as far as they are read here).
//!
//! `Reader` takes the bytes of a connection in pieces and gives its messages one after the other, each as what it asks
//! for (`Ask`) and whether nothing is read after it. The messages of a text are one definition that knows no pieces
//! (`specs/Messages`): however bytes are cut, the messages given so far are the first ones of all bytes together
//! (`messages_come_through_pieces`), and each text has its messages (`texts_have_messages`). What is asked for is found
//! by the kit's router, which is proved to be the table of `specs/Routes`. `respond` lays out the bytes of a response.
//!
//! ```text
//! let mut reader = Reader::make(alloc)?;
//! loop over the pieces of a connection {
//!     reader.feed(piece)?;
//!     while let Some(message) = reader.next()? { .. }     // answer it; after message.closing no further one comes
//! }
//! reader.inside()                                         // whether the connection ended inside a message
//! ```
//!
//! The crate knows nothing of an archive: a name is handed on as it stands in the target, a body as its bytes.
#![tactic(auto)]

mod ask;
mod cuts;
mod fields;
mod first;
mod found;
mod heads;
mod laws;
mod message;
mod pieces;
mod plan;
mod reader;
mod reading;
mod reply;
mod route;
mod router;
mod segments;
mod status;

pub use ask::Ask;
pub use laws::{messages_come_through_pieces, texts_have_messages};
pub use message::Message;
pub use pieces::read_pieces;
pub use reader::Reader;
pub use reply::{Media, Reply, memory_reply, respond};
pub use status::Status;

#[cfg(test)]
mod tests;
