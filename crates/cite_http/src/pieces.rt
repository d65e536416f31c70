// All messages of bytes that come in pieces: how a caller uses a reader.
ghost use Rattle.std.specs.Prelude.{◌≡◌, ℕ, List as Listed, None, IfOk, OnOk};
ghost use Rattle.cite_http.specs.Messages.{Gives, Messages, Rest, whole};
ghost use Rattle.cite_http.specs.Pieces.{Stands, joined};

use crate::message::Message;
use crate::reader::Reader;
use cite_schema::{ByteText, List, NoMemory};
use std::alloc::Global;

// Takes all messages that are whole.
fn take_whole(reader: &mut Reader, given: &mut List<Message>) -> Result<(), NoMemory>
    ensures stands { OnOk result ((bytes : Listed ℕ) → Stands bytes given.old reader.old → Stands bytes given.new reader.new) }
    ensures none { OnOk result (Gives reader.new None reader.new) }
{
    while let Some(message) = reader.next()? {
        given.push(message)?;
    }
    Ok(())
}

/// The messages of all pieces, one after another: they are those of the pieces joined, however these are cut.
pub fn read_pieces(alloc: Global, pieces: &[ByteText]) -> Result<List<Message>, NoMemory>
    ensures { IfOk result (λ given. (rest : Rest) × Messages (whole (joined pieces.now)) given rest) }
{
    let mut reader = Reader::make(alloc)?;
    let mut given = List::new(alloc);
    for piece in pieces {
        reader.feed(piece.as_slice())?;
        take_whole(&mut reader, &mut given)?;
    }
    Ok(given)
}
