// Entries and their payloads.
ghost use Rattle.std.specs.Prelude.{◌≡◌, ◌↔◌, ◌++◌, ◌-◌, ◌^◌, List, ℕ, IfOk, IfSome, Some, length, min};
ghost use Rattle.entry_codec.specs.declared.entry.Entry.{Entry as Told};
ghost use Rattle.entry_codec.specs.Payloads.{payload};
ghost use Rattle.entry_codec.specs.Spellable.{FitsEntry, IsPrintable};
ghost use Rattle.entry_codec.specs.Codecs.{whole_at};
ghost use Rattle.entry_codec.specs.Grammar.{entry};

use crate::cursor::{Cursor, Stop};
use crate::entry::Entry;
use crate::sink::{Count, Page};
use crate::spelled::Spelled;
use cite_schema::{ByteText, NoMemory};
use std::alloc::Global;

// The value whose spelling is all of the bytes.
fn read_whole<T: Spelled>(alloc: Global, bytes: &[u8]) -> Result<Option<T>, NoMemory>
    ensures { IfOk result (λ read. read ≡ whole_at T.codec bytes.now) }
{
    let mut from = Cursor::new(alloc, bytes);
    match T::read_off(&mut from) {
        Ok(value) => {
            if from.is_empty() {
                Ok(Some(value))
            } else {
                Ok(None)
            }
        }
        Err(Stop::Nothing) => Ok(None),
        Err(Stop::Memory) => Err(NoMemory),
    }
}

/// The entry whose payload the bytes are, exactly, and `None` exactly where they are no entry's. One pass over the bytes,
/// of which each text and body is copied once. Memory is taken for what is there, not for what a count says, and a
/// condition is read at most 32 deep, so no bytes make the stack deep.
///
/// # Errors
/// `NoMemory`.
pub fn read_entry(alloc: Global, bytes: &[u8]) -> Result<Option<Entry>, NoMemory>
    ensures entry { IfOk result (λ read. (e : Told) → (read ≡ Some e) ↔ (FitsEntry e × (bytes.now ≡ payload e))) }
    ensures printable { IfOk result (λ read. IfSome read IsPrintable) }
{
    let read = read_whole::<Entry>(alloc, bytes)?;
    Ok(read)
}

/// The entry's payload: one pass to measure it and one to print it.
///
/// # Errors
/// `NoMemory`.
pub fn print_entry(alloc: Global, entry: &Entry) -> Result<ByteText, NoMemory>
    requires { IsPrintable entry.now }
    ensures { IfOk result (λ bytes. bytes ≡ payload entry.now) }
{
    let mut page = Page::with_room(alloc, entry_length(entry))?;
    entry.print(&mut page)?;
    Ok(ByteText::from_vec(page.into_bytes()))
}

/// How many bytes the entry's payload has, up to the greatest `u64`. One pass over the entry, without memory.
pub fn entry_length(entry: &Entry) -> u64
    requires { IsPrintable entry.now }
    ensures { result ≡ min (length (payload entry.now)) (2 ^ 64 - 1) }
{
    let mut count = Count(0);
    match entry.print(&mut count) {
        Ok(()) => count.0,
        Err(never) => match never {},
    }
}

/// A law: an entry in memory that can be printed has a payload, since each of its numbers is one of its type. It takes
/// no memory, and time in the conditions, values and steps of the entry.
pub fn known_entry(entry: &Entry)
    requires { IsPrintable entry.now }
    ensures { FitsEntry entry.now }
{
    entry.known();
}

/// A law: entries with one payload are one, and no payload is the front of another.
pub fn payloads_tell_entries_apart()
    ensures { (a b : Told) (x y : List ℕ) → FitsEntry a → FitsEntry b → payload a ++ x ≡ payload b ++ y → (a ≡ b) × (x ≡ y) }
{}
