// Parts of pages, put behind a text.
ghost use Rattle.std.specs.Prelude.{◌≡◌, ◌++◌, decimal, OnOk};
ghost use Rattle.landing_page.specs.Pages.{escaped_byte, escaped, heading, entry};
ghost use Rattle.hex.specs.Hex.{encode_lower};
ghost use Rattle.datacite_meta.specs.Stamps.{IsStamp, stamp_text};

use cite_schema::NoMemory;
use itoa::Buffer;
use result_bytes::digest_text;
use std::alloc::Global;

/// Puts markup behind a text as it is.
pub(crate) fn put(text: &mut Vec<u8>, markup: &str) -> Result<(), NoMemory>
    ensures { OnOk result (text.new.items ≡ text.old.items ++ markup.now) }
{
    text.extend_from_slice(markup.as_bytes())?;
    Ok(())
}

/// Puts a text into a page. The cost is its length.
pub(crate) fn put_escaped(text: &mut Vec<u8>, inserted: &[u8]) -> Result<(), NoMemory>
    ensures { OnOk result (text.new.items ≡ text.old.items ++ escaped inserted.now) }
{
    for byte in inserted {
        put_byte(text, *byte)?;
    }
    Ok(())
}

fn put_byte(text: &mut Vec<u8>, byte: u8) -> Result<(), NoMemory>
    ensures { OnOk result (text.new.items ≡ text.old.items ++ escaped_byte byte) }
{
    match byte {
        b'&' => put(text, "&amp;"),
        b'<' => put(text, "&lt;"),
        b'>' => put(text, "&gt;"),
        b'"' => put(text, "&quot;"),
        _ => Ok(text.push(byte)?),
    }
}

/// Puts the lines down to the heading of a page with a title.
pub(crate) fn put_heading(text: &mut Vec<u8>, title: &[u8]) -> Result<(), NoMemory>
    ensures { OnOk result (text.new.items ≡ text.old.items ++ heading title.now) }
{
    put(
        text,
        "<!DOCTYPE html>\n<html lang=\"en\"><head><meta charset=\"utf-8\"><title>",
    )?;
    put_escaped(text, title)?;
    put(text, "</title></head><body>\n<h1>")?;
    put_escaped(text, title)?;
    put(text, "</h1>\n")?;
    Ok(())
}

/// Puts the line of a term and its description.
pub(crate) fn put_entry(text: &mut Vec<u8>, term: &str, description: &[u8]) -> Result<(), NoMemory>
    ensures { OnOk result (text.new.items ≡ text.old.items ++ entry term.now description.now) }
{
    put(text, "<dt>")?;
    put(text, term)?;
    put(text, "</dt><dd>")?;
    put_escaped(text, description)?;
    put(text, "</dd>\n")
}

/// Puts the line of a term and a number.
pub(crate) fn put_number(text: &mut Vec<u8>, term: &str, number: u32) -> Result<(), NoMemory>
    ensures { OnOk result (text.new.items ≡ text.old.items ++ entry term.now (decimal number)) }
{
    put_entry(text, term, Buffer::new().format(number).as_bytes())
}

/// Puts the line of a term and the text of a stamp.
pub(crate) fn put_moment(
    alloc: Global,
    text: &mut Vec<u8>,
    term: &str,
    stamp: u64,
) -> Result<(), NoMemory>
    requires { IsStamp stamp }
    ensures { OnOk result (text.new.items ≡ text.old.items ++ entry term.now (stamp_text stamp)) }
{
    let moment = datacite_meta::stamp_text(alloc, stamp)?;
    put_entry(text, term, moment.as_slice())
}

/// Puts the line of a term and a digest.
pub(crate) fn put_digest(
    alloc: Global,
    text: &mut Vec<u8>,
    term: &str,
    digest: &[u8; 32],
) -> Result<(), NoMemory>
    ensures { OnOk result (text.new.items ≡ text.old.items ++ entry term.now (encode_lower digest.now)) }
{
    let digits = digest_text(alloc, digest)?;
    put_entry(text, term, digits.as_slice())
}
