// The rules of metadata, each at its ends.
use crate::{ByteText, List, Meta, is_plain, is_plain_within, meta_fault};
use std::alloc::{AllocError, Global};
use std::test::Fail;

fn text(alloc: Global, bytes: &[u8]) -> Result<ByteText, AllocError> {
    ByteText::from_slice(alloc, bytes)
}

// So many letters.
fn letters(alloc: Global, count: usize) -> Result<ByteText, AllocError> {
    let mut text = ByteText::new(alloc);
    for _ in 0..count {
        text.push(b'x')?;
    }
    Ok(text)
}

// The fault of metadata with so many creators, each with a name of so many letters.
fn creators_fault(alloc: Global, count: usize, length: usize) -> Result<Option<u8>, AllocError> {
    let mut creators = List::new(alloc);
    for _ in 0..count {
        creators.push(letters(alloc, length)?)?;
    }
    let meta = Meta {
        creators,
        title: text(alloc, b"t")?,
        description: text(alloc, b"")?,
    };
    Ok(meta_fault(&meta))
}

// The fault of metadata with one creator, and with a title and a description of so many letters.
fn lengths_fault(
    alloc: Global,
    title: usize,
    description: usize,
) -> Result<Option<u8>, AllocError> {
    let mut creators = List::new(alloc);
    creators.push(text(alloc, b"Rey, A.")?)?;
    let meta = Meta {
        creators,
        title: letters(alloc, title)?,
        description: letters(alloc, description)?,
    };
    Ok(meta_fault(&meta))
}

#[test]
fn creators_keep_their_limits(rt: HostRuntime) -> Result<(), Fail> {
    let alloc = rt.alloc();
    let table = [
        (0, 1, Some(1)),
        (1, 1, None),
        (16, 1, None),
        (17, 1, Some(1)),
        (2, 0, Some(1)),
        (2, 1_024, None),
        (2, 1_025, Some(1)),
    ];
    for (count, length, want) in table {
        let fault = creators_fault(alloc, count, length)?;
        assert_eq!(rt; fault, want, "{count} creators of {length}");
    }
    Ok(())
}

#[test]
fn titles_and_descriptions_keep_their_limits(rt: HostRuntime) -> Result<(), Fail> {
    let alloc = rt.alloc();
    let table = [
        (1, 0, None),
        (1_024, 4_096, None),
        (0, 0, Some(2)),
        (1_025, 0, Some(2)),
        (0, 4_097, Some(2)),
        (1, 4_097, Some(3)),
    ];
    for (title, description, want) in table {
        let fault = lengths_fault(alloc, title, description)?;
        assert_eq!(rt;
            fault,
            want,
            "title of {title}, description of {description}"
        );
    }
    Ok(())
}

#[test]
fn plain_texts_have_no_control(rt: HostRuntime) -> Result<(), Fail> {
    let table: [(&[u8], bool); 9] = [
        (b"", true),
        (b" ~", true),
        (b"a\x1F", false),
        (b"a\x7F", false),
        (b"a\tb", false),
        (b"\xC3\xA9", true),
        (b"\xC3", false),
        (b"\xED\xA0\x80", false),
        (b"\xF0\x9F\x90\x9F", true),
    ];
    for (bytes, want) in table {
        assert_eq!(rt; is_plain(bytes), want);
        assert_eq!(rt; is_plain_within(0, 4, bytes), want);
        assert_eq!(rt;
            is_plain_within(0, 4, bytes) && is_plain_within(5, 9, bytes),
            false
        );
    }
    Ok(())
}
