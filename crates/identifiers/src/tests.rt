// Each public call with ample memory, and the spellings that are read and that are not.
use crate::{Named, mint, prefix_ok, read, superset};
use std::test::Fail;

const PREFIX: &[u8] = b"10.70001";

#[test]
fn identifiers_are_minted(rt: HostRuntime) -> Result<(), Fail> {
    let alloc = rt.alloc();
    assert_eq!(rt;
        mint(alloc, PREFIX, 1)?.as_slice(),
        b"10.70001/c1".as_slice()
    );
    let last = mint(alloc, PREFIX, u32::MAX)?;
    assert_eq!(rt; last.as_slice(), b"10.70001/c4294967295".as_slice());
    assert_eq!(rt;
        superset(alloc, PREFIX)?.as_slice(),
        b"10.70001/d1".as_slice()
    );
    Ok(())
}

#[test]
fn what_is_minted_is_read(rt: HostRuntime) -> Result<(), Fail> {
    let alloc = rt.alloc();
    let name = mint(alloc, PREFIX, 702)?;
    assert_eq!(rt; read(PREFIX, name.as_slice()), Some(Named::Subset(702)));
    let name = superset(alloc, PREFIX)?;
    assert_eq!(rt; read(PREFIX, name.as_slice()), Some(Named::Superset));
    Ok(())
}

#[test]
fn three_spellings_are_read_in_any_case(rt: HostRuntime) -> Result<(), Fail> {
    let spellings: [(&[u8], Named); 6] = [
        (b"10.70001/C12", Named::Subset(12)),
        (b"doi:10.70001/c12", Named::Subset(12)),
        (b"DOI:10.70001/d1", Named::Superset),
        (
            b"https://doi.org/10.70001/c4294967295",
            Named::Subset(u32::MAX),
        ),
        (b"HTTPS://DOI.ORG/10.70001/c1", Named::Subset(1)),
        (b"Https://Doi.Org/10.70001/d1", Named::Superset),
    ];
    for (text, named) in spellings {
        assert_eq!(rt; read(PREFIX, text), Some(named));
    }
    Ok(())
}

#[test]
fn other_texts_name_nothing(rt: HostRuntime) -> Result<(), Fail> {
    let others: [&[u8]; 18] = [
        b"",
        b"DOI:",
        b"HTTPS://DOI.ORG/",
        b"10.70001",
        b"10.70001/",
        b"10.70001/c",
        b"10.70001/c0",
        b"10.70001/c01",
        b"10.70001/c+1",
        b"10.70001/c4294967296",
        b"10.70001/c1 ",
        b"10.70001/d2",
        b"10.70001/d11",
        b"10.70002/c1",
        b"10.700012/c1",
        b"doi:doi:10.70001/c1",
        b"http://doi.org/10.70001/c1",
        b"10.70001/c\xC3\xA9",
    ];
    for text in others {
        assert_eq!(rt; read(PREFIX, text), None);
    }
    Ok(())
}

#[test]
fn prefixes_have_four_to_nine_digits(rt: HostRuntime) -> Result<(), Fail> {
    let prefixes: [(&[u8], bool); 9] = [
        (b"10.7000", true),
        (b"10.700012345", true),
        (b"10.700", false),
        (b"10.7000123456", false),
        (b"10.70a1", false),
        (b"11.7000", false),
        (b"10.", false),
        (b"", false),
        (b"10.7000/1", false),
    ];
    for (text, good) in prefixes {
        assert_eq!(rt; prefix_ok(text), good);
    }
    Ok(())
}
