// Each public call with ample memory: the texts of one citation and of its data set, edges of the calendar, and texts that
// JSON has to escape.
ghost use Rattle.std.specs.Prelude.{IfOk};
ghost use Rattle.datacite_meta.specs.Metadata.{IsDescribed, IsIssued};

use crate::{citation_text, dataset_json, meta_json, stamp_text, year_of};
use cite_schema::{ByteText, Dataset, Issue, List, Meta, is_plain_within, meta_fault};
use identifiers::prefix_ok;
use std::alloc::Global;
use std::test::Fail;

// 2024-01-01T00:00:00Z.
const NEW_YEAR: u64 = 1_704_067_200;

fn text(alloc: Global, bytes: &[u8]) -> Result<ByteText, Fail> {
    Ok(ByteText::from_slice(alloc, bytes)?)
}

fn dataset(alloc: Global, publisher: &[u8], title: &[u8]) -> Result<Dataset, Fail>
    ensures { IfOk result IsDescribed }
{
    let dataset = Dataset {
        prefix: text(alloc, b"10.5072")?,
        publisher: text(alloc, publisher)?,
        creator: text(alloc, b"Rey, A.")?,
        title: text(alloc, title)?,
    };
    let are_told = is_plain_within(1, 1_024, dataset.publisher.as_slice())
        && is_plain_within(1, 1_024, dataset.creator.as_slice())
        && is_plain_within(1, 1_024, dataset.title.as_slice());
    if prefix_ok(dataset.prefix.as_slice()) && are_told {
        Ok(dataset)
    } else {
        Err(Fail::new("a text that no data set has"))
    }
}

fn issue(alloc: Global, creators: &[&str], title: &[u8]) -> Result<Issue, Fail>
    ensures { IfOk result IsIssued }
{
    let mut names = List::new(alloc);
    for creator in creators {
        names.push(text(alloc, creator.as_bytes())?)?;
    }
    let meta = Meta {
        creators: names,
        title: text(alloc, title)?,
        description: List::new(alloc),
    };
    if meta_fault(&meta).is_some() {
        return Err(Fail::new("metadata that no citation has"));
    }
    Ok(Issue {
        number: 1,
        version: 2,
        cited: NEW_YEAR,
        updated: NEW_YEAR,
        meta,
    })
}

#[test]
fn a_citation_is_cited_in_one_line(rt: HostRuntime) -> Result<(), Fail> {
    let dataset = dataset(rt.alloc(), b"Lab", b"Depths")?;
    let issue = issue(rt.alloc(), &["Rey, A."], b"Mid depths")?;
    let line = citation_text(rt.alloc(), &dataset, &issue)?;
    assert_eq!(rt;
        line.as_slice(),
        b"Rey, A. (2024): Mid depths. Version 2. Lab. Dataset. https://doi.org/10.5072/c1".as_slice()
    );
    Ok(())
}

#[test]
fn creators_are_joined_by_semicolons(rt: HostRuntime) -> Result<(), Fail> {
    let dataset = dataset(rt.alloc(), b"Lab <north>", b"Depths")?;
    let issue = issue(
        rt.alloc(),
        &["Rey, A.", "Li; C.", "Éloi, B."],
        b"Mid \"deep\" & low",
    )?;
    let line = citation_text(rt.alloc(), &dataset, &issue)?;
    assert_eq!(rt;
        line.as_slice(),
        b"Rey, A.; Li; C.; \xc3\x89loi, B. (2024): Mid \"deep\" & low. Version 2. Lab <north>. Dataset. https://doi.org/10.5072/c1".as_slice()
    );
    Ok(())
}

#[test]
fn a_citation_has_metadata(rt: HostRuntime) -> Result<(), Fail> {
    let dataset = dataset(rt.alloc(), b"Lab", b"Depths")?;
    let issue = issue(rt.alloc(), &["Rey, A."], b"Mid depths")?;
    let json = meta_json(rt.alloc(), &dataset, &issue)?;
    assert_eq!(rt;
        json.as_slice(),
        b"{\"creators\":[{\"name\":\"Rey, A.\"}],\"dates\":[{\"date\":\"2024-01-01T00:00:00Z\",\"dateType\":\"Created\"},{\"date\":\"2024-01-01T00:00:00Z\",\"dateType\":\"Updated\"}],\"identifiers\":[{\"identifier\":\"10.5072/c1\",\"identifierType\":\"DOI\"}],\"publicationYear\":2024,\"publisher\":\"Lab\",\"relatedIdentifiers\":[{\"relatedIdentifier\":\"10.5072/d1\",\"relatedIdentifierType\":\"DOI\",\"relationType\":\"IsPartOf\"}],\"schemaVersion\":\"http://datacite.org/schema/kernel-4\",\"titles\":[{\"title\":\"Mid depths\"}],\"types\":{\"resourceType\":\"Dataset\",\"resourceTypeGeneral\":\"Dataset\"}}".as_slice()
    );
    assert_eq!(rt; json.len(), 526);
    Ok(())
}

#[test]
fn a_data_set_has_metadata(rt: HostRuntime) -> Result<(), Fail> {
    let dataset = dataset(rt.alloc(), b"Lab", b"Depths")?;
    let json = dataset_json(rt.alloc(), &dataset, NEW_YEAR, NEW_YEAR)?;
    assert_eq!(rt;
        json.as_slice(),
        b"{\"creators\":[{\"name\":\"Rey, A.\"}],\"dates\":[{\"date\":\"2024-01-01T00:00:00Z\",\"dateType\":\"Created\"},{\"date\":\"2024-01-01T00:00:00Z\",\"dateType\":\"Updated\"}],\"identifiers\":[{\"identifier\":\"10.5072/d1\",\"identifierType\":\"DOI\"}],\"publicationYear\":2024,\"publisher\":\"Lab\",\"relatedIdentifiers\":[],\"schemaVersion\":\"http://datacite.org/schema/kernel-4\",\"titles\":[{\"title\":\"Depths\"}],\"types\":{\"resourceType\":\"Dataset\",\"resourceTypeGeneral\":\"Dataset\"}}".as_slice()
    );
    assert_eq!(rt; json.len(), 432);
    Ok(())
}

#[test]
fn texts_are_escaped_in_json(rt: HostRuntime) -> Result<(), Fail> {
    let dataset = dataset(rt.alloc(), b"Lab \"x\"", b"C:\\</title>&\xc3\xa9")?;
    let json = dataset_json(rt.alloc(), &dataset, 0, NEW_YEAR)?;
    assert_eq!(rt;
        json.as_slice(),
        b"{\"creators\":[{\"name\":\"Rey, A.\"}],\"dates\":[{\"date\":\"1970-01-01T00:00:00Z\",\"dateType\":\"Created\"},{\"date\":\"2024-01-01T00:00:00Z\",\"dateType\":\"Updated\"}],\"identifiers\":[{\"identifier\":\"10.5072/d1\",\"identifierType\":\"DOI\"}],\"publicationYear\":1970,\"publisher\":\"Lab \\\"x\\\"\",\"relatedIdentifiers\":[],\"schemaVersion\":\"http://datacite.org/schema/kernel-4\",\"titles\":[{\"title\":\"C:\\\\</title>&\xc3\xa9\"}],\"types\":{\"resourceType\":\"Dataset\",\"resourceTypeGeneral\":\"Dataset\"}}".as_slice()
    );
    Ok(())
}

#[test]
fn stamps_have_texts(rt: HostRuntime) -> Result<(), Fail> {
    let first = stamp_text(rt.alloc(), 0)?;
    assert_eq!(rt; first.as_slice(), b"1970-01-01T00:00:00Z".as_slice());
    let leap = stamp_text(rt.alloc(), 951_868_799)?;
    assert_eq!(rt; leap.as_slice(), b"2000-02-29T23:59:59Z".as_slice());
    let last = stamp_text(rt.alloc(), 253_402_300_799)?;
    assert_eq!(rt; last.as_slice(), b"9999-12-31T23:59:59Z".as_slice());
    Ok(())
}

#[test]
fn leap_years_are_the_calendars(rt: HostRuntime) -> Result<(), Fail> {
    let leap = stamp_text(rt.alloc(), 1_709_164_800)?;
    assert_eq!(rt; leap.as_slice(), b"2024-02-29T00:00:00Z".as_slice());
    let none = stamp_text(rt.alloc(), 4_107_542_400)?;
    assert_eq!(rt; none.as_slice(), b"2100-03-01T00:00:00Z".as_slice());
    Ok(())
}

#[test]
fn stamps_have_years(rt: HostRuntime) -> Result<(), Fail> {
    assert_eq!(rt; year_of(0), 1970);
    assert_eq!(rt; year_of(1_704_067_199), 2023);
    assert_eq!(rt; year_of(NEW_YEAR), 2024);
    assert_eq!(rt; year_of(253_402_300_799), 9999);
    Ok(())
}
