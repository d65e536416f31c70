// What is read: the state, pages, bytes and metadata.
use crate::tests::served::{bytes, cited, founded, metadata, page};
use cite_http::{Ask, Status};
use std::test::Fail;

#[test]
fn the_state_is_told(rt: HostRuntime) -> Result<(), Fail> {
    let alloc = rt.alloc();
    let mut served = cited(alloc)?;
    let state = served.ask(alloc, Ask::State)?;
    assert_eq!(rt;
        state.as_slice(),
        b"200 {\"citations\":1,\"columns\":[{\"kind\":\"int\",\"name\":\"sid\"},{\"kind\":\"int\",\"name\":\"depth\"}],\"schema\":1,\"version\":2}".as_slice()
    );
    Ok(())
}

// The digests are those of `sha256sum` over the bytes and over the lines of the form.
#[test]
fn a_citation_has_its_page(rt: HostRuntime) -> Result<(), Fail> {
    let alloc = rt.alloc();
    let mut served = cited(alloc)?;
    let page = page(&mut served, alloc, b"10.5072/c1")?;
    assert_eq!(rt;
        page.as_slice(),
        b"200 <!DOCTYPE html>\n<html lang=\"en\"><head><meta charset=\"utf-8\"><title>Mid depths</title></head><body>\n<h1>Mid depths</h1>\n<p>Rey, A. (2024): Mid depths. Version 2. Lab. Dataset. https://doi.org/10.5072/c1</p>\n<dl>\n<dt>Identifier</dt><dd>10.5072/c1</dd>\n<dt>Superset</dt><dd><a href=\"/id/10.5072/d1\">10.5072/d1</a></dd>\n<dt>Version</dt><dd>2</dd>\n<dt>Data updated</dt><dd>2024-01-01T00:00:00Z</dd>\n<dt>Cited</dt><dd>2024-01-01T00:00:01Z</dd>\n<dt>Description</dt><dd></dd>\n<dt>Result SHA-256</dt><dd>ddbf33cda5c1c1df43c967dfc17675bdabe3eebb14756da25a243500fdd108a3</dd>\n<dt>Query SHA-256</dt><dd>e6a023beb4f47550094d87be36e3a09529c35a68cbbf06146ac796fb17a56985</dd>\n</dl>\n<pre>\nsome\ncolumn 1 [10,20)\nitem column 0 label 736964\nitem column 1 label 6465707468\norder 0 asc\n</pre>\n<p><a href=\"/id/10.5072/c1/data\">data</a> <a href=\"/id/10.5072/c1/meta\">metadata</a></p>\n</body></html>\n".as_slice()
    );
    Ok(())
}

#[test]
fn a_citation_has_its_bytes(rt: HostRuntime) -> Result<(), Fail> {
    let alloc = rt.alloc();
    let mut served = cited(alloc)?;
    let data = bytes(&mut served, alloc, b"doi:10.5072/C1")?;
    assert_eq!(rt;
        data.as_slice(),
        b"200 \"sid\",\"depth\"\n\"2\",\"12\"\n\"3\",\"19\"\n".as_slice()
    );
    Ok(())
}

#[test]
fn a_citation_has_its_metadata(rt: HostRuntime) -> Result<(), Fail> {
    let alloc = rt.alloc();
    let mut served = cited(alloc)?;
    let meta = metadata(&mut served, alloc, b"10.5072/c1")?;
    assert_eq!(rt;
        meta.as_slice(),
        b"200 {\"creators\":[{\"name\":\"Rey, A.\"}],\"dates\":[{\"date\":\"2024-01-01T00:00:01Z\",\"dateType\":\"Created\"},{\"date\":\"2024-01-01T00:00:00Z\",\"dateType\":\"Updated\"}],\"identifiers\":[{\"identifier\":\"10.5072/c1\",\"identifierType\":\"DOI\"}],\"publicationYear\":2024,\"publisher\":\"Lab\",\"relatedIdentifiers\":[{\"relatedIdentifier\":\"10.5072/d1\",\"relatedIdentifierType\":\"DOI\",\"relationType\":\"IsPartOf\"}],\"schemaVersion\":\"http://datacite.org/schema/kernel-4\",\"titles\":[{\"title\":\"Mid depths\"}],\"types\":{\"resourceType\":\"Dataset\",\"resourceTypeGeneral\":\"Dataset\"}}".as_slice()
    );
    Ok(())
}

#[test]
fn the_data_set_has_a_page_and_metadata(rt: HostRuntime) -> Result<(), Fail> {
    let alloc = rt.alloc();
    let mut served = founded(alloc, &[])?;
    let page = page(&mut served, alloc, b"10.5072/d1")?;
    assert_eq!(rt; page.len(), 4 + 397);
    let meta = metadata(&mut served, alloc, b"10.5072/d1")?;
    assert_eq!(rt;
        meta.as_slice(),
        b"200 {\"creators\":[{\"name\":\"Rey, A.\"}],\"dates\":[{\"date\":\"2024-01-01T00:00:00Z\",\"dateType\":\"Created\"},{\"date\":\"2024-01-01T00:00:00Z\",\"dateType\":\"Updated\"}],\"identifiers\":[{\"identifier\":\"10.5072/d1\",\"identifierType\":\"DOI\"}],\"publicationYear\":2024,\"publisher\":\"Lab\",\"relatedIdentifiers\":[],\"schemaVersion\":\"http://datacite.org/schema/kernel-4\",\"titles\":[{\"title\":\"Depths\"}],\"types\":{\"resourceType\":\"Dataset\",\"resourceTypeGeneral\":\"Dataset\"}}".as_slice()
    );
    Ok(())
}

#[test]
fn what_is_not_there_is_named(rt: HostRuntime) -> Result<(), Fail> {
    let alloc = rt.alloc();
    let mut served = cited(alloc)?;
    assert_eq!(rt;
        page(&mut served, alloc, b"10.5072/x")?.as_slice(),
        b"404 NotAName\n".as_slice()
    );
    assert_eq!(rt;
        page(&mut served, alloc, b"10.5072/c9")?.as_slice(),
        b"404 NotIssued\n".as_slice()
    );
    assert_eq!(rt;
        bytes(&mut served, alloc, b"10.5073/c1")?.as_slice(),
        b"404 NotAName\n".as_slice()
    );
    assert_eq!(rt;
        bytes(&mut served, alloc, b"10.5072/c2")?.as_slice(),
        b"404 NotIssued\n".as_slice()
    );
    Ok(())
}

#[test]
fn the_data_set_has_no_fixed_bytes(rt: HostRuntime) -> Result<(), Fail> {
    let alloc = rt.alloc();
    let mut served = founded(alloc, &[])?;
    assert_eq!(rt;
        bytes(&mut served, alloc, b"10.5072/d1")?.as_slice(),
        b"404 NoFixedBytes\n".as_slice()
    );
    assert_eq!(rt;
        metadata(&mut served, alloc, b"10.5072/x")?.as_slice(),
        b"404 NotAName\n".as_slice()
    );
    assert_eq!(rt;
        metadata(&mut served, alloc, b"10.5072/c1")?.as_slice(),
        b"404 NotIssued\n".as_slice()
    );
    Ok(())
}

#[test]
fn a_refused_message_is_told(rt: HostRuntime) -> Result<(), Fail> {
    let alloc = rt.alloc();
    let mut served = founded(alloc, &[])?;
    let told = served.ask(alloc, Ask::Bad(Status::OtherMethod { get: true }))?;
    assert_eq!(rt; told.as_slice(), b"405 OtherMethod\n".as_slice());
    let told = served.ask(alloc, Ask::Bad(Status::NoRoute))?;
    assert_eq!(rt; told.as_slice(), b"404 NoRoute\n".as_slice());
    Ok(())
}
