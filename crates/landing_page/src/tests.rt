// The pages with ample memory: those of one citation and of its data set, and texts that would end an element.
use crate::{dataset_page, page};
use cite_schema::{ByteText, Dataset, Issue, List, Meta};
use std::alloc::Global;
use std::test::Fail;

// 2024-01-01T00:00:00Z.
const NEW_YEAR: u64 = 1_704_067_200;

fn text(alloc: Global, bytes: &[u8]) -> Result<ByteText, Fail> {
    Ok(ByteText::from_slice(alloc, bytes)?)
}

fn dataset(alloc: Global, title: &[u8]) -> Result<Dataset, Fail> {
    Ok(Dataset {
        prefix: text(alloc, b"10.5072")?,
        publisher: text(alloc, b"Lab")?,
        creator: text(alloc, b"Rey, A.")?,
        title: text(alloc, title)?,
    })
}

fn meta(alloc: Global, title: &[u8], description: &[u8]) -> Result<Meta, Fail> {
    let mut creators = List::new(alloc);
    creators.push(text(alloc, b"Rey, A.")?)?;
    Ok(Meta {
        creators,
        title: text(alloc, title)?,
        description: text(alloc, description)?,
    })
}

#[test]
fn a_citation_has_a_page(rt: HostRuntime) -> Result<(), Fail> {
    let alloc = rt.alloc();
    let dataset = dataset(alloc, b"Depths")?;
    let issue = Issue {
        number: 1,
        version: 2,
        cited: NEW_YEAR,
        updated: NEW_YEAR,
        meta: meta(alloc, b"Mid depths", b"")?,
    };
    let form =
        b"some\ncolumn 1 [10,20)\nitem column 0 label 736964\nitem column 1 label 6465707468\norder 0 asc\n";
    let page = page(alloc, &dataset, &issue, form, &[0x0f; 32], &[0xa9; 32])?;
    assert_eq!(rt;
        page.as_slice(),
        b"<!DOCTYPE html>\n<html lang=\"en\"><head><meta charset=\"utf-8\"><title>Mid depths</title></head><body>\n<h1>Mid depths</h1>\n<p>Rey, A. (2024): Mid depths. Version 2. Lab. Dataset. https://doi.org/10.5072/c1</p>\n<dl>\n<dt>Identifier</dt><dd>10.5072/c1</dd>\n<dt>Superset</dt><dd><a href=\"/id/10.5072/d1\">10.5072/d1</a></dd>\n<dt>Version</dt><dd>2</dd>\n<dt>Data updated</dt><dd>2024-01-01T00:00:00Z</dd>\n<dt>Cited</dt><dd>2024-01-01T00:00:00Z</dd>\n<dt>Description</dt><dd></dd>\n<dt>Result SHA-256</dt><dd>a9a9a9a9a9a9a9a9a9a9a9a9a9a9a9a9a9a9a9a9a9a9a9a9a9a9a9a9a9a9a9a9</dd>\n<dt>Query SHA-256</dt><dd>0f0f0f0f0f0f0f0f0f0f0f0f0f0f0f0f0f0f0f0f0f0f0f0f0f0f0f0f0f0f0f0f</dd>\n</dl>\n<pre>\nsome\ncolumn 1 [10,20)\nitem column 0 label 736964\nitem column 1 label 6465707468\norder 0 asc\n</pre>\n<p><a href=\"/id/10.5072/c1/data\">data</a> <a href=\"/id/10.5072/c1/meta\">metadata</a></p>\n</body></html>\n".as_slice()
    );
    assert_eq!(rt; page.len(), 876);
    Ok(())
}

#[test]
fn a_data_set_has_a_page(rt: HostRuntime) -> Result<(), Fail> {
    let alloc = rt.alloc();
    let dataset = dataset(alloc, b"Depths")?;
    let page = dataset_page(alloc, &dataset, 1, NEW_YEAR, 0)?;
    assert_eq!(rt;
        page.as_slice(),
        b"<!DOCTYPE html>\n<html lang=\"en\"><head><meta charset=\"utf-8\"><title>Depths</title></head><body>\n<h1>Depths</h1>\n<dl>\n<dt>Identifier</dt><dd>10.5072/d1</dd>\n<dt>Creator</dt><dd>Rey, A.</dd>\n<dt>Publisher</dt><dd>Lab</dd>\n<dt>Version</dt><dd>1</dd>\n<dt>Data updated</dt><dd>2024-01-01T00:00:00Z</dd>\n<dt>Citations</dt><dd>0</dd>\n</dl>\n<p><a href=\"/id/10.5072/d1/meta\">metadata</a></p>\n</body></html>\n".as_slice()
    );
    assert_eq!(rt; page.len(), 397);
    Ok(())
}

#[test]
fn texts_are_escaped_in_a_page(rt: HostRuntime) -> Result<(), Fail> {
    let alloc = rt.alloc();
    let dataset = dataset(alloc, b"Depths")?;
    let issue = Issue {
        number: u32::MAX,
        version: 1,
        cited: NEW_YEAR,
        updated: 0,
        meta: meta(
            alloc,
            b"</title><script>\"&amp;'\xc3\xa9",
            b"a > b && \xff\x01",
        )?,
    };
    let page = page(alloc, &dataset, &issue, b"<none>", &[0; 32], &[0xff; 32])?;
    assert_eq!(rt;
        page.as_slice(),
        b"<!DOCTYPE html>\n<html lang=\"en\"><head><meta charset=\"utf-8\"><title>&lt;/title&gt;&lt;script&gt;&quot;&amp;amp;'\xc3\xa9</title></head><body>\n<h1>&lt;/title&gt;&lt;script&gt;&quot;&amp;amp;'\xc3\xa9</h1>\n<p>Rey, A. (2024): &lt;/title&gt;&lt;script&gt;&quot;&amp;amp;'\xc3\xa9. Version 1. Lab. Dataset. https://doi.org/10.5072/c4294967295</p>\n<dl>\n<dt>Identifier</dt><dd>10.5072/c4294967295</dd>\n<dt>Superset</dt><dd><a href=\"/id/10.5072/d1\">10.5072/d1</a></dd>\n<dt>Version</dt><dd>1</dd>\n<dt>Data updated</dt><dd>1970-01-01T00:00:00Z</dd>\n<dt>Cited</dt><dd>2024-01-01T00:00:00Z</dd>\n<dt>Description</dt><dd>a &gt; b &amp;&amp; \xff\x01</dd>\n<dt>Result SHA-256</dt><dd>ffffffffffffffffffffffffffffffffffffffffffffffffffffffffffffffff</dd>\n<dt>Query SHA-256</dt><dd>0000000000000000000000000000000000000000000000000000000000000000</dd>\n</dl>\n<pre>\n&lt;none&gt;\n</pre>\n<p><a href=\"/id/10.5072/c4294967295/data\">data</a> <a href=\"/id/10.5072/c4294967295/meta\">metadata</a></p>\n</body></html>\n".as_slice()
    );
    Ok(())
}
