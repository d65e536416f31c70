// Small stores: each public call with ample memory.
use crate::{Citation, Store, copy_meta, copy_query, form_digest};
use cite_schema::{Boxed, ByteText, Cond, Issue, List, Meta, NoMemory, OnColumn, Query, Value};
use std::alloc::Global;
use std::test::Fail;
use subset_query::Normal;

// A form that picks nothing, and shows a label.
fn form(alloc: Global, label: &[u8]) -> Result<Normal, NoMemory> {
    let mut labels = List::new(alloc);
    labels.push(ByteText::from_slice(alloc, label)?)?;
    Ok(Normal::Nothing { labels })
}

fn meta(alloc: Global, title: &[u8]) -> Result<Meta, NoMemory> {
    Ok(Meta {
        creators: List::new(alloc),
        title: ByteText::from_slice(alloc, title)?,
        description: List::new(alloc),
    })
}

// A citation of a form, whose bytes have a fingerprint of one byte again and again.
fn citation(alloc: Global, number: u32, label: &[u8], mark: u8) -> Result<Citation, NoMemory> {
    let issue = Issue {
        number,
        version: 1,
        cited: 7,
        updated: 6,
        meta: meta(alloc, label)?,
    };
    let asked = Query {
        conds: List::new(alloc),
        items: List::new(alloc),
        order: List::new(alloc),
    };
    Ok(Citation {
        issue,
        asked,
        normal: form(alloc, label)?,
        query_sha: [0; 32],
        result_sha: [mark; 32],
    })
}

// The store with one citation more; a full one counts as want of memory.
fn with(alloc: Global, store: &Store, label: &[u8], mark: u8) -> Result<Store, NoMemory> {
    let count = store.count();
    if count == u32::MAX {
        return Err(NoMemory);
    }
    let citation = citation(alloc, count + 1, label, mark)?;
    match store.add(alloc, citation) {
        Ok(more) => Ok(more),
        Err(_) => Err(NoMemory),
    }
}

// Four citations: the first and the last are of one form and one fingerprint.
fn four(alloc: Global) -> Result<Store, NoMemory> {
    let store = with(alloc, &Store::make(alloc)?, b"a", 1)?;
    let store = with(alloc, &store, b"b", 1)?;
    let store = with(alloc, &store, b"a", 2)?;
    with(alloc, &store, b"a", 1)
}

fn number_at(store: &Store, number: u32) -> Option<u32> {
    match store.get(number) {
        Some(citation) => Some(citation.issue.number),
        None => None,
    }
}

#[test]
fn each_number_has_its_citation(rt: HostRuntime) -> Result<(), Fail> {
    let store = four(rt.alloc())?;
    assert_eq!(rt; store.count(), 4);
    assert_eq!(rt; number_at(&store, 0), None);
    assert_eq!(rt; number_at(&store, 1), Some(1));
    assert_eq!(rt; number_at(&store, 3), Some(3));
    assert_eq!(rt; number_at(&store, 4), Some(4));
    assert_eq!(rt; number_at(&store, 5), None);
    Ok(())
}

#[test]
fn an_earlier_store_stays(rt: HostRuntime) -> Result<(), Fail> {
    let alloc = rt.alloc();
    let before = with(alloc, &Store::make(alloc)?, b"a", 1)?;
    let after = with(alloc, &before, b"a", 1)?;
    assert_eq!(rt; (before.count(), after.count()), (1, 2));
    assert_eq!(rt; number_at(&before, 2), None);
    let found = before.candidates(alloc, &form(alloc, b"a")?, &[1; 32])?;
    assert_eq!(rt; found.as_slice(), [1].as_slice());
    Ok(())
}

#[test]
fn candidates_have_the_form_and_the_fingerprint(rt: HostRuntime) -> Result<(), Fail> {
    let alloc = rt.alloc();
    let store = four(alloc)?;
    let found = store.candidates(alloc, &form(alloc, b"a")?, &[1; 32])?;
    assert_eq!(rt; found.as_slice(), [1, 4].as_slice());
    let others = store.candidates(alloc, &form(alloc, b"b")?, &[2; 32])?;
    assert!(rt; others.is_empty());
    Ok(())
}

// The digest is that of the bytes "none", a line feed, "label 62" and a line feed, as another program told it.
#[test]
fn a_form_has_its_digest(rt: HostRuntime) -> Result<(), Fail> {
    let digest = form_digest(rt.alloc(), &form(rt.alloc(), b"b")?)?;
    assert_eq!(rt; (digest[0], digest[1], digest[31]), (187, 86, 73));
    Ok(())
}

#[test]
fn citations_are_carried_to_other_forms(rt: HostRuntime) -> Result<(), Fail> {
    let alloc = rt.alloc();
    let store = with(alloc, &with(alloc, &Store::make(alloc)?, b"a", 1)?, b"b", 1)?;
    let mut forms = List::new(alloc);
    forms.push(form(alloc, b"b")?)?;
    forms.push(form(alloc, b"b")?)?;
    assert_eq!(rt; store.count(), 2);
    let carried = store.carried(alloc, forms)?;
    let found = carried.candidates(alloc, &form(alloc, b"b")?, &[1; 32])?;
    assert_eq!(rt; found.as_slice(), [1, 2].as_slice());
    assert_eq!(rt; number_at(&carried, 2), Some(2));
    Ok(())
}

#[test]
fn queries_are_copied(rt: HostRuntime) -> Result<(), Fail> {
    let alloc = rt.alloc();
    let inner = Boxed::new(alloc, Cond::Eq(Value::Int(5)))?;
    let mut conds = List::new(alloc);
    conds.push(OnColumn {
        column: ByteText::from_slice(alloc, b"x")?,
        cond: Cond::Not(inner),
    })?;
    let query = Query {
        conds,
        items: List::new(alloc),
        order: List::new(alloc),
    };
    let copied = copy_query(alloc, &query)?;
    assert_eq!(rt; copied.conds.len(), 1);
    let copied = copy_meta(alloc, &meta(alloc, b"title")?)?;
    assert_eq!(rt; copied.title.as_slice(), b"title".as_slice());
    Ok(())
}
