// Stores whose citations have other forms.
ghost use Rattle.std.specs.Prelude.{◌≡◌, ◌+◌, ◌^◌, ◌<◌, ◌++◌, ◌∷◌, [], length, IfOk};
ghost use Rattle.query_store.specs.Citations.{with_form, with_forms};

use crate::citation::Citation;
use crate::copies::{copy_meta, copy_query};
use crate::finding::form_digest;
use crate::store::Store;
use cite_schema::{Issue, List, NoMemory};
use std::alloc::Global;
use subset_query::Normal;

/// The store whose citations are those of an old one with these forms, one after the other. It adds one after the other.
pub fn carried(alloc: Global, old: &Store, normals: List<Normal>) -> Result<Store, NoMemory>
    requires { length normals ≡ length old.now }
    ensures { IfOk result (λ store. store ≡ with_forms old.now normals) }
{
    // That the numbers fit is known once they were counted.
    let _count = old.count();
    let mut store = Store::make(alloc)?;
    let mut number = 0u32;
    for normal in normals.into_vec() {
        number += 1;
        match old.get(number) {
            Some(citation) => store = with_more(alloc, &store, turned(alloc, citation, normal)?)?,
            None => unreachable!(),
        }
    }
    Ok(store)
}

// The store with the citation behind the others.
fn with_more(alloc: Global, store: &Store, citation: Citation) -> Result<Store, NoMemory>
    requires { length store.now + 1 < 2 ^ 32 }
    ensures { IfOk result (λ more. more ≡ store.now ++ citation ∷ []) }
{
    match store.add(alloc, citation) {
        Ok(more) => Ok(more),
        Err(_) => Err(NoMemory),
    }
}

// The citation with another form, and its digest. It prints the form, and copies what the citation says.
fn turned(alloc: Global, citation: &Citation, normal: Normal) -> Result<Citation, NoMemory>
    ensures { IfOk result (λ turned. turned ≡ with_form citation.now normal) }
{
    let issue = copy_issue(alloc, &citation.issue)?;
    let asked = copy_query(alloc, &citation.asked)?;
    let query_sha = form_digest(alloc, &normal)?;
    Ok(Citation {
        issue,
        asked,
        normal,
        query_sha,
        result_sha: citation.result_sha,
    })
}

// The same of what is told of a citation.
fn copy_issue(alloc: Global, issue: &Issue) -> Result<Issue, NoMemory>
    ensures { IfOk result (λ copied. copied ≡ issue.now) }
{
    let meta = copy_meta(alloc, &issue.meta)?;
    Ok(Issue {
        number: issue.number,
        version: issue.version,
        cited: issue.cited,
        updated: issue.updated,
        meta,
    })
}
