// The citations that have a form, by the findings of an index.
ghost use Rattle.std.specs.Prelude.{◌≡◌, ◌↔◌, IsTrue, IfOk};
ghost use Rattle.shared_pages.specs.Probes.{all_from};
ghost use Rattle.query_store.specs.Places.{finding_cmp};
ghost use Rattle.query_store.specs.Picks.{HasForm, Picks};

use crate::finding::{Finding, compare_digests};
use crate::store::Store;
use cite_schema::{List, NoMemory};
use shared_pages::Sequence;
use std::alloc::Global;
use subset_query::Normal;

/// The numbers of the findings that have the digests of a probe, and whose citation has the form. For n findings and m
/// with those digests it takes about log n comparisons of digests, and compares m forms.
pub fn picked(
    alloc: Global,
    store: &Store,
    index: &Sequence<Finding>,
    probe: &Finding,
    normal: &Normal,
) -> Result<List<u32>, NoMemory>
    ensures { IfOk result (λ numbers. Picks (HasForm store.now normal.now) probe.now (all_from finding_cmp probe.now index.now) numbers) }
{
    let mut numbers = List::new(alloc);
    for finding in index.iter_from(probe) {
        if !compare_digests(finding, probe).is_eq() {
            return Ok(numbers);
        }
        if has_form(store, finding.number, normal) {
            numbers.push(finding.number)?;
        }
    }
    Ok(numbers)
}

// Whether the citation with a number has a form.
fn has_form(store: &Store, number: u32, normal: &Normal) -> bool
    ensures { IsTrue result ↔ HasForm store.now normal.now number }
{
    match store.get(number) {
        Some(citation) => citation.normal.same(normal),
        None => false,
    }
}
