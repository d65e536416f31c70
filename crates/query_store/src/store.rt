// The citations that were minted.
ghost use Rattle.std.specs.Prelude.{◌≡◌, ◌+◌, ◌<◌, ◌^◌, ◌++◌, ◌∷◌, [], length, slice_get, IfOk, IfErr};
ghost use Rattle.std.specs.Option.{option_copied};
ghost use Rattle.query_store.specs.Citations.{numbered, AreCandidates, with_forms};
ghost use Rattle.query_store.specs.Places.{citations_of, IsRoom};

use crate::carrying::carried;
use crate::citation::Citation;
use crate::finding::{Finding, form_digest};
use crate::kept::Kept;
use crate::numbered::Numbered;
use crate::picking::picked;
use crate::room::{Room, with_finding, with_newest};
use cite_schema::{List, NoMemory};
use shared_pages::Sequence;
use std::alloc::Global;
use std::marker::Model;
use subset_query::Normal;

/// The citations in the order of their numbers, and an index by the digests of their forms and of their bytes.
///
/// A value never changes: the store with one citation more is a value of its own that shares the others. The newest
/// citation stands beside the older ones, so that all other memory of an addition is taken before the new citation is
/// handed over.
#[derive(Drop)]
pub struct Store {
    older: Sequence<Numbered>,
    newest: Option<Kept>,
    index: Sequence<Finding>,
}

impl Model for Store {
    ghost use Rattle.std.specs.Prelude.{List as Listed};
    ghost use Rattle.std.specs.Coded.{codes};
    ghost use Rattle.cite_schema.specs.contracts.condition.Cond as cond_row;
    ghost use Rattle.query_store.specs.declared.citation.Citation.{Citation};

    ghost Value = { Listed Citation };

    ghost coded = { Prim.hlevel (codes, cond_row.the_row.coded) };

    ghost use Rattle.query_store.specs.Places.{all_citations, IsStore};

    ghost view = { λ s. all_citations s.older s.newest };

    ghost invariant = { λ s. IsStore s.older s.newest s.index };
}

impl Store {
    /// No citation. It takes no memory.
    pub fn make(alloc: Global) -> Result<Store, NoMemory>
        ensures { IfOk result (λ store. store ≡ []) }
    {
        Ok(Store {
            older: Sequence::make(alloc),
            newest: None,
            index: Sequence::make(alloc),
        })
    }

    /// The store with the citation behind the others. An error is want of memory, and hands the citation back. For n
    /// citations it takes about log n comparisons of digests and copies some hundred handles; no citation is copied.
    pub fn add(&self, alloc: Global, citation: Citation) -> Result<Store, Citation>
        requires { length self.now + 1 < 2 ^ 32 }
        ensures added { IfOk result (λ store. store ≡ self.now ++ citation ∷ []) }
        ensures kept { IfErr result (λ back. back ≡ citation) }
    {
        match self.room_for(alloc, &citation) {
            Err(NoMemory) => Err(citation),
            Ok(Room { older, index }) => match Kept::make(alloc, citation) {
                Err(citation) => Err(citation),
                Ok(newest) => Ok(Store {
                    older,
                    newest: Some(newest),
                    index,
                }),
            },
        }
    }

    // What the store with one citation more has beside that citation.
    fn room_for(&self, alloc: Global, citation: &Citation) -> Result<Room, NoMemory>
        requires { length self.now + 1 < 2 ^ 32 }
        ensures { IfOk result (λ room. IsRoom self.now citation.now room.older room.index) }
    {
        let older = with_newest(alloc, &self.older, &self.newest)?;
        let index = with_finding(alloc, &self.index, self.count() + 1, citation)?;
        Ok(Room { older, index })
    }

    /// The citation with a number, counted from 1; `None` where the number is 0 or over the count. It takes no memory,
    /// and goes past at most some hundred pages.
    pub fn get(&self, number: u32) -> Option<&Citation>
        ensures { option_copied result ≡ numbered self.now number }
    {
        if number == 0 {
            return None;
        }
        let place = u64::from(number) - 1;
        let older = self.older.len();
        if place < older {
            citation_at(&self.older, place)
        } else if place == older {
            citation_in(&self.newest)
        } else {
            None
        }
    }

    /// How many citations there are. It takes no memory.
    pub fn count(&self) -> u32
        ensures { result ≡ length self.now }
    {
        let older = self.older.len() as u32;
        match &self.newest {
            Some(_) => older + 1,
            None => older,
        }
    }

    /// The numbers, rising, of the citations that have this form, as data, and gave bytes with this fingerprint. It
    /// prints the form; for n citations, of which m have both digests, it takes about log n comparisons of digests, and
    /// compares m forms.
    pub fn candidates(
        &self,
        alloc: Global,
        normal: &Normal,
        result_sha: &[u8; 32],
    ) -> Result<List<u32>, NoMemory>
        ensures { IfOk result (λ numbers. AreCandidates normal.now result_sha.now self.now numbers) }
    {
        let probe = Finding {
            query_sha: form_digest(alloc, normal)?,
            result_sha: *result_sha,
            number: 0,
        };
        // That the findings rise is known once they were counted.
        let _count = self.index.len();
        let numbers = picked(alloc, self, &self.index, &probe, normal)?;
        Ok(numbers)
    }

    /// The store whose citations have these forms, one after the other, and the digests of these; all else stays. For n
    /// citations it takes n times what an addition takes, prints each form twice, and copies what each citation says.
    pub fn carried(&self, alloc: Global, normals: List<Normal>) -> Result<Store, NoMemory>
        requires { length normals ≡ length self.now }
        ensures { IfOk result (λ store. store ≡ with_forms self.now normals) }
    {
        carried(alloc, self, normals)
    }
}

// The citation at a place among entries, counted from 0.
fn citation_at(entries: &Sequence<Numbered>, place: u64) -> Option<&Citation>
    ensures { option_copied result ≡ slice_get (citations_of entries.now) place }
{
    match entries.get(place) {
        Some(entry) => Some(entry.citation.get()),
        None => None,
    }
}

// The citation that is kept, if there is one.
fn citation_in(kept: &Option<Kept>) -> Option<&Citation>
    ensures { option_copied result ≡ kept.now }
{
    match kept {
        Some(citation) => Some(citation.get()),
        None => None,
    }
}
