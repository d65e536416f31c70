// What a citation is found by.
ghost use Rattle.std.specs.Prelude.{◌≡◌, IfOk};
ghost use Rattle.sha2.specs.Sha256.{sha256};
ghost use Rattle.subset_query.specs.Printed.{printed_form};
ghost use Rattle.query_store.specs.Places.{digest_cmp, finding_of};

use crate::citation::Citation;
use cite_schema::NoMemory;
use sha2::{Digest, Sha256};
use shared_pages::Item;
use std::alloc::Global;
use std::cmp::Ordering;
use subset_query::Normal;

/// The two digests by which a citation is found, of its printed form and of its bytes, and its number.
#[derive(Clone, Copy)]
pub struct Finding {
    pub query_sha: [u8; 32],
    pub result_sha: [u8; 32],
    pub number: u32,
}

/// By the digest of the form, that of the bytes, and the number.
impl Item for Finding {
    ghost use Rattle.query_store.specs.Places.{finding_cmp, finding_total};

    ghost cmp = { finding_cmp };

    fn compare(&self, other: &Finding) -> Ordering {
        let by_number = self.number.cmp(&other.number);
        compare_digests(self, other).then(by_number)
    }

    fn share(&self) -> Result<Finding, NoMemory> {
        Ok(*self)
    }

    ghost total = { finding_total };
}

/// Which of the two comes first by the digests alone.
pub fn compare_digests(a: &Finding, b: &Finding) -> Ordering
    ensures { result ≡ digest_cmp a.now b.now }
{
    let by_query = a.query_sha.as_slice().cmp(b.query_sha.as_slice());
    let by_result = a.result_sha.as_slice().cmp(b.result_sha.as_slice());
    by_query.then(by_result)
}

/// What a citation with a number is found by. It prints the citation's form.
pub fn finding_of(alloc: Global, number: u32, citation: &Citation) -> Result<Finding, NoMemory>
    ensures { IfOk result (λ finding. finding ≡ finding_of number citation.now) }
{
    let query_sha = form_digest(alloc, &citation.normal)?;
    Ok(Finding {
        query_sha,
        result_sha: citation.result_sha,
        number,
    })
}

/// The SHA-256 of a form's printed bytes. It takes time and memory linear in them.
pub fn form_digest(alloc: Global, normal: &Normal) -> Result<[u8; 32], NoMemory>
    ensures { IfOk result (λ digest. digest ≡ sha256 (printed_form normal.now)) }
{
    let text = normal.print(alloc)?;
    Ok(Sha256::digest(text.as_slice()))
}
