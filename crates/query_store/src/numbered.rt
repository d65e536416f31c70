// A citation at its number.
use crate::kept::Kept;
use cite_schema::NoMemory;
use shared_pages::Item;
use std::cmp::Ordering;

/// A citation, which stores share, at its number.
#[derive(Drop)]
pub struct Numbered {
    pub number: u32,
    pub citation: Kept,
}

/// By number.
impl Item for Numbered {
    ghost use Rattle.query_store.specs.Places.{number_cmp, number_total};

    ghost cmp = { number_cmp };

    fn compare(&self, other: &Numbered) -> Ordering {
        self.number.cmp(&other.number)
    }

    fn share(&self) -> Result<Numbered, NoMemory> {
        let citation = self.citation.share()?;
        Ok(Numbered {
            number: self.number,
            citation,
        })
    }

    ghost total = { number_total };
}
