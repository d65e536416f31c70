// Edits of a sequence.
ghost use Rattle.std.specs.Prelude.{◌≡◌, ◌↔◌, IsTrue, Some};
ghost use Rattle.std.specs.List.Sorted.{IsStrictlySortedBy};
ghost use Rattle.shared_pages.specs.Edits.{place, by_place, starts_above};

use crate::item::Item;
use crate::search::Placed;
use stable_order::Keyed;
use std::cmp::Ordering;

/// Single edit of a sequence.
#[derive(Drop)]
pub enum Edit<T> {
    /// Puts the item, in the place of the equal one if there is one.
    Put(T),
    /// Removes the item that is equal to this one, if there is one.
    Remove(T),
}

impl<T: Item> Placed<T> for Edit<T> {
    ghost use Rattle.shared_pages.specs.Edits.{place};

    ghost at = { λ e. Some (place e) };

    ghost whole = { λ _. Unit {0} };

    fn at(&self) -> &T {
        match self {
            Edit::Put(item) => item,
            Edit::Remove(item) => item,
        }
    }
}

impl<T: Item> Keyed for Edit<T> {
    ghost use Rattle.shared_pages.specs.Edits.{place, places};
    ghost use Rattle.std.proofs.lemmas.Cmp.{on_total};

    ghost at = { places T.cmp };

    fn compare_at(&self, other: &Edit<T>, _column: u16) -> Ordering {
        self.at().compare(other.at())
    }

    ghost comparison = { λ c. on_total place T.total };
}

/// Whether each edit is at a place below that of the next, as `Sequence::edit` needs. For m edits it takes m comparisons.
pub fn are_rising<T: Item>(edits: &[Edit<T>]) -> bool
    ensures { IsTrue result ↔ IsStrictlySortedBy (by_place T.cmp) edits.now }
{
    let mut rest = edits;
    while let Some((first, more)) = rest.split_first() {
        if !starts_above(more, first) {
            return false;
        }
        rest = more;
    }
    true
}

// Whether the first of the edits, if there is one, is above an edit.
fn starts_above<T: Item>(edits: &[Edit<T>], edit: &Edit<T>) -> bool
    ensures { result ≡ starts_above T.cmp edits.now edit.now }
{
    match edits.split_first() {
        Some((first, _)) => edit.at().compare(first.at()).is_lt(),
        None => true,
    }
}
