// What holds items in order: an item alone, or a page of such.
ghost use Rattle.std.specs.Prelude.{◌≡◌, ◌∷◌, [], List, length, IfOk, OnOk, Some, refl, cond, slice_get};
ghost use Rattle.std.specs.List.{flat_map};
ghost use Rattle.std.specs.List.Sorted.{IsStrictlySortedBy};
ghost use Rattle.shared_pages.specs.Edits.{by_place, edited, given};
ghost use Rattle.shared_pages.specs.Nodes.{Adds, first_of};
ghost use Rattle.shared_pages.specs.Probes.{last_up_to};
ghost use Rattle.std.specs.Option.{option_copied};
ghost use Rattle.shared_pages.specs.Singles.{single_item, IsSingle, starts_at};

use crate::edit::Edit;
use crate::item::Item;
use crate::search::{Placed, count_before};
use cite_schema::NoMemory;
use std::alloc::Global;

/// What holds items in order, at least one. Its place is that of its first item.
pub trait Node<T: Item>: Placed<T> + Drop {
    /// The items.
    ghost items: { Self → List T };

    /// How many items there are.
    fn count(&self) -> u64
        requires { Self.whole self.now }
        ensures { result ≡ length (items self.now) };

    /// The same node again: the items are shared.
    fn share(&self) -> Result<Self, NoMemory>
        ensures { IfOk result (λ r. r ≡ self.now) };

    /// Puts nodes behind others that hold what is put by edits.
    fn make(alloc: Global, edits: &[Edit<T>], out: &mut Vec<Self>) -> Result<(), NoMemory>
        requires { IsStrictlySortedBy (by_place T.cmp) edits.now }
        ensures { OnOk result (Adds items Self.whole out.old.items out.new.items (edited T.cmp [] edits.now)) };

    /// Puts nodes behind others that hold the items of this node after edits.
    fn edit(&self, alloc: Global, edits: &[Edit<T>], out: &mut Vec<Self>) -> Result<(), NoMemory>
        requires whole { Self.whole self.now }
        requires sorted { IsStrictlySortedBy T.cmp (items self.now) }
        requires rising { IsStrictlySortedBy (by_place T.cmp) edits.now }
        ensures { OnOk result (Adds items Self.whole out.old.items out.new.items (edited T.cmp (items self.now) edits.now)) };

    /// The last item that isn't above a probe.
    fn last_up_to(&self, probe: &T) -> Option<&T>
        requires whole { Self.whole self.now }
        requires sorted { IsStrictlySortedBy T.cmp (items self.now) }
        ensures { option_copied result ≡ last_up_to T.cmp probe.now (items self.now) };

    /// The item at a place among the node's items, counted from 0.
    fn get(&self, place: u64) -> Option<&T>
        requires { Self.whole self.now }
        ensures { option_copied result ≡ slice_get (items self.now) place };

    /// The place of a node is its first item.
    ghost led: { (n : Self) → Self.at n ≡ first_of (items n) };
}

/// An item alone.
#[derive(Drop)]
pub struct Single<T> {
    pub item: T,
}

impl<T: Item> Placed<T> for Single<T> {
    ghost use Rattle.shared_pages.specs.Singles.{IsSingle};

    ghost at = { λ n. Some n.item };

    ghost whole = { IsSingle };

    fn at(&self) -> &T {
        &self.item
    }
}

impl<T: Item> Node<T> for Single<T> {
    ghost use Rattle.shared_pages.specs.Singles.{single_item, IsSingle};

    ghost items = { single_item };

    fn count(&self) -> u64 {
        1
    }

    fn share(&self) -> Result<Single<T>, NoMemory> {
        let item = self.item.share()?;
        Ok(Single { item })
    }

    fn make(_alloc: Global, edits: &[Edit<T>], out: &mut Vec<Single<T>>) -> Result<(), NoMemory> {
        put_all(edits, out)?;
        Ok(())
    }

    fn edit(
        &self,
        _alloc: Global,
        edits: &[Edit<T>],
        out: &mut Vec<Single<T>>,
    ) -> Result<(), NoMemory> {
        let before = count_before(edits, &self.item, false);
        let (first, last) = edits.split_at(before);
        put_all(first, out)?;
        put_unless_edited(&self.item, last, out)?;
        put_all(last, out)?;
        Ok(())
    }

    fn last_up_to(&self, probe: &T) -> Option<&T> {
        if self.item.compare(probe).is_le() {
            Some(&self.item)
        } else {
            None
        }
    }

    fn get(&self, place: u64) -> Option<&T> {
        if place == 0 { Some(&self.item) } else { None }
    }

    ghost led = { λ n. refl };
}

// Whether the first edit is at the item.
fn starts_at<T: Item>(edits: &[Edit<T>], item: &T) -> bool
    ensures { result ≡ starts_at T.cmp edits.now item.now }
{
    match edits.split_first() {
        Some((edit, _)) => edit.at().compare(item).is_eq(),
        None => false,
    }
}

// Puts the item behind the others, unless the first edit is at it.
fn put_unless_edited<T: Item>(
    item: &T,
    edits: &[Edit<T>],
    out: &mut Vec<Single<T>>,
) -> Result<(), NoMemory>
    ensures { OnOk result (Adds single_item IsSingle out.old.items out.new.items (cond (starts_at T.cmp edits.now item.now) [] (item.now ∷ []))) }
{
    if !starts_at(edits, item) {
        let item = item.share()?;
        out.push(Single { item })?;
    }
    Ok(())
}

// Puts what is put by edits behind the others.
fn put_all<T: Item>(edits: &[Edit<T>], out: &mut Vec<Single<T>>) -> Result<(), NoMemory>
    ensures { OnOk result (Adds single_item IsSingle out.old.items out.new.items (flat_map given edits.now)) }
{
    for edit in edits {
        if let Edit::Put(item) = edit {
            let item = item.share()?;
            out.push(Single { item })?;
        }
    }
    Ok(())
}
