// The sequence.
ghost use Rattle.std.specs.Prelude.{◌≡◌, [], length, slice_get, IfOk};
ghost use Rattle.std.specs.List.{AllByRecursion, find, flat_map};
ghost use Rattle.std.specs.Ordering.{is_eq};
ghost use Rattle.std.specs.List.Sorted.{IsStrictlySortedBy};
ghost use Rattle.shared_pages.specs.Singles.{single_item, IsSingle};
ghost use Rattle.shared_pages.specs.Edits.{by_place, places, edited};
ghost use Rattle.stable_order.specs.Rows.{ToldApart};
ghost use Rattle.shared_pages.specs.Probes.{last_up_to, all_from};
ghost use Rattle.shared_pages.specs.Walks.{to_come};
ghost use Rattle.std.specs.Option.{option_copied};

use crate::edit::Edit;
use crate::item::Item;
use crate::level::{edit_level, item_at, last_up_to};
use crate::node::Single;
use crate::page::{Trunk, count_all, paginate};
use crate::walk::{Items, walk, walk_from};
use cite_schema::{List, NoMemory};
use stable_order::arrange;
use std::alloc::Global;
use std::marker::Model;

/// Items in strictly rising order, seen as the list of them. It never changes; an edit makes another sequence that
/// shares the pages that it doesn't touch.
#[derive(Drop)]
pub struct Sequence<T: Item> {
    trunks: Vec<Trunk<T>>,
    count: u64,
}

impl<T: Item> Model for Sequence<T> {
    ghost use Rattle.std.specs.Prelude.{List};
    ghost use Rattle.std.specs.List.{flat_map};

    ghost Value = { List T };

    ghost use Rattle.shared_pages.specs.Sequences.{trunk_items, IsSequence};

    ghost view = { λ p. flat_map trunk_items p.trunks.items };

    ghost invariant = { λ p. IsSequence T.cmp p.trunks.items p.count };
}

impl<T: Item> Sequence<T> {
    /// The sequence without an item. It takes no memory.
    pub fn make(alloc: Global) -> Sequence<T>
        ensures { result ≡ [] }
    {
        Sequence {
            trunks: Vec::new(alloc),
            count: 0,
        }
    }

    /// The sequence of these items.
    pub fn of_items(alloc: Global, items: Vec<T>) -> Result<Sequence<T>, NoMemory>
        requires { IsStrictlySortedBy T.cmp items.items }
        ensures { IfOk result (λ r. r ≡ items.items) }
    {
        let singles = singles_of(alloc, items)?;
        let mut leaves = Vec::new(alloc);
        paginate(alloc, singles, &mut leaves)?;
        let mut branches = Vec::new(alloc);
        paginate(alloc, leaves, &mut branches)?;
        let mut trunks = Vec::new(alloc);
        paginate(alloc, branches, &mut trunks)?;
        let count = count_all(trunks.as_slice())?;
        Ok(Sequence { trunks, count })
    }

    /// How many items there are. The items are in strictly rising order.
    pub fn len(&self) -> u64
        ensures value { result ≡ length self.now }
        ensures sorted { IsStrictlySortedBy T.cmp self.now }
    {
        self.count
    }

    /// The sequence after edits. Sequence that no edit falls on are shared.
    pub fn edit(&self, alloc: Global, edits: &[Edit<T>]) -> Result<Sequence<T>, NoMemory>
        requires { IsStrictlySortedBy (by_place T.cmp) edits.now }
        ensures { IfOk result (λ r. r ≡ edited T.cmp self.now edits.now) }
    {
        let trunks = edit_level(alloc, self.trunks.as_slice(), edits)?;
        let count = count_all(trunks.as_slice())?;
        Ok(Sequence { trunks, count })
    }

    /// The sequence after edits in any order, no two of which are at one place.
    pub fn edit_in_any_order(
        &self,
        alloc: Global,
        edits: List<Edit<T>>,
    ) -> Result<Sequence<T>, NoMemory>
        requires { ToldApart (places T.cmp) edits }
        ensures { IfOk result (λ r. r ≡ edited T.cmp self.now edits) }
    {
        let _ = &self.trunks;
        let edits = arrange(alloc, edits, &List::new(alloc))?;
        let pages = self.edit(alloc, edits.as_slice())?;
        Ok(pages)
    }

    /// The last item that isn't above a probe. For n items about log n comparisons.
    pub fn last_up_to(&self, probe: &T) -> Option<&T>
        ensures { option_copied result ≡ last_up_to T.cmp probe.now self.now }
    {
        last_up_to(self.trunks.as_slice(), probe)
    }

    /// The item that is equal to a probe. For n items about log n comparisons.
    pub fn find(&self, probe: &T) -> Option<&T>
        ensures { option_copied result ≡ find (λ x. is_eq (T.cmp x probe.now)) self.now }
    {
        let _ = &self.trunks;
        match self.last_up_to(probe) {
            None => None,
            Some(item) => {
                if item.compare(probe).is_eq() {
                    Some(item)
                } else {
                    None
                }
            }
        }
    }

    /// The item at a place, counted from 0. It goes by the counts of pages, and so past at most some hundred of them.
    pub fn get(&self, place: u64) -> Option<&T>
        ensures { option_copied result ≡ slice_get self.now place }
    {
        item_at(self.trunks.as_slice(), place)
    }

    /// The items, one after the other.
    pub fn iter(&self) -> Items<'_, T>
        ensures { to_come result ≡ self.now }
    {
        walk(&[], self.trunks.as_slice())
    }

    /// The items that aren't below a probe, one after the other. To find the first of n items takes about log n
    /// comparisons.
    pub fn iter_from(&self, probe: &T) -> Items<'_, T>
        ensures { to_come result ≡ all_from T.cmp probe.now self.now }
    {
        walk_from(self.trunks.as_slice(), probe)
    }
}

// The items, each alone.
fn singles_of<T: Item>(alloc: Global, items: Vec<T>) -> Result<Vec<Single<T>>, NoMemory>
    ensures items { IfOk result (λ r. flat_map single_item r.items ≡ items.items) }
    ensures whole { IfOk result (λ r. AllByRecursion IsSingle r.items) }
{
    let mut singles = Vec::with_capacity(alloc, items.len())?;
    for item in items {
        singles.push(Single { item })?;
    }
    Ok(singles)
}
