// Sequences of numbers: each public call with ample memory.
use crate::{Edit, Item, Items, Sequence, are_rising};
use cite_schema::{List, NoMemory};
use std::alloc::Global;
use std::cmp::Ordering;
use std::test::Fail;

// A number, and a mark that the order doesn't see.
#[derive(Clone, Copy, Debug, PartialEq)]
struct Tag {
    number: u32,
    mark: u32,
}

impl Item for Tag {
    ghost use Rattle.shared_pages.specs.declared.tests.Tag.{Tag};
    ghost use Rattle.std.specs.Ordering.{nat_cmp};
    ghost use Rattle.std.proofs.lemmas.Cmp.{on_total, nat_cmp_total};

    ghost cmp = { λ a b. nat_cmp a.number b.number };

    fn compare(&self, other: &Tag) -> Ordering {
        self.number.cmp(&other.number)
    }

    fn share(&self) -> Result<Tag, NoMemory> {
        Ok(*self)
    }

    ghost total = { on_total (λ (t : Tag). t.number) nat_cmp_total };
}

fn numbered(number: u32, mark: u32) -> Tag {
    Tag { number, mark }
}

// The sequence after one edit.
fn after(
    alloc: Global,
    sequence: &Sequence<Tag>,
    edit: Edit<Tag>,
) -> Result<Sequence<Tag>, NoMemory> {
    let mut edits = List::new(alloc);
    edits.push(edit)?;
    sequence.edit_in_any_order(alloc, edits)
}

// The numbers from 0 below 1,000, put one by one, 37 apart.
fn shuffled(alloc: Global, count: u32) -> Result<Sequence<Tag>, NoMemory> {
    let mut sequence = Sequence::make(alloc);
    for i in 0..count {
        let number = i.wrapping_mul(37) % 1_000;
        sequence = after(alloc, &sequence, Edit::Put(numbered(number, i)))?;
    }
    Ok(sequence)
}

// The even numbers below twice the count, put at once.
fn even(alloc: Global, count: u32) -> Result<Sequence<Tag>, NoMemory> {
    let mut edits = Vec::new(alloc);
    for i in 0..count {
        edits.push(Edit::Put(numbered(i.wrapping_mul(2), 0)))?;
    }
    put_rising(alloc, &Sequence::make(alloc), edits.as_slice())
}

// The sequence after edits that rise; others count as want of memory.
fn put_rising(
    alloc: Global,
    sequence: &Sequence<Tag>,
    edits: &[Edit<Tag>],
) -> Result<Sequence<Tag>, NoMemory> {
    if are_rising(edits) {
        sequence.edit(alloc, edits)
    } else {
        Err(NoMemory)
    }
}

// Whether the numbers of the items are those from a first one on, a step apart, so many.
fn are_apart(items: Items<'_, Tag>, first: u32, step: u32, count: u32) -> bool {
    let mut next = first;
    let mut seen = 0u32;
    for item in items {
        if item.number != next {
            return false;
        }
        next = next.wrapping_add(step);
        seen = seen.wrapping_add(1);
    }
    seen == count
}

#[test]
fn holds_what_is_put_in_order(rt: HostRuntime) -> Result<(), Fail> {
    let sequence = shuffled(rt.alloc(), 1_000)?;
    assert_eq!(rt; sequence.len(), 1_000);
    assert!(rt; are_apart(sequence.iter(), 0, 1, 1_000));
    Ok(())
}

#[test]
fn holds_more_than_one_trunk(rt: HostRuntime) -> Result<(), Fail> {
    let sequence = even(rt.alloc(), 300_000)?;
    assert_eq!(rt; sequence.len(), 300_000);
    assert!(rt; are_apart(sequence.iter(), 0, 2, 300_000));
    assert!(rt;
        are_apart(
            sequence.iter_from(&numbered(400_001, 0)),
            400_002,
            2,
            99_999
        )
    );
    assert!(rt; are_apart(sequence.iter_from(&numbered(0, 0)), 0, 2, 300_000));
    assert!(rt; are_apart(sequence.iter_from(&numbered(600_000, 0)), 0, 2, 0));
    assert_eq!(rt;
        sequence.last_up_to(&numbered(123_457, 0)).copied(),
        Some(numbered(123_456, 0))
    );
    assert_eq!(rt;
        sequence.last_up_to(&numbered(u32::MAX, 0)).copied(),
        Some(numbered(599_998, 0))
    );
    Ok(())
}

#[test]
fn earlier_sequences_stay(rt: HostRuntime) -> Result<(), Fail> {
    let alloc = rt.alloc();
    let before = shuffled(alloc, 1_000)?;
    let removed = after(alloc, &before, Edit::Remove(numbered(500, 0)))?;
    let replaced = after(alloc, &removed, Edit::Put(numbered(501, 7)))?;
    assert_eq!(rt;
        (before.len(), removed.len(), replaced.len()),
        (1_000, 999, 999)
    );
    let probe = numbered(500, 0);
    assert_eq!(rt; before.last_up_to(&probe).map(|t| t.number), Some(500));
    assert_eq!(rt; replaced.last_up_to(&probe).map(|t| t.number), Some(499));
    assert_eq!(rt;
        replaced.iter_from(&probe).next().copied(),
        Some(numbered(501, 7))
    );
    assert!(rt; are_apart(removed.iter_from(&probe), 501, 1, 499));
    assert!(rt; are_apart(before.iter(), 0, 1, 1_000));
    Ok(())
}

#[test]
fn the_first_and_the_last_item_go(rt: HostRuntime) -> Result<(), Fail> {
    let alloc = rt.alloc();
    let before = even(alloc, 200)?;
    let without_first = after(alloc, &before, Edit::Remove(numbered(0, 0)))?;
    let inner = after(alloc, &without_first, Edit::Remove(numbered(398, 0)))?;
    let with_first = after(alloc, &inner, Edit::Put(numbered(0, 0)))?;
    let whole = after(alloc, &with_first, Edit::Put(numbered(398, 0)))?;
    assert!(rt; are_apart(without_first.iter(), 2, 2, 199));
    assert!(rt; are_apart(inner.iter(), 2, 2, 198));
    assert!(rt; are_apart(with_first.iter(), 0, 2, 199));
    assert!(rt; are_apart(whole.iter(), 0, 2, 200));
    assert!(rt; are_apart(before.iter(), 0, 2, 200));
    Ok(())
}

#[test]
fn an_item_takes_the_place_of_an_equal_one(rt: HostRuntime) -> Result<(), Fail> {
    let alloc = rt.alloc();
    let before = even(alloc, 200)?;
    let first = after(alloc, &before, Edit::Put(numbered(0, 8)))?;
    let last = after(alloc, &first, Edit::Put(numbered(398, 9)))?;
    let end = numbered(u32::MAX, 0);
    assert_eq!(rt; last.iter().next().copied(), Some(numbered(0, 8)));
    assert_eq!(rt; last.last_up_to(&end).copied(), Some(numbered(398, 9)));
    assert!(rt; are_apart(last.iter(), 0, 2, 200));
    assert_eq!(rt; first.last_up_to(&end).copied(), Some(numbered(398, 0)));
    assert_eq!(rt; before.iter().next().copied(), Some(numbered(0, 0)));
    Ok(())
}

#[test]
fn nothing_is_removed_where_nothing_is(rt: HostRuntime) -> Result<(), Fail> {
    let alloc = rt.alloc();
    let before = even(alloc, 200)?;
    let after = after(alloc, &before, Edit::Remove(numbered(199, 0)))?;
    assert_eq!(rt; after.len(), 200);
    assert!(rt; are_apart(after.iter(), 0, 2, 200));
    Ok(())
}

#[test]
fn an_empty_sequence_has_no_item(rt: HostRuntime) -> Result<(), Fail> {
    let alloc = rt.alloc();
    let empty: Sequence<Tag> = Sequence::make(alloc);
    assert_eq!(rt; empty.len(), 0);
    assert!(rt; empty.last_up_to(&numbered(1, 0)).is_none());
    assert!(rt; empty.iter_from(&numbered(1, 0)).next().is_none());
    let filled = after(alloc, &empty, Edit::Put(numbered(3, 0)))?;
    let emptied = after(alloc, &filled, Edit::Remove(numbered(3, 0)))?;
    assert_eq!(rt; (filled.len(), emptied.len()), (1, 0));
    assert!(rt; emptied.iter().next().is_none());
    assert!(rt; !are_rising(&[Edit::Put(numbered(2, 0)), Edit::Remove(numbered(2, 0))]));
    Ok(())
}

#[test]
fn items_are_taken_as_they_are(rt: HostRuntime) -> Result<(), Fail> {
    let mut items = Vec::new(rt.alloc());
    items.push(numbered(5, 1))?;
    let sequence = Sequence::of_items(rt.alloc(), items)?;
    assert_eq!(rt; sequence.iter().next().copied(), Some(numbered(5, 1)));
    assert_eq!(rt; sequence.len(), 1);
    Ok(())
}

#[test]
fn an_item_is_had_by_its_place(rt: HostRuntime) -> Result<(), Fail> {
    let sequence = even(rt.alloc(), 300_000)?;
    assert_eq!(rt; sequence.get(0).copied(), Some(numbered(0, 0)));
    assert_eq!(rt; sequence.get(262_144).copied(), Some(numbered(524_288, 0)));
    assert_eq!(rt; sequence.get(299_999).copied(), Some(numbered(599_998, 0)));
    assert!(rt; sequence.get(300_000).is_none());
    assert_eq!(rt;
        sequence.find(&numbered(4_444, 9)).copied(),
        Some(numbered(4_444, 0))
    );
    assert!(rt; sequence.find(&numbered(4_445, 0)).is_none());
    assert!(rt; sequence.get(u64::MAX).is_none());
    Ok(())
}
