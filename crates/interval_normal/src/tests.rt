// Sets of numbers and of texts, each worked by hand.
ghost use Rattle.std.specs.Prelude.{IfOk, IsTrue};
ghost use Rattle.std.specs.Ordering.{int_cmp};
ghost use Rattle.cite_schema.specs.Values.{is_number};
ghost use Rattle.interval_normal.specs.Spans.{IsCanonical};

use crate::{Point, Set, Span, prefix_set, same_values_same_list};
use cite_schema::{ByteText, List, NoMemory};
use std::alloc::Global;
use std::test::Fail;

fn text(alloc: Global, bytes: &[u8]) -> Result<ByteText, NoMemory> {
    Ok(ByteText::from_slice(alloc, bytes)?)
}

fn is_span(span: &Span<i64>, expected: &(i64, Option<i64>)) -> bool {
    span.low == expected.0 && span.high == expected.1
}

// Whether the set has just these spans of numbers.
fn has_spans(set: &Set<i64>, expected: &[(i64, Option<i64>)]) -> bool {
    let spans = set.spans().as_slice();
    if spans.len() != expected.len() {
        return false;
    }
    for i in 0..spans.len() {
        if !is_span(&spans[i], &expected[i]) {
            return false;
        }
    }
    true
}

fn is_end(end: &Option<ByteText>, expected: Option<&[u8]>) -> bool {
    match (end, expected) {
        (None, None) => true,
        (Some(end), Some(expected)) => end.as_slice() == expected,
        _ => false,
    }
}

// Whether the set is the one span from the text `low` up to `high`.
fn is_texts(set: &Set<ByteText>, low: &[u8], high: Option<&[u8]>) -> bool {
    match set.spans().as_slice() {
        [span] => span.low.as_slice() == low && is_end(&span.high, high),
        _ => false,
    }
}

fn up_to_a(alloc: Global) -> Result<Set<ByteText>, NoMemory> {
    let a = text(alloc, b"a")?;
    let above = Set::above(alloc, &a)?;
    above.complement(alloc)
}

fn beginning_with(alloc: Global, bytes: &[u8]) -> Result<Set<ByteText>, NoMemory> {
    let prefix = text(alloc, bytes)?;
    prefix_set(alloc, &prefix)
}

fn all_but(alloc: Global, number: i64) -> Result<Set<i64>, NoMemory> {
    let one = Set::one(alloc, &number)?;
    one.complement(alloc)
}

#[test]
fn texts_up_to_one(rt: HostRuntime) -> Result<(), Fail> {
    let alloc = rt.alloc();
    let set = up_to_a(alloc)?;
    assert!(rt; is_texts(&set, b"", Some(b"a\0")));
    let a = text(alloc, b"a")?;
    assert!(rt; set.has(&a));
    Ok(())
}

#[test]
fn texts_behind_one(rt: HostRuntime) -> Result<(), Fail> {
    let alloc = rt.alloc();
    let set = up_to_a(alloc)?;
    let longer = text(alloc, b"a\0")?;
    assert!(rt; !set.has(&longer));
    let b = text(alloc, b"b")?;
    assert!(rt; !set.has(&b));
    Ok(())
}

#[test]
fn prefixes(rt: HostRuntime) -> Result<(), Fail> {
    let alloc = rt.alloc();
    let top = beginning_with(alloc, &[255])?;
    assert!(rt; is_texts(&top, &[255], None));
    let carried = beginning_with(alloc, &[97, 255])?;
    assert!(rt; is_texts(&carried, &[97, 255], Some(&[98])));
    Ok(())
}

#[test]
fn prefix_of_all(rt: HostRuntime) -> Result<(), Fail> {
    let alloc = rt.alloc();
    let all = beginning_with(alloc, b"")?;
    assert!(rt; is_texts(&all, b"", None));
    assert!(rt; all.is_full(alloc)?);
    Ok(())
}

#[test]
fn empty_sets(rt: HostRuntime) -> Result<(), Fail> {
    let alloc = rt.alloc();
    let nothing: Set<i64> = Set::empty(alloc);
    assert!(rt; nothing.is_empty());
    let below = Set::below(alloc, &i64::MIN)?;
    assert!(rt; below.is_empty());
    let above = Set::above(alloc, &i64::MAX)?;
    assert!(rt; above.is_empty());
    Ok(())
}

#[test]
fn full_sets(rt: HostRuntime) -> Result<(), Fail> {
    let alloc = rt.alloc();
    let all: Set<i64> = Set::full(alloc)?;
    assert!(rt; has_spans(&all, &[(i64::MIN, None)]));
    assert!(rt; all.has(&i64::MAX));
    let from = Set::from(alloc, &i64::MIN)?;
    assert!(rt; from.is_full(alloc)?);
    Ok(())
}

#[test]
fn ends_alone(rt: HostRuntime) -> Result<(), Fail> {
    let alloc = rt.alloc();
    let last = Set::one(alloc, &i64::MAX)?;
    assert!(rt; has_spans(&last, &[(i64::MAX, None)]));
    assert_eq!(rt; last.single(alloc)?.copied(), Some(i64::MAX));
    let first = Set::one(alloc, &i64::MIN)?;
    assert!(rt; has_spans(&first, &[(i64::MIN, Some(i64::MIN + 1))]));
    Ok(())
}

#[test]
fn complements(rt: HostRuntime) -> Result<(), Fail> {
    let alloc = rt.alloc();
    let others = all_but(alloc, 5)?;
    assert!(rt; has_spans(&others, &[(i64::MIN, Some(5)), (6, None)]));
    let not_first = all_but(alloc, i64::MIN)?;
    assert!(rt; has_spans(&not_first, &[(i64::MIN + 1, None)]));
    let not_last = all_but(alloc, i64::MAX)?;
    assert!(rt; has_spans(&not_last, &[(i64::MIN, Some(i64::MAX))]));
    Ok(())
}

#[test]
fn touching_sets(rt: HostRuntime) -> Result<(), Fail> {
    let alloc = rt.alloc();
    let low = Set::below(alloc, &5)?;
    let high = Set::from(alloc, &5)?;
    let both = low.union(alloc, &high)?;
    assert!(rt; has_spans(&both, &[(i64::MIN, None)]));
    let neither = low.intersect(alloc, &high)?;
    assert!(rt; has_spans(&neither, &[]));
    Ok(())
}

// Whether two sets have just these spans in common, on whichever side each stands.
fn have_in_common(
    alloc: Global,
    one: &Set<i64>,
    other: &Set<i64>,
    expected: &[(i64, Option<i64>)],
) -> Result<bool, NoMemory> {
    let both = one.intersect(alloc, other)?;
    let turned = other.intersect(alloc, one)?;
    Ok(has_spans(&both, expected) && has_spans(&turned, expected))
}

#[test]
fn ends_of_intersections(rt: HostRuntime) -> Result<(), Fail> {
    let alloc = rt.alloc();
    let below_three = Set::below(alloc, &3)?;
    let below_five = Set::below(alloc, &5)?;
    let from_three = Set::from(alloc, &3)?;
    let from_five = Set::from(alloc, &5)?;
    assert!(rt; have_in_common(alloc, &below_five, &from_three, &[(3, Some(5))])?);
    assert!(rt; have_in_common(alloc, &below_five, &below_three, &[(i64::MIN, Some(3))])?);
    assert!(rt; have_in_common(alloc, &from_five, &from_three, &[(5, None)])?);
    assert!(rt; have_in_common(alloc, &from_three, &from_three, &[(3, None)])?);
    assert!(rt; have_in_common(alloc, &from_five, &below_three, &[])?);
    Ok(())
}

// The numbers from `low` up to and without `high`.
fn between(alloc: Global, low: i64, high: i64) -> Result<Set<i64>, NoMemory> {
    let from = Set::from(alloc, &low)?;
    let below = Set::below(alloc, &high)?;
    from.intersect(alloc, &below)
}

// Of two spans that end at one place, both end first.
#[test]
fn spans_that_end_together(rt: HostRuntime) -> Result<(), Fail> {
    let alloc = rt.alloc();
    let wide = between(alloc, 1, 5)?;
    let narrow = between(alloc, 3, 5)?;
    assert!(rt; have_in_common(alloc, &wide, &narrow, &[(3, Some(5))])?);
    assert!(rt; have_in_common(alloc, &wide, &wide, &[(1, Some(5))])?);
    Ok(())
}

fn texts_from_a(alloc: Global) -> Result<Set<ByteText>, NoMemory> {
    let a = text(alloc, b"a")?;
    Set::from(alloc, &a)
}

#[test]
fn texts_in_common(rt: HostRuntime) -> Result<(), Fail> {
    let alloc = rt.alloc();
    let up_to_a = up_to_a(alloc)?;
    let from_a = texts_from_a(alloc)?;
    let a = up_to_a.intersect(alloc, &from_a)?;
    assert!(rt; is_texts(&a, b"a", Some(b"a\0")));
    Ok(())
}

// The numbers from 1 up to 3, and those from 4 on, as a list in the normal form.
fn two_wide(alloc: Global) -> Result<List<Span<i64>>, NoMemory>
    ensures { IfOk result (λ spans. IsCanonical (λ z. IsTrue (is_number z)) int_cmp spans) }
{
    let mut spans = List::new(alloc);
    spans.push(Span {
        low: 1,
        high: Some(3),
    })?;
    spans.push(Span { low: 4, high: None })?;
    Ok(spans)
}

#[test]
fn spans_in_the_normal_form_are_a_set(rt: HostRuntime) -> Result<(), Fail> {
    let alloc = rt.alloc();
    let set = Set::from_spans(two_wide(alloc)?);
    assert!(rt; has_spans(&set, &[(1, Some(3)), (4, None)]));
    assert!(rt; set.has(&2) && !set.has(&3) && set.has(&4));
    Ok(())
}

#[test]
fn points_in_any_order(rt: HostRuntime) -> Result<(), Fail> {
    let alloc = rt.alloc();
    let some = Set::of_points(alloc, &[3, 1, 7, 2, 1])?;
    assert!(rt; has_spans(&some, &[(1, Some(4)), (7, Some(8))]));
    assert!(rt; some.single(alloc)?.is_none());
    Ok(())
}

#[test]
fn many_spans(rt: HostRuntime) -> Result<(), Fail> {
    let alloc = rt.alloc();
    let mut points = Vec::new(alloc);
    for n in 0..1024u16 {
        points.push(2 * i64::from(n))?;
    }
    let even = Set::of_points(alloc, points.as_slice())?;
    assert_eq!(rt; even.spans().len(), 1024);
    assert!(rt; even.has(&0) && even.has(&1000) && even.has(&2046));
    assert!(rt; !even.has(&-2) && !even.has(&1001) && !even.has(&2048));
    Ok(())
}

#[test]
fn texts_as_points(rt: HostRuntime) -> Result<(), Fail> {
    let alloc = rt.alloc();
    let least = ByteText::least(alloc)?;
    let a = text(alloc, b"a")?;
    assert!(rt; least.is_empty());
    assert!(rt; least.compare(&a).is_lt());
    let next = a.after(alloc)?;
    assert!(rt; is_end(&next, Some(b"a\0")));
    let again = Point::copy(&a, alloc)?;
    assert_eq!(rt; again.as_slice(), b"a".as_slice());
    same_values_same_list::<ByteText>();
    same_values_same_list::<i64>();
    Ok(())
}

#[test]
fn one_text(rt: HostRuntime) -> Result<(), Fail> {
    let alloc = rt.alloc();
    let a = text(alloc, b"a")?;
    let one = Set::one(alloc, &a)?;
    assert!(rt; is_texts(&one, b"a", Some(b"a\0")));
    assert!(rt; one.single(alloc)?.is_some());
    Ok(())
}
