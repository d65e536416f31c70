// What a step makes of the set of a column.
ghost use Rattle.std.specs.Prelude.{ℤ, pos, int_lt, ◌≡◌, ◌&&◌, IfOk, IsTrue, if◌then◌else◌};
ghost use Rattle.std.specs.Ordering.{int_cmp, is_eq};
ghost use Rattle.cite_schema.specs.Values.{value_cmp, is_value_of, is_number, printed};
ghost use Rattle.cite_schema.specs.declared.value.Value.{Value as Cell};
ghost use Rattle.cite_schema.specs.declared.value.Value.TheVariants.{Int};
ghost use Rattle.interval_normal.specs.Spans.{has};
ghost use Rattle.subset_query.specs.Forms.{in_set};
ghost use Rattle.subset_query.specs.Printed.{is_whole};
ghost use Rattle.subset_query.specs.Settling.{own_kind};
ghost use Rattle.migration.specs.Sets.{is_full, is_in_image, only_number};
ghost use Rattle.migration.specs.Carrying.{IsRetyped, IsSetAfter, Changes};

use crate::spans::{is_one, span_images};
use cite_schema::{ByteText, NoMemory, Step, Value, print_value};
use interval_normal::{Point, Set, Span};
use std::alloc::Global;
use subset_query::ColumnSet;

/// What a step that scales, recodes or retypes a column makes of the column's set, if it makes a set of it.
pub fn set_after(alloc: Global, step: &Step, set: &ColumnSet) -> Result<Option<ColumnSet>, NoMemory>
    requires { Changes step.now set.now }
    ensures { IfOk result (λ after. IsSetAfter step.now set.now after) }
{
    match (step, set) {
        (Step::Scale { by, plus, .. }, ColumnSet::Ints(numbers)) => {
            let scaled = scaled_set(alloc, *by, *plus, numbers)?;
            Ok(Some(ColumnSet::Ints(scaled)))
        }
        (Step::Recode { old, new, .. }, _) => {
            let recoded = recoded_set(alloc, old, new, set)?;
            Ok(Some(recoded))
        }
        (Step::RetypeToText { .. }, ColumnSet::Ints(numbers)) => {
            match retyped_set(alloc, numbers)? {
                Some(texts) => Ok(Some(ColumnSet::Texts(texts))),
                None => Ok(None),
            }
        }
        _ => unreachable!(),
    }
}

// The images of the numbers of a set, span by span: the images of spans in the normal form are in it again.
#[tactic(auto, using(crate::proofs::ScaledSpans::scaled_canonical))]
fn scaled_set(alloc: Global, by: i64, plus: i64, numbers: &Set<i64>) -> Result<Set<i64>, NoMemory>
    requires { IsTrue (int_lt (pos 0) by) }
    ensures { IfOk result (λ set. (z : ℤ) → IsTrue (is_number z) → has int_cmp set z ≡ is_in_image by plus numbers.now (Int z)) }
{
    let images = span_images(alloc, by, plus, numbers.spans().as_slice())?;
    Ok(Set::from_spans(images))
}

// The set in which `new` is exactly where `old` was in it, and all else is as it was.
fn recoded_set(
    alloc: Global,
    old: &Value,
    new: &Value,
    set: &ColumnSet,
) -> Result<ColumnSet, NoMemory>
    requires { IsTrue (is_value_of (own_kind set.now) old.now && is_value_of (own_kind set.now) new.now) }
    ensures kind { IfOk result (λ recoded. own_kind recoded ≡ own_kind set.now) }
    ensures values { IfOk result (λ recoded. (v : Cell) → IsTrue (is_value_of (own_kind set.now) v) → in_set recoded v ≡ (if is_eq (value_cmp v new.now) then in_set set.now old.now else in_set set.now v)) }
{
    match (set, old, new) {
        (ColumnSet::Ints(numbers), Value::Int(old), Value::Int(new)) => {
            let recoded = recoded_points(alloc, numbers, old, new)?;
            Ok(ColumnSet::Ints(recoded))
        }
        (ColumnSet::Texts(texts), Value::Text(old), Value::Text(new)) => {
            let recoded = recoded_points(alloc, texts, old, new)?;
            Ok(ColumnSet::Texts(recoded))
        }
        _ => unreachable!(),
    }
}

// The points, where the new one is in the set exactly where the old one was.
fn recoded_points<P: Point>(
    alloc: Global,
    set: &Set<P>,
    old: &P,
    new: &P,
) -> Result<Set<P>, NoMemory>
    ensures { IfOk result (λ r. (x : P) → P.valid x → has P.cmp r x ≡ (if is_eq (P.cmp x new.now) then has P.cmp set.now old.now else has P.cmp set.now x)) }
{
    let one = Set::one(alloc, new)?;
    if set.has(old) {
        let with = set.union(alloc, &one)?;
        Ok(with)
    } else {
        let others = one.complement(alloc)?;
        let without = set.intersect(alloc, &others)?;
        Ok(without)
    }
}

// The texts of the numbers of a set: all of all, or one of one.
fn retyped_set(alloc: Global, numbers: &Set<i64>) -> Result<Option<Set<ByteText>>, NoMemory>
    ensures { IfOk result (λ texts. IsRetyped numbers.now texts) }
{
    if is_whole(alloc, numbers)? {
        let all = Set::full(alloc)?;
        return Ok(Some(all));
    }
    match only_number(numbers.spans().as_slice()) {
        Some(number) => {
            let text = text_of(alloc, number)?;
            let one = Set::one(alloc, &text)?;
            Ok(Some(one))
        }
        None => Ok(None),
    }
}

// The one number of the spans, if they hold one alone.
fn only_number(spans: &[Span<i64>]) -> Option<i64>
    ensures { result ≡ only_number spans.now }
{
    match spans {
        [span] if is_one(span) => Some(span.low),
        _ => None,
    }
}

// The text that a number prints.
fn text_of(alloc: Global, number: i64) -> Result<ByteText, NoMemory>
    ensures { IfOk result (λ text. text ≡ printed (Int number)) }
{
    print_value(alloc, &Value::Int(number))
}

/// Whether the set holds every value of its kind.
pub fn is_full(alloc: Global, set: &ColumnSet) -> Result<bool, NoMemory>
    ensures { IfOk result (λ full. full ≡ is_full set.now) }
{
    match set {
        ColumnSet::Ints(numbers) => is_whole(alloc, numbers),
        ColumnSet::Texts(texts) => is_whole(alloc, texts),
    }
}

fn is_whole<P: Point>(alloc: Global, set: &Set<P>) -> Result<bool, NoMemory>
    ensures { IfOk result (λ whole. whole ≡ is_whole P.cmp P.bottom set.now) }
{
    let _spans = set.spans();
    let full = set.is_full(alloc)?;
    Ok(full)
}
