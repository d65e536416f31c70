// Spans of numbers under a scale.
ghost use Rattle.std.specs.Prelude.{◌≡◌, Some, IfOk};
ghost use Rattle.std.specs.List.{flat_map};
ghost use Rattle.std.specs.Option.{option_to_list};
ghost use Rattle.migration.specs.Rows.{image};
ghost use Rattle.migration.specs.Sets.{is_one, one_span, low_image, high_image, span_image};

use crate::numbers::{image, scaled};
use cite_schema::{List, NoMemory};
use interval_normal::Span;
use std::alloc::Global;

/// Whether the span holds its low end alone.
pub fn is_one(span: &Span<i64>) -> bool
    ensures { result ≡ is_one span.now }
{
    match span.high {
        Some(high) => span.low < i64::MAX && span.low + 1 == high,
        None => span.low == i64::MAX,
    }
}

// The image of a low end: the least number stays, and what falls below it becomes it. None where it is above the range.
fn low_image(by: i64, plus: i64, low: i64) -> Option<i64>
    ensures { result ≡ low_image by plus low }
{
    if low == i64::MIN {
        return Some(low);
    }
    let image = image(by, plus, low);
    if image > i64::MAX as i128 {
        return None;
    }
    if image < i64::MIN as i128 {
        return Some(i64::MIN);
    }
    Some(image as i64)
}

// The image of an upper end: one above the range becomes absent. None where it is at the least number or below.
fn high_image(by: i64, plus: i64, high: Option<i64>) -> Option<Option<i64>>
    ensures { result ≡ high_image by plus high }
{
    let Some(high) = high else {
        return Some(None);
    };
    let image = image(by, plus, high);
    if image > i64::MAX as i128 {
        return Some(None);
    }
    if image <= i64::MIN as i128 {
        return None;
    }
    Some(Some(image as i64))
}

// The span of one number.
fn one_span(number: &i64) -> Span<i64>
    ensures { Some result ≡ one_span number.now }
{
    let low = *number;
    if low == i64::MAX {
        return Span { low, high: None };
    }
    let high = Some(low + 1);
    Span { low, high }
}

// The span of the image of one number, where that is in the range.
fn one_image(by: i64, plus: i64, number: i64) -> Option<Span<i64>>
    ensures { result ≡ one_span (image by plus number) }
{
    match scaled(by, plus, number) {
        Some(image) => Some(one_span(&image)),
        None => None,
    }
}

// The image of a span.
fn span_image(by: i64, plus: i64, span: &Span<i64>) -> Option<Span<i64>>
    ensures { result ≡ span_image by plus span.now }
{
    if is_one(span) {
        return one_image(by, plus, span.low);
    }
    let low = low_image(by, plus, span.low)?;
    let high = high_image(by, plus, span.high)?;
    Some(Span { low, high })
}

/// The images of the spans, one after the other.
pub fn span_images(
    alloc: Global,
    by: i64,
    plus: i64,
    spans: &[Span<i64>],
) -> Result<List<Span<i64>>, NoMemory>
    ensures { IfOk result (λ images. images ≡ flat_map (λ s. option_to_list (span_image by plus s)) spans.now) }
{
    let mut images = List::new(alloc);
    for span in spans {
        if let Some(image) = span_image(by, plus, span) {
            images.push(image)?;
        }
    }
    Ok(images)
}
