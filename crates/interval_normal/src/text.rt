// Texts as points, and the texts that begin with given bytes.
ghost use Rattle.std.specs.Prelude.{◌≡◌, IfOk, IsTrue, List as Listed, ℕ, [], refl, nat_eq};
ghost use Rattle.std.specs.List.{starts_with};
ghost use Rattle.cite_schema.specs.Values.{is_text, text_cmp};
ghost use Rattle.interval_normal.specs.Points.{text_after, text_total, text_exact, text_least, text_next};
ghost use Rattle.interval_normal.specs.Spans.{has};

use crate::point::Point;
use crate::set::Set;
use cite_schema::{ByteText, List, NoMemory};
use std::alloc::Global;
use std::cmp::Ordering;

impl Point for ByteText {
    ghost valid = { λ t. IsTrue (is_text t) };

    ghost cmp = { text_cmp };

    ghost bottom = { [] };

    ghost next = { text_after };

    fn compare(&self, other: &ByteText) -> Ordering {
        let left = self.bytes();
        let right = other.bytes();
        left.cmp(right)
    }

    fn least(alloc: Global) -> Result<ByteText, NoMemory> {
        Ok(List::new(alloc))
    }

    fn after(&self, _alloc: Global) -> Result<Option<ByteText>, NoMemory> {
        let mut text = self.copy()?;
        text.push(0)?;
        Ok(Some(text))
    }

    fn copy(&self, _alloc: Global) -> Result<ByteText, NoMemory> {
        let _bytes = self.bytes();
        self.copy()
    }

    ghost total = { text_total };

    ghost exact = { text_exact };

    ghost next_is = { text_next };

    ghost bottom_valid = { refl };

    ghost from_bottom = { text_least };
}

/// The texts that begin with the prefix: one span, from the prefix itself up to the least text above all of them. That
/// is the prefix without its trailing bytes 255, its last remaining byte raised by one; where nothing remains there is
/// no upper end. It takes time and memory linear in the length of the prefix.
pub fn prefix_set(alloc: Global, prefix: &ByteText) -> Result<Set<ByteText>, NoMemory>
    ensures { IfOk result (λ r. (x : Listed ℕ) → IsTrue (is_text x) → has text_cmp r x ≡ starts_with nat_eq x prefix.now) }
{
    let from = Set::from(alloc, prefix)?;
    match prefix_end(alloc, prefix.bytes())? {
        None => Ok(from),
        Some(end) => {
            let below = Set::below(alloc, &end)?;
            let both = from.intersect(alloc, &below)?;
            Ok(both)
        }
    }
}

ghost use Rattle.interval_normal.specs.PrefixEnds.{prefix_end};

// The least text above all that begin with the prefix.
fn prefix_end(alloc: Global, prefix: &[u8]) -> Result<Option<ByteText>, NoMemory>
    ensures { IfOk result (λ end. end ≡ prefix_end prefix.now) }
{
    let mut front = prefix;
    while let [kept @ .., last] = front {
        if *last < u8::MAX {
            let mut end = ByteText::from_slice(alloc, kept)?;
            end.push(*last + 1)?;
            return Ok(Some(end));
        }
        front = kept;
    }
    Ok(None)
}
