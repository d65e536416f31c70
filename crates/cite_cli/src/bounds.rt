// The numbers that a `select` asks for.
ghost use Rattle.std.specs.Prelude.{MatchOption};
ghost use Rattle.cite_cli.specs.declared.bounds.Bounds.{Bounds as Read};
ghost use Rattle.cite_cli.specs.Select.{AreBounds};

use cite_schema::read_int;

/// The numbers from `low` up to below `high`, or all from `low` on where there is no `high`.
#[derive(Clone, Copy, Debug, PartialEq, Eq)]
pub struct Bounds {
    pub low: i64,
    pub high: Option<i64>,
}

impl Bounds {
    /// The bounds that two words say: a number text, and a number text or `none`. `None` exactly where they say none.
    pub fn read(low: &[u8], high: &[u8]) -> Option<Bounds>
        ensures { MatchOption result ((bounds : Read) → AreBounds low.now high.now bounds → ⊥) (λ bounds. AreBounds low.now high.now bounds) }
    {
        let low = read_int(low)?;
        if high == b"none".as_slice() {
            return Some(Bounds { low, high: None });
        }
        let high = Some(read_int(high)?);
        Some(Bounds { low, high })
    }
}
