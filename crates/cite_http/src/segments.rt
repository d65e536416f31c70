// The segments of a path.
ghost use Rattle.std.specs.Prelude.{◌≡◌, ℕ, suc};
ghost use Rattle.cite_http.specs.Parts.{parts};
ghost use Rattle.cite_http.specs.Asks.{segment_at};

use crate::cuts::cut_at;

/// The segments of a path behind its first one, as far as a route has them; each is empty where there are not so many.
#[derive(Clone, Copy, Drop)]
pub struct Parameters<'a> {
    pub first: &'a [u8],
    pub second: &'a [u8],
    pub third: &'a [u8],
}

fn front(path: &[u8]) -> &[u8]
    ensures { result.now ≡ segment_at (parts 47 path.now) 0 }
{
    cut_at(path, b'/').first
}

// What stands behind the first slash, or nothing.
fn behind_slash(path: &[u8]) -> &[u8]
    ensures { (n : ℕ) → segment_at (parts 47 result.now) n ≡ segment_at (parts 47 path.now) (suc n) }
{
    match cut_at(path, b'/').rest {
        Some(rest) => rest,
        None => &[],
    }
}

/// The parameters of a path, of which the first slash is taken off.
pub fn parameters_of(path: &[u8]) -> Parameters
    ensures first { result.first.now ≡ segment_at (parts 47 path.now) 1 }
    ensures second { result.second.now ≡ segment_at (parts 47 path.now) 2 }
    ensures third { result.third.now ≡ segment_at (parts 47 path.now) 3 }
{
    let one = behind_slash(path);
    let two = behind_slash(one);
    let three = behind_slash(two);
    Parameters {
        first: front(one),
        second: front(two),
        third: front(three),
    }
}
