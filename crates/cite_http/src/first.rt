// The first thing in a rest.
ghost use Rattle.cite_http.specs.First.{IsFirst};
ghost use Rattle.cite_http.specs.Waiting.{Searched};

use crate::found::{Found, Progress, UNSEARCHED};
use crate::heads::line_ends;
use crate::reading::find;

/// How many bytes of line ends stand in front, and what stands behind them.
#[derive(Clone, Copy, Drop)]
pub struct First {
    pub skipped: usize,
    pub found: Found,
}

/// The first thing in a rest, of which so much was searched in vain. Where line ends stand in front, nothing behind them
/// was searched.
pub fn find_first(rest: &[u8], progress: Progress) -> First
    requires { Searched rest.now progress }
    ensures { IsFirst rest.now result }
{
    let skipped = line_ends(rest);
    if skipped == 0 {
        return First {
            skipped: 0,
            found: find(rest, progress),
        };
    }
    First {
        skipped,
        found: find(&rest[skipped..], UNSEARCHED),
    }
}
