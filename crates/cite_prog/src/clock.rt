// The clock of the system. It tells nothing of the moments that it gives: the trusted edge.
ghost use Rattle.std.specs.Prelude.{None};

use cite_ports::Clock;
use std::time::{self, SystemTime};

/// The clock of the system. Where the system tells no time, or one before 1970, the moment is the last `u64`, which has
/// no stamp: what is written with a moment is then refused, and nothing is dated falsely.
#[derive(Drop)]
pub struct SystemClock<R: time::Clock + Drop> {
    rt: R,
}

impl<R: time::Clock + Drop> SystemClock<R> {
    /// The clock that the runtime has.
    pub fn new(rt: R) -> SystemClock<R> {
        SystemClock { rt }
    }
}

impl<R: time::Clock + Drop> Clock for SystemClock<R> {
    ghost given = { λ _. None };

    fn now(&mut self) -> u64 {
        let Ok(now) = SystemTime::now(&self.rt) else {
            return u64::MAX;
        };
        match now.duration_since(time::UNIX_EPOCH) {
            Ok(since) => since.as_secs(),
            Err(_) => u64::MAX,
        }
    }
}
