// A clock whose moments lie in memory.
ghost use Rattle.std.specs.Prelude.{◌≡◌, ◌<◌, length, Some, IsOkAnd};
ghost use Rattle.cite_ports.specs.Ports.{Shows};
ghost use Rattle.cite_ports.specs.MemoryPorts.{new_clock, next_moment, clock_that_gave};

use crate::clocks::Clock;
use crate::failed::NoMemory;
use crate::given::Given;
use std::marker::Model;

/// Gives the moments of a vector in order, and then the last one again and again.
#[derive(Drop)]
pub struct MemoryClock {
    moments: Vec<u64>,
    // the place of the moment that comes next
    place: usize,
    given: Given,
}

impl Model for MemoryClock {
    ghost use Rattle.std.specs.Prelude.{◌≡◌, ◌<◌, ◌-◌, length, min};
    ghost use Rattle.cite_ports.specs.MemoryPorts.{ClockState};

    ghost Value = { ClockState };

    ghost view = { λ c. record { moments = c.moments.items; given = c.given.moments } };

    ghost invariant = { λ c. (c.place < length c.moments.items) × (c.place ≡ min (length c.given.moments) (length c.moments.items - 1)) };
}

impl MemoryClock {
    /// A clock that gives `moments`. It takes no memory of its own, so it never answers `NoMemory`.
    pub fn make(moments: Vec<u64>) -> Result<MemoryClock, NoMemory>
        requires { 0 < length moments.items }
        ensures { IsOkAnd result (λ c. c ≡ new_clock moments.items) }
    {
        Ok(MemoryClock {
            moments,
            place: 0,
            given: Given::nothing(),
        })
    }
}

impl Clock for MemoryClock {
    ghost given = { λ c. Some c.given };

    fn now(&mut self) -> u64
        ensures shows { Shows result (Some self.old.given) (Some self.new.given) }

        ensures moment { result ≡ next_moment self.old }
        ensures given { self.new ≡ clock_that_gave result self.old }
    {
        let moment = self.moments[self.place];
        if self.place + 1 < self.moments.len() {
            self.place += 1;
        }
        self.given = self.given.then(&moment);
        moment
    }
}
