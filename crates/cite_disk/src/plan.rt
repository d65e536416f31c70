// Which calls of a disk in memory fail, and how many have.
ghost use Rattle.std.specs.Prelude.{◌≡◌, ◌≤◌, ◌<◌, ◌↔◌, ◌⊎◌, ◌+◌, ◌^◌, ◌-◌, IsTrue, Contains};
ghost use Rattle.std.specs.Bool.{OnTrue, OnFalse};
ghost use Rattle.cite_disk.specs.Device.{RoseBy};

/// The numbers of the calls that are to fail, counted from 1, and the number of the last one that isn't.
#[derive(Debug, Drop)]
pub struct Plan {
    pub fails: Vec<u64>,
    pub stop_after: u64,
    pub calls: u64,
    pub faults: u64,
}

impl Plan {
    ghost use Rattle.cite_ports.specs.Ports.{next_count};
    ghost use Rattle.cite_disk.specs.Plan.{IsToFail};

    /// Counts a call and says whether it is to fail. A failure is counted too.
    pub fn call(&mut self) -> bool
        ensures answer { IsTrue result ↔ IsToFail self.old }
        ensures kept { (self.new.fails ≡ self.old.fails) × (self.new.stop_after ≡ self.old.stop_after) }
        ensures calls { self.new.calls ≡ next_count self.old.calls }
        ensures later { self.old.faults ≤ self.new.faults }
        ensures faults { OnTrue result (self.new.faults ≡ next_count self.old.faults) }
        ensures no_fault { OnFalse result (self.new.faults ≡ self.old.faults) }
    {
        self.calls = self.calls.saturating_add(1);
        let fails = self.calls > self.stop_after || self.fails.contains(&self.calls);
        if fails {
            self.fault();
        }
        fails
    }

    /// Counts a failure.
    pub fn fault(&mut self)
        ensures kept { (self.new.fails ≡ self.old.fails) × (self.new.stop_after ≡ self.old.stop_after) × (self.new.calls ≡ self.old.calls) }
        ensures later { self.old.faults ≤ self.new.faults }
        ensures faults { self.new.faults ≡ next_count self.old.faults }
    {
        self.faults = self.faults.saturating_add(1);
    }
}
