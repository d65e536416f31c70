// A sink whose bytes lie in memory.
ghost use Rattle.std.specs.Prelude.{◌≡◌, ◌<◌, ◌≤◌, take, length, Some, Contains, IsErr, IsOkAnd, IfOk, OnOk, OnErr};
ghost use Rattle.std.specs.Io.KnownBytes.{Keeps};
ghost use Rattle.cite_ports.specs.Ports.{Holds, Rose, next_count};
ghost use Rattle.cite_ports.specs.MemoryPorts.{new_sink, sink_that_took, sink_that_failed};

use crate::failed::{Failed, NoMemory};
use crate::sinks::Sink;
use std::alloc::Global;
use std::marker::Model;

/// Keeps what is put into it, and fails where it is told to, or where no memory is left.
#[derive(Debug, Drop)]
pub struct MemorySink {
    bytes: Vec<u8>,
    fails: Vec<u64>,
    calls: u64,
    faults: u64,
}

impl Model for MemorySink {
    ghost use Rattle.cite_ports.specs.MemoryPorts.{SinkState};

    ghost Value = { SinkState };

    ghost view = { λ s. record { bytes = s.bytes.items; fails = s.fails.items; calls = s.calls; faults = s.faults } };
}

impl MemorySink {
    /// An empty sink that fails at the calls whose numbers, counted from 1, are in `fails`. It takes no
    /// memory before the first byte is put, so it never answers `NoMemory`.
    pub fn make(alloc: Global, fails: Vec<u64>) -> Result<MemorySink, NoMemory>
        ensures { IsOkAnd result (λ s. s ≡ new_sink fails.items) }
    {
        Ok(MemorySink {
            bytes: Vec::new(alloc),
            fails,
            calls: 0,
            faults: 0,
        })
    }

    /// What was written.
    pub fn bytes(&self) -> &[u8]
        ensures { result.now ≡ self.now.bytes }
    {
        &self.bytes
    }
}

impl Sink for MemorySink {
    ghost written = { λ s. Some s.bytes };

    ghost faults_of = { λ s. s.faults };

    /// Takes the whole piece. Fails at each call that it was told to fail at, and at another only where no
    /// memory is left for the piece. Costs a pass over the list of failing calls and over the piece, and
    /// now and then over what was written, where it grows.
    fn put(&mut self, piece: &[u8]) -> Result<usize, Failed>
        requires { 0 < length piece.now }
        ensures some { IfOk result (λ n. 0 < n) }
        ensures room { IfOk result (λ n. n ≤ length piece.now) }
        ensures puts { IfOk result (λ n. Holds (take n piece.now) (Some self.old.bytes) (Some self.new.bytes)) }
        ensures kept { OnErr result (Keeps (Some self.old.bytes) (Some self.new.bytes)) }
        ensures never_falls { self.old.faults ≤ self.new.faults }
        ensures cause { OnErr result (Rose self.old.faults self.new.faults) }

        ensures fails { Contains self.old.fails (next_count self.old.calls) → IsErr result }
        ensures whole { IfOk result (λ n. n ≡ length piece.now) }
        ensures taken { OnOk result (self.new ≡ sink_that_took piece.now self.old) }
        ensures failed { OnErr result (self.new ≡ sink_that_failed self.old) }
    {
        self.calls = self.calls.saturating_add(1);
        if self.fails.contains(&self.calls) || self.bytes.extend_from_slice(piece).is_err() {
            self.faults = self.faults.saturating_add(1);
            return Err(Failed);
        }
        Ok(piece.len())
    }

    fn faults(&self) -> u64 {
        self.faults
    }
}
