// A source whose bytes lie in memory.
ghost use Rattle.std.specs.Prelude.{◌≡◌, ◌<◌, ◌≤◌, ◌↔◌, min, drop, length, Some, Contains, IsErr, IsOkAnd, IfOk, OnErr};
ghost use Rattle.std.specs.Io.KnownBytes.{Keeps};
ghost use Rattle.cite_ports.specs.Ports.{Gives, EndsExactly, Rose, next_count};
ghost use Rattle.cite_ports.specs.MemoryPorts.{new_source, source_that_gave, source_that_failed};

use crate::failed::{Failed, NoMemory};
use crate::sources::Source;
use std::marker::Model;

/// Gives the bytes of a vector, at most so many at each call, and fails where it is told to.
#[derive(Debug, Drop)]
pub struct MemorySource {
    bytes: Vec<u8>,
    // how many of the bytes were given
    given: usize,
    piece: usize,
    fails: Vec<u64>,
    calls: u64,
    faults: u64,
}

impl Model for MemorySource {
    ghost use Rattle.std.specs.Prelude.{◌<◌, ◌≤◌, drop, length};
    ghost use Rattle.cite_ports.specs.MemoryPorts.{SourceState};

    ghost Value = { SourceState };

    ghost view = { λ s. record { rest = drop s.given s.bytes.items; piece = s.piece; fails = s.fails.items; calls = s.calls; faults = s.faults } };

    ghost invariant = { λ s. (s.given ≤ length s.bytes.items) × (0 < s.piece) };
}

impl MemorySource {
    /// A source that gives `bytes`, at most `piece` of them at each call, and fails at the calls whose
    /// numbers, counted from 1, are in `fails`. It takes no memory of its own, so it never answers
    /// `NoMemory`.
    pub fn make(bytes: Vec<u8>, piece: usize, fails: Vec<u64>) -> Result<MemorySource, NoMemory>
        requires { 0 < piece }
        ensures { IsOkAnd result (λ s. s ≡ new_source bytes.items piece fails.items) }
    {
        Ok(MemorySource {
            bytes,
            given: 0,
            piece,
            fails,
            calls: 0,
            faults: 0,
        })
    }
}

impl Source for MemorySource {
    ghost left = { λ s. Some s.rest };

    ghost faults_of = { λ s. s.faults };

    /// Fails exactly at the calls that it was told to fail at, and else gives as many bytes as there are,
    /// have room in `into` and belong to a piece. Costs a pass over the list of failing calls and over the
    /// bytes given.
    fn take(&mut self, into: &mut [u8]) -> Result<usize, Failed>
        requires { 0 < length into.old }
        ensures room { IfOk result (λ n. n ≤ length into.new) }
        ensures gives { IfOk result (λ n. Gives n into.new (Some self.old.rest) (Some self.new.rest)) }
        ensures end { IfOk result (λ n. EndsExactly n (Some self.old.rest)) }
        ensures kept { OnErr result (Keeps (Some self.old.rest) (Some self.new.rest)) }
        ensures never_falls { self.old.faults ≤ self.new.faults }
        ensures cause { OnErr result (Rose self.old.faults self.new.faults) }

        ensures fails { IsErr result ↔ Contains self.old.fails (next_count self.old.calls) }
        ensures most { IfOk result (λ n. n ≡ min (min (length into.old) self.old.piece) (length self.old.rest)) }
        ensures given { IfOk result (λ n. self.new ≡ source_that_gave n self.old) }
        ensures failed { OnErr result (self.new ≡ source_that_failed self.old) }
    {
        self.calls = self.calls.saturating_add(1);
        if self.fails.contains(&self.calls) {
            self.faults = self.faults.saturating_add(1);
            return Err(Failed);
        }
        let rest = &self.bytes[self.given..];
        let count = into.len().min(self.piece).min(rest.len());
        into[..count].copy_from_slice(&rest[..count]);
        self.given += count;
        Ok(count)
    }

    fn faults(&self) -> u64 {
        self.faults
    }
}
