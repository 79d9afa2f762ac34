// A source in memory, whose calls fail where a list says so.
ghost use Rattle.std.specs.Prelude.{◌≡◌, ◌+◌, ◌-◌, ◌^◌, ◌≤◌, min, ◌↔◌, length, take, Some, IsErr, IfOk, Contains, is_ok, if◌then◌else◌};
ghost use Rattle.std.specs.Io.{ReadsAtMost};
ghost use Rattle.std.specs.Io.KnownBytes.{ReadConsumes};
ghost use Rattle.gate_base.specs.Faults.{HasCause};

use crate::failed::Failed;
use crate::source::Source;
use gate_base::{FaultCount, OutOfMemory};
use std::alloc::Global;
use std::marker::Model;

/// Gives its octets, at most a piece a call. The calls whose numbers, from 0, are listed fail.
#[derive(Drop)]
pub struct MemorySource {
    bytes: Vec<u8>,
    at: usize,
    piece: usize,
    fails: Vec<u64>,
    calls: u64,
    faults: FaultCount,
}

impl Model for MemorySource {
    ghost use Rattle.std.specs.Prelude.{◌≤◌, length, drop};
    ghost use Rattle.gate_io.specs.Memory.{SourceState};

    ghost Value = { SourceState };

    ghost view = { λ s. record { left = drop s.at s.bytes.items; piece = s.piece; fails = s.fails.items; calls = s.calls; faults = s.faults } };

    ghost invariant = { λ s. (s.at ≤ length s.bytes.items) × (1 ≤ s.piece) };
}

impl MemorySource {
    /// A source of these octets. `fails` lists the numbers of the calls that fail.
    pub fn new(
        alloc: Global,
        bytes: &[u8],
        piece: usize,
        fails: &[u64],
    ) -> Result<Self, OutOfMemory>
        requires { 1 ≤ piece }
        ensures { IfOk result (λ s. s ≡ record { left = bytes.now; piece = piece; fails = fails.now; calls = 0; faults = 0 }) }
    {
        Ok(MemorySource {
            bytes: bytes.to_vec(alloc)?,
            at: 0,
            piece,
            fails: fails.to_vec(alloc)?,
            calls: 0,
            faults: FaultCount::new(),
        })
    }
}

/// Copies as many of the next octets as fit, and at most a piece.
fn copy_front(from: &[u8], into: &mut [u8], piece: usize) -> usize
    ensures count { result ≡ min (min piece (length into.old)) (length from.now) }
    ensures copied { take result into.new ≡ take result from.now }
{
    let count = piece.min(into.len()).min(from.len());
    into[..count].copy_from_slice(&from[..count]);
    count
}

impl Source for MemorySource {
    ghost left = { λ s. Some s.left };

    ghost faults = { λ s. s.faults };

    /// Takes the next octets. Only the listed calls fail, and each of them is one fault more.
    fn take(&mut self, into: &mut [u8]) -> Result<usize, Failed>
        ensures within { ReadsAtMost result into.new }
        ensures taken { ReadConsumes (Some self.old.left) (Some self.new.left) result into.new }
        ensures cause { HasCause self.old.faults self.new.faults result }

        ensures listed { IsErr result ↔ Contains self.old.fails self.old.calls }
        ensures amount { IfOk result (λ n. n ≡ min (min self.old.piece (length into.old)) (length self.old.left)) }
        ensures faults { self.new.faults ≡ (if is_ok result then self.old.faults else min (self.old.faults + 1) (2 ^ 64 - 1)) }
        ensures counted { self.new ≡ record self.old { left = self.new.left; calls = min (self.old.calls + 1) (2 ^ 64 - 1); faults = self.new.faults } }
    {
        let number = self.calls;
        self.calls = self.calls.saturating_add(1);
        if self.fails.contains(&number) {
            self.faults.raise();
            return Err(Failed);
        }
        let count = copy_front(&self.bytes[self.at..], into, self.piece);
        self.at += count;
        Ok(count)
    }
}
