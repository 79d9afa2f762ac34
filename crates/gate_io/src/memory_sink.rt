// A sink in memory, whose calls fail where a list says so.
ghost use Rattle.std.specs.Prelude.{◌≡◌, ◌+◌, ◌-◌, ◌^◌, ◌≤◌, min, ◌↔◌, [], ◌++◌, length, take, Some, None, IsOk, IfOk, is_ok, if◌then◌else◌};
ghost use Rattle.gate_base.specs.Faults.{HasCause};
ghost use Rattle.gate_io.specs.Flow.{Gives};
ghost use Rattle.gate_io.specs.Memory.{listed_at, cut_of, kept_of};

use crate::failed::Failed;
use crate::sink::Sink;
use gate_base::{FaultCount, OutOfMemory};
use std::alloc::Global;
use std::marker::Model;

/// Keeps what it is given, as far as it has room. The listed calls keep at most the listed number of octets, and fail.
#[derive(Drop)]
pub struct MemorySink {
    bytes: Vec<u8>,
    room: usize,
    fails: Vec<(u64, usize)>,
    calls: u64,
    faults: FaultCount,
}

impl Model for MemorySink {
    ghost use Rattle.std.specs.Prelude.{◌≤◌, vec_capacity, vec_len};
    ghost use Rattle.gate_io.specs.Memory.{SinkState};

    ghost Value = { SinkState };

    ghost view = { λ s. record { octets = s.bytes.items; room = s.room; fails = s.fails.items; calls = s.calls; faults = s.faults } };

    ghost invariant = { λ s. (vec_len s.bytes ≤ s.room) × (s.room ≤ vec_capacity s.bytes) };
}

impl MemorySink {
    /// An empty sink with room for `room` octets, all reserved here. A pair of `fails` has the number of a call,
    /// from 0, and how many octets it keeps; of several pairs for one call the first decides.
    pub fn new(alloc: Global, room: usize, fails: &[(u64, usize)]) -> Result<Self, OutOfMemory>
        ensures { IfOk result (λ s. s ≡ record { octets = []; room = room; fails = fails.now; calls = 0; faults = 0 }) }
    {
        Ok(MemorySink {
            bytes: Vec::with_capacity(alloc, room)?,
            room,
            fails: fails.to_vec(alloc)?,
            calls: 0,
            faults: FaultCount::new(),
        })
    }

    /// The octets that were given.
    pub fn octets(&self) -> &[u8]
        ensures { result.now ≡ self.now.octets }
    {
        &self.bytes
    }
}

/// What is listed for the call of this number, by the first pair that has it.
fn cut_at(fails: &[(u64, usize)], number: u64) -> Option<usize>
    ensures { result ≡ listed_at fails.now number }
{
    fails.iter().find(|p| p.0 == number).map(|p| p.1)
}

impl Sink for MemorySink {
    ghost given = { λ s. Some s.octets };

    ghost faults = { λ s. s.faults };

    ghost kin = { λ _ _. Unit {0} };

    /// Keeps the octets. It fails exactly where the call is listed or the octets do not fit; each such call
    /// is one fault more.
    fn give(&mut self, from: &[u8]) -> Result<(), Failed>
        ensures given { Gives (Some self.old.octets) (Some self.new.octets) result from.now }
        ensures cause { HasCause self.old.faults self.new.faults result }

        ensures kept { self.new.octets ≡ self.old.octets ++ take (kept_of self.old (length from.now)) from.now }
        ensures ok { IsOk result ↔ ((cut_of self.old ≡ None) × (length self.old.octets + length from.now ≤ self.old.room)) }
        ensures faults { self.new.faults ≡ (if is_ok result then self.old.faults else min (self.old.faults + 1) (2 ^ 64 - 1)) }
        ensures counted { self.new ≡ record self.old { octets = self.new.octets; calls = min (self.old.calls + 1) (2 ^ 64 - 1); faults = self.new.faults } }
    {
        let number = self.calls;
        self.calls = self.calls.saturating_add(1);
        let cut = cut_at(&self.fails, number);
        let asked = cut.unwrap_or(from.len()).min(from.len());
        let kept = asked.min(self.room - self.bytes.len());
        let appended = self.bytes.extend_from_slice(&from[..kept]).is_ok();
        if appended && cut.is_none() && kept == from.len() {
            return Ok(());
        }
        self.faults.raise();
        Err(Failed)
    }

    ghost kin_same = { λ s. tt };

    ghost kin_after = { λ a b c p q. tt };
}
