// A link in memory, which answers by a script.
ghost use Rattle.std.specs.Prelude.{◌≡◌, ◌+◌, ◌-◌, ◌^◌, ◌≤◌, ◌<◌, min, ◌↔◌, [], ◌∷◌, ◌++◌, ℕ, List, length, take, Option, Some, slice_get, Result, IsOk, IfOk, OnOk, Contains, is_ok, if◌then◌else◌};
ghost use Rattle.gate_base.specs.Faults.{HasCause};
ghost use Rattle.gate_io.specs.Links.{LinkLog, Receives, Sends, IsWithin, Ends};
ghost use Rattle.gate_io.specs.LinkScript.{LinkState, after_first, answer_to, counted, cut_length, first_answer, first_octets, first_size, log_of, octets_of, opened, size_of};

use crate::failed::Failed;
use crate::link::Link;
use crate::link_entry::LinkEntry;
use crate::received::Received;
use crate::sent_datagram::SentDatagram;
use gate_base::{FaultCount, OutOfMemory};
use std::alloc::Global;
use std::marker::Model;

/// Answers its entries in turn, and then that it has ended. It keeps what it is given to send.
#[derive(Drop)]
pub struct MemoryLink {
    script: Vec<LinkEntry>,
    at: usize,
    ended: bool,
    kept: Vec<SentDatagram>,
    room: usize,
    fails: Vec<u64>,
    sends: u64,
    faults: FaultCount,
}

impl Model for MemoryLink {
    ghost use Rattle.std.specs.Prelude.{◌≤◌, length, take, drop, vec_capacity, vec_len};
    ghost use Rattle.gate_io.specs.LinkScript.{LinkState};

    ghost Value = { LinkState };

    ghost view = { λ s. record {
      passed = take s.at s.script.items;
      left = drop s.at s.script.items;
      ended = s.ended;
      sent = s.kept.items;
      room = s.room;
      fails = s.fails.items;
      sends = s.sends;
      faults = s.faults;
    } };

    ghost invariant = { λ s. (s.at ≤ length s.script.items) × (vec_len s.kept ≤ s.room) × (s.room ≤ vec_capacity s.kept) };
}

impl MemoryLink {
    /// A link with room for `room` sent datagrams of up to 2048 octets, all reserved here. `fails` lists the
    /// numbers, from 0, of the sends that fail.
    pub fn new(
        alloc: Global,
        script: Vec<LinkEntry>,
        fails: &[u64],
        room: usize,
    ) -> Result<Self, OutOfMemory>
        ensures { IfOk result (λ s. s ≡ opened script.items fails.now room) }
    {
        Ok(MemoryLink {
            script,
            at: 0,
            ended: false,
            kept: Vec::with_capacity(alloc, room)?,
            room,
            fails: fails.to_vec(alloc)?,
            sends: 0,
            faults: FaultCount::new(),
        })
    }

    /// How many datagrams were sent.
    pub fn sent_count(&self) -> usize
        ensures { result ≡ length self.now.sent }
    {
        self.kept.len()
    }

    /// The datagram that was sent at this place, counted from 0.
    pub fn sent(&self, i: usize) -> &[u8]
        requires { i < length self.now.sent }
        ensures { slice_get self.now.sent i ≡ Some result.now }
    {
        self.kept[i].as_slice()
    }
}

impl MemoryLink {
    fn answer_next(&mut self, into: &mut [u8; 2048]) -> Result<Received, Failed>
        ensures within { IfOk result (IsWithin 2048) }
        ensures ends { Ends self.old.ended self.new.ended result }
        ensures cause { HasCause self.old.faults self.new.faults result }
        ensures answer { result ≡ first_answer self.old.left }
        ensures octets { take (first_size self.old.left) into.new ≡ first_octets self.old.left }
        ensures state { self.new ≡ after_first self.old self.old.left }
    {
        if self.at == self.script.len() {
            self.ended = true;
            return Ok(Received::Ended);
        }
        let answered = answer(&self.script[self.at], into);
        self.at += 1;
        if answered.is_err() {
            self.faults.raise();
        }
        answered
    }
}

/// Answers an entry. A datagram goes to the beginning of the piece.
fn answer(entry: &LinkEntry, into: &mut [u8; 2048]) -> Result<Received, Failed>
    ensures answer { result ≡ answer_to entry.now }
    ensures octets { take (size_of entry.now) into.new ≡ octets_of entry.now }
{
    match entry {
        LinkEntry::Datagram(octets, at) => {
            let len = copy_cut(octets.as_slice(), into);
            Ok(Received::Datagram { len, at: *at })
        }
        LinkEntry::Idle => Ok(Received::Idle),
        LinkEntry::Fail => Err(Failed),
    }
}

/// Copies the first 2048 octets.
fn copy_cut(from: &[u8], into: &mut [u8; 2048]) -> usize
    ensures count { result ≡ cut_length from.now }
    ensures copied { take result into.new ≡ take result from.now }
{
    let len = from.len().min(2048);
    into[..len].copy_from_slice(&from[..len]);
    len
}

impl Link for MemoryLink {
    ghost log = { λ s. Some (log_of s) };

    ghost ended = { λ s. s.ended };

    ghost faults = { λ s. s.faults };

    /// Answers the next entry, and after the last one that it has ended. Only an entry that says so fails, and
    /// each of them is one fault more.
    fn receive(&mut self, into: &mut [u8; 2048]) -> Result<Received, Failed>
        ensures within { IfOk result (IsWithin 2048) }
        ensures received { Receives (Some (log_of self.old)) (Some (log_of self.new)) result into.new }
        ensures ends { Ends self.old.ended self.new.ended result }
        ensures cause { HasCause self.old.faults self.new.faults result }

        ensures answer { result ≡ first_answer self.old.left }
        ensures octets { take (first_size self.old.left) into.new ≡ first_octets self.old.left }
        ensures state { self.new ≡ after_first self.old self.old.left }
    {
        self.answer_next(into)
    }

    /// Keeps the datagram. It fails exactly where the send is listed, no room is left, or there are more than
    /// 2048 octets; each such call is one fault more.
    fn send(&mut self, from: &[u8]) -> Result<(), Failed>
        ensures sent { Sends (Some (log_of self.old)) (Some (log_of self.new)) result from.now }
        ensures stays { self.new.ended ≡ self.old.ended }
        ensures cause { HasCause self.old.faults self.new.faults result }

        ensures ok { IsOk result ↔ ((Contains self.old.fails self.old.sends → ⊥) × (length self.old.sent < self.old.room) × (length from.now ≤ 2048)) }
        ensures kept { self.new.sent ≡ (if is_ok result then self.old.sent ++ from.now ∷ [] else self.old.sent) }
        ensures faults { self.new.faults ≡ (if is_ok result then self.old.faults else counted self.old.faults) }
        ensures state { self.new ≡ record self.old { sent = self.new.sent; sends = counted self.old.sends; faults = self.new.faults } }
    {
        let number = self.sends;
        self.sends = self.sends.saturating_add(1);
        if !self.fails.contains(&number) && self.kept.len() < self.room && from.len() <= 2048 {
            let datagram = SentDatagram::of(from);
            if self.kept.push(datagram).is_ok() {
                return Ok(());
            }
        }
        self.faults.raise();
        Err(Failed)
    }
}
