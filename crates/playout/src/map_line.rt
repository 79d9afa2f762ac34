// A line on one thread.
ghost use Rattle.std.specs.Prelude.{◌≡◌, ◌≢◌, ◌<◌, ◌≤◌, ◌+◌, ◌^◌, ◌↔◌, IfOk, IsTrue, is_some};
ghost use Rattle.std.specs.FinMap as map;
ghost use Rattle.playout.specs.Machine.{opening_machine, held_or, item_of, FileReplies, IsAhead, Replies, filed};
ghost use Rattle.playout.specs.Line.{Steps};
ghost use Rattle.playout.specs.History.{ReplyFits};
ghost use Rattle.playout.specs.declared.call.Call.{Call};
ghost use Rattle.playout.specs.declared.reply.FileReply.{FileReply};

use crate::call::Call;
use crate::pairs::{front_of, place_of, take_front};
use crate::reply::FileReply;
use frame_codec::{Frame33, Item};
use gate_base::OutOfMemory;
use std::alloc::Global;
use std::marker::Model;

/// The number that the first tick or retire takes.
const START: u64 = 1 << 32;

/// A playout machine for one thread, over a sorted list. It is seen as its numbers of filers and slots and
/// the machine; all its memory is taken by `new`.
#[derive(Drop)]
pub struct MapLine {
    filers: u32,
    g: u32,
    source: Option<u32>,
    base: Option<u32>,
    position: u64,
    pairs: Vec<(u64, Frame33)>,
}

impl Model for MapLine {
    ghost use Rattle.playout.specs.Line.{Line, line_code};

    ghost Value = { Line };

    ghost coded = { line_code };

    ghost use Rattle.playout.specs.Inside.{line_of, IsLine};

    ghost view = { line_of };

    ghost invariant = { IsLine };
}

// At most 1024 slots.
fn slots_of(g: u32) -> u64
    requires { g ≤ 10 }
    ensures value { result ≡ 2 ^ g }
    ensures some { 1 ≤ result }
    ensures few { result ≤ 2 ^ 10 }
{
    1 << g
}

fn ahead_of(slots: u64, position: u64, number: u64) -> u64
    requires slots { 0 < slots }
    requires few { slots ≤ 2 ^ 10 }
    requires position { position ≤ 2 ^ 33 }
    ensures ahead { IsAhead slots position number result }
{
    position + (number % slots + slots - position % slots) % slots
}

fn item_of(front: Option<Frame33>) -> Item
    ensures value { result ≡ item_of front }
    ensures played { result ≢ Item.Idle }
{
    match front {
        Some(frame) => Item::Frame(frame),
        None => Item::Erasure,
    }
}

fn held_or(held: Option<u32>, said: u32) -> u32
    ensures { result ≡ held_or held said }
{
    match held {
        Some(held) => held,
        None => said,
    }
}

fn same_reply(one: &FileReply, other: &FileReply) -> bool
    ensures { IsTrue result ↔ (one.now ≡ other.now) }
{
    *one == *other
}

fn same_item(one: &Item, other: &Item) -> bool
    ensures { IsTrue result ↔ (one.now ≡ other.now) }
{
    *one == *other
}

impl MapLine {
    /// A line of 1 to 64 filers and 2^g slots, before any call.
    pub fn new(alloc: Global, filers: u32, g: u32) -> Result<MapLine, OutOfMemory>
        requires some { 1 ≤ filers }
        requires few { filers ≤ 64 }
        requires g { g ≤ 10 }
        ensures { IfOk result (λ line. line ≡ record { filers = filers; g = g; machine = opening_machine }) }
    {
        let pairs = Vec::with_capacity(alloc, 1 << g)?;
        Ok(MapLine {
            filers,
            g,
            source: None,
            base: None,
            position: START,
            pairs,
        })
    }

    /// The number that the next tick or retire takes.
    pub fn position(&self) -> u64
        ensures value { result ≡ self.now.machine.position }
        ensures started { 2 ^ 32 ≤ result }
        ensures most { result ≤ 2 ^ 33 }
    {
        self.position
    }

    /// A filer says the source (RTP's SSRC) of its packet. The first one said is held and answered from then
    /// on.
    pub fn source(&mut self, who: u32, ssrc: u32) -> u32
        requires { who < self.old.filers }
        ensures { Steps self.old (Call.SourceCall ssrc result) self.new }
    {
        let _ = who;
        let held = match self.source {
            Some(held) => held,
            None => ssrc,
        };
        self.source = Some(held);
        held
    }

    /// A filer says the timestamp of its packet. The first one said is held, as the base of the numbers, and
    /// answered from then on.
    pub fn base(&mut self, who: u32, ts: u32) -> u32
        requires { who < self.old.filers }
        ensures { Steps self.old (Call.BaseCall ts result) self.new }
    {
        let _ = who;
        let held = match self.base {
            Some(held) => held,
            None => ts,
        };
        self.base = Some(held);
        held
    }

    /// The base that is held, or none as long as no packet came.
    pub fn peek(&self) -> Option<u32>
        ensures { result ≡ self.now.machine.base }
    {
        self.base
    }

    /// A filer files a frame under its number. Only `Accepted` changes the line.
    pub fn file(&mut self, who: u32, number: u64, frame: &Frame33) -> FileReply
        requires caller { who < self.old.filers }
        requires number { number < 2 ^ 47 }
        ensures reply { FileReplies (2 ^ self.old.g) self.old.machine number result }
        ensures after { self.new ≡ record self.old { machine = filed self.old.machine number frame.now result } }
        ensures fits { ReplyFits number result }
    {
        let _ = who;
        let reply = self.reply_to(number);
        if let FileReply::Accepted = reply {
            self.keep(number, frame);
        }
        reply
    }

    /// Takes the item of the next number, which is never `Idle`, and goes on by one. A tick is 20 ms.
    pub fn tick(&mut self) -> Item
        requires { self.old.machine.position < 2 ^ 33 }
        ensures step { Steps self.old (Call.TickCall result) self.new }
        ensures played { result ≢ Item.Idle }
    {
        let front = take_front(&mut self.pairs, self.position);
        self.position += 1;
        item_of(front)
    }

    /// Whether a frame waits so many numbers ahead of the next one. Nothing changes.
    pub fn look(&self, ahead: u32) -> bool
        requires { ahead < 2 ^ self.now.g }
        ensures { Replies (2 ^ self.now.g) self.now.machine (Call.LookCall ahead result) }
    {
        self.waits(self.position + ahead as u64)
    }

    /// Whether no frame waits under the next number, so that a beat may pass there. Nothing changes.
    pub fn hold(&self) -> bool
        ensures { Replies (2 ^ self.now.g) self.now.machine (Call.HoldCall result) }
    {
        !self.waits(self.position)
    }

    /// Takes the item of the next number as a tick does, and goes on by one. It is not to be played.
    pub fn retire(&mut self) -> Item
        requires { self.old.machine.position < 2 ^ 33 }
        ensures step { Steps self.old (Call.RetireCall result) self.new }
        ensures taken { result ≢ Item.Idle }
    {
        self.tick()
    }

    /// Whether the line would reply to a call as the call has it. Nothing is called.
    pub fn can(&self, call: &Call) -> bool
        ensures { IsTrue result ↔ Replies (2 ^ self.now.g) self.now.machine call.now }
    {
        match call {
            Call::FileCall { number, reply, .. } => same_reply(reply, &self.reply_to(*number)),
            Call::SourceCall { ssrc, held } => *held == held_or(self.source, *ssrc),
            Call::BaseCall { ts, held } => *held == held_or(self.base, *ts),
            Call::PeekCall { held } => *held == self.base,
            Call::TickCall { item } => same_item(item, &self.next_item()),
            Call::LookCall { ahead, filled } => {
                (*ahead as u64) < slots_of(self.g)
                    && *filled == self.waits(self.position + *ahead as u64)
            }
            Call::HoldCall { held } => *held == self.hold(),
            Call::RetireCall { item } => same_item(item, &self.next_item()),
        }
    }

    // The answer to a frame of this number.
    fn reply_to(&self, number: u64) -> FileReply
        ensures reply { FileReplies (2 ^ self.now.g) self.now.machine number result }
        ensures fits { ReplyFits number result }
    {
        let slots = slots_of(self.g);
        let first = self.position;
        if number < first {
            return FileReply::Late {
                ahead: ahead_of(slots, first, number),
            };
        }
        if first + slots <= number {
            return FileReply::Beyond {
                ahead: ahead_of(slots, first, number),
            };
        }
        let place = place_of(&self.pairs, number);
        match place {
            Ok(_) => FileReply::Duplicate,
            Err(_) => FileReply::Accepted,
        }
    }

    // Puts a frame that is accepted in its place.
    fn keep(&mut self, number: u64, frame: &Frame33)
        requires { FileReplies (2 ^ self.old.g) self.old.machine number FileReply.Accepted }
        ensures { self.new ≡ record self.old { machine = filed self.old.machine number frame.now FileReply.Accepted } }
    {
        if let Err(at) = place_of(&self.pairs, number) {
            self.pairs.insert(at, (number, *frame)).unwrap();
        }
    }

    // Whether a frame waits under this number.
    fn waits(&self, number: u64) -> bool
        ensures { result ≡ is_some (map.get self.now.machine.frames number) }
    {
        place_of(&self.pairs, number).is_ok()
    }

    // The item of the next number.
    fn next_item(&self) -> Item
        ensures { result ≡ item_of (map.get self.now.machine.frames self.now.machine.position) }
    {
        item_of(front_of(&self.pairs, self.position))
    }
}
