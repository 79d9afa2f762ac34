// What a caller is after each of its steps.
ghost use Rattle.std.specs.Prelude.{◌≡◌, ◌+◌, ◌<◌, ◌≤◌, ◌^◌, ◌&&◌, IfOk, nat_lt};
ghost use Rattle.ring_core.specs.Ring.{slot_count};
ghost use Rattle.ring_core.specs.Core.{is_filer, is_player};
ghost use Rattle.ring_core.specs.Steps.{based, glanced, late, loaded, merged, moved, newcomer, peeked, position_of, published, replied, sourced, taken, told_by, with_pair};

use crate::core_steps::slots_in;
use crate::lists::{CallList, PairList};
use crate::player_steps::{Glance, Move};
use crate::views::{Calling, Flight, Known, Shape};
use crate::words::SlotWord;
use frame_codec::{Frame33, Item};
use gate_base::OutOfMemory;
use playout::{Call, FileReply};
use std::alloc::Global;

/// The number that the first tick or retire takes.
const START: u64 = 1 << 32;

/// The number at which there are no more ticks and retires.
const END: u64 = 1 << 33;

/// What a tick or a retire takes out of a slot.
fn taken(filled: bool, held: Option<Frame33>) -> Item
    ensures { result ≡ taken filled held }
{
    match held {
        Some(frame) if filled => Item::Frame(frame),
        _ => Item::Erasure,
    }
}

impl Known {
    /// The same once more.
    pub(crate) fn copied(&self, alloc: Global) -> Result<Known, OutOfMemory>
        ensures { IfOk result (λ k. k ≡ self.now) }
    {
        Ok(Known {
            pairs: self.pairs.copied(alloc)?,
            position: self.position,
            source: self.source,
            base: self.base,
        })
    }

    fn with_pair(self, number: u64, frame: Frame33) -> Result<Known, OutOfMemory>
        ensures { IfOk result (λ k. k ≡ with_pair self number frame) }
    {
        Ok(Known {
            pairs: self.pairs.with(number, frame)?,
            position: self.position,
            source: self.source,
            base: self.base,
        })
    }

    /// What either knew.
    pub(crate) fn merged(self, other: Known) -> Result<Known, OutOfMemory>
        ensures { IfOk result (λ k. k ≡ merged self other) }
    {
        Ok(Known {
            pairs: self.pairs.joined(other.pairs)?,
            position: self.position.max(other.position),
            source: self.source.or(other.source),
            base: self.base.or(other.base),
        })
    }
}

impl Calling {
    /// A caller that has just enlisted, with the cell of its berth.
    pub(crate) fn newcomer(alloc: Global, who: u32, cell: u32) -> Calling
        ensures { result ≡ newcomer who cell }
    {
        Calling {
            who,
            list: CallList::new(alloc),
            spare: cell,
            flight: None,
            known: Known {
                pairs: PairList::new(alloc),
                position: START,
                source: None,
                base: None,
            },
        }
    }

    /// The number that its next tick or retire takes.
    pub(crate) fn position(&self) -> u64
        ensures value { result ≡ position_of self.now }
        ensures few { result < 2 ^ 63 + 2 ^ 32 }
    {
        START + self.list.moves()
    }

    /// Whether it is the player, with ticks and retires to come.
    pub(crate) fn may_move(&self, shape: Shape) -> bool
        ensures { result ≡ (is_player shape self.now && nat_lt (position_of self.now) 8589934592) }
    {
        self.who == shape.filers && self.position() < END
    }

    /// Whether it is the player, and so many numbers ahead of its own there is one of its window.
    pub(crate) fn may_look(&self, shape: Shape, ahead: u64) -> bool
        requires { shape.g ≤ 10 }
        ensures { result ≡ (is_player shape self.now && nat_lt ahead (slot_count shape)) }
    {
        self.who == shape.filers && ahead < slots_in(shape)
    }

    /// Whether it is a filer that is not in flight.
    pub(crate) fn is_filer(&self, shape: Shape) -> bool
        ensures { result ≡ is_filer shape self.now }
    {
        self.who < shape.filers && self.flight.is_none()
    }

    /// After a tick or a retire that found this word, whose cell held this.
    pub(crate) fn moved(
        self,
        how: Move,
        word: SlotWord,
        held: Option<Frame33>,
    ) -> Result<Calling, OutOfMemory>
        requires { position_of self < 2 ^ 33 }
        ensures { IfOk result (λ c. c ≡ moved self how word held) }
    {
        let position = self.position();
        let item = taken(word.filled, held);
        Ok(Calling {
            who: self.who,
            list: self.list.with(how.call(item))?,
            spare: word.cell,
            flight: self.flight,
            known: Known {
                position: position + 1,
                ..self.known
            },
        })
    }

    /// After a look or a hold that found this word.
    pub(crate) fn glanced(self, glance: Glance, word: SlotWord) -> Result<Calling, OutOfMemory>
        ensures { IfOk result (λ c. c ≡ glanced self glance word) }
    {
        Ok(Calling {
            who: self.who,
            list: self.list.with(glance.call(word.filled))?,
            spare: self.spare,
            flight: self.flight,
            known: self.known,
        })
    }

    /// After a reply that leaves it as it was.
    fn replied(self, number: u64, frame: Frame33, reply: FileReply) -> Result<Calling, OutOfMemory>
        ensures { IfOk result (λ c. c ≡ replied self number frame reply) }
    {
        Ok(Calling {
            who: self.who,
            list: self.list.with(Call::FileCall {
                number,
                frame,
                reply,
            })?,
            spare: self.spare,
            flight: None,
            known: self.known,
        })
    }

    /// After it looked at this word with a frame to file: in flight where it is free for the number.
    pub(crate) fn loaded(
        self,
        word: SlotWord,
        number: u64,
        frame: Frame33,
    ) -> Result<Calling, OutOfMemory>
        ensures { IfOk result (λ c. c ≡ loaded self word number frame) }
    {
        if word.number < number {
            return self.replied(number, frame, FileReply::Beyond { ahead: word.number });
        }
        if word.number > number {
            return self.late(number, frame, word.number);
        }
        if word.filled {
            return self.replied(number, frame, FileReply::Duplicate);
        }
        let flight = Flight {
            number,
            cell: word.cell,
            frame,
        };
        Ok(Calling {
            who: self.who,
            list: self.list,
            spare: self.spare,
            flight: Some(flight),
            known: self.known,
        })
    }

    fn late(self, number: u64, frame: Frame33, ahead: u64) -> Result<Calling, OutOfMemory>
        requires { number < ahead }
        ensures { IfOk result (λ c. c ≡ late self number frame ahead) }
    {
        let told = self.replied(number, frame, FileReply::Late { ahead })?;
        Ok(Calling {
            who: told.who,
            list: told.list,
            spare: told.spare,
            flight: told.flight,
            known: Known {
                position: told.known.position.max(number + 1),
                ..told.known
            },
        })
    }

    /// After its frame was accepted, with the cell that the free word named.
    pub(crate) fn published(self, flight: Flight) -> Result<Calling, OutOfMemory>
        ensures { IfOk result (λ c. c ≡ published self flight.number flight.frame flight.cell) }
    {
        let Flight {
            number,
            cell,
            frame,
        } = flight;
        let reply = FileReply::Accepted;
        Ok(Calling {
            who: self.who,
            list: self.list.with(Call::FileCall {
                number,
                frame,
                reply,
            })?,
            spare: cell,
            flight: None,
            known: self.known.with_pair(number, frame)?,
        })
    }

    /// After it said a source, with the one then held.
    pub(crate) fn sourced(self, ssrc: u32, held: u32) -> Result<Calling, OutOfMemory>
        ensures { IfOk result (λ c. c ≡ sourced self ssrc held) }
    {
        Ok(Calling {
            who: self.who,
            list: self.list.with(Call::SourceCall { ssrc, held })?,
            spare: self.spare,
            flight: self.flight,
            known: Known {
                source: Some(held),
                ..self.known
            },
        })
    }

    /// After it said a base, with the one then held.
    pub(crate) fn based(self, ts: u32, held: u32) -> Result<Calling, OutOfMemory>
        ensures { IfOk result (λ c. c ≡ based self ts held) }
    {
        Ok(Calling {
            who: self.who,
            list: self.list.with(Call::BaseCall { ts, held })?,
            spare: self.spare,
            flight: self.flight,
            known: Known {
                base: Some(held),
                ..self.known
            },
        })
    }

    /// After it looked at the base.
    pub(crate) fn peeked(self, held: Option<u32>) -> Result<Calling, OutOfMemory>
        ensures { IfOk result (λ c. c ≡ peeked self held) }
    {
        Ok(Calling {
            who: self.who,
            list: self.list.with(Call::PeekCall { held })?,
            spare: self.spare,
            flight: self.flight,
            known: Known {
                base: held.or(self.known.base),
                ..self.known
            },
        })
    }

    /// After it took in a note.
    pub(crate) fn told(self, note: Known) -> Result<Calling, OutOfMemory>
        ensures { IfOk result (λ c. c ≡ told_by self note) }
    {
        Ok(Calling {
            who: self.who,
            list: self.list,
            spare: self.spare,
            flight: self.flight,
            known: self.known.merged(note)?,
        })
    }
}
