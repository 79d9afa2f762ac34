// The calls of journals, caller by caller.
ghost use Rattle.std.specs.Prelude.{◌≡◌, ◌↔◌, ◌≤◌, ◌<◌, ◌+◌, drop, length, IfOk, IsTrue};
ghost use Rattle.recorder.specs.Journals.{FilerRecordFits, PlayerRecordFits};
ghost use Rattle.replay_check.specs.Denials.{IsDenied};
ghost use Rattle.replay_check.specs.Journals.{AllRecordsFit, call_of, plays_in};
ghost use Rattle.replay_check.specs.Lists.{AreCallsAt, first_of, list_of};

use crate::denials::denials_of;
use crate::plays::play_of;
use gate_base::OutOfMemory;
use playout::Call;
use recorder::{FilerEvent, FilerJournal, PlayerJournal};
use std::alloc::Global;
use std::marker::Model;

// The number that the first tick or retire takes.
const START: u64 = 1 << 32;

fn call_of(event: &FilerEvent) -> Option<Call>
    ensures { result ≡ call_of event.now }
{
    match event {
        FilerEvent::Source(asked) => Some(Call::SourceCall {
            ssrc: asked.said,
            held: asked.held,
        }),
        FilerEvent::Base(asked) => Some(Call::BaseCall {
            ts: asked.said,
            held: asked.held,
        }),
        FilerEvent::File {
            number,
            frame,
            reply,
        } => Some(Call::FileCall {
            number: *number,
            frame: *frame,
            reply: *reply,
        }),
        _ => None,
    }
}

// Where the calls of a filer stand in its journal.
fn places_of(alloc: Global, journal: &FilerJournal) -> Result<Vec<u32>, OutOfMemory>
    ensures places { IfOk result (λ v. AreCallsAt journal.now.events v.items) }
    ensures fits { FilerRecordFits journal.now }
{
    let mut places: Vec<u32> = Vec::new(alloc);
    'events: for place in 0..journal.len() {
        if call_of(journal.get(place)).is_some() {
            places.push(place as u32)?;
        }
    }
    Ok(places)
}

/// The journals of a line, seen as their records: the filers' in the order of their numbers, and the player's, whose number
/// is that of the filers. Calls are read out of the events, and are not kept beside them.
#[derive(Drop)]
pub struct Recorded<'a> {
    filers: &'a [FilerJournal],
    player: &'a PlayerJournal,
    // For each filer, which of its events are calls.
    places: Vec<Vec<u32>>,
    // For each number from the first on, behind which of the player's calls none says that it is absent.
    denials: Vec<u32>,
}

impl<'a> Model for Recorded<'a> {
    ghost use Rattle.replay_check.specs.Lists.{AreFound, Recording};

    ghost Value = { Recording };

    ghost view = { λ r. record { filers = r.filers.now; player = r.player.now } };

    ghost invariant = { λ r. AreFound r.filers.now r.player.now r.places.items r.denials.items };
}

impl<'a> Recorded<'a> {
    /// Finds the calls of the journals.
    pub fn of(
        alloc: Global,
        filers: &'a [FilerJournal],
        player: &'a PlayerJournal,
    ) -> Result<Recorded<'a>, OutOfMemory>
        ensures journals { IfOk result (λ r. r ≡ record { filers = filers.entry.now; player = player.entry.now }) }
        ensures filers { IfOk result (λ r. AllRecordsFit filers.entry.now) }
        ensures player { PlayerRecordFits player.entry.now }
    {
        let denials = denials_of(alloc, player)?;
        let mut places: Vec<Vec<u32>> = Vec::new(alloc);
        'journals: for filer in filers {
            places.push(places_of(alloc, filer)?)?;
        }
        Ok(Recorded {
            filers,
            player,
            places,
            denials,
        })
    }

    /// How many callers there are.
    pub fn len(&self) -> usize
        ensures { result ≡ length self.now.filers + 1 }
    {
        self.filers.len() + 1
    }

    /// How many calls a caller made.
    pub fn count(&self, who: usize) -> usize
        requires { who ≤ length self.now.filers }
        ensures { result ≡ length (list_of self.now who) }
    {
        if who < self.filers.len() {
            self.places[who].len()
        } else {
            self.player.len()
        }
    }

    /// A caller's call at a place, counted from 0, or none after its last.
    pub fn call(&self, who: usize, place: usize) -> Option<Call>
        requires { who ≤ length self.now.filers }
        ensures { result ≡ first_of (drop place (list_of self.now who)) }
    {
        if who < self.filers.len() {
            self.filed(who, place)
        } else {
            self.played(place)
        }
    }

    /// Whether one of the player's calls from this place on says that a number is absent.
    pub fn denies(&self, number: u64, place: usize) -> bool
        ensures { IsTrue result ↔ IsDenied (plays_in self.now.player.events) number place }
    {
        if number < START {
            return false;
        }
        let at = (number - START) as usize;
        if at < self.denials.len() {
            place < self.denials[at] as usize
        } else {
            false
        }
    }

    // A filer's call.
    fn filed(&self, who: usize, place: usize) -> Option<Call>
        requires { who < length self.now.filers }
        ensures { result ≡ first_of (drop place (list_of self.now who)) }
    {
        let places = &self.places[who];
        if place < places.len() {
            call_of(self.filers[who].get(places[place] as usize))
        } else {
            None
        }
    }

    // The player's call.
    fn played(&self, place: usize) -> Option<Call>
        ensures { result ≡ first_of (drop place (plays_in self.now.player.events)) }
    {
        if place < self.player.len() {
            Some(play_of(self.player.get(place)))
        } else {
            None
        }
    }
}
