// A player from its first beat to its last.
ghost use Rattle.std.specs.Prelude.{◌≡◌, ◌≤◌, ◌+◌, ◌^◌, ◌⊎◌, true};
ghost use Rattle.gate_base.specs.Faults.{Rose};
ghost use Rattle.player.specs.PlayerRuns.{BeatsEnd, RunEnds};
ghost use Rattle.player.specs.Whole.{RunTells};
ghost use Rattle.player.specs.declared.run.PlayerEnd.{PlayerEnd};

use crate::beat::Beat;
use crate::player::Player;
use gate_io::{Link, Sink, Source, TickClock, TickNext};
use playout::PlayerSide;
use recorder::write_end;

/// How a player's run ended.
#[derive(Clone, Copy, Debug, PartialEq, Eq)]
pub enum PlayerEnd {
    /// The clock ended, or all beats were made, and the journal was given its end mark.
    Ended,
    /// The speaker failed. The end mark was offered to the journal all the same.
    SpeakerFault,
    /// The journal failed, at the events of a beat or at the end mark.
    JournalFault,
    /// The microphone failed. The end mark was offered to the journal all the same.
    MicFault,
    /// The reply link failed. The end mark was offered to the journal all the same.
    ReplyFault,
}

impl Player {
    /// Makes a beat for each tick of the clock, until the clock ends, all beats are made or a fault comes, and then
    /// gives the journal its end mark, but for a journal that has failed. The journal's head is the caller's to give.
    /// It waits as long as the clock does, and after the last beat no more. Where the player may hold numbers, its side has
    /// two slots at least.
    pub fn run<S: PlayerSide, I: Source, O: Sink, J: Sink, P: Link, C: TickClock>(
        &mut self,
        side: &mut S,
        clock: &mut C,
        speaker: &mut O,
        journal: &mut J,
        microphone: &mut I,
        reply: &mut P,
    ) -> PlayerEnd
        requires made { self.old.made ≡ 0 }
        requires slots { (self.old.elastic ≡ 0) ⊎ (1 ≤ S.g side.old) }
        requires position { S.position side.old ≡ 2 ^ 32 }
        ensures told { RunTells S.PlayerSide O.Sink J.Sink I.Source P.Link self.old side.old speaker.old journal.old microphone.old reply.old self.new side.new speaker.new journal.new microphone.new reply.new result }
        ensures ran { RunEnds S.PlayerSide O.Sink J.Sink I.Source P.Link self.old side.old speaker.old journal.old microphone.old reply.old self.new side.new speaker.new journal.new microphone.new reply.new result }
        ensures ticks { C.ticks clock.new ≡ C.ticks clock.old + self.new.made }
        ensures most { self.new.ticks ≡ self.old.ticks }
        ensures elastic { self.new.elastic ≡ self.old.elastic }
        ensures slots { S.g side.new ≡ S.g side.old }
        ensures within { self.new.made ≤ self.old.ticks }
        ensures ended { result ≡ PlayerEnd.Ended → (C.ended clock.new ≡ true) ⊎ (self.new.made ≡ self.old.ticks) }
        ensures open { P.ended reply.new ≡ P.ended reply.old }
        ensures speaker_later { O.faults speaker.old ≤ O.faults speaker.new }
        ensures speaker_fault { result ≡ PlayerEnd.SpeakerFault → Rose (O.faults speaker.old) (O.faults speaker.new) }
        ensures journal_later { J.faults journal.old ≤ J.faults journal.new }
        ensures journal_fault { result ≡ PlayerEnd.JournalFault → Rose (J.faults journal.old) (J.faults journal.new) }
        ensures mic_later { I.faults microphone.old ≤ I.faults microphone.new }
        ensures mic_fault { result ≡ PlayerEnd.MicFault → Rose (I.faults microphone.old) (I.faults microphone.new) }
        ensures reply_later { P.faults reply.old ≤ P.faults reply.new }
        ensures reply_fault { result ≡ PlayerEnd.ReplyFault → Rose (P.faults reply.old) (P.faults reply.new) }
        ensures speaker_kin { O.kin speaker.old speaker.new }
        ensures journal_kin { J.kin journal.old journal.new }
    {
        self.run_to_end(side, clock, speaker, journal, microphone, reply)
    }

    // The same, beat by beat.
    fn run_to_end<S: PlayerSide, I: Source, O: Sink, J: Sink, P: Link, C: TickClock>(
        &mut self,
        side: &mut S,
        clock: &mut C,
        speaker: &mut O,
        journal: &mut J,
        microphone: &mut I,
        reply: &mut P,
    ) -> PlayerEnd
        requires made { self.old.made ≡ 0 }
        requires slots { (self.old.elastic ≡ 0) ⊎ (1 ≤ S.g side.old) }
        requires position { S.position side.old ≡ 2 ^ 32 }
        ensures ran { RunEnds S.PlayerSide O.Sink J.Sink I.Source P.Link self.old side.old speaker.old journal.old microphone.old reply.old self.new side.new speaker.new journal.new microphone.new reply.new result }
        ensures ticks { C.ticks clock.new ≡ C.ticks clock.old + self.new.made }
        ensures most { self.new.ticks ≡ self.old.ticks }
        ensures elastic { self.new.elastic ≡ self.old.elastic }
        ensures slots { S.g side.new ≡ S.g side.old }
        ensures within { self.new.made ≤ self.old.ticks }
        ensures ended { result ≡ PlayerEnd.Ended → (C.ended clock.new ≡ true) ⊎ (self.new.made ≡ self.old.ticks) }
        ensures open { P.ended reply.new ≡ P.ended reply.old }
        ensures speaker_later { O.faults speaker.old ≤ O.faults speaker.new }
        ensures speaker_fault { result ≡ PlayerEnd.SpeakerFault → Rose (O.faults speaker.old) (O.faults speaker.new) }
        ensures journal_later { J.faults journal.old ≤ J.faults journal.new }
        ensures journal_fault { result ≡ PlayerEnd.JournalFault → Rose (J.faults journal.old) (J.faults journal.new) }
        ensures mic_later { I.faults microphone.old ≤ I.faults microphone.new }
        ensures mic_fault { result ≡ PlayerEnd.MicFault → Rose (I.faults microphone.old) (I.faults microphone.new) }
        ensures reply_later { P.faults reply.old ≤ P.faults reply.new }
        ensures reply_fault { result ≡ PlayerEnd.ReplyFault → Rose (P.faults reply.old) (P.faults reply.new) }
        ensures speaker_kin { O.kin speaker.old speaker.new }
        ensures journal_kin { J.kin journal.old journal.new }
    {
        match self.play_on(side, clock, speaker, journal, microphone, reply) {
            PlayerEnd::Ended => match write_end(journal) {
                Ok(()) => PlayerEnd::Ended,
                Err(_) => PlayerEnd::JournalFault,
            },
            PlayerEnd::SpeakerFault => {
                let _offered = write_end(journal);
                PlayerEnd::SpeakerFault
            }
            PlayerEnd::JournalFault => PlayerEnd::JournalFault,
            PlayerEnd::MicFault => {
                let _offered = write_end(journal);
                PlayerEnd::MicFault
            }
            PlayerEnd::ReplyFault => {
                let _offered = write_end(journal);
                PlayerEnd::ReplyFault
            }
        }
    }

    /// Makes beats until the clock, their number or a fault ends the run. The journal gets no end mark.
    fn play_on<S: PlayerSide, I: Source, O: Sink, J: Sink, P: Link, C: TickClock>(
        &mut self,
        side: &mut S,
        clock: &mut C,
        speaker: &mut O,
        journal: &mut J,
        microphone: &mut I,
        reply: &mut P,
    ) -> PlayerEnd
        requires made { self.old.made ≡ 0 }
        requires slots { (self.old.elastic ≡ 0) ⊎ (1 ≤ S.g side.old) }
        requires position { S.position side.old ≡ 2 ^ 32 }
        ensures stopped { BeatsEnd S.PlayerSide O.Sink J.Sink I.Source P.Link self.old side.old speaker.old journal.old microphone.old reply.old self.new side.new speaker.new journal.new microphone.new reply.new result }
        ensures ticks { C.ticks clock.new ≡ C.ticks clock.old + self.new.made }
        ensures most { self.new.ticks ≡ self.old.ticks }
        ensures elastic { self.new.elastic ≡ self.old.elastic }
        ensures slots { S.g side.new ≡ S.g side.old }
        ensures within { self.new.made ≤ self.old.ticks }
        ensures ended { result ≡ PlayerEnd.Ended → (C.ended clock.new ≡ true) ⊎ (self.new.made ≡ self.old.ticks) }
        ensures open { P.ended reply.new ≡ P.ended reply.old }
        ensures speaker_later { O.faults speaker.old ≤ O.faults speaker.new }
        ensures speaker_fault { result ≡ PlayerEnd.SpeakerFault → Rose (O.faults speaker.old) (O.faults speaker.new) }
        ensures journal_later { J.faults journal.old ≤ J.faults journal.new }
        ensures journal_fault { result ≡ PlayerEnd.JournalFault → Rose (J.faults journal.old) (J.faults journal.new) }
        ensures mic_later { I.faults microphone.old ≤ I.faults microphone.new }
        ensures mic_fault { result ≡ PlayerEnd.MicFault → Rose (I.faults microphone.old) (I.faults microphone.new) }
        ensures reply_later { P.faults reply.old ≤ P.faults reply.new }
        ensures reply_fault { result ≡ PlayerEnd.ReplyFault → Rose (P.faults reply.old) (P.faults reply.new) }
        ensures speaker_kin { O.kin speaker.old speaker.new }
        ensures journal_kin { J.kin journal.old journal.new }
    {
        let _few = self.held();
        while self.made < self.ticks {
            match clock.wait() {
                TickNext::Ended => return PlayerEnd::Ended,
                TickNext::Tick => {}
            }
            match self.beat(side, speaker, journal, microphone, reply) {
                Beat::Played => {}
                Beat::SpeakerFault => return PlayerEnd::SpeakerFault,
                Beat::JournalFault => return PlayerEnd::JournalFault,
                Beat::MicFault => return PlayerEnd::MicFault,
                Beat::ReplyFault => return PlayerEnd::ReplyFault,
            }
        }
        PlayerEnd::Ended
    }
}
