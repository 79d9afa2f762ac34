// One beat of a player.
ghost use Rattle.std.specs.Prelude.{◌≡◌, ◌⊎◌, ◌≤◌, ◌<◌, ◌+◌, ◌^◌, ℤ, List, length};
ghost use Rattle.gate_base.specs.Faults.{HasCause, Rose};
ghost use Rattle.gate_io.specs.Flow.{Gives};
ghost use Rattle.substitution.specs.Heard.{sample_octets};
ghost use Rattle.player.specs.Beats.{BeatMade, Speaks};
ghost use Rattle.player.specs.declared.beat.Beat.{Beat};

use crate::asking::ask;
use crate::calls::{count_calls, held_after, item_of_beat, opened_after, write_calls};
use crate::player::Player;
use crate::return_stream::ReturnEnd;
use byteorder::{ByteOrder, LittleEndian};
use frame_codec::Item;
use gate_io::{Failed, Link, Sink, Source};
use playout::PlayerSide;
use substitution::Voice;

/// What came of a beat.
#[derive(Clone, Copy, Debug, PartialEq, Eq)]
pub enum Beat {
    /// All of it was done. A packet was sent, or the microphone has ended.
    Played,
    /// The speaker failed. Nothing was journaled, and the microphone was left as it was.
    SpeakerFault,
    /// The journal failed after the speaker had all of the beat. The microphone was left as it was.
    JournalFault,
    /// The microphone failed. What came of its piece is lost, and nothing was sent.
    MicFault,
    /// The reply link failed. The packet counts as sent.
    ReplyFault,
}

impl Player {
    /// Makes a beat, of 20 ms: it asks the side, gives 320 octets to the speaker in one give (160 samples of 16 bits
    /// at 8 kHz, the low octet first), gives the events to the journal, each in one give, and sends the next piece
    /// of the microphone, in this order. A fault ends the beat. All calls on the side are counted. Where the player may
    /// hold numbers, its side has two slots at least.
    pub fn beat<S: PlayerSide, I: Source, O: Sink, J: Sink, P: Link>(
        &mut self,
        side: &mut S,
        speaker: &mut O,
        journal: &mut J,
        microphone: &mut I,
        reply: &mut P,
    ) -> Beat
        requires made { self.old.made < 16000000 }
        requires slots { (self.old.elastic ≡ 0) ⊎ (1 ≤ S.g side.old) }
        requires position { S.position side.old + self.old.held ≤ 2 ^ 32 + self.old.made }
        ensures beats { BeatMade S.PlayerSide O.Sink J.Sink I.Source P.Link self.old side.old speaker.old journal.old microphone.old reply.old self.new side.new speaker.new journal.new microphone.new reply.new result }
        ensures made { self.new.made ≡ self.old.made + 1 }
        ensures most { self.new.ticks ≡ self.old.ticks }
        ensures elastic { self.new.elastic ≡ self.old.elastic }
        ensures few { self.new.held ≤ self.new.elastic }
        ensures slots { S.g side.new ≡ S.g side.old }
        ensures position { S.position side.new + self.new.held ≤ 2 ^ 32 + self.new.made }
        ensures ended { P.ended reply.new ≡ P.ended reply.old }
        ensures speaker_later { O.faults speaker.old ≤ O.faults speaker.new }
        ensures speaker_fault { result ≡ Beat.SpeakerFault → Rose (O.faults speaker.old) (O.faults speaker.new) }
        ensures journal_later { J.faults journal.old ≤ J.faults journal.new }
        ensures journal_fault { result ≡ Beat.JournalFault → Rose (J.faults journal.old) (J.faults journal.new) }
        ensures mic_later { I.faults microphone.old ≤ I.faults microphone.new }
        ensures mic_fault { result ≡ Beat.MicFault → Rose (I.faults microphone.old) (I.faults microphone.new) }
        ensures reply_later { P.faults reply.old ≤ P.faults reply.new }
        ensures reply_fault { result ≡ Beat.ReplyFault → Rose (P.faults reply.old) (P.faults reply.new) }
        ensures speaker_kin { O.kin speaker.old speaker.new }
        ensures journal_kin { J.kin journal.old journal.new }
    {
        let calls = ask(self.elastic, self.held, self.opened, side);
        let item = item_of_beat(&calls);
        self.opened = opened_after(self.opened, &calls);
        self.held = held_after(self.held, &calls);
        self.made += 1;
        count_calls(&calls, &mut self.tally);
        if let Err(Failed) = speak(&mut self.voice, item, speaker) {
            return Beat::SpeakerFault;
        }
        if let Err(Failed) = write_calls(&calls, journal) {
            return Beat::JournalFault;
        }
        match self.stream.send(microphone, reply) {
            ReturnEnd::Sent => Beat::Played,
            ReturnEnd::Silent => Beat::Played,
            ReturnEnd::MicFault => Beat::MicFault,
            ReturnEnd::ReplyFault => Beat::ReplyFault,
        }
    }
}

// Plays an item, and gives its 160 samples in one give.
fn speak<O: Sink>(voice: &mut Voice, item: Item, speaker: &mut O) -> Result<(), Failed>
    ensures spoken { (played : List ℤ) × Gives (O.given speaker.old) (O.given speaker.new) result (sample_octets played) × Speaks voice.old voice.new item played × (length played ≡ 160) }
    ensures cause { HasCause (O.faults speaker.old) (O.faults speaker.new) result }
    ensures kin { O.kin speaker.old speaker.new }
{
    let mut samples = [0; 160];
    voice.play(item, &mut samples);
    let mut octets = [0; 320];
    LittleEndian::write_i16_into(&samples, &mut octets);
    speaker.give(&octets)
}
