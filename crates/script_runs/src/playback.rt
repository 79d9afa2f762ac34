// What becomes of the player's beats.
ghost use Rattle.std.specs.Prelude.{[], List, ℕ, ℤ};
ghost use Rattle.std.specs.List.{flat_map};
ghost use Rattle.gate_base.specs.Faults.{HasCause};
ghost use Rattle.gate_io.specs.Flow.{Gives};
ghost use Rattle.substitution.specs.Heard.{sample_octets};
ghost use Rattle.recorder.specs.Play.{call_text};
ghost use Rattle.recorder.specs.Tallies.{call_items};
ghost use Rattle.player.specs.Beats.{GivesOne, Speaks};
ghost use Rattle.script_runs.specs.Playing.{GoesOn, Stands, end_text, front_text};

use byteorder::{ByteOrder, LittleEndian};
use frame_codec::Item;
use gate_io::{Failed, Sink};
use player::{BeatCalls, item_of_beat, write_calls};
use recorder::{Head, write_end, write_play_head};
use substitution::Voice;

/// Gives what the player does to an output: as the events of its journal, or as the speech that is heard.
#[derive(Drop)]
pub enum Playback {
    /// The output is the player's journal.
    Journal,
    /// The output is PCM at 8 kHz: samples of 16 bits, the low octet first.
    Pcm(Voice),
}

impl Playback {
    /// A playback before any call: a journal, or with a seed the speech of a voice with that seed.
    pub fn new(voice: Option<[u8; 32]>) -> Playback
        ensures { Stands voice [] [] [] result }
    {
        match voice {
            None => Playback::Journal,
            Some(seed) => Playback::Pcm(Voice::new(seed)),
        }
    }

    /// Gives what stands before all events.
    pub fn front<O: Sink>(&self, head: &Head, output: &mut O) -> Result<(), Failed>
        ensures given { Gives (O.given output.old) (O.given output.new) result (front_text self.now head.now) }
        ensures cause { HasCause (O.faults output.old) (O.faults output.new) result }
        ensures kin { O.kin output.old output.new }
    {
        match self {
            Playback::Journal => write_play_head(head, output),
            Playback::Pcm(_) => Ok(()),
        }
    }

    /// Gives the calls of a beat: to a journal their events, each in one give, or the 160 samples of its item in one.
    pub fn beat<O: Sink>(&mut self, calls: &BeatCalls, output: &mut O) -> Result<(), Failed>
        requires { GivesOne calls.now }
        ensures played { (text : List ℕ) × GoesOn (flat_map call_text calls.now) (flat_map call_items calls.now) self.old self.new text
            × Gives (O.given output.old) (O.given output.new) result text }
        ensures cause { HasCause (O.faults output.old) (O.faults output.new) result }
        ensures kin { O.kin output.old output.new }
    {
        match self {
            Playback::Journal => write_calls(calls, output),
            Playback::Pcm(voice) => speak(voice, item_of_beat(calls), output),
        }
    }

    /// Gives what comes after all events.
    pub fn end<O: Sink>(&self, output: &mut O) -> Result<(), Failed>
        ensures given { Gives (O.given output.old) (O.given output.new) result (end_text self.now) }
        ensures cause { HasCause (O.faults output.old) (O.faults output.new) result }
        ensures kin { O.kin output.old output.new }
    {
        match self {
            Playback::Journal => write_end(output),
            Playback::Pcm(_) => Ok(()),
        }
    }
}

// Plays an item, and gives its 160 samples in one give.
fn speak<O: Sink>(voice: &mut Voice, item: Item, output: &mut O) -> Result<(), Failed>
    ensures spoken { (played : List ℤ) × Gives (O.given output.old) (O.given output.new) result (sample_octets played) × Speaks voice.old voice.new item played }
    ensures cause { HasCause (O.faults output.old) (O.faults output.new) result }
    ensures kin { O.kin output.old output.new }
{
    let mut samples = [0; 160];
    voice.play(item, &mut samples);
    let mut octets = [0; 320];
    LittleEndian::write_i16_into(&samples, &mut octets);
    output.give(&octets)
}
