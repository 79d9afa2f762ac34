// A line over memory: its journals are legal, and the player's one renders to what the speaker got.
ghost use Rattle.std.specs.Prelude.{◌≡◌, ◌≤◌, ◌<◌, ◌+◌, ◌^◌};
ghost use Rattle.playout.specs.History.{ReplyFits};

use frame_codec::{Frame33, frame_of};
use gate_base::OutOfMemory;
use gate_io::{MemoryLink, MemorySink, MemorySource};
use player::{Beat, Player};
use playout::{FileReply, MapLine, MapPlayer};
use recorder::{
    Asked2, FilerEvent, FilerJournal, Head, PlayTally, PlayerJournal, write_end, write_filer,
    write_filer_head, write_play_head,
};
use replay_check::{RenderEnd, Verdict, are_of_one_line, render, verify};
use std::alloc::{AllocError, Global};
use std::test::Fail;

const SEED: [u8; 32] = [7; 32];

const START: u64 = 4294967296;

const MOST_BEATS: u32 = 100;

// A step of a talk: a beat, or the frame of a number, counted from the first one, comes.
const BEAT: u8 = 255;

// A frame for a number.
fn octets_of(number: u8) -> [u8; 33] {
    [0xD0 + number % 16; 33]
}

// What the player's beats are made over.
#[derive(Drop)]
struct Ports {
    speaker: MemorySink,
    journal: MemorySink,
    microphone: MemorySource,
    reply: MemoryLink,
}

impl Ports {
    fn new(alloc: Global) -> Result<Ports, OutOfMemory> {
        Ok(Ports {
            speaker: MemorySink::new(alloc, 8000, &[])?,
            journal: MemorySink::new(alloc, 1000, &[])?,
            microphone: MemorySource::new(alloc, &[], 320, &[])?,
            reply: MemoryLink::new(alloc, Vec::new(alloc), &[], 0)?,
        })
    }
}

// The filer's journal is given how a frame was answered.
fn write_filed(number: u64, frame: Frame33, reply: FileReply, filed: &mut MemorySink) -> bool
    requires number { number < 2 ^ 47 }
    requires reply { ReplyFits number reply }
{
    let event = FilerEvent::File {
        number,
        frame,
        reply,
    };
    write_filer(&event, filed).is_ok()
}

// A line of one filer, with its journals.
#[derive(Drop)]
struct Talk {
    player: Player,
    side: MapPlayer,
    beats: u32,
    ports: Ports,
    filed: MemorySink,
    // Whether each beat was played, and no more numbers were held than may be.
    sound: bool,
    ghost few: { beats ≤ 100 },
    ghost made: { player.made ≡ beats },
    ghost filers: { side.filers ≡ 1 },
    ghost slots: { 1 ≤ side.g },
    ghost position: { side.machine.position + player.held ≤ 2 ^ 32 + player.made },
}

impl Talk {
    fn new(alloc: Global, g: u8, elastic: u32) -> Result<Talk, OutOfMemory>
        requires g { (1 ≤ g) × (g ≤ 10) }
        requires elastic { elastic ≤ 15 }
    {
        let line = MapLine::new(alloc, 1, g as u32)?;
        Ok(Talk {
            player: Player::new(SEED, 1, 0, 0, MOST_BEATS as u64, elastic),
            side: MapPlayer::of(line),
            beats: 0,
            ports: Ports::new(alloc)?,
            filed: MemorySink::new(alloc, 2000, &[])?,
            sound: true,
        })
    }

    // The heads of the journals are written, and the source and the base are said.
    fn open(self, g: u8) -> Talk
        requires { g ≤ 10 }
    {
        let Talk {
            player,
            side,
            beats,
            mut ports,
            mut filed,
            sound,
        } = self;
        let headed = write_heads(g, &mut ports, &mut filed);
        let mut line = side.back();
        let source = line.source(0, 9);
        let base = line.base(0, 1000);
        let first = FilerEvent::Source(Asked2 {
            said: 9,
            held: source,
        });
        let second = FilerEvent::Base(Asked2 {
            said: 1000,
            held: base,
        });
        let one = write_filer(&first, &mut filed).is_ok();
        let two = write_filer(&second, &mut filed).is_ok();
        Talk {
            player,
            side: MapPlayer::of(line),
            beats,
            ports,
            filed,
            sound: sound && headed && one && two,
        }
    }

    // The frame of a number comes.
    fn file(self, behind: u8, frame: &Frame33) -> Talk {
        let Talk {
            player,
            side,
            beats,
            ports,
            mut filed,
            sound,
        } = self;
        let mut line = side.back();
        let number = START + behind as u64;
        let reply = line.file(0, number, frame);
        let one = write_filed(number, *frame, reply, &mut filed);
        Talk {
            player,
            side: MapPlayer::of(line),
            beats,
            ports,
            filed,
            sound: sound && one,
        }
    }

    // The player makes a beat, and holds as many numbers as it may at most.
    fn beat(self, most: u64) -> Talk {
        if self.beats >= MOST_BEATS {
            return self;
        }
        let Talk {
            mut player,
            mut side,
            beats,
            mut ports,
            filed,
            sound,
        } = self;
        let beat = player.beat(
            &mut side,
            &mut ports.speaker,
            &mut ports.journal,
            &mut ports.microphone,
            &mut ports.reply,
        );
        let tally = player.tally();
        let held = tally.held.wrapping_sub(tally.retired);
        Talk {
            player,
            side,
            beats: beats + 1,
            ports,
            filed,
            sound: sound && beat == Beat::Played && held <= most,
        }
    }
}

// What is left of a talk: the journals and the speech, and what the player counted.
#[derive(Drop)]
struct Left {
    journal: MemorySink,
    filed: MemorySink,
    speech: MemorySink,
    tally: PlayTally,
    sound: bool,
}

// The heads of the journals are written.
fn write_heads(g: u8, ports: &mut Ports, filed: &mut MemorySink) -> bool
    requires { g ≤ 10 }
{
    let head = Head {
        filers: 1,
        g,
        delay: 0,
    };
    let one = write_play_head(&head, &mut ports.journal).is_ok();
    let two = write_filer_head(&head, 0, filed).is_ok();
    one && two
}

// A talk of these steps, on a line with 2^g slots, whose player holds so many numbers at most.
fn talk_of(alloc: Global, g: u8, elastic: u32, steps: &[u8]) -> Result<Left, Fail>
    requires g { (1 ≤ g) × (g ≤ 10) }
    requires elastic { elastic ≤ 15 }
{
    let mut talk = Talk::new(alloc, g, elastic)?;
    talk = talk.open(g);
    for step in steps {
        if *step == BEAT {
            talk = talk.beat(elastic as u64);
        } else {
            let frame = frame_of(&octets_of(*step))?;
            talk = talk.file(*step, &frame);
        }
    }
    let Talk {
        player,
        side: _,
        beats: _,
        mut ports,
        mut filed,
        sound,
    } = talk;
    let one = write_end(&mut ports.journal).is_ok();
    let two = write_end(&mut filed).is_ok();
    Ok(Left {
        journal: ports.journal,
        filed,
        speech: ports.speaker,
        tally: player.tally(),
        sound: sound && one && two,
    })
}

fn filer_of(alloc: Global, octets: &[u8]) -> Result<FilerJournal, OutOfMemory> {
    let mut source = MemorySource::new(alloc, octets, 100, &[])?;
    match FilerJournal::read(alloc, &mut source) {
        Ok(journal) => Ok(journal),
        Err(_) => Err(OutOfMemory),
    }
}

fn player_of(alloc: Global, octets: &[u8]) -> Result<PlayerJournal, OutOfMemory> {
    let mut source = MemorySource::new(alloc, octets, 100, &[])?;
    match PlayerJournal::read(alloc, &mut source) {
        Ok(journal) => Ok(journal),
        Err(_) => Err(OutOfMemory),
    }
}

// The verdict on the journals, where they are of one line.
fn verdict_of(alloc: Global, left: &Left) -> Result<Option<Verdict>, OutOfMemory> {
    let mut filers: Vec<FilerJournal> = Vec::new(alloc);
    filers.push(filer_of(alloc, left.filed.octets())?)?;
    let player = player_of(alloc, left.journal.octets())?;
    if are_of_one_line(&filers, &player) {
        return Ok(Some(verify(alloc, &filers, &player)?));
    }
    Ok(None)
}

// The callers of a legal history, in their order; the filer is 0 and the player 1.
fn order_of(alloc: Global, left: &Left) -> Result<Vec<u8>, OutOfMemory> {
    let mut callers = Vec::new(alloc);
    if let Some(Verdict::Legal(order)) = verdict_of(alloc, left)? {
        for i in 0..order.len() {
            if *order.get(i) == 0 {
                callers.extend_from_slice(b"0")?;
            } else {
                callers.extend_from_slice(b"p")?;
            }
        }
    }
    Ok(callers)
}

// Whether the player's journal renders to what its speaker got, with what it counted.
fn gives_back(alloc: Global, left: &Left) -> Result<bool, OutOfMemory> {
    let mut journal = MemorySource::new(alloc, left.journal.octets(), 100, &[])?;
    let mut pcm = MemorySink::new(alloc, 8000, &[])?;
    let end = render(SEED, &mut journal, &mut pcm);
    Ok(end == RenderEnd::Done(left.tally) && *pcm.octets() == *left.speech.octets())
}

// Puts a piece of a journal, or the frame of a number.
fn put(text: &mut Vec<u8>, piece: &[u8], number: u8) -> Result<(), AllocError> {
    text.extend_from_slice(piece)?;
    text.extend_from_slice(&octets_of(number))?;
    Ok(())
}

// The tally of two beats that played a frame and one that passed.
fn two_frames(retired: u64) -> PlayTally {
    PlayTally {
        ticks: 2,
        frames: 2,
        erasures: 0,
        idle: 0,
        held: 1,
        retired,
    }
}

#[test]
fn a_late_frame_is_held_for(rt: HostRuntime) -> Result<(), Fail> {
    let alloc = rt.alloc();
    let left = talk_of(alloc, 2, 1, &[0, BEAT, BEAT, 1, BEAT])?;
    let mut text = Vec::new(alloc);
    put(
        &mut text,
        b"GSMGPJ01\x01\x02\0\0\x11\0\0\x03\xE8\x15\x13",
        0,
    )?;
    put(&mut text, b"\x14\x17\0\0\x13", 1)?;
    text.extend_from_slice(&[0xFF])?;
    assert!(rt; left.sound);
    assert!(rt; *left.journal.octets() == *text.as_slice());
    assert!(rt; left.tally == two_frames(0));
    assert!(rt; *order_of(alloc, &left)?.as_slice() == *b"00p0ppp0pp".as_slice());
    assert!(rt; gives_back(alloc, &left)?);
    Ok(())
}

#[test]
fn a_lost_frame_is_left_out(rt: HostRuntime) -> Result<(), Fail> {
    let alloc = rt.alloc();
    let left = talk_of(alloc, 2, 1, &[0, BEAT, BEAT, 2, BEAT])?;
    let mut text = Vec::new(alloc);
    put(
        &mut text,
        b"GSMGPJ01\x01\x02\0\0\x11\0\0\x03\xE8\x15\x13",
        0,
    )?;
    put(&mut text, b"\x14\x16\0\0\x17\0\x01\x18\x13", 2)?;
    text.extend_from_slice(&[0xFF])?;
    assert!(rt; left.sound);
    assert!(rt; *left.journal.octets() == *text.as_slice());
    assert!(rt; left.tally == two_frames(1));
    assert!(rt; *order_of(alloc, &left)?.as_slice() == *b"00p0p0pppppp".as_slice());
    assert!(rt; gives_back(alloc, &left)?);
    Ok(())
}

// The frames come in bursts: 1 and 2 three beats late, and 4 to 8 after the beats of 4 and 5. Frame 9 is lost.
const BURSTS: [u8; 26] = [
    0, BEAT, BEAT, BEAT, 1, 2, BEAT, 3, BEAT, BEAT, BEAT, BEAT, BEAT, 4, 5, 6, 7, 8, BEAT, 10,
    BEAT, 11, BEAT, BEAT, BEAT, BEAT,
];

#[test]
fn a_player_that_may_hold_three_bears_bursts(rt: HostRuntime) -> Result<(), Fail> {
    let alloc = rt.alloc();
    let left = talk_of(alloc, 4, 3, &BURSTS)?;
    assert!(rt; left.sound);
    let tally = PlayTally {
        ticks: 11,
        frames: 9,
        erasures: 2,
        idle: 0,
        held: 4,
        retired: 1,
    };
    assert!(rt; left.tally == tally);
    assert!(rt; left.speech.octets().len() == 4800);
    assert!(rt; matches!(verdict_of(alloc, &left)?, Some(Verdict::Legal(_))));
    assert!(rt; gives_back(alloc, &left)?);
    Ok(())
}
