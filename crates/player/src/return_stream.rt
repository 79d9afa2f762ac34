// Return speech in packets.
ghost use Rattle.std.specs.Prelude.{◌≡◌, ◌≤◌, [], false};
ghost use Rattle.gate_base.specs.Faults.{HasCause, Rose};
ghost use Rattle.gate_io.specs.Links.{Sends};
ghost use Rattle.player.specs.Returning.{IsPacketOf, Returns, Streams, StreamsOn, gone_on, packet};
ghost use Rattle.player.specs.declared.return_stream.ReturnEnd.TheVariants as end;

use crate::pieces::take_piece;
use fr_encoder::Encoder;
use frame_codec::{Frame33, pack};
use gate_io::{Failed, Link, Source};
use rtp_codec::{RtpHead, write_rtp};
use std::marker::Model;

/// The payload type of full-rate frames (RFC 3551 section 6).
const PAYLOAD_TYPE: u8 = 3;

/// Samples of a packet: 20 ms at 8 kHz.
const SAMPLES: u32 = 160;

/// What came of a call.
#[derive(Clone, Copy, Debug, PartialEq, Eq)]
pub enum ReturnEnd {
    /// A packet was sent.
    Sent,
    /// The microphone has ended: nothing is sent from now on.
    Silent,
    /// The microphone failed. What came of the piece is lost, and the numbers stay.
    MicFault,
    /// The reply link failed. The numbers have risen as if the packet was sent.
    ReplyFault,
}

/// Speech of a microphone, coded and sent as RTP packets of one frame.
#[derive(Drop)]
pub struct ReturnStream {
    own: u32,
    sequence: u16,
    stamp: u32,
    ended: bool,
    encoder: Encoder,
}

impl Model for ReturnStream {
    ghost use Rattle.player.specs.Returning.{Stream};

    ghost Value = { Stream };

    ghost view = { λ s. record { own = s.own; sequence = s.sequence; stamp = s.stamp; ended = s.ended; encoder = s.encoder } };
}

impl ReturnStream {
    /// A stream of the source `own` that has sent nothing. Its first packet has this sequence number, and this
    /// timestamp in samples at 8 kHz.
    pub fn new(own: u32, sequence: u16, stamp: u32) -> Self
        ensures start { Streams own sequence stamp [] [] result }
        ensures open { result.ended ≡ false }
    {
        ReturnStream {
            own,
            sequence,
            stamp,
            ended: false,
            encoder: Encoder::new(),
        }
    }

    /// Takes the next piece of the microphone, 320 octets, codes it and sends it in a packet. A last piece is filled
    /// with zeros.
    pub fn send<I: Source, P: Link>(&mut self, microphone: &mut I, reply: &mut P) -> ReturnEnd
        ensures returns { Returns self.old self.new (I.left microphone.old) (I.left microphone.new) (P.log reply.old) (P.log reply.new) result }
        ensures goes_on { StreamsOn self.old self.new (I.left microphone.old) (I.left microphone.new) }
        ensures ended { P.ended reply.new ≡ P.ended reply.old }
        ensures later { (I.faults microphone.old ≤ I.faults microphone.new) × (P.faults reply.old ≤ P.faults reply.new) }
        ensures mic { result ≡ ReturnEnd.MicFault → Rose (I.faults microphone.old) (I.faults microphone.new) }
        ensures reply { result ≡ ReturnEnd.ReplyFault → Rose (P.faults reply.old) (P.faults reply.new) }
    {
        self.send_next(microphone, reply)
    }
}

impl ReturnStream {
    fn send_next<I: Source, P: Link>(&mut self, microphone: &mut I, reply: &mut P) -> ReturnEnd
        ensures returns { Returns self.old self.new (I.left microphone.old) (I.left microphone.new) (P.log reply.old) (P.log reply.new) result }
        ensures ended { P.ended reply.new ≡ P.ended reply.old }
        ensures later { (I.faults microphone.old ≤ I.faults microphone.new) × (P.faults reply.old ≤ P.faults reply.new) }
        ensures mic { result ≡ ReturnEnd.MicFault → Rose (I.faults microphone.old) (I.faults microphone.new) }
        ensures reply { result ≡ ReturnEnd.ReplyFault → Rose (P.faults reply.old) (P.faults reply.new) }
    {
        if self.ended {
            return ReturnEnd::Silent;
        }
        match take_piece(microphone) {
            Ok(Some(samples)) => {
                let octets = self.next(&samples);
                match reply.send(&octets) {
                    Ok(()) => ReturnEnd::Sent,
                    Err(Failed) => ReturnEnd::ReplyFault,
                }
            }
            Ok(None) => {
                self.ended = true;
                ReturnEnd::Silent
            }
            Err(Failed) => ReturnEnd::MicFault,
        }
    }

    // The packet of the next samples. The numbers go on.
    fn next(&mut self, samples: &[i16; 160]) -> [u8; 45]
        ensures packet { IsPacketOf self.old self.new samples.now result }
        ensures state { self.new ≡ gone_on self.old self.new.encoder }
    {
        let frame = pack(&self.encoder.encode(samples));
        let octets = packet_of(self.own, self.sequence, self.stamp, &frame);
        self.sequence = self.sequence.wrapping_add(1);
        self.stamp = self.stamp.wrapping_add(SAMPLES);
        octets
    }
}

// A packet of one frame.
fn packet_of(own: u32, sequence: u16, stamp: u32, frame: &Frame33) -> [u8; 45]
    ensures { result ≡ packet own sequence stamp frame.now }
{
    let head = RtpHead {
        marker: false,
        payload_type: PAYLOAD_TYPE,
        sequence,
        timestamp: stamp,
        ssrc: own,
    };
    let mut octets = [0; 45];
    write_rtp(&head, frame.octets(), &mut octets);
    octets
}
