// What goes out behind the speaker: an .au file and packets.
ghost use Rattle.std.specs.Prelude.{◌≡◌, [], ◌∷◌};
ghost use Rattle.gate_base.specs.Faults.{HasCause};
ghost use Rattle.gate_io.specs.Flow.{Gives};
ghost use Rattle.g711_leg.specs.Legs.{GoesBy, OutCause, au_head, packet_of};

use crate::au::au_head;
use crate::codes::codes_of;
use crate::law::Law;
use gate_io::{Failed, Link, Sink};
use rtp_codec::{RtpHead, write_rtp};
use std::marker::Model;

/// Where the codes go, and what waits for a whole block.
#[derive(Drop)]
pub struct Out<A, P> {
    au: A,
    link: P,
    law: Law,
    own: u32,
    sequence: u16,
    stamp: u32,
    packets: u32,
    block: [u8; 320],
    filled: usize,
}

impl<A, P> Model for Out<A, P> {
    ghost use Rattle.std.specs.Prelude.{◌<◌, ◌^◌, take};
    ghost use Rattle.g711_leg.specs.Legs.{OutState};

    ghost Value = { OutState A P };

    ghost view = { λ s. record {
      au = s.au;
      link = s.link;
      start = record { law = s.law; own = s.own; sequence = s.sequence; stamp = s.stamp };
      rest = take s.filled s.block;
      packets = s.packets;
    } };

    ghost invariant = { λ s. (s.filled < 320) × (s.packets < 2 ^ 32) };
}

impl<A, P> Out<A, P> {
    /// Nothing was given yet.
    pub(crate) fn new(au: A, link: P, law: Law, own: u32, sequence: u16, stamp: u32) -> Self
        ensures { result ≡ record { au = au; link = link; start = record { law = law; own = own; sequence = sequence; stamp = stamp }; rest = []; packets = 0 } }
    {
        Out {
            au,
            link,
            law,
            own,
            sequence,
            stamp,
            packets: 0,
            block: [0; 320],
            filled: 0,
        }
    }
}

impl<A: Sink, P: Link> Out<A, P> {
    pub(crate) fn parts(self) -> (A, P)
        ensures { result ≡ (self.au, self.link) }
    {
        (self.au, self.link)
    }

    /// Begins again, and gives the head of the file.
    pub(crate) fn begin(
        &mut self,
        law: Law,
        own: u32,
        sequence: u16,
        stamp: u32,
    ) -> Result<(), Failed>
        ensures given { Gives (A.given self.old.au) (A.given self.new.au) result (au_head law) }
        ensures cause { HasCause (A.faults self.old.au) (A.faults self.new.au) result }
        ensures state { self.new ≡ record self.old {
          au = self.new.au;
          start = record { law = law; own = own; sequence = sequence; stamp = stamp };
          rest = [];
          packets = 0;
        } }
    {
        self.law = law;
        self.own = own;
        self.sequence = sequence;
        self.stamp = stamp;
        self.packets = 0;
        self.filled = 0;
        self.au.give(&au_head(law))
    }

    /// Gives the codes of each whole block and sends them in a packet, as the octets come. What is left waits.
    ///
    /// Where a part fails, the rest of the octets is lost, and what waits is of no use.
    pub(crate) fn take(&mut self, from: &[u8]) -> Result<(), Failed>
        ensures goes { GoesBy A.Sink P.Link self.old self.new result from.now }
        ensures cause { OutCause A.Sink P.Link self.old self.new result }
    {
        let _waiting = self.filled;
        for octet in from {
            if self.take_octet(*octet).is_err() {
                return Err(Failed);
            }
        }
        Ok(())
    }

    fn take_octet(&mut self, octet: u8) -> Result<(), Failed>
        ensures goes { GoesBy A.Sink P.Link self.old self.new result (octet ∷ []) }
        ensures cause { OutCause A.Sink P.Link self.old self.new result }
    {
        self.block[self.filled] = octet;
        if self.filled < 319 {
            self.filled += 1;
            return Ok(());
        }
        self.filled = 0;
        let block = self.block;
        self.send_block(&block)
    }

    /// Gives the codes of a block that does not wait any more, and sends them.
    fn send_block(&mut self, block: &[u8; 320]) -> Result<(), Failed>
        requires { self.old.rest ≡ [] }
        ensures goes { GoesBy A.Sink P.Link self.old self.new result block.now }
        ensures cause { OutCause A.Sink P.Link self.old self.new result }
    {
        let codes = codes_of(self.law, block);
        let packet = packet_of(
            self.law,
            self.own,
            self.sequence,
            self.stamp,
            self.packets,
            &codes,
        );
        self.packets = self.packets.wrapping_add(1);
        match self.au.give(&codes) {
            Ok(()) => self.link.send(&packet),
            Err(Failed) => Err(Failed),
        }
    }
}

/// The packet of this number: each has one sequence number and 160 samples, and they wrap.
fn packet_of(
    law: Law,
    own: u32,
    sequence: u16,
    stamp: u32,
    number: u32,
    codes: &[u8; 160],
) -> [u8; 172]
    ensures { result ≡ packet_of (record { law = law; own = own; sequence = sequence; stamp = stamp }) number codes.now }
{
    let payload_type = match law {
        Law::Mu => 0,
        Law::A => 8,
    };
    let head = RtpHead {
        marker: false,
        payload_type,
        sequence: sequence.wrapping_add((number % 65536) as u16),
        timestamp: stamp.wrapping_add(number.wrapping_mul(160)),
        ssrc: own,
    };
    let mut octets = [0; 172];
    write_rtp(&head, codes, &mut octets);
    octets
}
