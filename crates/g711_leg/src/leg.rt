// A speaker with what goes out behind it.
ghost use Rattle.std.specs.Prelude.{◌≡◌, true, false, is_ok, OnErr, []};
ghost use Rattle.gate_base.specs.Faults.{HasCause};
ghost use Rattle.gate_io.specs.Flow.{Gives};
ghost use Rattle.g711_leg.specs.LegLaws.{leg_after, same_leg};
ghost use Rattle.g711_leg.specs.Legs.{AnyRose, GoesOn, IsKin, NoneFell, au_head, leg_faults};

use crate::law::Law;
use crate::outlet::Out;
use gate_io::{Failed, Link, Sink};
use std::marker::Model;

/// A speaker whose speech, of 16 bits at 8 kHz, also goes out in G.711: as an `.au` file and in RTP packets of 20 ms.
///
/// It takes no memory.
#[derive(Drop)]
pub struct Leg<O, A, P> {
    speaker: O,
    out: Out<A, P>,
    called: bool,
    ready: bool,
}

impl<O, A, P> Model for Leg<O, A, P> {
    ghost use Rattle.g711_leg.specs.Legs.{LegState};

    ghost Value = { LegState O A P };

    ghost view = { λ s. record {
      speaker = s.speaker;
      au = s.out.au;
      link = s.out.link;
      called = s.called;
      ready = s.ready;
      start = s.out.start;
      rest = s.out.rest;
      packets = s.out.packets;
    } };
}

impl<O: Sink, A: Sink, P: Link> Leg<O, A, P> {
    /// A leg of these three, on which `begin` was not called: what it is given goes to the speaker alone.
    pub fn new(speaker: O, au: A, link: P) -> Self
        ensures speaker { result.speaker ≡ speaker }
        ensures au { result.au ≡ au }
        ensures link { result.link ≡ link }
        ensures called { result.called ≡ false }
        ensures ready { result.ready ≡ false }
    {
        Leg {
            speaker,
            out: Out::new(au, link, Law::Mu, 0, 0, 0),
            called: false,
            ready: false,
        }
    }

    /// The three again.
    pub fn parts(self) -> (O, A, P)
        ensures { result ≡ (self.speaker, self.au, self.link) }
    {
        let (au, link) = self.out.parts();
        (self.speaker, au, link)
    }

    /// Sets the law, and the source, the first sequence number and the first timestamp of the packets, and gives the head
    /// of the `.au` file: a length of the data that is not known, codes of 8 bits, 8000 samples a second, one channel.
    ///
    /// Where that fails, what is given later still goes to the speaker alone.
    pub fn begin(&mut self, law: Law, own: u32, sequence: u16, stamp: u32) -> Result<(), Failed>
        requires { self.old.called ≡ false }
        ensures given { Gives (A.given self.old.au) (A.given self.new.au) result (au_head law) }
        ensures cause { HasCause (A.faults self.old.au) (A.faults self.new.au) result }
        ensures counted { HasCause (leg_faults O.Sink A.Sink P.Link self.old) (leg_faults O.Sink A.Sink P.Link self.new) result }
        ensures state { self.new ≡ record self.old {
          au = self.new.au;
          called = true;
          ready = is_ok result;
          start = record { law = law; own = own; sequence = sequence; stamp = stamp };
          rest = [];
          packets = 0;
        } }
    {
        let begun = self.out.begin(law, own, sequence, stamp);
        self.called = true;
        self.ready = begun.is_ok();
        begun
    }
}

impl<O: Sink, A: Sink, P: Link> Leg<O, A, P> {
    fn give_on(&mut self, from: &[u8]) -> Result<(), Failed>
        ensures given { Gives (O.given self.old.speaker) (O.given self.new.speaker) result from.now }
        ensures later { NoneFell O.Sink A.Sink P.Link self.old self.new }
        ensures failed { OnErr result (AnyRose O.Sink A.Sink P.Link self.old self.new) }
        ensures called { self.new.called ≡ self.old.called }
        ensures ready { self.new.ready ≡ self.old.ready }
        ensures start { self.new.start ≡ self.old.start }
        ensures alone { self.old.ready ≡ false → self.new ≡ record self.old { speaker = self.new.speaker } }
        ensures goes { self.old.ready ≡ true → GoesOn O.Sink A.Sink P.Link self.old self.new result from.now }
    {
        match self.speaker.give(from) {
            Ok(()) => {
                if self.ready {
                    self.out.take(from)
                } else {
                    Ok(())
                }
            }
            Err(Failed) => Err(Failed),
        }
    }
}

impl<O: Sink, A: Sink, P: Link> Sink for Leg<O, A, P> {
    ghost given = { λ s. O.given s.speaker };

    ghost faults = { λ s. leg_faults O.Sink A.Sink P.Link s };

    ghost kin = { λ a b. IsKin O.Sink A.Sink P.Link a b };

    /// Gives the octets to the speaker. Where `begin` has answered Ok, each full 320 octets since are then given to the
    /// `.au` file as 160 codes, and sent in a packet. A rest waits for the next give.
    ///
    /// Where a part fails, the parts behind it get nothing more of these octets, and what waits is of no use.
    fn give(&mut self, from: &[u8]) -> Result<(), Failed>
        ensures given { Gives (O.given self.old.speaker) (O.given self.new.speaker) result from.now }
        ensures cause { HasCause (leg_faults O.Sink A.Sink P.Link self.old) (leg_faults O.Sink A.Sink P.Link self.new) result }
        ensures kin { IsKin O.Sink A.Sink P.Link self.old self.new }

        ensures failed { OnErr result (AnyRose O.Sink A.Sink P.Link self.old self.new) }
        ensures alone { self.old.ready ≡ false → self.new ≡ record self.old { speaker = self.new.speaker } }
        ensures goes { self.old.ready ≡ true → GoesOn O.Sink A.Sink P.Link self.old self.new result from.now }
    {
        self.give_on(from)
    }

    ghost kin_same = { λ s. same_leg O.Sink.own A.Sink.own P.Link.own s };

    ghost kin_after = { λ a b c p q. leg_after O.Sink.own A.Sink.own P.Link.own a b c p q };
}
