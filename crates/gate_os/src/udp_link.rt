// A link over a UDP socket.
ghost use Rattle.std.specs.Prelude.{◌≡◌, true, false, Ok, None, is_some, length, IsErr, IfOk};
ghost use Rattle.gate_base.specs.Faults.{HasCause};
ghost use Rattle.gate_io.specs.Links.{Receives, Sends, IsWithin, Ends};
ghost use Rattle.gate_io.specs.declared.received.Received.{Received};
ghost use Rattle.gate_os.specs.Edges.{EndsByLife, IsTimed, LifeState, SocketState, SenderKnown, TargetAfter, count_after, lasting, nanos_of};

use crate::life::Life;
use crate::reading::Reading;
use crate::udp_socket::{PolledSocket, address_of, open_towards};
use gate_base::{FaultCount, OutOfMemory};
use gate_io::{Failed, Link, Received};
use mio::Events;
use std::alloc::Global;
use std::io;
use std::io::ErrorKind;
use std::marker::Model;
use std::net::{Net, SocketAddr};
use std::sync::Wait;
use std::time::Clock;

/// A UDP socket that takes datagrams of up to 2048 octets, longer ones cut to that.
///
/// It waits at most 5 ms for a datagram. One second after the time of its ticks, of 20 ms, it has ended; its life begins
/// where it is bound, or where `begin` says. A socket that could not be bound fails at each call, and where the system's
/// clock cannot be read a receive fails.
#[derive(Drop)]
pub struct UdpLink<'a, R: Clock> {
    rt: &'a R,
    inside: Option<PolledSocket>,
    // Where datagrams go: the address that was given, or the last sender.
    there: Option<SocketAddr>,
    is_fixed: bool,
    life: Life,
    ended: bool,
    faults: FaultCount,
}

impl<'a, R: Clock> Model for UdpLink<'a, R> {
    ghost use Rattle.std.specs.Prelude.{◌≡◌, true, is_some};
    ghost use Rattle.gate_os.specs.Edges.{SocketState};

    ghost Value = { SocketState };

    ghost view = { λ s. record { is_bound = is_some s.inside; has_target = is_some s.there; is_fixed = s.is_fixed; life = s.life; ended = s.ended; faults = s.faults } };

    ghost invariant = { λ s. s.is_fixed ≡ true → is_some s.inside ≡ true → is_some s.there ≡ true };
}

impl<'a, R: Net + Clock + Wait + Sync> UdpLink<'a, R> {
    /// Binds a socket at `here`. Datagrams go to `there`, or to the last sender where `there` is empty; both are an
    /// address and a port. A `there` that is not empty and names no address is taken as a socket that could not be
    /// bound. The only error that is answered here is that memory is out.
    pub fn bind(
        rt: &'a R,
        alloc: Global,
        here: &str,
        there: &str,
        ticks: u64,
    ) -> Result<Self, OutOfMemory>
        ensures ended { IfOk result (λ s. s.ended ≡ false) }
        ensures life { IfOk result (λ s. s.life.lasts ≡ lasting ticks) }
        ensures counted { IfOk result (λ s. s.faults ≡ 0) }
        ensures to_senders { length there.now ≡ 0 → IfOk result (λ s. (s.has_target ≡ false) × (s.is_fixed ≡ false)) }
        ensures to_there { (length there.now ≡ 0 → ⊥) → IfOk result (λ s. s.is_bound ≡ true → s.has_target ≡ true) }
        ensures fixed { (length there.now ≡ 0 → ⊥) → IfOk result (λ s. s.is_fixed ≡ true) }
    {
        let events = Events::with_capacity(alloc, 1)?;
        let is_fixed = !there.is_empty();
        let target = if is_fixed {
            address_of(rt, there).ok()
        } else {
            None
        };
        let inside = if is_fixed && target.is_none() {
            None
        } else {
            PolledSocket::open(rt, events, here).ok()
        };
        Ok(UdpLink {
            rt,
            inside,
            there: target,
            is_fixed,
            life: Life::new(rt, ticks),
            ended: false,
            faults: FaultCount::new(),
        })
    }

    /// A link for what goes back to `there`, an address and a port, from the port of this link: a caller that takes speech only
    /// from where it sends to, or sends to where speech comes from, is served so (RFC 4961). Where this link is not bound, or
    /// `there` is of another family of addresses, the system chooses a port. It is for sending: a datagram that is received over it does not come
    /// over this link. The only error that is answered here is that memory is out.
    pub fn answering(&self, alloc: Global, there: &str, ticks: u64) -> Result<Self, OutOfMemory>
        ensures ended { IfOk result (λ s. s.ended ≡ false) }
        ensures life { IfOk result (λ s. s.life.lasts ≡ lasting ticks) }
        ensures counted { IfOk result (λ s. s.faults ≡ 0) }
        ensures to_there { IfOk result (λ s. s.is_bound ≡ true → s.has_target ≡ true) }
        ensures fixed { IfOk result (λ s. s.is_fixed ≡ true) }
    {
        let events = Events::with_capacity(alloc, 1)?;
        let target = address_of(self.rt, there).ok();
        let inside = match target {
            Some(there) => open_towards(self.rt, events, &self.inside, there).ok(),
            None => None,
        };
        Ok(UdpLink {
            rt: self.rt,
            inside,
            there: target,
            is_fixed: true,
            life: Life::new(self.rt, ticks),
            ended: false,
            faults: FaultCount::new(),
        })
    }
}

impl<'a, R: Clock> UdpLink<'a, R> {
    /// Lets the life of the link begin at this reading of the clock.
    pub fn begin(&mut self, start: Reading)
        ensures { self.new ≡ record self.old { life = record self.old.life { begun = nanos_of start } } }
    {
        self.life.begin(start);
    }
}

// The fault of a clock that cannot be read.
fn no_time() -> io::Error {
    io::Error::from(ErrorKind::Unsupported)
}

/// What the socket answers, and the sender of a datagram.
fn receive_from<R: Clock>(
    rt: &R,
    inside: &mut Option<PolledSocket>,
    life: &mut Life,
    into: &mut [u8; 2048],
) -> io::Result<(Received, Option<SocketAddr>)>
    ensures bound { is_some inside.new ≡ is_some inside.old }
    ensures open { IfOk result (λ _. is_some inside.old ≡ true) }
    ensures sender { IfOk result (λ p. SenderKnown p.0 p.1) }
    ensures within { IfOk result (λ p. IsWithin 2048 p.0) }
    ensures past { IfOk result (λ p. EndsByLife life.new p.0) }
    ensures timed { IfOk result (λ p. IsTimed life.new p.0) }
    ensures lasts { life.new ≡ record life.old { asked = life.new.asked; heard = life.new.heard } }
{
    let Some(socket) = inside else {
        return Err(io::Error::from(ErrorKind::NotConnected));
    };
    match life.ask(rt) {
        Some(true) => return Ok((Received::Ended, None)),
        Some(false) => {}
        None => return Err(no_time()),
    }
    let Some((len, from)) = socket.take(&mut into[..])? else {
        return Ok((Received::Idle, None));
    };
    match life.hear(rt) {
        Some(at) => Ok((Received::Datagram { len, at }, Some(from))),
        None => Err(no_time()),
    }
}

/// Whether the datagram was sent.
fn send_to(inside: &Option<PolledSocket>, there: Option<SocketAddr>, from: &[u8]) -> bool
    ensures unbound { is_some inside.now ≡ false → result ≡ false }
    ensures nowhere { is_some there ≡ false → result ≡ false }
{
    let (Some(socket), Some(there)) = (inside, there) else {
        return false;
    };
    matches!(socket.send_to(from, there), Ok(true))
}

impl<'a, R: Clock> Link for UdpLink<'a, R> {
    ghost log = { λ s. None };

    ghost ended = { λ s. s.ended };

    ghost faults = { λ s. s.faults };

    /// Takes the next datagram, after 5 ms at most. Behind its end it ends at each call. Each call that fails is one
    /// fault more, and no other call is.
    fn receive(&mut self, into: &mut [u8; 2048]) -> Result<Received, Failed>
        ensures within { IfOk result (IsWithin 2048) }
        ensures received { Receives None None result into.new }
        ensures ends { Ends self.old.ended self.new.ended result }
        ensures cause { HasCause self.old.faults self.new.faults result }

        ensures over { self.old.ended ≡ true → result ≡ Ok Received.Ended }
        ensures unbound { self.old.is_bound ≡ false → self.old.ended ≡ false → IsErr result }
        ensures bound { self.new.is_bound ≡ self.old.is_bound }
        ensures past { self.old.ended ≡ false → IfOk result (EndsByLife self.new.life) }
        ensures timed { IfOk result (IsTimed self.new.life) }
        ensures lasts { self.new.life ≡ record self.old.life { asked = self.new.life.asked; heard = self.new.life.heard } }
        ensures target { TargetAfter self.old.has_target self.new.has_target result }
        ensures fixed { self.new.is_fixed ≡ self.old.is_fixed }
        ensures counted { self.new.faults ≡ count_after result self.old.faults }
    {
        if self.ended {
            return Ok(Received::Ended);
        }
        match receive_from(self.rt, &mut self.inside, &mut self.life, into) {
            Ok((Received::Datagram { len, at }, from)) => {
                if !self.is_fixed {
                    self.there = from;
                }
                Ok(Received::Datagram { len, at })
            }
            Ok((Received::Idle, _)) => Ok(Received::Idle),
            Ok((Received::Ended, _)) => {
                self.ended = true;
                Ok(Received::Ended)
            }
            Err(_) => {
                self.faults.raise();
                Err(Failed)
            }
        }
    }

    /// Sends the datagram. It fails at least where the socket is not bound or nobody is known to send to. Each call
    /// that fails is one fault more, and no other call is.
    fn send(&mut self, from: &[u8]) -> Result<(), Failed>
        ensures sent { Sends None None result from.now }
        ensures stays { self.new.ended ≡ self.old.ended }
        ensures cause { HasCause self.old.faults self.new.faults result }

        ensures unbound { self.old.is_bound ≡ false → IsErr result }
        ensures nowhere { self.old.has_target ≡ false → IsErr result }
        ensures state { self.new ≡ record self.old { faults = count_after result self.old.faults } }
    {
        if send_to(&self.inside, self.there, from) {
            return Ok(());
        }
        self.faults.raise();
        Err(Failed)
    }
}

#[cfg(test)]
mod tests {
    use super::*;
    use crate::hand_clock::HandClock;
    use std::test::Fail;
    use std::time::{Duration, Instant};

    fn is_send<T: Send>(_: &T) {}

    // A link at a free port, and the text of its address.
    fn free<'a, R: Net + Clock + Wait + Sync + AllocGlobal>(
        rt: &'a R,
        there: &str,
        ticks: u64,
    ) -> Result<(UdpLink<'a, R>, String), Fail> {
        let link = UdpLink::bind(rt, rt.alloc(), "127.0.0.1:0", there, ticks)?;
        let Some(socket) = &link.inside else {
            return Err(Fail::from("no free port"));
        };
        let here = format!(in rt.alloc(); "{}", socket.here()?)?;
        Ok((link, here))
    }

    // The next datagram, where one comes within a second. Answers its length and moment.
    fn next<R: Clock>(link: &mut UdpLink<'_, R>, piece: &mut [u8; 2048]) -> Option<(usize, u32)> {
        for _ in 0..200 {
            match link.receive(piece) {
                Ok(Received::Datagram { len, at }) => return Some((len, at)),
                Ok(Received::Idle) => {}
                _ => return None,
            }
        }
        None
    }

    // The moment of the next datagram, where that has these octets.
    fn heard<R: Clock>(link: &mut UdpLink<'_, R>, octets: &[u8]) -> Option<u32> {
        let mut piece = [0; 2048];
        match next(link, &mut piece) {
            Some((len, at)) if len == octets.len() && piece.starts_with(octets) => Some(at),
            _ => None,
        }
    }

    fn hears<R: Clock>(link: &mut UdpLink<'_, R>, octets: &[u8]) -> bool {
        heard(link, octets).is_some()
    }

    fn sends<R: Clock>(link: &mut UdpLink<'_, R>, octets: &[u8]) -> bool {
        link.send(octets) == Ok(())
    }

    fn is_idle<R: Clock>(link: &mut UdpLink<'_, R>) -> bool {
        let mut piece = [0; 2048];
        link.receive(&mut piece) == Ok(Received::Idle)
    }

    fn is_over<R: Clock>(link: &mut UdpLink<'_, R>) -> bool {
        let mut piece = [0; 2048];
        link.receive(&mut piece) == Ok(Received::Ended)
    }

    fn has_failed<R: Clock>(link: &mut UdpLink<'_, R>) -> bool {
        let mut piece = [0; 2048];
        link.receive(&mut piece) == Err(Failed) && link.send(b"x") == Err(Failed)
    }

    // A link, and one that sends to it.
    fn pair<'a, R: Net + Clock + Wait + Sync + AllocGlobal>(
        rt: &'a R,
    ) -> Result<(UdpLink<'a, R>, UdpLink<'a, R>), Fail> {
        let (near, at_near) = free(rt, "", 1000)?;
        let (far, _) = free(rt, at_near.as_str(), 1000)?;
        Ok((near, far))
    }

    #[test]
    fn takes_and_sends_datagrams(rt: HostRuntime) -> Result<(), Fail> {
        let (mut near, mut far) = pair(&rt)?;
        is_send(&near);
        assert!(rt;
            !sends(&mut near, b"nobody")
                && is_idle(&mut near)
                && sends(&mut far, b"hello")
                && hears(&mut near, b"hello")
                && sends(&mut near, b"back")
                && hears(&mut far, b"back")
                && sends(&mut far, &[7; 2049])
                && hears(&mut near, &[7; 2048])
        );
        Ok(())
    }

    #[test]
    fn takes_a_burst_whole(rt: HostRuntime) -> Result<(), Fail> {
        let (mut near, mut far) = pair(&rt)?;
        assert!(rt;
            is_idle(&mut near)
                && is_idle(&mut near)
                && sends(&mut far, b"a")
                && sends(&mut far, b"bc")
                && sends(&mut far, b"def")
                && hears(&mut near, b"a")
                && hears(&mut near, b"bc")
                && hears(&mut near, b"def")
                && is_idle(&mut near)
        );
        Ok(())
    }

    #[test]
    fn answers_from_its_own_port(rt: HostRuntime) -> Result<(), Fail> {
        let (mut near, _) = free(&rt, "", 1000)?;
        let (mut far, at_far) = free(&rt, "", 1000)?;
        let mut back = near.answering(rt.alloc(), at_far.as_str(), 1000)?;
        assert!(rt;
            sends(&mut back, b"speech")
                && hears(&mut far, b"speech")
                && sends(&mut far, b"to where it came from")
                && hears(&mut near, b"to where it came from")
        );
        Ok(())
    }

    // Whether speech goes to its address also behind a datagram of another sender, which came to this one.
    fn stays<R: Net + Clock + Wait + Sync + AllocGlobal>(
        rt: &R,
        link: &mut UdpLink<'_, R>,
        here: &str,
        far: &mut UdpLink<'_, R>,
    ) -> Result<bool, Fail> {
        let (mut other, _) = free(rt, here, 1000)?;
        Ok(
            sends(&mut other, b"another")
                && hears(link, b"another")
                && sends(link, b"speech")
                && hears(far, b"speech"),
        )
    }

    #[test]
    fn a_given_address_stays(rt: HostRuntime) -> Result<(), Fail> {
        let (mut far, at_far) = free(&rt, "", 1000)?;
        let (mut fixed, at_fixed) = free(&rt, at_far.as_str(), 1000)?;
        let (near, at_near) = free(&rt, "", 1000)?;
        let mut back = near.answering(rt.alloc(), at_far.as_str(), 1000)?;
        assert!(rt;
            stays(&rt, &mut fixed, at_fixed.as_str(), &mut far)?
                && stays(&rt, &mut back, at_near.as_str(), &mut far)?
        );
        Ok(())
    }

    #[test]
    fn answers_without_a_port_of_its_own(rt: HostRuntime) -> Result<(), Fail> {
        let (mut far, at_far) = free(&rt, "", 1000)?;
        let shut = UdpLink::bind(&rt, rt.alloc(), "192.0.2.1:9", "", 1000)?;
        let mut alone = shut.answering(rt.alloc(), at_far.as_str(), 1000)?;
        let mut astray = far.answering(rt.alloc(), "no address", 1000)?;
        assert!(rt;
            sends(&mut alone, b"alone") && hears(&mut far, b"alone") && has_failed(&mut astray)
        );
        Ok(())
    }

    #[test]
    fn answers_over_the_later_protocol(rt: HostRuntime) -> Result<(), Fail> {
        let (near, _) = free(&rt, "", 1000)?;
        let mut far = UdpLink::bind(&rt, rt.alloc(), "[::1]:0", "", 1000)?;
        // A machine with the earlier protocol alone has nothing to show.
        let Some(socket) = &far.inside else {
            return Ok(());
        };
        let at_far = format!(in rt.alloc(); "{}", socket.here()?)?;
        let mut back = near.answering(rt.alloc(), at_far.as_str(), 1000)?;
        assert!(rt; sends(&mut back, b"later") && hears(&mut far, b"later"));
        Ok(())
    }

    // Whether a link ends within a thousand turns.
    fn ends<R: Clock>(link: &mut UdpLink<'_, R>) -> bool {
        let mut piece = [0; 2048];
        for _ in 0..1000 {
            if link.receive(&mut piece) == Ok(Received::Ended) {
                return true;
            }
        }
        false
    }

    #[test]
    fn ends_a_second_after_its_ticks(rt: HostRuntime) -> Result<(), Fail> {
        let begun = Instant::now(&rt)?;
        let (mut link, _) = free(&rt, "", 5)?;
        let has_ended = ends(&mut link);
        assert!(rt;
            has_ended && is_over(&mut link) && begun.elapsed(&rt)? >= Duration::from_millis(1100)
        );
        Ok(())
    }

    // A link of five ticks over a clock that is moved by hand, and the text of its address.
    fn by_hand<'a, R: Net + Clock + AllocGlobal>(
        rt: &R,
        hand: &'a HandClock,
    ) -> Result<(UdpLink<'a, HandClock>, String), Fail> {
        let events = Events::with_capacity(rt.alloc(), 1)?;
        let socket = PolledSocket::open(rt, events, "127.0.0.1:0")?;
        let here = format!(in rt.alloc(); "{}", socket.here()?)?;
        let link = UdpLink {
            rt: hand,
            inside: Some(socket),
            there: None,
            is_fixed: false,
            life: Life::new(hand, 5),
            ended: false,
            faults: FaultCount::new(),
        };
        Ok((link, here))
    }

    #[test]
    fn lives_from_where_it_is_begun(rt: HostRuntime) -> Result<(), Fail> {
        let hand = HandClock::new();
        let (mut link, _) = by_hand(&rt, &hand)?;
        hand.pass(Duration::from_secs(60));
        link.begin(Reading::now(&hand));
        let mut lives = is_idle(&mut link);
        hand.pass(Duration::from_millis(1099));
        lives &= is_idle(&mut link);
        hand.pass(Duration::from_millis(1));
        assert!(rt; lives && is_over(&mut link));
        Ok(())
    }

    #[test]
    fn a_moment_is_the_age_of_its_link(rt: HostRuntime) -> Result<(), Fail> {
        let hand = HandClock::new();
        let (mut near, at_near) = by_hand(&rt, &hand)?;
        let (mut far, _) = free(&rt, at_near.as_str(), 1000)?;
        hand.pass(Duration::from_millis(30));
        let first = sends(&mut far, b"first") && heard(&mut near, b"first") == Some(240);
        hand.pass(Duration::from_millis(20));
        let second = sends(&mut far, b"second") && heard(&mut near, b"second") == Some(400);
        assert!(rt; first && second);
        Ok(())
    }

    #[test]
    fn where_the_clock_cannot_be_read_a_receive_fails(rt: HostRuntime) -> Result<(), Fail> {
        let hand = HandClock::new();
        let (mut link, _) = by_hand(&rt, &hand)?;
        hand.fail();
        let mut piece = [0; 2048];
        assert_eq!(rt; link.receive(&mut piece), Err(Failed));
        Ok(())
    }

    #[test]
    fn what_cannot_be_bound_fails_at_each_call(rt: HostRuntime) -> Result<(), Fail> {
        let (_link, here) = free(&rt, "", 5)?;
        let mut taken = UdpLink::bind(&rt, rt.alloc(), here.as_str(), "", 1)?;
        let mut astray = UdpLink::bind(&rt, rt.alloc(), "127.0.0.1:0", "no address", 1)?;
        assert!(rt; has_failed(&mut taken) && has_failed(&mut taken) && has_failed(&mut astray));
        Ok(())
    }
}
