// One datagram of a link.
ghost use Rattle.std.specs.Prelude.{◌≡◌, ◌≢◌, ◌≤◌, ℕ, length, true, false};
ghost use Rattle.gate_base.specs.Faults.{Rose};
ghost use Rattle.filer.specs.Turns.{Turned, TookIn, is_quiet, standing};
ghost use Rattle.filer.specs.declared.turn.Turn.{Turn};

use crate::filer::Filer;
use crate::journal::write_outcome;
use crate::report::send_due;
use gate_io::{Link, Received, Sink};
use playout::FilerSide;

/// What came of one receive.
#[derive(Clone, Copy, Debug, PartialEq, Eq)]
pub enum Turn {
    /// A datagram was taken and journaled, and the report that it made due was sent.
    Went,
    /// Nothing has come.
    Idle,
    /// The link has ended.
    Ended,
    /// The link failed: at the receive, or at the report of a datagram that was taken and journaled.
    LinkFault,
    /// The journal failed at the events of a datagram that was taken. Its report is not sent.
    JournalFault,
}

impl Filer {
    /// Receives once. A datagram is taken, its events are given to the journal, and the report that it makes due
    /// is sent with its moment, in this order. The journal gets no end mark.
    pub fn turn<S: FilerSide, P: Link, J: Sink>(
        &mut self,
        side: &mut S,
        link: &mut P,
        journal: &mut J,
    ) -> Turn
        ensures turned { Turned S.did (standing self.old side.old (P.log link.old) (J.given journal.old)) (standing self.new side.new (P.log link.new) (J.given journal.new)) result }
        ensures quiet { is_quiet result ≡ true → (self.new ≡ self.old) × (side.new ≡ side.old) × (journal.new ≡ journal.old) }
        ensures ended { result ≡ Turn.Ended → P.ended link.new ≡ true }
        ensures stays { result ≢ Turn.Ended → P.ended link.new ≡ P.ended link.old }
        ensures link_later { P.faults link.old ≤ P.faults link.new }
        ensures link_fault { result ≡ Turn.LinkFault → Rose (P.faults link.old) (P.faults link.new) }
        ensures journal_later { J.faults journal.old ≤ J.faults journal.new }
        ensures journal_fault { result ≡ Turn.JournalFault → Rose (J.faults journal.old) (J.faults journal.new) }
        ensures kin { J.kin journal.old journal.new }
    {
        let mut piece = [0; 2048];
        match link.receive(&mut piece) {
            Err(_) => Turn::LinkFault,
            Ok(Received::Idle) => Turn::Idle,
            Ok(Received::Ended) => Turn::Ended,
            Ok(Received::Datagram { len, at }) => {
                self.take_in(side, &piece[..len], at, link, journal)
            }
        }
    }

    /// Takes a datagram that came, journals it, and sends the report that is due.
    fn take_in<S: FilerSide, P: Link, J: Sink>(
        &mut self,
        side: &mut S,
        datagram: &[u8],
        at: u32,
        link: &mut P,
        journal: &mut J,
    ) -> Turn
        requires { length datagram.now ≤ 2048 }
        ensures took { TookIn S.did (standing self.old side.old (P.log link.old) (J.given journal.old)) (standing self.new side.new (P.log link.new) (J.given journal.new)) datagram.now at result }
        ensures not_quiet { is_quiet result ≡ false }
        ensures stays { P.ended link.new ≡ P.ended link.old }
        ensures link_later { P.faults link.old ≤ P.faults link.new }
        ensures link_fault { result ≡ Turn.LinkFault → Rose (P.faults link.old) (P.faults link.new) }
        ensures journal_later { J.faults journal.old ≤ J.faults journal.new }
        ensures journal_fault { result ≡ Turn.JournalFault → Rose (J.faults journal.old) (J.faults journal.new) }
        ensures kin { J.kin journal.old journal.new }
    {
        let outcome = self.take_one(side, datagram, at);
        if write_outcome(datagram, &outcome, journal).is_err() {
            return Turn::JournalFault;
        }
        match send_due(self.own(), self.due(), link) {
            Ok(()) => Turn::Went,
            Err(_) => Turn::LinkFault,
        }
    }
}
