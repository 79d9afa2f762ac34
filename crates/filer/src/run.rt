// A filer from its first datagram to the end of its link.
ghost use Rattle.std.specs.Prelude.{◌≡◌, ◌≤◌, ℕ, true};
ghost use Rattle.gate_base.specs.Faults.{Rose};
ghost use Rattle.filer.specs.Turns.{RunEnds, Stopped, standing};
ghost use Rattle.filer.specs.declared.run.FilerEnd.{FilerEnd};

use crate::filer::Filer;
use crate::turn::Turn;
use gate_io::{Link, Sink};
use playout::FilerSide;
use recorder::write_end;
use std::sync::Wait;

/// How a filer's run ended.
#[derive(Clone, Copy, Debug, PartialEq, Eq)]
pub enum FilerEnd {
    /// The link ended, and the journal was given its end mark.
    Ended,
    /// The link failed. The end mark was offered to the journal all the same.
    LinkFault,
    /// The journal failed, at the events of a datagram or at the end mark.
    JournalFault,
}

impl Filer {
    /// Takes turns until the link ends or a fault comes, and then gives the journal its end mark, but for a
    /// journal that has failed. The journal's head is the caller's to give. It waits as long as the link does.
    pub fn run<R: Wait, S: FilerSide, P: Link, J: Sink>(
        &mut self,
        rt: &R,
        side: &mut S,
        link: &mut P,
        journal: &mut J,
    ) -> FilerEnd
        ensures ran { RunEnds S.FilerSide P.Link J.Sink self.old side.old link.old journal.old self.new side.new link.new journal.new result }
        ensures ended { result ≡ FilerEnd.Ended → P.ended link.new ≡ true }
        ensures link_later { P.faults link.old ≤ P.faults link.new }
        ensures link_fault { result ≡ FilerEnd.LinkFault → Rose (P.faults link.old) (P.faults link.new) }
        ensures journal_later { J.faults journal.old ≤ J.faults journal.new }
        ensures journal_fault { result ≡ FilerEnd.JournalFault → Rose (J.faults journal.old) (J.faults journal.new) }
        ensures kin { J.kin journal.old journal.new }
    {
        match self.run_on(rt, side, link, journal) {
            FilerEnd::Ended => {
                if write_end(journal).is_err() {
                    return FilerEnd::JournalFault;
                }
                FilerEnd::Ended
            }
            FilerEnd::LinkFault => {
                let _offered = write_end(journal);
                FilerEnd::LinkFault
            }
            FilerEnd::JournalFault => FilerEnd::JournalFault,
        }
    }

    /// Takes turns until one of them ends the run. The journal gets no end mark.
    fn run_on<R: Wait, S: FilerSide, P: Link, J: Sink>(
        &mut self,
        rt: &R,
        side: &mut S,
        link: &mut P,
        journal: &mut J,
    ) -> FilerEnd
        ensures stopped { Stopped S.did (standing self.old side.old (P.log link.old) (J.given journal.old)) (standing self.new side.new (P.log link.new) (J.given journal.new)) result }
        ensures ended { result ≡ FilerEnd.Ended → P.ended link.new ≡ true }
        ensures link_later { P.faults link.old ≤ P.faults link.new }
        ensures link_fault { result ≡ FilerEnd.LinkFault → Rose (P.faults link.old) (P.faults link.new) }
        ensures journal_later { J.faults journal.old ≤ J.faults journal.new }
        ensures journal_fault { result ≡ FilerEnd.JournalFault → Rose (J.faults journal.old) (J.faults journal.new) }
        ensures kin { J.kin journal.old journal.new }
    {
        for _ in rt.forever() {
            match self.turn(side, link, journal) {
                Turn::Went => {}
                Turn::Idle => {}
                Turn::Ended => return FilerEnd::Ended,
                Turn::LinkFault => return FilerEnd::LinkFault,
                Turn::JournalFault => return FilerEnd::JournalFault,
            }
        }
        unreachable!()
    }
}
