// The journals of a line, as they are read.
ghost use Rattle.std.specs.Prelude.{ℕ, ◌≡◌, ◌≤◌, [], length, map, Some, None, Err, IfErr, IfOk, MatchResult};
ghost use Rattle.gate_base.specs.Faults.{Rose};
ghost use Rattle.recorder.specs.declared.fault.RecordFault.{RecordFault};
ghost use Rattle.replay_check.specs.Journals.{AreNumbered, AreOfOneLine};
ghost use Rattle.gate_notes.specs.Exchange.{NoneFell, SomeRose};
ghost use Rattle.journal_runs.specs.Verify.{FilerHasFault, PlayerHasFault, TellFilers, TellJournals, TellsFiler, TellsPlayer, filer_misfit, player_misfit};
ghost use Rattle.journal_runs.specs.VerifyRuns.{AreUnread, FilersUnread, LeavesBehind, LeavesFilersBehind, unread_at};

use gate_io::Source;
use recorder::{FilerJournal, Head, JournalRefusal, PlayerJournal, RecordEnd, RecordFault};
use std::alloc::Global;

/// The journals of one line: the player's, and one for each filer, in the order of their numbers.
#[derive(Drop)]
pub struct Journals {
    pub player: PlayerJournal,
    pub filers: Vec<FilerJournal>,
}

/// Why there are none.
#[derive(Clone, Copy, Debug, PartialEq, Eq)]
pub enum Unread {
    /// The input at this place, from 0, is the first that has a fault.
    Fault { input: u32, fault: RecordFault },
    /// An input could not be read.
    ReadFault,
    /// There was no memory.
    OutOfMemory,
}

// The same of one journal, by its input's place.
fn unread_at(input: u32, refusal: JournalRefusal) -> Unread
    ensures { result ≡ unread_at input refusal }
{
    match refusal {
        JournalRefusal::End(RecordEnd::Fault(fault)) => Unread::Fault { input, fault },
        JournalRefusal::End(RecordEnd::ReadFailed) => Unread::ReadFault,
        JournalRefusal::OutOfMemory => Unread::OutOfMemory,
    }
}

// The field of the player's head that does not fit so many filers' journals.
fn player_misfit(filers: usize, head: &Head) -> Option<RecordFault>
    ensures { result ≡ player_misfit filers head.now }
{
    if head.filers as usize == filers {
        None
    } else {
        Some(RecordFault::Field { at: 8 })
    }
}

// The first field of a filer's head that does not fit the line's head, where it is to be that of filer k.
fn filer_misfit(head: &Head, k: u8, journal: &FilerJournal) -> Option<RecordFault>
    ensures { result ≡ filer_misfit head.now k journal.now }
{
    let own = journal.head();
    if own.filers != head.filers {
        return Some(RecordFault::Field { at: 8 });
    }
    if own.g != head.g {
        return Some(RecordFault::Field { at: 9 });
    }
    if own.delay != head.delay {
        return Some(RecordFault::Field { at: 10 });
    }
    if journal.caller() != k {
        return Some(RecordFault::Field { at: 12 });
    }
    None
}

// Reads the player's journal, behind which so many inputs come.
fn read_player<I: Source>(
    alloc: Global,
    filers: usize,
    input: &mut I,
) -> Result<PlayerJournal, JournalRefusal>
    ensures told { IfOk result (λ p. TellsPlayer (I.left input.old) p × (p.head.filers ≡ filers)) }
    ensures fault { (f : RecordFault) → result ≡ Err (JournalRefusal.End (RecordEnd.Fault f)) → PlayerHasFault filers (I.left input.old) f }
    ensures later { I.faults input.old ≤ I.faults input.new }
    ensures failed { result ≡ Err (JournalRefusal.End RecordEnd.ReadFailed) → Rose (I.faults input.old) (I.faults input.new) }
{
    let journal = match PlayerJournal::read(alloc, input) {
        Ok(journal) => journal,
        Err(refusal) => return Err(refusal),
    };
    match player_misfit(filers, &journal.head()) {
        Some(fault) => Err(JournalRefusal::End(RecordEnd::Fault(fault))),
        None => Ok(journal),
    }
}

// Reads the journal of filer k, under the line's head.
fn read_filer<I: Source>(
    alloc: Global,
    head: &Head,
    k: u8,
    input: &mut I,
) -> Result<FilerJournal, JournalRefusal>
    ensures told { IfOk result (λ f. TellsFiler (I.left input.old) f × (f.head ≡ head.now) × (f.caller ≡ k)) }
    ensures fault { (f : RecordFault) → result ≡ Err (JournalRefusal.End (RecordEnd.Fault f)) → FilerHasFault head.now k (I.left input.old) f }
    ensures later { I.faults input.old ≤ I.faults input.new }
    ensures failed { result ≡ Err (JournalRefusal.End RecordEnd.ReadFailed) → Rose (I.faults input.old) (I.faults input.new) }
{
    let journal = match FilerJournal::read(alloc, input) {
        Ok(journal) => journal,
        Err(refusal) => return Err(refusal),
    };
    match filer_misfit(head, k, &journal) {
        Some(fault) => Err(JournalRefusal::End(RecordEnd::Fault(fault))),
        None => Ok(journal),
    }
}

// Reads the filers' journals, under the line's head.
fn read_filers<I: Source>(
    alloc: Global,
    head: &Head,
    inputs: &mut [I],
) -> Result<Vec<FilerJournal>, Unread>
    requires { length inputs.old ≡ head.now.filers }
    ensures read { MatchResult result
        (λ fs. TellFilers (map I.left inputs.old) fs.items × AreNumbered head.now 0 fs.items)
        (FilersUnread head.now (map I.left inputs.old)) }
    ensures later { NoneFell (map I.faults inputs.old) (map I.faults inputs.new) }
    ensures failed { result ≡ Err Unread.ReadFault → SomeRose (map I.faults inputs.old) (map I.faults inputs.new) }
    ensures behind { IfErr result (λ u. LeavesFilersBehind I.faults u inputs.old inputs.new) }
{
    let mut filers = Vec::new(alloc);
    'journals: for k in 0..head.filers {
        match read_filer(alloc, head, k, &mut inputs[k as usize]) {
            Ok(journal) => match filers.push(journal) {
                Ok(()) => {}
                Err(_) => return Err(Unread::OutOfMemory),
            },
            Err(refusal) => return Err(unread_at(k as u32 + 1, refusal)),
        }
    }
    Ok(filers)
}

/// Reads the journals of a line: the player's from the first input, and the filers' from the others, in their order.
/// Each is read whole, to its end mark, and its head judged before the next is taken.
pub fn read_journals<I: Source>(alloc: Global, inputs: &mut [I]) -> Result<Journals, Unread>
    requires { 1 ≤ length inputs.old }
    ensures read { MatchResult result
        (λ j. TellJournals (map I.left inputs.old) j.player j.filers.items × AreOfOneLine j.filers.items j.player)
        (AreUnread (map I.left inputs.old)) }
    ensures later { NoneFell (map I.faults inputs.old) (map I.faults inputs.new) }
    ensures failed { result ≡ Err Unread.ReadFault → SomeRose (map I.faults inputs.old) (map I.faults inputs.new) }
    ensures behind { IfErr result (λ u. LeavesBehind I.faults u inputs.old inputs.new) }
{
    let (first, rest) = inputs.split_at_mut(1);
    let player = match read_player(alloc, rest.len(), &mut first[0]) {
        Ok(player) => player,
        Err(refusal) => return Err(unread_at(0, refusal)),
    };
    match read_filers(alloc, &player.head(), rest) {
        Ok(filers) => Ok(Journals { player, filers }),
        Err(unread) => Err(unread),
    }
}
