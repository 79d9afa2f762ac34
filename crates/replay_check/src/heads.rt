// Whether journals are those of one line.
ghost use Rattle.std.specs.Prelude.{◌≡◌, ◌↔◌, IsTrue};
ghost use Rattle.replay_check.specs.Journals.{AreOfOneLine};

use recorder::{FilerJournal, Head, PlayerJournal};

// Whether the journal has this head and is that of this filer.
fn is_of(filer: &FilerJournal, head: &Head, caller: usize) -> bool
    ensures { IsTrue result ↔ ((filer.now.head ≡ head.now) × (filer.now.caller ≡ caller)) }
{
    filer.head() == *head && filer.caller() as usize == caller
}

/// Whether all heads are equal, and there is a journal for each filer, in the order of their numbers. `verify` wants
/// such journals.
pub fn are_of_one_line(filers: &Vec<FilerJournal>, player: &PlayerJournal) -> bool
    ensures { IsTrue result ↔ AreOfOneLine filers.now.items player.now }
{
    let head = player.head();
    if filers.len() != head.filers as usize {
        return false;
    }
    'journals: for (k, filer) in filers.iter().enumerate() {
        if !is_of(filer, &head, k) {
            return false;
        }
    }
    true
}
