// Laws of the grammars.
ghost use Rattle.recorder.specs.Journals.{FilersHaveNoFault, FilersHaveOneFault, PlayersHaveNoFault, PlayersHaveOneFault};
ghost use Rattle.recorder.specs.Script.{ScriptsHaveNoFault, ScriptsHaveOneFault};

/// No input is both a script, of whatever head and events, and one with a first fault.
pub fn scripts_have_no_fault()
    ensures { ScriptsHaveNoFault }
{}

/// No input is both a filer's journal, of whatever head and events, and one with a first fault.
pub fn filer_journals_have_no_fault()
    ensures { FilersHaveNoFault }
{}

/// No input is both a player's journal, of whatever head and events, and one with a first fault.
pub fn player_journals_have_no_fault()
    ensures { PlayersHaveNoFault }
{}

/// A script has one first fault at most.
pub fn scripts_have_one_fault()
    ensures { ScriptsHaveOneFault }
{}

/// A filer's journal has one first fault at most.
pub fn filer_journals_have_one_fault()
    ensures { FilersHaveOneFault }
{}

/// A player's journal has one first fault at most.
pub fn player_journals_have_one_fault()
    ensures { PlayersHaveOneFault }
{}
