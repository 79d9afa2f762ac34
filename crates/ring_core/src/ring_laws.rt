// What holds of the ring, whoever steps next.
ghost use Rattle.ring_core.specs.RingLaws.{AllStepsKeepTheRule, CallersAreFresh, GatheredAreTheCalls, ListsAreTheCalls, OpeningMeetsTheRule, RuleHolds, SlotsAreNear};

/// The ring at the start meets the rule, for every number of filers and of slots.
pub fn opening_meets_the_rule()
    ensures { OpeningMeetsTheRule }
{}

/// Each kind of atomic step leads from any ring that meets the rule to one that meets it.
pub fn steps_keep_the_rule()
    ensures { AllStepsKeepTheRule }
{}

/// The rule holds after any events.
pub fn rule_holds()
    ensures { RuleHolds }
{}

/// What a caller knows, by its replies or by notes, shows in the words that it reads.
pub fn callers_are_fresh()
    ensures { CallersAreFresh }
{}

/// Every slot's number lies between the start and the last window.
pub fn slots_are_near()
    ensures { SlotsAreNear }
{}

/// The lists that a pool has gathered are its callers' in the history.
pub fn gathered_are_the_calls()
    ensures { GatheredAreTheCalls }
{}

/// A list of calls that a view has, or none where no view has one, is its caller's in the history.
pub fn lists_are_the_calls()
    ensures { ListsAreTheCalls }
{}
