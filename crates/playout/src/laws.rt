// What follows for every legal history.
ghost use Rattle.playout.specs.Plays.{AcceptedOnce, AheadIsLeast, PositionCountsMoves, RepliesAreOne, RetiresTakeAccepted, TicksPlayAccepted};
ghost use Rattle.playout.specs.Causes.{CausesGiveReplies, FirstIsHeld, JustOneCause, LooksTellAccepted, RepliesHaveCauses};

/// The number that the next tick or retire takes is the first one plus the ticks and retires before.
pub fn position_counts_moves()
    ensures { PositionCountsMoves }
{}

/// In a legal history a tick plays the frame that was accepted before under its number, or an erasure where none was.
pub fn ticks_play_accepted()
    ensures { TicksPlayAccepted }
{}

/// In a legal history a retire answers the frame that was accepted before under its number, or an erasure where none was.
pub fn retires_take_accepted()
    ensures { RetiresTakeAccepted }
{}

/// In a legal history at most one call is accepted under a number, and its frame is played at most once: exactly once where the tick of
/// that number is there. A number that was retired has no tick, and each other one that was passed has one.
pub fn accepted_once()
    ensures { AcceptedOnce }
{}

/// The callers and their arguments, in order, leave just one legal history: no reply is free.
pub fn replies_are_one()
    ensures { RepliesAreOne }
{}

/// The number that the reply to a late or an early frame has is the least that is still to come and has its slot.
pub fn ahead_is_least()
    ensures { AheadIsLeast }
{}

/// In a legal history Late comes only to a number whose tick or retire is past, Beyond only to one that lies a window or more ahead, both with the
/// least number to come of its slot; Duplicate only where a frame was accepted under the number before and waits; and Accepted only
/// within the window, where none was.
pub fn replies_have_causes()
    ensures { RepliesHaveCauses }
{}

/// Behind a legal history a filing that is answered by its cause is legal.
pub fn causes_give_replies()
    ensures { CausesGiveReplies }
{}

/// Behind a legal history just one reply to a number has its cause.
pub fn causes_are_one()
    ensures { JustOneCause }
{}

/// In a legal history the source and the base that are held are those that were said first.
pub fn first_is_held()
    ensures { FirstIsHeld }
{}

/// In a legal history a look tells whether a frame was accepted before under the number so many ahead of the next, and a hold whether none
/// was under the next number.
pub fn looks_tell_accepted()
    ensures { LooksTellAccepted }
{}
