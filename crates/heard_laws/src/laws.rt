// Laws of what is heard.
ghost use Rattle.heard_laws.specs.Rendered.{BeatsAreFew, JournalRenders, RunRenders};
ghost use Rattle.heard_laws.specs.Sameness.{HeardIsOne, SpeechIsOne};

use frame_codec::fields_are_one;
use recorder::player_journals_have_no_fault;

/// Decoded speech of a list of frames is one.
pub fn speech_is_one()
    ensures { SpeechIsOne }
{}

/// What is heard of a list of items is one.
pub fn heard_is_one()
    ensures { HeardIsOne }
{
    fields_are_one();
}

/// A player's journal of the calls of any beats is whole, and rendering it to its end gives the very samples that are
/// heard of the calls, which are those that a speaker gets. Where a give or a read fails, rendering has given what is
/// heard of all calls that were read; where a give failed, but for the last one, and a prefix of that.
pub fn journal_renders()
    ensures { JournalRenders }
{
    heard_is_one();
    player_journals_have_no_fault();
}

/// A beat makes four calls at most, and one where no number may be held.
pub fn beats_are_few()
    ensures { BeatsAreFew }
{}

/// The journal of a player's run that came to its end renders to the very octets that its speaker got, where it has no more
/// events than a journal may have.
pub fn run_renders()
    ensures { RunRenders }
{
    journal_renders();
}
