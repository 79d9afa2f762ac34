// What follows from the definitions.
ghost use Rattle.g711_leg.specs.Codes.{ComesBack};
ghost use Rattle.g711_leg.specs.Legs.{GoesOut};

use gate_io::{Link, Sink};

/// A law, with nothing to run: the sample of a code is compressed to that code, but for 0x7F in mu-law, which gives
/// 0xFF.
pub fn comes_back()
    ensures { ComesBack }
{}

/// A law, with nothing to run: from before a `begin` that answered Ok to any later state of the leg with no count risen,
/// the speaker was given some octets, the `.au` file its head and the codes of the whole blocks of those since `begin`,
/// and the link sent the packets of these blocks, from the first number on.
pub fn goes_out<O: Sink, A: Sink, P: Link>()
    ensures { GoesOut O.Sink A.Sink P.Link }
{}
