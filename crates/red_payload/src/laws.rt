// That blocks and payloads stand for one another.
ghost use Rattle.red_payload.specs.Spelling.{AreReadBack, AreSpelled};

/// Laws, with nothing to run: a payload whose headers end and whose older blocks fit is spelled by its blocks, each
/// octet of it once; and what blocks spell is read as these blocks.
pub fn blocks_spell_payloads()
    ensures spelled { AreSpelled }
    ensures read_back { AreReadBack }
{}
