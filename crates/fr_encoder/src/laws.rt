// A law of what is coded.
ghost use Rattle.fr_encoder.specs.Sameness.{CodingIsOne};

/// Coded speech of a list of pieces is one.
pub fn coding_is_one()
    ensures { CodingIsOne }
{}
