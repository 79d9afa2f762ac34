// Laws of lines.
ghost use Rattle.std.specs.Prelude.{◌≡◌, List, Some};
ghost use Rattle.command_line.specs.Lines.{Said, Text, line_of};
ghost use Rattle.command_line.specs.Ranges.{IsWithin};
ghost use Rattle.command_line.specs.Plain.{PlainDecode, PlainEncode, PlainVerify, PlainMake, PlainRender, PlainSimulate, PlainServe};

/// What a line says is in its ranges.
pub fn lines_are_within()
    ensures { (words : List Text) (said : Said) → line_of words ≡ Some said → IsWithin said }
{}

/// What a plain line of `decode` says.
pub fn plain_decode_lines()
    ensures { PlainDecode }
{}

/// What a plain line of `encode` says.
pub fn plain_encode_lines()
    ensures { PlainEncode }
{}

/// What a plain line of `verify` says.
pub fn plain_verify_lines()
    ensures { PlainVerify }
{}

/// What a plain line of `make` says.
pub fn plain_make_lines()
    ensures { PlainMake }
{}

/// What a plain line of `render` says.
pub fn plain_render_lines()
    ensures { PlainRender }
{}

/// What a plain line of `simulate` says.
pub fn plain_simulate_lines()
    ensures { PlainSimulate }
{}

/// What a plain line of `serve` says.
pub fn plain_serve_lines()
    ensures { PlainServe }
{}
