// Packing and unpacking give each other's argument back.
ghost use Rattle.std.specs.Prelude.{◌≡◌};
ghost use Rattle.frame_codec.specs.Inverses.{FieldsAreOne, FramesAreOne};

use crate::frame::Frame33;
use crate::packing::{pack, unpack};
use crate::params::Params;

/// Two frames that spell the same fields are the same.
pub fn frames_are_one()
    ensures { FramesAreOne }
{}

/// Fields within their widths that the same octets spell are the same.
pub fn fields_are_one()
    ensures { FieldsAreOne }
{}

/// The frame of the frame's own fields is the frame.
pub fn pack_of_unpack(frame: &Frame33) -> Frame33
    ensures same { result ≡ frame.now }
{
    pack(&unpack(frame))
}

/// The fields of the fields' own frame are the fields.
pub fn unpack_of_pack(params: &Params) -> Params
    ensures same { result ≡ params.now }
{
    unpack(&pack(params))
}
