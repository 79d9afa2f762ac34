// The head of an .au file.
ghost use Rattle.std.specs.Prelude.{◌≡◌};
ghost use Rattle.g711_leg.specs.Legs.{au_head};

use crate::law::Law;
use byteorder::{BigEndian, ByteOrder};

/// The head: the magic number, its own length, a length of the data that is not known, the encoding in 8 bits by this
/// law, 8000 samples a second and one channel, each in 32 bits in network order.
pub fn au_head(law: Law) -> [u8; 24]
    ensures { result ≡ au_head law }
{
    let encoding = match law {
        Law::Mu => 1,
        Law::A => 27,
    };
    let mut head = [0; 24];
    BigEndian::write_u32(&mut head[..], 0x2E736E64);
    BigEndian::write_u32(&mut head[4..], 24);
    BigEndian::write_u32(&mut head[8..], 0xFFFFFFFF);
    BigEndian::write_u32(&mut head[12..], encoding);
    BigEndian::write_u32(&mut head[16..], 8000);
    BigEndian::write_u32(&mut head[20..], 1);
    head
}
