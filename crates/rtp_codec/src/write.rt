// Writing a packet.
ghost use Rattle.std.specs.Prelude.{◌≡◌, ◌<◌, ◌≤◌, ◌+◌, ◌++◌, length, drop};
ghost use Rattle.rtp_codec.specs.Packets.{head_octets};

use crate::head::RtpHead;
use byteorder::{BigEndian, ByteOrder};

/// The octets of a fixed header.
fn head_octets(head: &RtpHead) -> [u8; 12]
    requires { head.now.payload_type < 128 }
    ensures { result ≡ head_octets head.now }
{
    let mut octets = [0; 12];
    octets[0] = 0x80;
    octets[1] = if head.marker { 0x80 } else { 0 } + head.payload_type;
    BigEndian::write_u16(&mut octets[2..], head.sequence);
    BigEndian::write_u32(&mut octets[4..], head.timestamp);
    BigEndian::write_u32(&mut octets[8..], head.ssrc);
    octets
}

/// Writes a packet to the beginning of the piece, and answers its length: the fixed header of version 2, with no
/// padding, extension or contributing sources (RFC 3550 section 5.1), and then the payload.
pub fn write_rtp(head: &RtpHead, payload: &[u8], into: &mut [u8]) -> usize
    requires payload_type { head.now.payload_type < 128 }
    requires room { 12 + length payload.now ≤ length into.old }
    ensures count { result ≡ 12 + length payload.now }
    ensures written { into.new ≡ head_octets head.now ++ (payload.now ++ drop result into.old) }
{
    let end = 12 + payload.len();
    into[..12].copy_from_slice(&head_octets(head));
    into[12..end].copy_from_slice(payload);
    end
}
