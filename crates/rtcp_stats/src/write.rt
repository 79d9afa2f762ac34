// Writing a report.
ghost use Rattle.std.specs.Prelude.{◌≡◌, ◌++◌, length, ◌+ℤ◌, ◌≤ℤ◌, ◌<ℤ◌, pos};
ghost use Rattle.rtcp_stats.specs.Writing.{FitsLost, block_octets, report_octets};

use crate::block::ReportBlock;
use byteorder::{BigEndian, ByteOrder};

/// Behind the receiver report: a source description of one chunk, whose canonical name is `gsmgate`.
const NAME: [u8; 20] = *b"\x81\xCA\x00\x04\x00\x00\x00\x00\x01\x07gsmgate\x00\x00\x00";

/// Writes a compound of a receiver report with one block and a source description with the canonical name
/// `gsmgate`, both of the source `own` (RFC 3550 sections 6.4.2 and 6.5).
pub fn write_report(own: u32, block: &ReportBlock, into: &mut [u8; 52])
    requires { FitsLost block.now.lost }
    ensures { into.new ≡ report_octets own block.now }
{
    into[..4].copy_from_slice(&[0x81, 201, 0, 7]);
    BigEndian::write_u32(&mut into[4..], own);
    into[8..32].copy_from_slice(&block_octets(block));
    into[32..].copy_from_slice(&NAME);
    BigEndian::write_u32(&mut into[36..], own);
}

/// The octets of a block.
fn block_octets(block: &ReportBlock) -> [u8; 24]
    ensures { result ≡ block_octets block.now }
{
    let mut octets = [0; 24];
    BigEndian::write_u32(&mut octets[..], block.ssrc);
    octets[4] = block.fraction;
    BigEndian::write_i24(&mut octets[5..], block.lost);
    BigEndian::write_u32(&mut octets[8..], block.highest);
    BigEndian::write_u32(&mut octets[12..], block.jitter);
    BigEndian::write_u32(&mut octets[16..], block.lsr);
    BigEndian::write_u32(&mut octets[20..], block.dlsr);
    octets
}
