// The reports of a compound as they lie in its datagram.
ghost use Rattle.std.specs.Prelude.{◌≡◌, ◌<◌, ◌≤◌, ◌+◌, length, slice_get, Some};
ghost use Rattle.rtcp_stats.specs.Reports.{HasReports, reports_of, block_at, blocks_start};

use crate::block::{ReportBlock, SenderInfo};
use byteorder::{BigEndian, ByteOrder};
use std::marker::Model;

/// The reports of a compound's first packet, which stay in the datagram.
#[derive(Drop)]
pub struct RtcpView<'a> {
    datagram: &'a [u8],
}

impl<'a> Model for RtcpView<'a> {
    ghost use Rattle.rtcp_stats.specs.Reports.{Reports, HasReports, reports_of};

    ghost Value = { Reports };

    ghost view = { λ v. reports_of v.datagram.now };

    ghost invariant = { λ v. HasReports v.datagram.now };
}

impl<'a> RtcpView<'a> {
    pub(crate) fn of(datagram: &'a [u8]) -> Self
        requires { HasReports datagram.now }
        ensures { result ≡ reports_of datagram.entry.now }
    {
        RtcpView { datagram }
    }

    /// What the sender says of itself; `None` exactly where the first packet is a receiver report.
    pub fn sender(&self) -> Option<SenderInfo>
        ensures { result ≡ self.now.sender }
    {
        if self.datagram[1] != 200 {
            return None;
        }
        Some(SenderInfo {
            ssrc: BigEndian::read_u32(&self.datagram[4..]),
            ntp: BigEndian::read_u64(&self.datagram[8..]),
            rtp: BigEndian::read_u32(&self.datagram[16..]),
            packets: BigEndian::read_u32(&self.datagram[20..]),
            octets: BigEndian::read_u32(&self.datagram[24..]),
        })
    }

    /// How many blocks there are: 0 to 31.
    pub fn block_count(&self) -> u32
        ensures count { result ≡ length self.now.blocks }
        ensures few { result ≤ 31 }
    {
        u32::from(self.datagram[0] % 32)
    }

    /// The block at a place, counted from 0.
    pub fn block(&self, i: u32) -> ReportBlock
        requires { i < length self.now.blocks }
        ensures { slice_get self.now.blocks i ≡ Some result }
    {
        read_block(self.datagram, blocks_start(self.datagram) + 24 * i as usize)
    }
}

/// Where the blocks begin.
fn blocks_start(datagram: &[u8]) -> usize
    requires { 2 ≤ length datagram.now }
    ensures { result ≡ blocks_start datagram.now }
{
    if datagram[1] == 200 { 28 } else { 8 }
}

/// The block that begins at a place.
fn read_block(datagram: &[u8], at: usize) -> ReportBlock
    requires { at + 24 ≤ length datagram.now }
    ensures { result ≡ block_at datagram.now at }
{
    ReportBlock {
        ssrc: BigEndian::read_u32(&datagram[at..]),
        fraction: datagram[at + 4],
        lost: BigEndian::read_i24(&datagram[at + 5..]),
        highest: BigEndian::read_u32(&datagram[at + 8..]),
        jitter: BigEndian::read_u32(&datagram[at + 12..]),
        lsr: BigEndian::read_u32(&datagram[at + 16..]),
        dlsr: BigEndian::read_u32(&datagram[at + 20..]),
    }
}
