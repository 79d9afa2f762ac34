// Reading a compound.
ghost use Rattle.std.specs.Prelude.{◌≡◌, ◌≤◌, ◌<◌, ◌+◌, ◌-◌, length, true, false, Some, None, IfOk, IfSome, MatchOption, MatchResult};
ghost use Rattle.rtcp_stats.specs.Compound.{packet_end, packet_fault, has_bad_padding, padding, least_size, rtcp_fault};
ghost use Rattle.rtcp_stats.specs.Reports.{reports_of};

use crate::fault::RtcpFault;
use crate::view::RtcpView;
use byteorder::{BigEndian, ByteOrder};

/// Reads the compound of a datagram (RFC 3550 section 6), or answers the first case of `RtcpFault` that
/// holds. The reports of the first packet stay in the datagram; other packets are passed over unread.
pub fn read_rtcp(datagram: &[u8]) -> Result<RtcpView<'_>, RtcpFault>
    ensures reports { IfOk result (λ v. v ≡ reports_of datagram.now) }
    ensures fault { MatchResult result (λ v. rtcp_fault datagram.now ≡ None) (λ f. rtcp_fault datagram.now ≡ Some f) }
{
    if datagram.len() >= 2048 {
        return Err(RtcpFault::Oversize);
    }
    let mut at = 0;
    'packets: loop {
        match end_of_packet(datagram, at) {
            Err(fault) => return Err(fault),
            Ok(end) if end == datagram.len() => return Ok(RtcpView::of(datagram)),
            Ok(end) => at = end,
        }
    }
}

/// Where the packet ends that begins at a place, or its fault.
fn end_of_packet(datagram: &[u8], at: usize) -> Result<usize, RtcpFault>
    requires few { length datagram.now < 2048 }
    requires within { at ≤ length datagram.now }
    ensures end { MatchResult result (λ n. (packet_fault datagram.now at ≡ None) × (n ≡ packet_end datagram.now at)) (λ f. packet_fault datagram.now at ≡ Some f) }
    ensures rises { IfOk result (λ n. at + 4 ≤ n) }
    ensures within { IfOk result (λ n. n ≤ length datagram.now) }
{
    let place = at as u32;
    if datagram.len() < at + 4 {
        return Err(RtcpFault::Cut { at: place });
    }
    let end = at + 4 * (usize::from(BigEndian::read_u16(&datagram[at + 2..])) + 1);
    if datagram.len() < end {
        return Err(RtcpFault::Cut { at: place });
    }
    if datagram[at] / 64 != 2 {
        return Err(RtcpFault::Version { at: place });
    }
    if at == 0 && datagram[1] != 200 && datagram[1] != 201 {
        return Err(RtcpFault::First);
    }
    let Some(padded) = padding(datagram, at, end) else {
        return Err(RtcpFault::Padding { at: place });
    };
    if end - at - padded < least_size(datagram, at) {
        return Err(RtcpFault::Body { at: place });
    }
    Ok(end)
}

/// How many octets of padding end the packet from `at` to `end`; `None` where the padding is bad.
fn padding(datagram: &[u8], at: usize, end: usize) -> Option<usize>
    requires few { length datagram.now < 2048 }
    requires some { at + 4 ≤ end }
    requires within { end ≤ length datagram.now }
    requires end { end ≡ packet_end datagram.now at }
    ensures value { MatchOption result (has_bad_padding datagram.now at ≡ true) (λ n. (has_bad_padding datagram.now at ≡ false) × (n ≡ padding datagram.now at)) }
    ensures within { IfSome result (λ n. n + at ≤ end) }
{
    if datagram[at] / 32 % 2 != 1 {
        return Some(0);
    }
    let count = usize::from(datagram[end - 1]);
    if end != datagram.len() || count == 0 || count % 4 != 0 || end - at - 4 < count {
        return None;
    }
    Some(count)
}

/// How many octets a packet of its type and count has at least.
fn least_size(datagram: &[u8], at: usize) -> usize
    requires { at + 1 < length datagram.now }
    ensures { result ≡ least_size datagram.now at }
{
    let count = usize::from(datagram[at] % 32);
    match datagram[at + 1] {
        200 => 28 + 24 * count,
        201 => 8 + 24 * count,
        203 => 4 + 4 * count,
        204 => 12,
        _ => 0,
    }
}
