// Reading a packet.
ghost use Rattle.std.specs.Prelude.{◌≡◌, ◌≤◌, ◌<◌, ◌+◌, ◌*◌, ◌/◌, length, false, true, Some, None, IfOk, OnErr, OnOk, MatchResult};
ghost use Rattle.rtp_codec.specs.Grammar.{sources_end, header_end, lacks_extension, has_bad_padding, padding, first_unsigned, open_fault, rtp_fault};
ghost use Rattle.rtp_codec.specs.Packets.{head_of, packet_of};

use crate::fault::RtpFault;
use crate::head::RtpHead;
use crate::opened::RtpOpen;
use crate::view::RtpView;
use byteorder::{BigEndian, ByteOrder};

/// A part of a datagram does not fit. The caller knows which.
#[derive(Drop)]
struct Misfit;

/// Reads the packet of a datagram (RFC 3550 section 5.1), whatever its payload type is, or answers the first of
/// the first six cases of `RtpFault` that holds. The payload stays in the datagram.
pub fn read_head(datagram: &[u8]) -> Result<RtpOpen<'_>, RtpFault>
    ensures packet { IfOk result (λ o. o ≡ packet_of datagram.now) }
    ensures fault { MatchResult result (λ o. open_fault datagram.now ≡ None) (λ f. open_fault datagram.now ≡ Some f) }
{
    if datagram.len() >= 2048 {
        return Err(RtpFault::Oversize);
    }
    if datagram.len() < 12 {
        return Err(RtpFault::Short);
    }
    if datagram[0] / 64 != 2 {
        return Err(RtpFault::Version);
    }
    if datagram.len() < 12 + 4 * usize::from(datagram[0] % 16) {
        return Err(RtpFault::CsrcShort);
    }
    let Ok(body) = header_end(datagram) else {
        return Err(RtpFault::ExtensionShort);
    };
    let Ok(padded) = padding(datagram, body) else {
        return Err(RtpFault::Padding);
    };
    let payload = &datagram[body..datagram.len() - padded];
    Ok(RtpOpen::of(head_of(datagram), payload))
}

/// Reads the packet of a datagram (RFC 3550 section 5.1) whose payload is GSM full rate (RFC 3551 section
/// 4.5.8), or answers the first case of `RtpFault` that holds. The payload stays in the datagram.
#[tactic(auto, using(crate::specs::SignatureLaws::payload_if))]
pub fn read_rtp(datagram: &[u8]) -> Result<RtpView<'_>, RtpFault>
    ensures packet { IfOk result (λ v. v ≡ packet_of datagram.now) }
    ensures fault { MatchResult result (λ v. rtp_fault datagram.now ≡ None) (λ f. rtp_fault datagram.now ≡ Some f) }
{
    let (head, payload) = read_head(datagram)?.parts();
    if head.payload_type != 3 {
        return Err(RtpFault::OtherPayload(head.payload_type));
    }
    if payload.len() % 33 != 0 {
        return Err(RtpFault::Length);
    }
    if payload.len() > 330 {
        return Err(RtpFault::TooMany);
    }
    match first_unsigned(payload) {
        Some(place) => Err(RtpFault::Signature(place)),
        None => Ok(RtpView::of(head, payload)),
    }
}

/// The fields of the fixed header.
fn head_of(datagram: &[u8]) -> RtpHead
    requires { 12 ≤ length datagram.now }
    ensures { result ≡ head_of datagram.now }
{
    RtpHead {
        marker: datagram[1] / 128 == 1,
        payload_type: datagram[1] % 128,
        sequence: BigEndian::read_u16(&datagram[2..]),
        timestamp: BigEndian::read_u32(&datagram[4..]),
        ssrc: BigEndian::read_u32(&datagram[8..]),
    }
}

/// Where the payload begins: after the contributing sources, and after the extension if there is one.
fn header_end(datagram: &[u8]) -> Result<usize, Misfit>
    requires some { 12 ≤ length datagram.now }
    requires few { length datagram.now < 2048 }
    requires sources { sources_end datagram.now ≤ length datagram.now }
    ensures value { IfOk result (λ n. n ≡ header_end datagram.now) }
    ensures within { IfOk result (λ n. n ≤ length datagram.now) }
    ensures fits { OnOk result (lacks_extension datagram.now ≡ false) }
    ensures misfit { OnErr result (lacks_extension datagram.now ≡ true) }
{
    let end = 12 + 4 * usize::from(datagram[0] % 16);
    if datagram[0] / 16 % 2 != 1 {
        return Ok(end);
    }
    if datagram.len() < end + 4 {
        return Err(Misfit);
    }
    let words = usize::from(BigEndian::read_u16(&datagram[end + 2..]));
    if datagram.len() < end + 4 + 4 * words {
        return Err(Misfit);
    }
    Ok(end + 4 + 4 * words)
}

/// How many octets of padding end the datagram, whose header ends at `body`.
fn padding(datagram: &[u8], body: usize) -> Result<usize, Misfit>
    requires some { 12 ≤ length datagram.now }
    requires body { body ≡ header_end datagram.now }
    requires within { body ≤ length datagram.now }
    ensures value { IfOk result (λ n. n ≡ padding datagram.now) }
    ensures within { IfOk result (λ n. n + body ≤ length datagram.now) }
    ensures fits { OnOk result (has_bad_padding datagram.now ≡ false) }
    ensures misfit { OnErr result (has_bad_padding datagram.now ≡ true) }
{
    if datagram[0] / 32 % 2 != 1 {
        return Ok(0);
    }
    let count = usize::from(datagram[datagram.len() - 1]);
    if datagram.len() <= body || count == 0 || datagram.len() - body < count {
        return Err(Misfit);
    }
    Ok(count)
}

/// The place of the first frame whose first nibble is not 0xD (RFC 3551 section 4.5.8.1), counted from 0. Octets
/// behind the last whole frame are passed over.
pub fn first_unsigned(payload: &[u8]) -> Option<u8>
    requires few { length payload.now ≤ 330 }
    ensures { result ≡ first_unsigned 0 (length payload.now / 33) payload.now }
{
    for i in 0..payload.len() / 33 {
        if payload[33 * i] / 16 != 13 {
            return Some(i as u8);
        }
    }
    None
}
