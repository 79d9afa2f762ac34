// A packet as it lies in its datagram.
ghost use Rattle.std.specs.Prelude.{◌≡◌, ◌<◌, ◌≤◌, ◌/◌, length};
ghost use Rattle.rtp_codec.specs.Packets.{IsPayload, frame_at};

use crate::head::RtpHead;
use frame_codec::{Frame33, frame_of};
use std::marker::Model;

/// A packet with its payload, which stays in the datagram: at most 10 whole frames.
#[derive(Drop)]
pub struct RtpView<'a> {
    head: RtpHead,
    payload: &'a [u8],
}

impl<'a> Model for RtpView<'a> {
    ghost use Rattle.rtp_codec.specs.Packets.{Packet, IsPayload};

    ghost Value = { Packet };

    ghost view = { λ v. record { head = v.head; payload = v.payload.now } };

    ghost invariant = { λ v. IsPayload v.payload.now };
}

impl<'a> RtpView<'a> {
    pub(crate) fn of(head: RtpHead, payload: &'a [u8]) -> Self
        requires { IsPayload payload.now }
        ensures { result ≡ record { head = head; payload = payload.entry.now } }
    {
        RtpView { head, payload }
    }

    /// The fields of the fixed header.
    pub fn head(&self) -> RtpHead
        ensures { result ≡ self.now.head }
    {
        self.head
    }

    /// The octets of the frames, 33 each.
    pub fn payload(&self) -> &[u8]
        ensures octets { result.now ≡ self.now.payload }
        ensures frames { IsPayload self.now.payload }
    {
        self.payload
    }

    /// How many frames there are: 0 to 10.
    pub fn count(&self) -> u32
        ensures count { result ≡ length self.now.payload / 33 }
        ensures few { result ≤ 10 }
    {
        (self.payload.len() / 33) as u32
    }

    /// The frame at a place, counted from 0 in the order of time (RFC 3551 section 4.5.8).
    pub fn frame(&self, i: u32) -> Frame33
        requires { i < length self.now.payload / 33 }
        ensures { result ≡ frame_at self.now.payload i }
    {
        let start = 33 * i as usize;
        let mut octets = [0; 33];
        octets.copy_from_slice(&self.payload[start..start + 33]);
        frame_of(&octets).unwrap()
    }
}
