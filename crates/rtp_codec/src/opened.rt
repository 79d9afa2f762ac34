// A packet of any payload type, as it lies in its datagram.
ghost use Rattle.std.specs.Prelude.{◌≡◌, ◌<◌, length};

use crate::head::RtpHead;
use std::marker::Model;

/// A packet with its payload, which stays in the datagram and may be of any type.
#[derive(Drop)]
pub struct RtpOpen<'a> {
    head: RtpHead,
    payload: &'a [u8],
}

impl<'a> Model for RtpOpen<'a> {
    ghost use Rattle.rtp_codec.specs.Packets.{Packet};
    ghost use Rattle.std.specs.Prelude.{◌<◌, length};

    ghost Value = { Packet };

    ghost view = { λ o. record { head = o.head; payload = o.payload.now } };

    ghost invariant = { λ o. length o.payload.now < 2048 };
}

impl<'a> RtpOpen<'a> {
    pub(crate) fn of(head: RtpHead, payload: &'a [u8]) -> Self
        requires { length payload.now < 2048 }
        ensures { result ≡ record { head = head; payload = payload.entry.now } }
    {
        RtpOpen { head, payload }
    }

    /// The fields of the fixed header.
    pub fn head(&self) -> RtpHead
        ensures { result ≡ self.now.head }
    {
        self.head
    }

    /// What follows the header, less the padding.
    pub fn payload(&self) -> &[u8]
        ensures octets { result.now ≡ self.now.payload }
        ensures short { length self.now.payload < 2048 }
    {
        self.payload
    }

    pub(crate) fn parts(self) -> (RtpHead, &'a [u8])
        ensures head { result.0 ≡ self.entry.head }
        ensures payload { result.1.now ≡ self.entry.payload }
    {
        (self.head, self.payload)
    }
}
