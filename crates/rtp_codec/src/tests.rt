use super::*;
use std::test::Fail;

// 160 coded zeros.
const ZEROS: [u8; 33] = [
    0xD8, 0x20, 0xA2, 0xE1, 0x5A, 0x50, 0x00, 0x49, 0x24, 0x92, 0x49, 0x24, 0x50, 0x00, 0x49, 0x24,
    0x92, 0x49, 0x24, 0x50, 0x00, 0x49, 0x24, 0x92, 0x49, 0x24, 0x50, 0x00, 0x49, 0x24, 0x92, 0x49,
    0x24,
];

// The first two octets, and frames behind a header of so many octets. The rest is 0.
fn datagram(first: u8, second: u8, header: usize, frames: usize) -> [u8; 2048] {
    let mut octets = [0; 2048];
    octets[0] = first;
    octets[1] = second;
    for i in 0..frames.min(12) {
        let start = header.min(64) + 33 * i;
        octets[start..start + 33].copy_from_slice(&ZEROS);
    }
    octets
}

#[test]
fn each_refusal_comes_in_its_order(rt: HostRuntime) {
    let table = [
        (0x80, 3, 12, 2048, 2047, 0, RtpFault::Oversize),
        (0x80, 3, 0, 11, 2047, 0, RtpFault::Short),
        (0x40, 3, 1, 45, 2047, 0, RtpFault::Version),
        (0x4F, 3, 0, 12, 2047, 0, RtpFault::Version),
        (0x81, 3, 0, 15, 2047, 0, RtpFault::CsrcShort),
        (0x90, 3, 0, 15, 2047, 0, RtpFault::ExtensionShort),
        (0xB0, 3, 0, 16, 15, 1, RtpFault::ExtensionShort),
        (0xA0, 3, 0, 12, 2047, 0, RtpFault::Padding),
        (0xA0, 3, 1, 45, 44, 0, RtpFault::Padding),
        (0xA0, 13, 1, 45, 44, 34, RtpFault::Padding),
        (0x80, 13, 1, 45, 2047, 0, RtpFault::OtherPayload(13)),
        (0x80, 0xE5, 1, 44, 2047, 0, RtpFault::OtherPayload(101)),
        (0x80, 3, 1, 44, 2047, 0, RtpFault::Length),
        (0x80, 3, 11, 375, 45, 0xC8, RtpFault::TooMany),
        (0x80, 3, 2, 78, 45, 0xC8, RtpFault::Signature(1)),
    ];
    for (first, second, frames, size, place, octet, fault) in table {
        let mut octets = datagram(first, second, 12, frames);
        octets[place.min(2047)] = octet;
        assert_eq!(rt;
            read_rtp(&octets[..size.min(2048)]).err(),
            Some(fault),
            "at {fault:?} of {size} octets"
        );
        assert_eq!(rt;
            read_head(&octets[..size.min(2048)]).err(),
            of_head(fault),
            "the head at {fault:?} of {size} octets"
        );
    }
}

// A fault of the payload is none of the head's.
fn of_head(fault: RtpFault) -> Option<RtpFault> {
    match fault {
        RtpFault::OtherPayload(_) | RtpFault::Length | RtpFault::TooMany | RtpFault::Signature(_) =>
            None,
        other => Some(other),
    }
}

#[test]
fn a_packet_of_another_type_is_opened(rt: HostRuntime) -> Result<(), Fail> {
    let mut octets = datagram(0xA0, 97, 12, 0);
    octets[12] = 3;
    octets[14] = 2;
    let packet = &octets[..15];
    let open = read_head(packet)?;
    assert_eq!(rt; open.head().payload_type, 97);
    assert_eq!(rt; *open.payload(), *[3].as_slice());
    assert_eq!(rt; read_rtp(packet).err(), Some(RtpFault::OtherPayload(97)));
    Ok(())
}

// Contributing sources, extensions and padding that fit are passed over.
#[test]
fn what_is_not_payload_is_passed_over(rt: HostRuntime) -> Result<(), Fail> {
    let table = [
        (0x80, 12, 0, 12, 2047, 0, 0),
        (0x91, 20, 1, 53, 2047, 0, 1),
        (0x90, 20, 1, 53, 15, 1, 1),
        (0xA0, 12, 1, 49, 48, 4, 1),
        (0xA0, 12, 1, 45, 44, 33, 0),
        (0x80, 12, 10, 342, 2047, 0, 10),
    ];
    for (first, header, frames, size, place, octet, count) in table {
        let mut octets = datagram(first, 3, header, frames);
        octets[place.min(2047)] = octet;
        let view = read_rtp(&octets[..size.min(2048)])?;
        assert_eq!(rt; view.count(), count, "in {size} octets");
        for i in 0..view.count() {
            assert_eq!(rt; *view.frame(i).octets(), ZEROS);
        }
    }
    Ok(())
}

#[test]
fn a_packet_is_written_and_read(rt: HostRuntime) -> Result<(), Fail> {
    let head = RtpHead {
        marker: false,
        payload_type: 3,
        sequence: 1,
        timestamp: 1000,
        ssrc: 0x12345678,
    };
    let mut octets = [7; 47];
    assert_eq!(rt; write_rtp(&head, &ZEROS, &mut octets), 45);
    let front = [0x80, 3, 0, 1, 0, 0, 3, 0xE8, 0x12, 0x34, 0x56, 0x78, 0xD8];
    assert_eq!(rt; octets[..13], *front.as_slice());
    assert_eq!(rt; octets[44..], *[0x24, 7, 7].as_slice());
    let view = read_rtp(&octets[..45])?;
    assert_eq!(rt; view.head(), head);
    assert_eq!(rt; *view.payload(), *ZEROS.as_slice());
    let marked = RtpHead {
        marker: true,
        payload_type: 101,
        ..head
    };
    assert_eq!(rt; write_rtp(&marked, &[], &mut octets), 12);
    assert_eq!(rt; octets[1], 0xE5);
    read_back();
    Ok(())
}
