use super::*;
use std::test::Fail;

// A receiver report with one block, and a source description.
const REPORT: [u8; 52] = [
    0x81, 0xC9, 0x00, 0x07, 0x00, 0x00, 0x00, 0x01, 0x12, 0x34, 0x56, 0x78, 0x00, 0xFF, 0xFF, 0xFF,
    0x00, 0x01, 0x00, 0x02, 0x00, 0x00, 0x00, 0x0B, 0x00, 0x00, 0x00, 0x00, 0x00, 0x00, 0x00, 0x00,
    0x81, 0xCA, 0x00, 0x04, 0x00, 0x00, 0x00, 0x01, 0x01, 0x07, 0x67, 0x73, 0x6D, 0x67, 0x61, 0x74,
    0x65, 0x00, 0x00, 0x00,
];

const BLOCK: ReportBlock = ReportBlock {
    ssrc: 305419896,
    fraction: 0,
    lost: -1,
    highest: 65538,
    jitter: 11,
    lsr: 0,
    dlsr: 0,
};

fn fault_of(octets: &[u8]) -> Option<RtcpFault> {
    read_rtcp(octets).err()
}

fn front(octets: &[u8; 64], size: usize) -> &[u8] {
    &octets[..size.min(64)]
}

#[test]
fn statistics_become_a_report(rt: HostRuntime) -> Result<(), Fail> {
    let mut receiver = Receiver::new();
    let packets = [
        (65534, 0, 1000, false),
        (65535, 160, 1160, true),
        (0, 320, 1330, true),
        (2, 640, 1640, true),
        (1, 480, 1650, true),
        (1, 480, 1660, true),
    ];
    for (sequence, timestamp, at, valid) in packets {
        assert_eq!(rt;
            receiver.note(sequence, timestamp, at),
            valid,
            "at {sequence}"
        );
    }
    let block = receiver.report(305419896, 0);
    assert_eq!(rt; block, BLOCK);
    let mut octets = [0xAA; 52];
    write_report(1, &block, &mut octets);
    assert_eq!(rt; octets, REPORT);
    let view = read_rtcp(&octets)?;
    let count = view.block_count();
    assert_eq!(rt; count, 1);
    assert_eq!(rt; view.block(0), block);
    assert_eq!(rt; view.sender(), None);
    first_faults();
    report_read_back();
    Ok(())
}

// Jumps ahead and back, a source that begins anew, the longest transit, sender reports heard. The numbers are
// those of a second program, written from the public standard.
#[test]
fn jumps_and_sender_reports_are_told(rt: HostRuntime) {
    let mut receiver = Receiver::new();
    assert!(rt; !receiver.note(10, 0, 0));
    let blank = ReportBlock {
        ssrc: 7,
        fraction: 0,
        lost: 0,
        highest: 0,
        jitter: 0,
        lsr: 0,
        dlsr: 0,
    };
    assert_eq!(rt; receiver.report(7, 9), blank);
    let start = [(12, 0, false), (13, 0, true), (23, 2147483648, true)];
    for (sequence, timestamp, valid) in start {
        assert_eq!(rt;
            receiver.note(sequence, timestamp, 0),
            valid,
            "at {sequence}"
        );
    }
    let torn = ReportBlock {
        fraction: 209,
        lost: 9,
        highest: 23,
        jitter: 134217728,
        ..blank
    };
    assert_eq!(rt; receiver.report(7, 9), torn);
    receiver.heard(0x123456789ABCDEF0, 4294967295);
    assert!(rt; !receiver.note(3100, 0, 0));
    assert!(rt; receiver.note(3022, 0, 0));
    let far = ReportBlock {
        fraction: 255,
        lost: 3007,
        highest: 3022,
        jitter: 260046848,
        lsr: 0x56789ABC,
        dlsr: 65536,
        ..blank
    };
    assert_eq!(rt; receiver.report(7, 7999), far);
    let later = ReportBlock {
        fraction: 0,
        dlsr: 4294967295,
        ..far
    };
    assert_eq!(rt; receiver.report(7, 4294967294), later);
    for (sequence, valid) in [(40000, false), (40001, true), (39902, true), (39901, false)] {
        assert_eq!(rt; receiver.note(sequence, 0, 0), valid, "at {sequence}");
    }
    let anew = ReportBlock {
        fraction: 0,
        lost: -1,
        highest: 40001,
        jitter: 228556800,
        dlsr: 8,
        ..far
    };
    assert_eq!(rt; receiver.report(7, 0), anew);
}

#[test]
fn each_octet_of_a_report_is_judged(rt: HostRuntime) {
    for place in 0..52 {
        let mut octets = REPORT;
        octets[place] = 0xFF;
        let fault = match place {
            0 => Some(RtcpFault::Version { at: 0 }),
            1 => Some(RtcpFault::First),
            2 | 3 => Some(RtcpFault::Cut { at: 0 }),
            32 => Some(RtcpFault::Version { at: 32 }),
            34 | 35 => Some(RtcpFault::Cut { at: 32 }),
            _ => None,
        };
        assert_eq!(rt; fault_of(&octets), fault, "at octet {place}");
    }
}

#[test]
fn the_first_fault_is_told(rt: HostRuntime) {
    assert_eq!(rt; fault_of(&[]), Some(RtcpFault::Cut { at: 0 }));
    assert_eq!(rt; fault_of(&[0; 2048]), Some(RtcpFault::Oversize));
    // first octet, type, length, octets of the datagram, a place and its octet
    let first = RtcpFault::First;
    let padding = RtcpFault::Padding { at: 0 };
    let body = RtcpFault::Body { at: 0 };
    let second = RtcpFault::Body { at: 8 };
    let table = [
        (0x80, 0xC9, 1, 8, 7, 1, None),
        (0x80, 0xC9, 2, 8, 7, 1, Some(RtcpFault::Cut { at: 0 })),
        (0x80, 0xCA, 1, 8, 7, 1, Some(first)),
        (0xA0, 0xC9, 2, 12, 11, 4, None),
        (0xA0, 0xC9, 2, 12, 11, 3, Some(padding)),
        (0xA0, 0xC9, 2, 12, 11, 12, Some(padding)),
        (0xA0, 0xC9, 2, 12, 11, 8, Some(body)),
        (0xA0, 0xC9, 1, 8, 7, 1, Some(padding)),
        (0xA0, 0xC9, 2, 13, 11, 4, Some(padding)),
        (0x81, 0xC9, 1, 8, 7, 1, Some(body)),
        (0x81, 0xC8, 6, 28, 7, 1, Some(body)),
        (0x80, 0xC8, 6, 28, 7, 1, None),
        (0x80, 0xC9, 1, 9, 7, 1, Some(RtcpFault::Cut { at: 8 })),
        (0x80, 0xC9, 1, 16, 9, 0xCB, None),
        (0x80, 0xC9, 1, 16, 9, 0xCC, Some(second)),
    ];
    for (octet, kind, words, size, place, value, fault) in table {
        let mut octets = [0; 64];
        octets[0] = octet;
        octets[1] = kind;
        octets[3] = words;
        octets[8] = 0x81;
        octets[11] = 1;
        octets[place.min(63)] = value;
        assert_eq!(rt;
            fault_of(front(&octets, size)),
            fault,
            "at {kind}, {size} octets"
        );
    }
}

#[test]
fn a_sender_is_told(rt: HostRuntime) -> Result<(), Fail> {
    let mut octets = [0; 28];
    for (place, octet) in octets.iter_mut().enumerate() {
        *octet = place as u8;
    }
    octets[..4].copy_from_slice(&[0x80, 200, 0, 6]);
    let view = read_rtcp(&octets)?;
    let sender = SenderInfo {
        ssrc: 0x04050607,
        ntp: 0x08090A0B0C0D0E0F,
        rtp: 0x10111213,
        packets: 0x14151617,
        octets: 0x18191A1B,
    };
    assert_eq!(rt; view.sender(), Some(sender));
    assert_eq!(rt; view.block_count(), 0);
    Ok(())
}
