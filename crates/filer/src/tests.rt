use super::*;
use playout::{FileReply, MapFiler, MapLine};
use rtcp_stats::RtcpFault;
use rtp_codec::RtpFault;
use std::test::Fail;

// A packet of one frame from the source 0x12345678.
fn packet(sequence: u8, timestamp: u32) -> [u8; 45] {
    let mut octets = [0; 45];
    octets[0] = 0x80;
    octets[1] = 3;
    octets[3] = sequence;
    octets[4..8].copy_from_slice(&timestamp.to_be_bytes());
    octets[8..12].copy_from_slice(&[0x12, 0x34, 0x56, 0x78]);
    octets[12] = 0xD8;
    octets
}

// How a datagram ended, in plain values.
#[derive(Clone, Copy, Debug, PartialEq, Eq)]
pub enum Came {
    Filed(u64, FileReply),
    Stranger(u32, u32),
    Empty,
    Refused(RtpFault),
    Rtcp,
    RtcpRefused(RtcpFault),
    Other,
}

pub fn came_of(end: &OutcomeEnd) -> Came {
    match end {
        OutcomeEnd::Rtcp => Came::Rtcp,
        OutcomeEnd::RtcpRefused(fault) => Came::RtcpRefused(*fault),
        OutcomeEnd::RtpRefused(fault) => Came::Refused(*fault),
        OutcomeEnd::Empty => Came::Empty,
        OutcomeEnd::Stranger { ssrc, held } => Came::Stranger(*ssrc, *held),
        OutcomeEnd::Filed { first, replies } if replies.len() == 1 => {
            Came::Filed(*first, *replies.get(0))
        }
        OutcomeEnd::Filed { .. } => Came::Other,
    }
}

// The source and the base that a datagram of at most 64 octets said, and how it ended.
fn taken(
    filer: &mut Filer,
    side: &mut MapFiler,
    datagram: &[u8],
    at: u32,
) -> (Option<Asked>, Option<Asked>, Came) {
    let mut piece = [0; 64];
    let len = datagram.len().min(64);
    piece[..len].copy_from_slice(&datagram[..len]);
    let outcome = filer.take(side, &piece[..len], at);
    (outcome.source, outcome.base, came_of(&outcome.end))
}

// How a datagram ended that said neither.
fn bare_end(filer: &mut Filer, side: &mut MapFiler, datagram: &[u8], at: u32) -> Option<Came> {
    match taken(filer, side, datagram, at) {
        (None, None, end) => Some(end),
        _ => None,
    }
}

#[test]
fn packets_of_the_first_source_are_filed(rt: HostRuntime) -> Result<(), Fail> {
    let mut side = MapFiler::of(MapLine::new(rt.alloc(), 1, 6)?, 0);
    let mut filer = Filer::new(3, 1, 2);
    let source = Some(Asked {
        said: 305419896,
        held: 305419896,
    });
    let base = Some(Asked {
        said: 4294967200,
        held: 4294967200,
    });
    let filed = Came::Filed(4294967299, FileReply::Accepted);
    assert_eq!(rt;
        taken(&mut filer, &mut side, &packet(1, 4294967200), 0),
        (source, base, filed)
    );
    let filed = Came::Filed(4294967300, FileReply::Accepted);
    assert_eq!(rt;
        bare_end(&mut filer, &mut side, &packet(2, 64), 160),
        Some(filed)
    );
    let filed = Came::Filed(4294967300, FileReply::Duplicate);
    assert_eq!(rt;
        bare_end(&mut filer, &mut side, &packet(3, 100), 160),
        Some(filed)
    );
    let mut other = packet(4, 224);
    other[8..12].copy_from_slice(&[0, 0, 0, 1]);
    let report = [0x80, 0xC9, 0, 1, 0, 0, 0, 1];
    let table = [
        (&other[..], Came::Stranger(1, 305419896)),
        (&other[..12], Came::Empty),
        (&other[..11], Came::Refused(RtpFault::Short)),
        (&report[..], Came::Rtcp),
        (&report[..7], Came::RtcpRefused(RtcpFault::Cut { at: 0 })),
    ];
    for (datagram, end) in table {
        assert_eq!(rt; bare_end(&mut filer, &mut side, datagram, 320), Some(end));
    }
    let tally = Tally {
        datagrams: 8,
        accepted: 2,
        duplicate: 1,
        refused: 2,
        stranger: 1,
        rtcp: 1,
        empty: 1,
        ..Tally::new()
    };
    assert_eq!(rt; filer.tally(), tally);
    Ok(())
}
