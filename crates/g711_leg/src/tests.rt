ghost use Rattle.std.specs.Prelude.{◌≡◌, false, IfOk};

use super::*;
use gate_io::{Failed, MemoryLink, MemorySink, Sink};
use std::alloc::Global;
use std::test::Fail;

// law, sample, code
#[test]
fn samples_by_table(rt: HostRuntime) {
    for (law, sample, code) in [
        (Law::Mu, 0, 0xFF),
        (Law::Mu, 4, 0xFF),
        (Law::Mu, 8, 0xFE),
        (Law::Mu, 32767, 0x80),
        (Law::Mu, -32768, 0x00),
        (Law::A, 0, 0xD5),
        (Law::A, 32767, 0xAA),
        (Law::A, -32768, 0x2A),
    ] {
        assert_eq!(rt; compress(law, sample), code);
    }
}

#[test]
fn codes_by_table(rt: HostRuntime) {
    for (law, code, sample) in [
        (Law::Mu, 0xFF, 0),
        (Law::Mu, 0x7F, 0),
        (Law::Mu, 0x80, 32124),
        (Law::Mu, 0x00, -32124),
        (Law::Mu, 0xF0, 120),
        (Law::Mu, 0xEF, 132),
        (Law::A, 0xD5, 8),
        (Law::A, 0x55, -8),
        (Law::A, 0xAA, 32256),
        (Law::A, 0x2A, -32256),
    ] {
        assert_eq!(rt; expand(law, code), sample);
    }
}

#[test]
fn each_code_comes_back(rt: HostRuntime) {
    comes_back();
    assert_eq!(rt; au_head(Law::Mu)[15], 1);
    assert_eq!(rt; au_head(Law::A)[15], 27);
    for code in 0..=255u8 {
        let mu = compress(Law::Mu, expand(Law::Mu, code));
        assert!(rt; mu == code || code == 127 && mu == 255);
        assert_eq!(rt; compress(Law::A, expand(Law::A, code)), code);
    }
}

type MemoryLeg = Leg<MemorySink, MemorySink, MemoryLink>;

// A leg over objects in memory, with the calls at which the file fails.
fn leg(alloc: Global, fails: &[(u64, usize)]) -> Result<MemoryLeg, Fail>
    ensures { IfOk result (λ s. s.called ≡ false) }
{
    let speaker = MemorySink::new(alloc, 1024, &[])?;
    let au = MemorySink::new(alloc, 512, fails)?;
    let link = MemoryLink::new(alloc, Vec::new(alloc), &[], 4)?;
    Ok(Leg::new(speaker, au, link))
}

// What came of it: how many octets the speaker and the file have, and how many packets were sent.
fn counts(leg: MemoryLeg) -> (usize, usize, usize) {
    let (speaker, au, link) = leg.parts();
    (speaker.octets().len(), au.octets().len(), link.sent_count())
}

fn is_send<T: Send>(_: &T) {}

// Whether the packet at this place has this header, and then 160 codes of this value.
fn sent(link: &MemoryLink, i: usize, header: &[u8; 12], code: u8) -> bool {
    if i >= link.sent_count() {
        return false;
    }
    let packet = link.sent(i);
    packet.len() == 172 && packet.starts_with(header) && packet.ends_with(&[code; 160])
}

#[test]
fn silence_goes_out_in_packets_and_a_file(rt: HostRuntime) -> Result<(), Fail> {
    let mut leg = leg(rt.alloc(), &[])?;
    let begun = leg.begin(Law::Mu, 1, 0, 0);
    let first = leg.give(&[0; 100]);
    let second = leg.give(&[0; 540]);
    assert!(rt; begun.is_ok() && first.is_ok() && second.is_ok());
    let (speaker, au, link) = leg.parts();
    let head = b"\x2E\x73\x6E\x64\0\0\0\x18\xFF\xFF\xFF\xFF\0\0\0\x01\0\0\x1F\x40\0\0\0\x01";
    let file = au.octets();
    assert!(rt; speaker.octets().len() == 640 && link.sent_count() == 2);
    assert!(rt; file.len() == 344 && file.starts_with(head) && file.ends_with(&[0xFF; 320]));
    assert!(rt; sent(&link, 0, b"\x80\0\0\0\0\0\0\0\0\0\0\x01", 0xFF));
    assert!(rt; sent(&link, 1, b"\x80\0\0\x01\0\0\0\xA0\0\0\0\x01", 0xFF));
    Ok(())
}

#[test]
fn numbers_wrap_and_a_rest_waits(rt: HostRuntime) -> Result<(), Fail> {
    let mut leg = leg(rt.alloc(), &[])?;
    let begun = leg.begin(Law::A, 9, 65535, 4294967295);
    let given = leg.give(&[0; 959]);
    assert!(rt; begun.is_ok() && given.is_ok());
    let (speaker, au, link) = leg.parts();
    let file = au.octets();
    assert!(rt; speaker.octets().len() == 959 && link.sent_count() == 2);
    assert!(rt; file.len() == 344 && file.ends_with(&[0xD5; 320]));
    assert!(rt; file[12..].starts_with(b"\0\0\0\x1B\0\0\x1F\x40"));
    assert!(rt;
        sent(
            &link,
            0,
            b"\x80\x08\xFF\xFF\xFF\xFF\xFF\xFF\0\0\0\x09",
            0xD5
        )
    );
    assert!(rt; sent(&link, 1, b"\x80\x08\0\0\0\0\0\x9F\0\0\0\x09", 0xD5));
    Ok(())
}

#[test]
fn nothing_goes_out_before_begin_or_where_it_failed(rt: HostRuntime) -> Result<(), Fail> {
    let mut early = leg(rt.alloc(), &[])?;
    is_send(&early);
    let given = early.give(&[0; 640]);
    assert!(rt; given.is_ok() && counts(early) == (640, 0, 0));
    let mut failed = leg(rt.alloc(), &[(0, 3)])?;
    let begun = failed.begin(Law::Mu, 1, 0, 0);
    let later = failed.give(&[0; 640]);
    assert!(rt; begun == Err(Failed) && later.is_ok() && counts(failed) == (640, 3, 0));
    Ok(())
}

#[test]
fn a_fault_of_the_file_keeps_the_packet_back(rt: HostRuntime) -> Result<(), Fail> {
    goes_out::<MemorySink, MemorySink, MemoryLink>();
    let mut leg = leg(rt.alloc(), &[(2, 5)])?;
    let begun = leg.begin(Law::Mu, 1, 0, 0);
    let first = leg.give(&[0; 320]);
    let second = leg.give(&[0; 640]);
    assert!(rt; begun.is_ok() && first.is_ok() && second == Err(Failed));
    assert!(rt; counts(leg) == (960, 189, 1));
    Ok(())
}
