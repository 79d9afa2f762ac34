use crate::return_stream::{ReturnEnd, ReturnStream};
use gate_io::{Link, MemoryLink, MemorySource};
use std::alloc::Global;
use std::test::Fail;

// A frame of 160 coded zeros.
const ZEROS: [u8; 33] = [
    0xD8, 0x20, 0xA2, 0xE1, 0x5A, 0x50, 0x00, 0x49, 0x24, 0x92, 0x49, 0x24, 0x50, 0x00, 0x49, 0x24,
    0x92, 0x49, 0x24, 0x50, 0x00, 0x49, 0x24, 0x92, 0x49, 0x24, 0x50, 0x00, 0x49, 0x24, 0x92, 0x49,
    0x24,
];

fn link(alloc: Global, fails: &[u64]) -> Result<MemoryLink, Fail> {
    Ok(MemoryLink::new(alloc, Vec::new(alloc), fails, 4)?)
}

// Whether the packet has this header, and then the frame of zeros.
fn is_packet(packet: &[u8], header: &[u8; 12]) -> bool {
    packet.len() == 45 && packet.starts_with(header) && packet.ends_with(&ZEROS)
}

#[test]
fn silence_is_sent_under_numbers_that_wrap(rt: HostRuntime) -> Result<(), Fail> {
    let mut microphone = MemorySource::new(rt.alloc(), &[0; 400], 7, &[])?;
    let mut reply = link(rt.alloc(), &[])?;
    let mut stream = ReturnStream::new(1, 65535, 4294967295);
    assert_eq!(rt; stream.send(&mut microphone, &mut reply), ReturnEnd::Sent);
    assert_eq!(rt; stream.send(&mut microphone, &mut reply), ReturnEnd::Sent);
    assert_eq!(rt; stream.send(&mut microphone, &mut reply), ReturnEnd::Silent);
    assert_eq!(rt; stream.send(&mut microphone, &mut reply), ReturnEnd::Silent);
    assert_eq!(rt; reply.sent_count(), 2);
    assert!(rt; is_packet(reply.sent(0), b"\x80\x03\xFF\xFF\xFF\xFF\xFF\xFF\0\0\0\x01"));
    assert!(rt; is_packet(reply.sent(1), b"\x80\x03\0\0\0\0\0\x9F\0\0\0\x01"));
    Ok(())
}

#[test]
fn a_fault_loses_the_piece_or_counts_the_packet(rt: HostRuntime) -> Result<(), Fail> {
    let mut microphone = MemorySource::new(rt.alloc(), &[0; 1280], 320, &[1])?;
    let mut reply = link(rt.alloc(), &[1])?;
    let mut stream = ReturnStream::new(9, 5, 1000);
    assert_eq!(rt; stream.send(&mut microphone, &mut reply), ReturnEnd::Sent);
    assert_eq!(rt;
        stream.send(&mut microphone, &mut reply),
        ReturnEnd::MicFault
    );
    assert_eq!(rt;
        stream.send(&mut microphone, &mut reply),
        ReturnEnd::ReplyFault
    );
    assert_eq!(rt; stream.send(&mut microphone, &mut reply), ReturnEnd::Sent);
    assert_eq!(rt; reply.sent_count(), 2);
    assert!(rt; is_packet(reply.sent(0), b"\x80\x03\0\x05\0\0\x03\xE8\0\0\0\x09"));
    assert!(rt; is_packet(reply.sent(1), b"\x80\x03\0\x07\0\0\x05\x28\0\0\0\x09"));
    Ok(())
}
