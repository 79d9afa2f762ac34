use super::*;
use std::test::Fail;

// The headers, and behind them frames whose octets are 0 but for the signature.
fn payload(headers: [u8; 9], count: usize) -> [u8; 400] {
    let mut octets = [0; 400];
    octets[..9].copy_from_slice(&headers);
    for i in 0..11 {
        octets[count.min(9) + 33 * i] = 0xD0;
    }
    octets
}

#[test]
fn each_refusal_comes_in_its_order(rt: HostRuntime) {
    let table = [
        ([0; 9], 0, 0, 399, RedFault::Header),
        ([0x83, 2, 0, 0, 0, 0, 0, 0, 0], 2, 2, 399, RedFault::Header),
        (
            [0x83, 255, 255, 255, 0, 0, 0, 0, 0],
            4,
            4,
            399,
            RedFault::Header,
        ),
        (
            [0x83, 255, 255, 255, 0x83, 2, 0x80, 0, 0],
            9,
            7,
            399,
            RedFault::Header,
        ),
        (
            [0x83, 2, 0x80, 0x21, 3, 0, 0, 0, 0],
            5,
            5,
            399,
            RedFault::Block,
        ),
        (
            [0x83, 2, 0x80, 0x21, 0x83, 1, 0x40, 0x21, 3],
            9,
            74,
            9,
            RedFault::Block,
        ),
        (
            [0x83, 2, 0x80, 0x20, 3, 0, 0, 0, 0],
            5,
            368,
            5,
            RedFault::Length(0),
        ),
        (
            [0xE1, 2, 0x80, 0x20, 3, 0, 0, 0, 0],
            5,
            71,
            5,
            RedFault::Length(1),
        ),
        (
            [0x83, 2, 0x80, 0x21, 3, 0, 0, 0, 0],
            5,
            368,
            5,
            RedFault::TooMany,
        ),
        (
            [0x83, 2, 0x80, 0x21, 3, 0, 0, 0, 0],
            5,
            71,
            38,
            RedFault::Signature(1),
        ),
        (
            [0x83, 2, 0x80, 0x42, 3, 0, 0, 0, 0],
            5,
            104,
            71,
            RedFault::Signature(2),
        ),
        (
            [0xE1, 2, 0x80, 0x42, 3, 0, 0, 0, 0],
            5,
            104,
            71,
            RedFault::Signature(0),
        ),
    ];
    for (headers, count, size, place, fault) in table {
        let mut octets = payload(headers, count);
        octets[place.min(399)] = 0xC0;
        assert_eq!(rt;
            read_red(&octets[..size.min(400)]).err(),
            Some(fault),
            "at {fault:?} of {size} octets"
        );
    }
}

#[test]
fn blocks_are_lent_in_their_order(rt: HostRuntime) -> Result<(), Fail> {
    let table = [
        (
            [0x83, 2, 0x80, 0x21, 3, 0, 0, 0, 0],
            5,
            71,
            5,
            [(3, 160, 33), (3, 0, 33), (0, 0, 0)],
        ),
        (
            [0x83, 2, 0x80, 0x21, 0x83, 1, 0x40, 0x42, 3],
            9,
            108,
            399,
            [(3, 160, 33), (3, 80, 66), (3, 0, 0)],
        ),
        (
            [0xE1, 255, 252, 5, 3, 0, 0, 0, 0],
            5,
            43,
            399,
            [(97, 16383, 5), (3, 0, 33), (0, 0, 0)],
        ),
        (
            [3, 0, 0, 0, 0, 0, 0, 0, 0],
            1,
            331,
            399,
            [(3, 0, 330), (0, 0, 0), (0, 0, 0)],
        ),
    ];
    for (headers, count, size, place, blocks) in table {
        let mut octets = payload(headers, count);
        octets[place.min(399)] = 0xD8;
        if headers[0] == 0xE1 {
            octets[10] = 0xD0;
        }
        let view = read_red(&octets[..size.min(400)])?;
        let mut told = [(0, 0, 0); 3];
        for i in 0..view.count().min(3) {
            let block = view.block(i);
            told[i as usize] = (block.payload_type, block.offset, block.octets.len());
        }
        assert_eq!(rt; told, blocks, "of {size} octets");
    }
    blocks_spell_payloads();
    Ok(())
}
