use crate::reseat;
use address::Address;
use line::{
    Line, Pair, Presence, Refusal, Signal, Socket, Stage, Tag, match_address, play, read_bit,
    read_byte, search_address, send_bit, send_byte,
};
use pack::Pack;

const A1: [u8; 8] = [0x30, 1, 0, 0, 0, 0, 0, 0x23];

const A2: [u8; 8] = [0x30, 2, 0, 0, 0, 0, 0, 0x7a];

fn send_all<L: Line>(line: &mut L, bytes: &[u8]) {
    for byte in bytes {
        send_byte(line, *byte);
    }
}

#[test]
fn a_tag_tells_its_address(rt: HostRuntime) {
    let mut tag = Tag::new(Address::from_bytes(A1));
    assert!(rt; tag.drive() && !tag.is_chosen());
    assert_eq!(rt; tag.reset(), Presence::Present);
    send_byte(&mut tag, 0x33);
    for byte in A1 {
        assert_eq!(rt; read_byte(&mut tag), byte);
    }
    assert!(rt; tag.is_chosen() && tag.drive());
}

#[test]
fn match_chooses_one_of_a_pair(rt: HostRuntime) {
    let mut pair = Pair {
        first: Tag::new(Address::from_bytes(A1)),
        second: Tag::new(Address::from_bytes(A2)),
    };
    let _ = pair.reset();
    send_byte(&mut pair, 0x55);
    send_all(&mut pair, &A2);
    assert!(rt; !pair.first.is_chosen() && pair.second.is_chosen());
    // a search: both answer at bit 8, where they differ
    let _ = pair.reset();
    send_byte(&mut pair, 0xf0);
    for k in 0..8u32 {
        let bit = Address::from_bytes(A1).bit(k);
        assert_eq!(rt; read_bit(&mut pair), bit);
        assert_eq!(rt; read_bit(&mut pair), !bit);
        send_bit(&mut pair, bit);
    }
    assert!(rt; !read_bit(&mut pair) && !read_bit(&mut pair));
}

#[test]
fn a_pack_pulled_and_seated_again(rt: HostRuntime) {
    let mut rack = Socket::new(Pack::new(Address::from_bytes(A1), [0x5a; 32]));
    assert_eq!(rt; rack.reset(), Presence::Present);
    send_byte(&mut rack, 0xcc);
    send_byte(&mut rack, 0x69);
    send_byte(&mut rack, 0x20);
    assert!(rt; !read_bit(&mut rack) && read_bit(&mut rack));
    // pulled in the middle of a byte: nothing drives, and slots do not reach it
    assert_eq!(rt; rack.detach(), Ok(()));
    assert_eq!(rt; rack.detach(), Err(Refusal::Already));
    assert_eq!(rt; Refusal::Already.number(), 10);
    assert_eq!(rt; read_byte(&mut rack), 0xff);
    assert_eq!(rt; rack.reset(), Presence::Empty);
    assert_eq!(rt; rack.line.held(0x20), 0x5a);
    // seated again it has had a reset: it waits for a command, and drives 1
    assert_eq!(rt; rack.attach(), Ok(()));
    assert_eq!(rt; rack.attach(), Err(Refusal::Already));
    assert_eq!(rt; read_byte(&mut rack), 0xff);
    let _ = rack.reset();
    send_byte(&mut rack, 0xcc);
    send_byte(&mut rack, 0x69);
    send_byte(&mut rack, 0x20);
    assert_eq!(rt; read_byte(&mut rack), 0x5a);
}

#[test]
fn a_match_and_a_search_choose_one_of_a_pair(rt: HostRuntime) {
    let mut pair = Pair {
        first: Tag::new(Address::from_bytes(A1)),
        second: Tag::new(Address::from_bytes(A2)),
    };
    match_address(&mut pair, Address::from_bytes(A1));
    assert!(rt; pair.first.is_chosen() && !pair.second.is_chosen());
    search_address(&mut pair, Address::from_bytes(A2));
    assert!(rt; !pair.first.is_chosen() && pair.second.is_chosen());
}

#[test]
fn a_tick_reaches_a_pulled_pack(rt: HostRuntime) {
    let mut rack = Pair {
        first: Socket::new(Pack::new(Address::from_bytes(A1), [0x5a; 32])),
        second: Tag::new(Address::from_bytes(A2)),
    };
    search_address(&mut rack, Address::from_bytes(A2));
    assert_eq!(rt; reseat(&mut rack), Ok(()));
    assert!(rt; rack.second.is_chosen());
    assert_eq!(rt; rack.first.detach(), Ok(()));
    assert_eq!(rt; reseat(&mut rack), Err(Refusal::Already));
}

#[test]
fn signals_are_given_in_order(rt: HostRuntime) {
    let mut tag = Tag::new(Address::from_bytes(A1));
    play(
        &mut tag,
        &[
            Signal::Reset,
            Signal::Slot { level: false },
            Signal::Slot { level: true },
        ],
    );
    assert!(rt; matches!(tag.stage(), Stage::Command { count: 2, bits: 2 }));
}
