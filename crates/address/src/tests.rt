use super::*;
use std::test::Fail;

#[test]
fn published_check_bytes(rt: HostRuntime) {
    assert_eq!(rt; check_byte_of(b"123456789"), 0xa1);
    assert_eq!(rt;
        check_byte_of(&[0x02, 0x1c, 0xb8, 0x01, 0x00, 0x00, 0x00]),
        0xa2
    );
    assert_eq!(rt; check_byte_of(&[]), 0x00);
}

#[test]
fn check_bytes_of_three_packs(rt: HostRuntime) {
    assert_eq!(rt; check_byte_of(&[0x30, 0x01, 0, 0, 0, 0, 0]), 0x23);
    assert_eq!(rt; check_byte_of(&[0x30, 0x02, 0, 0, 0, 0, 0]), 0x7a);
    assert_eq!(rt; check_byte_of(&[0x30, 0x03, 0, 0, 0, 0, 0]), 0x4d);
}

#[test]
fn parts(rt: HostRuntime) {
    let a = Address::from_bytes([0x30, 1, 2, 3, 4, 5, 6, 0x23]);
    assert_eq!(rt; a.family(), 0x30);
    assert_eq!(rt; a.serial_number(), 0x0605_0403_0201);
    assert_eq!(rt; a.check_byte(), 0x23);
    assert_eq!(rt; a.to_bytes(), [0x30, 1, 2, 3, 4, 5, 6, 0x23]);
    assert!(rt; !a.is_right());
    assert!(rt; a.bit(4) && a.bit(5) && !a.bit(6) && !a.bit(63) && !a.bit(64) && !a.bit(u32::MAX));
}

#[test]
fn search_order_goes_by_the_lowest_bit(rt: HostRuntime) {
    let first = Address::from_bytes([0x30, 0x01, 0, 0, 0, 0, 0, 0x23]);
    let second = Address::from_bytes([0x30, 0x02, 0, 0, 0, 0, 0, 0x7a]);
    let third = Address::from_bytes([0x30, 0x03, 0, 0, 0, 0, 0, 0x4d]);
    assert!(rt; second < first);
    assert!(rt; first < third);
    assert!(rt; second < third);
    assert!(rt; first == first);
}

#[test]
fn text(rt: HostRuntime) -> Result<(), Fail> {
    let a = example();
    assert!(rt; a.is_right());
    assert_eq!(rt; format!(in rt.alloc(); "{a}")?.as_str(), "021CB801000000A2");
    Ok(())
}
