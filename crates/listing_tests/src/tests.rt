use address::{Address, check_byte_of};
use line::{Pair, Socket, Tag};
use listing::{Answer, BeginRefusal, Listing, PassRefusal};
use row::Row;
use std::alloc::Global;
use std::test::Fail;

// The pack with this serial number, right.
fn pack(serial: u8) -> Address {
    let check = check_byte_of(&[0x30, serial, 0, 0, 0, 0, 0]);
    Address::from_bytes([0x30, serial, 0, 0, 0, 0, 0, check])
}

// The same with a wrong check byte.
fn wrong(serial: u8) -> Address {
    let check = check_byte_of(&[0x30, serial, 0, 0, 0, 0, 0]);
    Address::from_bytes([0x30, serial, 0, 0, 0, 0, 0, check ^ 1])
}

fn bay(address: Address) -> Socket<Tag> {
    Socket::new(Tag::new(address))
}

// Three bays.
type Rack = Pair<Socket<Tag>, Pair<Socket<Tag>, Socket<Tag>>>;

fn rack(first: Address, second: Address, third: Address) -> Rack {
    Pair {
        first: bay(first),
        second: Pair {
            first: bay(second),
            second: bay(third),
        },
    }
}

fn found(serial: u8) -> Result<Answer, PassRefusal> {
    Ok(Answer::Found {
        address: pack(serial),
    })
}

#[test]
fn three_packs(rt: HostRuntime) -> Result<(), Fail> {
    let mut rack = rack(pack(1), pack(2), pack(3));
    let mut listing = Listing::new(rt.alloc())?;
    assert_eq!(rt; listing.pass(&mut rack), Err(PassRefusal::LimitReached));
    assert_eq!(rt; listing.begin(128), Ok(()));
    assert_eq!(rt; listing.pass(&mut rack), found(2));
    // 01 and 03 differ from 02 at bit 8, and from each other at bit 9
    assert!(rt; listing.is_open(8) && !listing.is_open(9));
    assert_eq!(rt; listing.pass(&mut rack), found(1));
    assert!(rt; listing.is_open(9) && !listing.is_complete());
    assert_eq!(rt; listing.pass(&mut rack), found(3));
    assert!(rt; listing.is_complete() && listing.addresses().len() == 3);
    assert_eq!(rt; listing.last(), pack(3));
    assert_eq!(rt; listing.pass(&mut rack), Err(PassRefusal::Complete));
    Ok(())
}

#[test]
fn packs_that_move(rt: HostRuntime) -> Result<(), Fail> {
    let mut rack = rack(pack(1), pack(2), pack(3));
    let mut listing = Listing::new(rt.alloc())?;
    assert_eq!(rt; listing.begin(128), Ok(()));
    assert_eq!(rt; listing.pass(&mut rack), found(2));
    let _ = rack.first.detach();
    let _ = rack.second.second.detach();
    let closed = listing.pass(&mut rack);
    assert_eq!(rt; closed, Ok(Answer::ClosedAt { bit: 8 }));
    assert_eq!(rt; Answer::ClosedAt { bit: 8 }.slots(), 34);
    assert!(rt; listing.is_complete() && listing.addresses().len() == 1);
    // the last one is pulled too: nothing is there
    let _ = rack.second.first.detach();
    assert_eq!(rt; listing.begin(128), Ok(()));
    assert_eq!(rt; listing.pass(&mut rack), Ok(Answer::ClosedEmpty));
    assert!(rt; listing.is_complete() && listing.addresses().is_empty());
    assert_eq!(rt; Answer::ClosedEmpty.slots(), 0);
    Ok(())
}

#[test]
fn a_wrong_check_byte(rt: HostRuntime) -> Result<(), Fail> {
    let mut rack = rack(wrong(1), pack(2), pack(3));
    let mut listing = Listing::new(rt.alloc())?;
    assert_eq!(rt; listing.begin(128), Ok(()));
    assert_eq!(rt; listing.pass(&mut rack), found(2));
    let spoilt = Answer::Spoilt { address: wrong(1) };
    assert_eq!(rt; listing.pass(&mut rack), Ok(spoilt));
    assert_eq!(rt; spoilt.slots(), 200);
    assert_eq!(rt; listing.last(), wrong(1));
    assert_eq!(rt; listing.pass(&mut rack), found(3));
    assert!(rt; listing.is_complete() && listing.addresses().len() == 2);
    Ok(())
}

#[test]
fn limits(rt: HostRuntime) -> Result<(), Fail> {
    let mut rack = rack(pack(1), pack(2), pack(3));
    let mut listing = Listing::new(rt.alloc())?;
    assert_eq!(rt; listing.begin(1), Ok(()));
    assert_eq!(rt; listing.pass(&mut rack), found(2));
    assert_eq!(rt; listing.pass(&mut rack), Err(PassRefusal::LimitReached));
    assert_eq!(rt; listing.begin(129), Err(BeginRefusal::LimitTooHigh));
    assert!(rt; listing.limit() == 1 && listing.addresses().len() == 1);
    assert_eq!(rt; PassRefusal::Complete.number(), 3);
    assert_eq!(rt; PassRefusal::LimitReached.number(), 4);
    assert_eq!(rt; BeginRefusal::LimitTooHigh.number(), 11);
    Ok(())
}

// A row of 128 tags.
fn row(heap: Global) -> Result<Row<Tag>, Fail> {
    let mut lines = Vec::with_capacity(heap, 128)?;
    for serial in 0..128u8 {
        lines.push(Tag::new(pack(serial)))?;
    }
    Ok(Row { lines })
}

#[test]
fn as_many_as_there_may_be(rt: HostRuntime) -> Result<(), Fail> {
    let mut row = row(rt.alloc())?;
    let mut listing = Listing::new(rt.alloc())?;
    assert_eq!(rt; listing.begin(128), Ok(()));
    for _ in 0..128 {
        assert!(rt; !listing.is_complete());
        let answer = listing.pass(&mut row);
        let address = listing.last();
        assert_eq!(rt; answer, Ok(Answer::Found { address }));
    }
    assert!(rt; listing.is_complete() && listing.addresses().len() == 128);
    for pair in listing.addresses().windows(2) {
        assert!(rt; pair[0] < pair[1]);
    }
    Ok(())
}
