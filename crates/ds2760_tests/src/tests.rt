use ds2760::Store;
use gauge::{Accumulator, Bias, Half, Measurement, Refusal, worked_cases};
use std::test::Fail;

const READ: u8 = 0x69;

const WRITE: u8 = 0x6c;

const COPY: u8 = 0x48;

const RECALL: u8 = 0xb8;

const LOCK: u8 = 0x6a;

fn send(store: &mut Store, byte: u8) {
    for k in 0..8u8 {
        store.slot((byte >> k) % 2 == 1);
    }
}

// A byte as the master reads it: it sends ones and takes what is driven.
fn receive(store: &mut Store) -> u8 {
    let mut byte = 0;
    for _ in 0..8u8 {
        let level = store.drive();
        store.slot(level);
        byte = if level { byte / 2 | 0x80 } else { byte / 2 };
    }
    byte
}

fn command(store: &mut Store, opcode: u8, address: u8) {
    store.reset();
    send(store, opcode);
    send(store, address);
}

fn write(store: &mut Store, address: u8, byte: u8) {
    command(store, WRITE, address);
    send(store, byte);
}

fn ticks(store: &mut Store, n: u8) {
    for _ in 0..n {
        store.tick();
    }
}

fn reading(cell_voltage: i64, sense_voltage: i64, temperature: i64) -> Measurement {
    Measurement {
        cell_voltage,
        sense_voltage,
        temperature,
    }
}

#[test]
fn counts_and_registers(rt: HostRuntime) -> Result<(), Fail> {
    assert_eq!(rt; worked_cases(), 5);
    let Ok(counts) = reading(4_200_000, -20_000, -50).counts(Bias(0)) else {
        return Err(Fail::new("refused"));
    };
    assert_eq!(rt; counts.voltage_register(), [0x6b, 0x80]);
    assert_eq!(rt; counts.current_register(), [0xff, 0xf0]);
    assert_eq!(rt; counts.temperature_register(), [0xff, 0xe0]);
    let Ok(counts) = reading(20_000_000, 1_000_000_000, 1_000_000).counts(Bias(10)) else {
        return Err(Fail::new("refused"));
    };
    assert_eq!(rt; counts.voltage_register(), [0x7f, 0xe0]);
    assert_eq!(rt; counts.current_register(), [0x7f, 0xa8]);
    assert_eq!(rt; counts.temperature_register(), [0x7f, 0xe0]);
    Ok(())
}

#[test]
fn ranges(rt: HostRuntime) -> Result<(), Fail> {
    for (v, s, t) in [
        (-1, 0, 0),
        (20_000_001, 0, 0),
        (0, -1_000_000_001, 0),
        (0, 1_000_000_001, 0),
        (0, 0, -273_151),
        (0, 0, 1_000_001),
        (i64::MIN, i64::MAX, i64::MIN),
    ] {
        match reading(v, s, t).counts(Bias(0)) {
            Ok(_) => return Err(Fail::new("accepted")),
            Err(refusal) => assert_eq!(rt; refusal.number(), 9),
        }
    }
    assert!(rt;
        reading(0, -1_000_000_000, -273_150)
            .counts(Bias(-128))
            .is_ok()
    );
    Ok(())
}

#[test]
fn accumulator(rt: HostRuntime) -> Result<(), Fail> {
    let mut a = Accumulator::new();
    let Ok(high) = reading(0, 100_000_000, 0).counts(Bias(0)) else {
        return Err(Fail::new("refused"));
    };
    for _ in 0..4u8 {
        a.add(&high);
    }
    assert!(rt; a.amount() == 1 && a.residue() == 180);
    a.write(Half::Low, 0x05);
    assert!(rt; a.amount() == 5 && a.residue() == 0);
    a.write(Half::High, 0xff);
    assert!(rt; a.amount() == -251);
    let Ok(low) = reading(0, -1, 0).counts(Bias(0)) else {
        return Err(Fail::new("refused"));
    };
    let mut b = Accumulator::new();
    b.add(&low);
    assert!(rt; b.amount() == -1 && b.residue() == 179_989);
    Ok(())
}

#[test]
fn memory_map(rt: HostRuntime) {
    let mut store = Store::new([0x39; 32]);
    assert_eq!(rt; store.held(0x01), 0x38);
    assert_eq!(rt; store.held(0x08), 0xc0);
    assert_eq!(rt; store.held(0x20), 0x39);
    for address in [0x02, 0x0b, 0x12, 0x40, 0x7f, 0x90, 0xff, 0x100] {
        assert_eq!(rt; store.held(address), 0xff);
    }
    write(&mut store, 0x00, 0xff);
    write(&mut store, 0x07, 0xff);
    write(&mut store, 0x8f, 0xa5);
    write(&mut store, 0x31, 0x00);
    assert_eq!(rt; store.held(0x00), 0x03);
    assert_eq!(rt; store.held(0x07), 0x40);
    assert_eq!(rt; store.held(0x8f), 0xa5);
    // 01h stays as recalled
    assert!(rt; store.held(0x31) == 0 && store.held(0x01) == 0x38);
}

#[test]
fn reading_and_writing(rt: HostRuntime) {
    let mut store = Store::new([0; 32]);
    command(&mut store, WRITE, 0xff);
    send(&mut store, 0x55);
    send(&mut store, 0x55);
    write(&mut store, 0x80, 0x12);
    command(&mut store, READ, 0x80);
    assert_eq!(rt; receive(&mut store), 0x12);
    assert_eq!(rt; receive(&mut store), 0x00);
    command(&mut store, READ, 0xff);
    assert!(rt; receive(&mut store) == 0xff && receive(&mut store) == 0xff);
    // an incomplete byte is not written
    command(&mut store, WRITE, 0x81);
    for _ in 0..7u8 {
        store.slot(true);
    }
    store.reset();
    assert_eq!(rt; store.held(0x81), 0);
    // a measurement in the middle of a byte does not tear it
    command(&mut store, READ, 0x0c);
    store.slot(store.drive());
    assert_eq!(rt; store.measure(reading(20_000_000, 0, 0)), Ok(()));
    for _ in 0..7u8 {
        assert!(rt; !store.drive());
        store.slot(false);
    }
    assert!(rt; store.held(0x0c) == 0x7f);
}

#[test]
fn copy_recall_and_lock(rt: HostRuntime) {
    let mut store = Store::new([0; 32]);
    write(&mut store, 0x20, 0xaa);
    command(&mut store, COPY, 0x2f);
    ticks(&mut store, 20);
    assert_eq!(rt; store.held(0x07), 0x00);
    store.slot(true);
    assert_eq!(rt; store.held(0x07), 0x80);
    // while EEC is 1 neither block takes a byte
    write(&mut store, 0x20, 0xbb);
    write(&mut store, 0x30, 0xbb);
    assert!(rt; store.held(0x20) == 0xaa && store.held(0x30) == 0);
    ticks(&mut store, 9);
    assert_eq!(rt; store.held(0x07), 0x80);
    ticks(&mut store, 1);
    assert_eq!(rt; store.held(0x07), 0x00);
    write(&mut store, 0x20, 0xcc);
    command(&mut store, RECALL, 0x20);
    assert_eq!(rt; store.held(0x20), 0xaa);
    // a lock wants LOCK
    command(&mut store, LOCK, 0x20);
    assert_eq!(rt; store.held(0x07), 0x00);
    write(&mut store, 0x07, 0x40);
    command(&mut store, LOCK, 0x20);
    assert_eq!(rt; store.held(0x07), 0x01);
    write(&mut store, 0x20, 0xdd);
    command(&mut store, COPY, 0x20);
    store.reset();
    assert!(rt; store.held(0x07) == 0x01 && store.held(0x20) == 0xaa);
}

#[test]
fn measurements(rt: HostRuntime) {
    let mut store = Store::new([0; 32]);
    write(&mut store, 0x33, 0xff);
    assert_eq!(rt; store.measure(reading(4_200_000, -20_000, -50)), Ok(()));
    assert!(rt; store.held(0x0c) == 0x6b && store.held(0x0d) == 0x80);
    assert!(rt; store.held(0x0e) == 0xff && store.held(0x0f) == 0xf8);
    assert!(rt; store.held(0x18) == 0xff && store.held(0x19) == 0xe0);
    assert!(rt; store.held(0x10) == 0xff && store.held(0x11) == 0xff);
    assert_eq!(rt; store.measure(reading(-1, 0, 0)), Err(Refusal::OutOfRange));
    assert_eq!(rt; store.held(0x0c), 0x6b);
}
