use address::{Address, check_byte_of};
use rackfile::{Flaw, RackFile, Refusal, report};
use std::alloc::Global;
use std::process::Abort;
use std::test::Fail;

const A1: [u8; 8] = [0x30, 1, 0, 0, 0, 0, 0, 0x23];

const A2: [u8; 8] = [0x30, 2, 0, 0, 0, 0, 0, 0x7a];

const A3: [u8; 8] = [0x30, 3, 0, 0, 0, 0, 0, 0x4d];

const WRONG: [u8; 8] = [0x30, 1, 0, 0, 0, 0, 0, 0x24];

// What is printed of the file that these parts make.
fn printed(heap: Global, parts: &[&[u8]]) -> Result<String, Fail> {
    let mut bytes = Vec::new(heap);
    for part in parts {
        bytes.extend_from_slice(*part)?;
    }
    Ok(report(heap, bytes.as_slice())?)
}

fn check_printed(rt: &impl Abort, heap: Global, parts: &[&[u8]], text: &str) -> Result<(), Fail> {
    assert_eq!(rt; printed(heap, parts)?.as_str(), text);
    Ok(())
}

#[test]
fn accepted(rt: HostRuntime) -> Result<(), Fail> {
    let heap = rt.alloc();
    check_printed(&rt, heap, &[&[0, 1]], "rack 00 width 01\n")?;
    check_printed(&rt, heap, &[&[0, 12]], "rack 00 width 12\n")?;
    check_printed(
        &rt,
        heap,
        &[&[1, 1], &A1, b"~"],
        "rack 01 width 01\n01 3001000000000023 ~\n",
    )?;
    check_printed(
        &rt,
        heap,
        &[&[2, 12], &A2, &A1, b"a name of 12", b" !0A_a{}~xyz"],
        "rack 02 width 12\n01 300200000000007A a name of 12\n02 3001000000000023  !0A_a{}~xyz\n",
    )
}

#[test]
fn wrong_form(rt: HostRuntime) -> Result<(), Fail> {
    let heap = rt.alloc();
    check_printed(&rt, heap, &[], "refused 12\n")?;
    check_printed(&rt, heap, &[&[0]], "refused 12\n")?;
    check_printed(&rt, heap, &[&[0, 0]], "refused 12\n")?;
    check_printed(&rt, heap, &[&[0, 13]], "refused 12\n")?;
    check_printed(&rt, heap, &[&[1, 1]], "refused 12\n")?;
    check_printed(&rt, heap, &[&[0, 1, 0]], "refused 12\n")?;
    check_printed(&rt, heap, &[&[1, 2], &A1, b"ab", b"c"], "refused 12\n")?;
    check_printed(&rt, heap, &[&[1, 2], &A1, b"a"], "refused 12\n")?;
    // the form comes before every flaw
    check_printed(&rt, heap, &[&[1, 1], &WRONG, b"ab"], "refused 12\n")?;
    check_printed(&rt, heap, &[&[2, 1], &A1, &A1, b"a"], "refused 12\n")?;
    check_printed(&rt, heap, &[&[1, 2], &A1, &[0x1f]], "refused 12\n")
}

#[test]
fn flaws_of_one_entry(rt: HostRuntime) -> Result<(), Fail> {
    let heap = rt.alloc();
    check_printed(&rt, heap, &[&[1, 1], &WRONG, b"a"], "refused 06\n")?;
    check_printed(&rt, heap, &[&[2, 1], &A1, &A1, b"ab"], "refused 14\n")?;
    check_printed(&rt, heap, &[&[1, 1], &A1, &[0x1f]], "refused 13\n")?;
    check_printed(&rt, heap, &[&[1, 2], &A1, b"a\x7f"], "refused 13\n")?;
    // the check byte comes before the rest, a repeated address before the name
    check_printed(&rt, heap, &[&[1, 1], &WRONG, &[0]], "refused 06\n")?;
    check_printed(&rt, heap, &[&[2, 1], &WRONG, &WRONG, b"ab"], "refused 06\n")?;
    check_printed(&rt, heap, &[&[2, 1], &A1, &A1, b"a\x7f"], "refused 14\n")
}

#[test]
fn flaws_of_two_entries(rt: HostRuntime) -> Result<(), Fail> {
    let heap = rt.alloc();
    // the earlier entry decides, whatever the flaws are
    check_printed(&rt, heap, &[&[2, 1], &A1, &WRONG, b"\x1fa"], "refused 13\n")?;
    check_printed(&rt, heap, &[&[2, 1], &A1, &A1, b"\x1fa"], "refused 13\n")?;
    check_printed(&rt, heap, &[&[2, 1], &WRONG, &A1, b"a\x1f"], "refused 06\n")?;
    check_printed(
        &rt,
        heap,
        &[&[3, 1], &A1, &A1, &WRONG, b"abc"],
        "refused 14\n",
    )?;
    check_printed(
        &rt,
        heap,
        &[&[3, 1], &A1, &A1, &A2, b"ab\x1f"],
        "refused 14\n",
    )?;
    check_printed(
        &rt,
        heap,
        &[&[3, 1], &A1, &WRONG, &A1, b"abc"],
        "refused 06\n",
    )
}

// A file with this count and that many entries of names of one byte.
fn filled(heap: Global, count: u8) -> Result<Vec<u8>, Fail> {
    let mut bytes = vec![in heap; count, 1]?;
    for serial in 0..count {
        let seven = [0x30, serial, 0, 0, 0, 0, 0];
        bytes.extend_from_slice(&seven)?;
        bytes.push(check_byte_of(&seven))?;
    }
    for _ in 0..count {
        bytes.push(b'x')?;
    }
    Ok(bytes)
}

#[test]
fn most_entries(rt: HostRuntime) -> Result<(), Fail> {
    let heap = rt.alloc();
    let text = report(heap, filled(heap, 128)?.as_slice())?;
    assert!(rt;
        text.as_str()
            .starts_with("rack 128 width 01\n01 3000000000000014 x\n")
    );
    assert!(rt; text.as_str().ends_with("\n128 307F0000000000A8 x\n"));
    assert_eq!(rt;
        report(heap, filled(heap, 129)?.as_slice())?.as_str(),
        "refused 12\n"
    );
    Ok(())
}

#[test]
fn entries_and_numbers(rt: HostRuntime) -> Result<(), Fail> {
    let heap = rt.alloc();
    let mut bytes = vec![in heap; 2, 3]?;
    bytes.extend_from_slice(&A3)?;
    bytes.extend_from_slice(&A2)?;
    bytes.extend_from_slice(b"onetwo")?;
    let Ok(file) = RackFile::read(heap, bytes.as_slice()) else {
        return Err(Fail::new("refused"));
    };
    assert_eq!(rt; file.width(), 3);
    let [first, second] = file.entries() else {
        return Err(Fail::new("not two entries"));
    };
    assert_eq!(rt; first.address, Address::from_bytes(A3));
    assert_eq!(rt; second.name.as_str(), "two");
    Ok(())
}

#[test]
fn refusals_have_their_place_and_number(rt: HostRuntime) -> Result<(), Fail> {
    let heap = rt.alloc();
    let mut bytes = vec![in heap; 2, 1]?;
    bytes.extend_from_slice(&A1)?;
    bytes.extend_from_slice(&WRONG)?;
    bytes.extend_from_slice(b"ab")?;
    let Err(refusal) = RackFile::read(heap, bytes.as_slice()) else {
        return Err(Fail::new("accepted"));
    };
    let flaw = Flaw::WrongCheckByte;
    assert_eq!(rt; refusal, Refusal::Flawed { entry: 1, flaw });
    assert_eq!(rt; refusal.number(), Some(6));
    assert_eq!(rt; Refusal::Memory.number(), None);
    Ok(())
}
