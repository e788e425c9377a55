use card::{Line, check as checked, worked_card};
use std::alloc::{AllocError, Global};
use std::test::Fail;

const CLOSE: [u8; 8] = [0, 0, 0, 0, 0, 0, 0, 0];

const UNIT: [u8; 8] = [16, 0, 0, 0, 0, 0, 0, 0];

const ONE: [u8; 8] = [17, 0, 0, 0, 1, 0, 0, 0];

const TRUE: [u8; 8] = [18, 1, 0, 0, 0, 0, 0, 0];

const SEQ: [u8; 8] = [28, 0, 0, 0, 0, 0, 0, 0];

const IF: [u8; 8] = [29, 0, 0, 0, 0, 0, 0, 0];

const DEF: [u8; 8] = [3, 0, 0, 0, 0, 0, 0, 0];

const UNIT_TYPE: [u8; 8] = [8, 0, 0, 0, 0, 0, 0, 0];

const NUMBER_TYPE: [u8; 8] = [8, 1, 0, 0, 0, 0, 0, 0];

const TEXT_TYPE: [u8; 8] = [8, 3, 0, 0, 0, 0, 0, 0];

const ENUM: [u8; 8] = [1, 0, 0, 0, 0, 0, 0, 0];

const CASE: [u8; 8] = [2, 0, 0, 0, 0, 0, 0, 0];

const MATCH: [u8; 8] = [33, 0, 0, 0, 0, 0, 0, 0];

const MAKE: [u8; 8] = [32, 0, 0, 0, 0, 0, 0, 0];

const ARM: [u8; 8] = [34, 0, 0, 0, 0, 0, 0, 0];

// The line that tells what becomes of an image.
fn says(heap: Global, image: &[u8]) -> Result<String, AllocError> {
    let line = Line(checked(image));
    format!(in heap; "{line}")
}

// The nine bytes before the records: n and t as they are given.
fn header(heap: Global, n: u16, t: u16) -> Result<Vec<u8>, AllocError> {
    let [n0, n1] = n.to_le_bytes();
    let [t0, t1] = t.to_le_bytes();
    Vec::from_slice(heap, &[b'R', b'U', b'L', 1, 0, n0, n1, t0, t1])
}

// An image of these records and so many text bytes, n as given.
fn image_of(heap: Global, n: u16, records: &[[u8; 8]], t: u16) -> Result<Vec<u8>, AllocError> {
    let mut image = header(heap, n, t)?;
    for record in records {
        image.extend_from_slice(record)?;
    }
    for _ in 0..t {
        image.push(b' ')?;
    }
    Ok(image)
}

// What becomes of a card of these records, with t text bytes.
fn answer(heap: Global, n: u16, records: &[[u8; 8]], t: u16) -> Result<String, AllocError> {
    let image = image_of(heap, n, records, t)?;
    says(heap, &image)
}

#[test]
fn worked_card_is_good(rt: HostRuntime) -> Result<(), Fail> {
    assert_eq!(rt; says(rt.alloc(), &worked_card())?.as_str(), "ok 1 1");
    Ok(())
}

// K without its record 4, and without its record 16: no open group is closed at the end.
#[test]
fn open_groups_stay_open(rt: HostRuntime) -> Result<(), Fail> {
    let card = worked_card();
    let mut cut = Vec::from_slice(rt.alloc(), &card[0..41])?;
    cut.extend_from_slice(&card[49..145])?;
    assert!(rt; cut.len() == 137);
    cut[5] = 16;
    assert_eq!(rt; says(rt.alloc(), &cut)?.as_str(), "no 8 4 0");
    let mut cut = Vec::from_slice(rt.alloc(), &card[0..137])?;
    assert!(rt; cut.len() == 137);
    cut[5] = 16;
    assert_eq!(rt; says(rt.alloc(), &cut)?.as_str(), "no 8 16 5");
    Ok(())
}

// A body of SEQs, each before a UNIT, and a last UNIT: as many records as are wanted.
fn long_card(heap: Global, n: u16, pairs: u16) -> Result<Vec<u8>, AllocError> {
    let mut image = header(heap, n, 0)?;
    image.extend_from_slice(&DEF)?;
    image.extend_from_slice(&UNIT_TYPE)?;
    for _ in 0..pairs {
        image.extend_from_slice(&SEQ)?;
        image.extend_from_slice(&UNIT)?;
    }
    image.extend_from_slice(&UNIT)?;
    image.extend_from_slice(&CLOSE)?;
    Ok(image)
}

#[test]
fn records_up_to_512(rt: HostRuntime) -> Result<(), Fail> {
    assert_eq!(rt;
        says(rt.alloc(), &long_card(rt.alloc(), 512, 254)?)?.as_str(),
        "ok 0 1"
    );
    assert_eq!(rt;
        says(rt.alloc(), &long_card(rt.alloc(), 514, 255)?)?.as_str(),
        "no 5 - -"
    );
    assert_eq!(rt; answer(rt.alloc(), 513, &[DEF], 0)?.as_str(), "no 5 - -");
    assert_eq!(rt; answer(rt.alloc(), 0, &[], 0)?.as_str(), "no 5 - -");
    Ok(())
}

#[test]
fn texts_up_to_2048(rt: HostRuntime) -> Result<(), Fail> {
    let card = [ENUM, CASE, CLOSE];
    assert_eq!(rt; answer(rt.alloc(), 3, &card, 2048)?.as_str(), "ok 1 0");
    assert_eq!(rt; answer(rt.alloc(), 3, &card, 2049)?.as_str(), "no 5 - -");
    Ok(())
}

#[test]
fn header_faults(rt: HostRuntime) -> Result<(), Fail> {
    let heap = rt.alloc();
    assert_eq!(rt;
        says(heap, b"RUL\x01\x00\x01\x00\x00")?.as_str(),
        "no 2 - -"
    );
    assert_eq!(rt;
        says(heap, b"RUM\x01\x00\x01\x00\x00\x00")?.as_str(),
        "no 3 - -"
    );
    assert_eq!(rt;
        says(heap, b"RUL\x02\x00\x01\x00\x00\x00")?.as_str(),
        "no 4 - -"
    );
    assert_eq!(rt;
        says(heap, b"RUL\x01\x00\x01\x00\x00\x00")?.as_str(),
        "no 6 - -"
    );
    assert_eq!(rt; answer(heap, 1, &[CLOSE, CLOSE], 0)?.as_str(), "no 6 - -");
    Ok(())
}

// The last number that the table allows, and the first that it does not; a late 7 before an early 8.
#[test]
fn table_faults(rt: HostRuntime) -> Result<(), Fail> {
    let heap = rt.alloc();
    let case_16 = [2, 0, 16, 0, 0, 0, 0, 0];
    assert_eq!(rt;
        answer(heap, 3, &[ENUM, case_16, CLOSE], 0)?.as_str(),
        "no 7 1 -"
    );
    let names_to_65536 = [34, 1, 255, 255, 0, 0, 0, 0];
    assert_eq!(rt; answer(heap, 1, &[names_to_65536], 0)?.as_str(), "no 8 0 -");
    let names_past = [34, 2, 255, 255, 0, 0, 0, 0];
    assert_eq!(rt; answer(heap, 1, &[names_past], 0)?.as_str(), "no 7 0 -");
    let unknown = [36, 0, 0, 0, 0, 0, 0, 0];
    assert_eq!(rt; answer(heap, 2, &[CLOSE, unknown], 0)?.as_str(), "no 7 1 -");
    Ok(())
}

// An empty text at the end of the text bytes, and one place on.
#[test]
fn text_places(rt: HostRuntime) -> Result<(), Fail> {
    let heap = rt.alloc();
    let at_2 = [19, 0, 2, 0, 0, 0, 0, 0];
    let at_3 = [19, 0, 3, 0, 0, 0, 0, 0];
    assert_eq!(rt;
        answer(heap, 4, &[DEF, TEXT_TYPE, at_2, CLOSE], 2)?.as_str(),
        "ok 0 1"
    );
    assert_eq!(rt;
        answer(heap, 4, &[DEF, TEXT_TYPE, at_3, CLOSE], 2)?.as_str(),
        "no 9 2 -"
    );
    let def_1 = [3, 0, 1, 0, 0, 0, 0, 0];
    assert_eq!(rt;
        answer(heap, 4, &[def_1, UNIT_TYPE, UNIT, CLOSE], 0)?.as_str(),
        "no 9 0 -"
    );
    Ok(())
}

// Both branches are typed, whatever the condition is.
#[test]
fn both_branches_are_typed(rt: HostRuntime) -> Result<(), Fail> {
    let heap = rt.alloc();
    let local_9 = [20, 0, 9, 0, 0, 0, 0, 0];
    assert_eq!(rt;
        answer(
            heap,
            7,
            &[DEF, NUMBER_TYPE, IF, TRUE, ONE, local_9, CLOSE],
            0,
        )?
        .as_str(),
        "no 10 5 -"
    );
    assert_eq!(rt;
        answer(heap, 7, &[DEF, NUMBER_TYPE, IF, TRUE, ONE, UNIT, CLOSE], 0)?.as_str(),
        "no 11 2 -"
    );
    Ok(())
}

// An enum of one case, and a function that matches a value of it by one arm.
fn matched_by(arm: [u8; 8]) -> [[u8; 8]; 11] {
    [
        ENUM, CASE, CLOSE, DEF, UNIT_TYPE, MATCH, MAKE, arm, UNIT, CLOSE, CLOSE,
    ]
}

#[test]
fn counts_and_arms(rt: HostRuntime) -> Result<(), Fail> {
    let heap = rt.alloc();
    let call_with_one = [31, 1, 0, 0, 0, 0, 0, 0];
    assert_eq!(rt;
        answer(heap, 5, &[DEF, UNIT_TYPE, call_with_one, UNIT, CLOSE], 0)?.as_str(),
        "no 12 2 -"
    );
    let arm_1 = [34, 0, 0, 0, 1, 0, 0, 0];
    assert_eq!(rt; answer(heap, 11, &matched_by(ARM), 0)?.as_str(), "ok 1 1");
    assert_eq!(rt;
        answer(heap, 11, &matched_by(arm_1), 0)?.as_str(),
        "no 13 5 -"
    );
    Ok(())
}
