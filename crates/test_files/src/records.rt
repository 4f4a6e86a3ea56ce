//! Records of a file, and their fields.
use csv::ByteRecord;
use ltm_records::{
    Records, cut, has, name_at, read_weights, text_at, vehicles_at, whole_at, width,
};
use ltm_units::{Four, Name, Units};
use std::alloc::Global;

/// Whether the entries are those of the list; no list stands for no entries.
fn are(found: Option<Four<(Name, u32)>>, want: &[(&str, u32)]) -> bool {
    let Some(entries) = found else {
        return want.is_empty();
    };
    if entries.as_slice().len() != want.len() {
        return false;
    }
    for (entry, pair) in entries.as_slice().iter().zip(want) {
        if entry.0.bytes() != pair.0.as_bytes() || entry.1 != pair.1 {
            return false;
        }
    }
    true
}

#[test]
fn cuts_at_the_first_space(rt: HostRuntime) {
    let (first, rest) = cut(b"a  b");
    assert!(rt; first == b"a".as_slice() && rest == Some(b" b".as_slice()));
    let (whole, none) = cut(b"ab");
    assert!(rt; whole == b"ab".as_slice() && none.is_none());
}

#[test]
fn reads_weights(rt: HostRuntime) {
    let cases: [(&str, &[(&str, u32)]); 18] = [
        ("b=1", &[("b", 1)]),
        ("b=1 c=0", &[("b", 1), ("c", 0)]),
        ("b=1 b=1", &[("b", 1), ("b", 1)]),
        ("z-1=4294967295", &[("z-1", 4_294_967_295)]),
        ("a=1 b=2 c=3 d=4", &[("a", 1), ("b", 2), ("c", 3), ("d", 4)]),
        ("a=1 b=2 c=3 d=4 e=5", &[]),
        ("b=4294967296", &[]),
        ("", &[]),
        ("b=-1", &[]),
        ("=1", &[]),
        ("b=", &[]),
        ("b", &[]),
        ("b 1", &[]),
        ("b==1", &[]),
        (" b=1", &[]),
        ("b=1 ", &[]),
        ("b=1  c=1", &[]),
        ("b=1,c=1", &[]),
    ];
    for (text, want) in cases {
        assert!(rt; are(read_weights(text.as_bytes()), want), "at {text}");
    }
}

/// Whether there is a next record.
fn is_next(records: &mut Records<'_>, row: &mut ByteRecord) -> bool {
    matches!(records.next(row), Ok(true))
}

/// Whether all records were read.
fn is_last(records: &mut Records<'_>, row: &mut ByteRecord) -> bool {
    matches!(records.next(row), Ok(false))
}

fn is_header(row: &ByteRecord) -> bool {
    has(row, 0, b"step_ms") && !has(row, 0, b"step_m") && has(row, 3, b"")
}

fn is_first(row: &ByteRecord) -> bool {
    width(row) == 3 && whole_at(row, 1) == Some(10) && text_at(row, 2) == b"a,\"b".as_slice()
}

fn is_second(row: &ByteRecord) -> bool {
    width(row) == 4
        && text_at(row, 1).is_empty()
        && text_at(row, 3) == b"y".as_slice()
        && text_at(row, 4).is_empty()
}

/// What is so of the records one after another: a header, two records, and no more for ever.
fn read_all(records: &mut Records<'_>, row: &mut ByteRecord) -> [bool; 8] {
    [
        is_next(records, row),
        is_header(row),
        is_next(records, row),
        is_first(row),
        is_next(records, row),
        is_second(row),
        is_last(records, row),
        is_last(records, row),
    ]
}

/// The same of a text.
fn read_text(alloc: Global, text: &[u8]) -> [bool; 8] {
    let mut records = Records::of(alloc, text);
    let mut row = ByteRecord::new(alloc);
    read_all(&mut records, &mut row)
}

#[test]
fn reads_records(rt: HostRuntime) {
    let text =
        b"\xef\xbb\xbfstep_ms,slots,origin_capacity\r\n\r\n1000,\"10\",\"a,\"\"b\"\r\n\n5,,x,y";
    assert!(rt; read_text(rt.alloc(), text) == [true; 8]);
}

/// What is so of the fields of a record.
fn fields(row: &ByteRecord) -> [bool; 6] {
    [
        name_at(row, 0) == Name::read(b"n-1"),
        name_at(row, 3).is_none(),
        whole_at(row, 1) == Some(7),
        whole_at(row, 2).is_none(),
        vehicles_at(row, 2) == Some(Units(7250)),
        vehicles_at(row, 0).is_none(),
    ]
}

/// Whether a text has a record, and what is so of its fields.
fn read_fields(alloc: Global, text: &[u8]) -> (bool, [bool; 6]) {
    let mut records = Records::of(alloc, text);
    let mut row = ByteRecord::new(alloc);
    let found = is_next(&mut records, &mut row);
    (found, fields(&row))
}

#[test]
fn reads_fields(rt: HostRuntime) {
    let text = b"n-1,007,7.25,b c";
    assert!(rt; read_fields(rt.alloc(), text) == (true, [true; 6]));
}
