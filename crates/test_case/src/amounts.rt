//! Amounts as texts, names, and shares.
use ltm_units::{
    Four, Name, NumberFault, Units, push_number, push_text, push_vehicles, read_number,
    read_vehicles, read_whole, share_of,
};
use std::alloc::Global;
use std::collections::BTreeMap;

fn told(text: &[u8]) -> Result<u64, NumberFault> {
    match read_vehicles(text) {
        Ok(units) => Ok(units.0),
        Err(fault) => Err(fault),
    }
}

#[test]
fn reads_amounts(rt: HostRuntime) {
    let cases: [(&str, Result<u64, NumberFault>); 10] = [
        ("1", Ok(1000)),
        ("0.5", Ok(500)),
        ("007.25", Ok(7250)),
        ("", Err(NumberFault::Empty)),
        (".5", Err(NumberFault::BadByte(0))),
        ("1.", Err(NumberFault::BadByte(1))),
        ("1.2.3", Err(NumberFault::BadByte(3))),
        ("1.2345", Err(NumberFault::TooManyDecimals)),
        ("1000000", Ok(1_000_000_000)),
        ("1000000.001", Err(NumberFault::TooLarge)),
    ];
    for (text, want) in cases {
        assert!(rt; told(text.as_bytes()) == want, "at {text}");
    }
}

#[test]
fn reads_whole_numbers(rt: HostRuntime) {
    let cases: [(&str, Option<u32>); 6] = [
        ("4294967295", Some(4_294_967_295)),
        ("4294967296", None),
        ("007", Some(7)),
        ("00000000001", None),
        ("", None),
        ("1a", None),
    ];
    for (text, want) in cases {
        assert!(rt; read_whole(text.as_bytes()) == want, "at {text}");
    }
}

// Zeros in front count as digits, and the number of digits and the value are bounded apart.
#[test]
fn reads_numbers(rt: HostRuntime) {
    let cases: [(&str, usize, u64, Option<u64>); 7] = [
        ("18446744073709551615", 20, u64::MAX, Some(u64::MAX)),
        ("18446744073709551616", 20, u64::MAX, None),
        ("99999999999999999999", 20, u64::MAX, None),
        ("0400", 4, 400, Some(400)),
        ("0400", 3, 400, None),
        ("401", 3, 400, None),
        ("4 0", 3, 400, None),
    ];
    for (text, most_digits, most, want) in cases {
        assert!(rt;
            read_number(text.as_bytes(), most_digits, most) == want,
            "at {text}"
        );
    }
}

/// Writes an amount, a number and a word one behind another.
fn write(amount: u64, text: &mut Vec<u8>) -> bool {
    push_vehicles(text, b"=", Units(amount)).is_ok()
        && push_number(text, b" #", u128::from(amount)).is_ok()
        && push_text(text, b".").is_ok()
}

fn is_written(alloc: Global, amount: u64, want: &str) -> bool {
    let mut text: Vec<u8> = Vec::new(alloc);
    let wrote = write(amount, &mut text);
    wrote && text.as_slice() == want.as_bytes()
}

#[test]
fn writes_amounts(rt: HostRuntime) {
    for (amount, want) in [
        (5, "=0.005 #5."),
        (1000, "=1.000 #1000."),
        (7250, "=7.250 #7250."),
        (1_234_560, "=1234.560 #1234560."),
    ] {
        assert!(rt; is_written(rt.alloc(), amount, want), "at {amount}");
    }
}

/// Four numbers and one more.
fn filled() -> Option<(Four<u32>, Option<Four<u32>>)> {
    let four = Four::one(7).with(7)?.with(20)?.with(300)?;
    Some((four, four.with(4000)))
}

#[test]
fn has_one_to_four_values(rt: HostRuntime) {
    let none: [u32; 0] = [];
    let Some((four, fifth)) = filled() else {
        panic!(rt; "no four");
    };
    assert!(rt; four.as_slice() == [7, 7, 20, 300].as_slice() && fifth.is_none());
    assert!(rt; Four::of(&none).is_none() && Four::of(&[1, 2, 3, 4, 5]).is_none());
    assert!(rt; Four::of(&[1, 2, 3]).is_some_and(|three| three.as_slice() == [1, 2, 3].as_slice()));
}

/// Whether both names are put in.
fn fill(map: &mut BTreeMap<Name, u32>, a: Name, b: Name) -> bool {
    map.insert(a, 1).is_ok() && map.insert(b, 2).is_ok()
}

/// Whether a map of two names is filled, and what it has for the second.
fn second_of(alloc: Global, a: Name, b: Name) -> (bool, Option<u32>) {
    let mut map: BTreeMap<Name, u32> = BTreeMap::new(alloc);
    let filled = fill(&mut map, a, b);
    (filled, map.get(&b).copied())
}

#[test]
fn names_are_keys(rt: HostRuntime) {
    let (Some(a), Some(b)) = (Name::read(b"a"), Name::read(b"b-1")) else {
        panic!(rt; "no names");
    };
    assert!(rt; second_of(rt.alloc(), a, b) == (true, Some(2)) && a < b);
}

#[test]
fn reads_names(rt: HostRuntime) {
    let are_names = [
        Name::read(b"a b").is_some(),
        Name::read(b"").is_some(),
        Name::read(&[b'x'; 33]).is_some(),
        Name::read(&[b'x'; 32]).is_some(),
    ];
    assert!(rt; are_names == [false, false, false, true]);
}

// 5 over 3, 3 and 4 gives 1, 1 and 3.
#[test]
fn shares_in_turn(rt: HostRuntime) {
    let shares = [
        share_of(5, 3, 10),
        share_of(4, 3, 7),
        share_of(3, 4, 4),
        share_of(0, 0, 0),
        share_of(1 << 63, 1 << 62, 3 << 62),
    ];
    assert!(rt; shares == [1, 1, 3, 0, 3_074_457_345_618_258_602]);
}
