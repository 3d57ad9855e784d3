//! Classes of bytes.

use sig_bits::{ByteClass, Groups};

// Whether the classes of 41, of the capitals and of all others have the byte as they should.
fn is_held_alone(byte: u8) -> bool {
    let capitals = ByteClass::range(0x41, 0x5a);
    ByteClass::of_byte(0x41).contains(byte) == (byte == 0x41)
        && capitals.contains(byte) == byte.is_ascii_uppercase()
        && capitals.without().contains(byte) != byte.is_ascii_uppercase()
}

// Whether just those are empty that should be.
fn are_empty_alone() -> bool {
    ByteClass::range(0x42, 0x41).is_empty()
        && ByteClass::range(0, 255).without().is_empty()
        && !ByteClass::of_byte(0).is_empty()
        && ByteClass::none().is_empty()
}

// Whether two classes have the bytes of either and those of both.
fn are_joined_and_met() -> bool {
    let first = ByteClass::range(0x41, 0x43);
    let second = ByteClass::range(0x43, 0x45);
    first.union(second) == ByteClass::range(0x41, 0x45)
        && first.intersection(second) == ByteClass::of_byte(0x43)
}

#[test]
fn a_class_holds_its_bytes_alone(rt: HostRuntime) {
    for byte in 0..=255 {
        assert!(rt; is_held_alone(byte), "{byte}");
    }
    assert!(rt; are_empty_alone());
    assert!(rt; are_joined_and_met());
    assert!(rt; ByteClass::all() == ByteClass::range(0, 255));
}

// The class of 41 and FF.
fn ends() -> ByteClass {
    let mut ends = ByteClass::none();
    ends.insert(0x41);
    ends.insert(0xff);
    ends
}

// Whether the lowest of its bytes is found from any place on.
fn has_lowest() -> bool {
    let ends = ends();
    ByteClass::none().lowest_from(0).is_none()
        && ends.lowest_from(0) == Some(0x41)
        && ends.lowest_from(0x42) == Some(0xff)
        && ends.lowest_from(0x100).is_none()
}

#[test]
fn classes_are_put_together(rt: HostRuntime) {
    assert!(rt; has_lowest());
    let capitals = ByteClass::range(0x41, 0x5a);
    let mut ends = ends();
    assert!(rt; ends.intersection(capitals) == ByteClass::of_byte(0x41));
    assert!(rt; ends.intersection(ByteClass::all()) == ends);
    ends.extend(&capitals);
    assert!(rt; ends.intersection(capitals) == capitals);
    assert!(rt; ends.contains(0xff));
}

// The class of these bytes.
fn class_of(bytes: &[u8]) -> ByteClass {
    let mut class = ByteClass::none();
    for byte in bytes {
        class.insert(*byte);
    }
    class
}

// Spans, one after the other, and the lowest bytes of the groups that each leaves.
const SPLITS: &[(u8, u8, &[u8])] = &[
    (0x41, 0x42, &[0, 0x41]),
    (0x42, 0x50, &[0, 0x41, 0x42, 0x43]),
    (0x42, 0x50, &[0, 0x41, 0x42, 0x43]),
    (0, 0x41, &[0, 0x41, 0x42, 0x43, 0x51]),
    (0, 255, &[0, 0x41, 0x42, 0x43, 0x51]),
    (2, 1, &[0, 0x41, 0x42, 0x43, 0x51]),
];

#[test]
fn groups_are_split_by_spans(rt: HostRuntime) {
    let mut groups = Groups::one();
    assert!(rt; groups.lowest() == ByteClass::of_byte(0));
    for (first, last, wanted) in SPLITS {
        groups.split(*first, *last);
        assert!(rt; groups.lowest() == class_of(*wanted), "{first} to {last}");
    }
}
