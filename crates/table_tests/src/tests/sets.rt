//! Sets as bits.

ghost use Rattle.std.specs.Prelude.{◌<◌, ◌≡◌, ◌≤◌, length};

use sig_bits::{and_any, any_between, clear, get_bit, or_into, set_bit, shift_into, subset};
use std::alloc::Global;

// Whether just the bits 0 and 9 of these are set.
fn has_0_and_9(set: [u8; 2]) -> bool {
    for i in 0..16 {
        if get_bit(&set, i) != (i == 0 || i == 9) {
            return false;
        }
    }
    true
}

#[test]
fn the_set_of_0_and_9_is_01_02(rt: HostRuntime) {
    let mut set = [0xff; 2];
    clear(&mut set);
    assert!(rt; set == [0, 0]);
    set_bit(&mut set, 0);
    set_bit(&mut set, 9);
    assert!(rt; set == [0x01, 0x02]);
    assert!(rt; has_0_and_9(set));
}

// Two sets, whether they have a bit in common, and whether the second has all bits of the first.
const COMPARED: &[([u8; 2], [u8; 2], bool, bool)] = &[
    ([0x00, 0x00], [0x00, 0x00], false, true),
    ([0x01, 0x00], [0x00, 0x01], false, false),
    ([0x00, 0x80], [0x01, 0x80], true, true),
    ([0x01, 0x80], [0x00, 0x80], true, false),
];

// Whether the two are compared so.
fn are_compared_so(a: &[u8; 2], b: &[u8; 2], meet: bool, within: bool) -> bool {
    and_any(a, b) == meet && subset(a, b) == within
}

#[test]
fn sets_are_joined_and_compared(rt: HostRuntime) {
    let mut joined = [0x01, 0x80];
    or_into(&mut joined, &[0x03, 0x00]);
    assert!(rt; joined == [0x03, 0x80]);
    for (a, b, meet, within) in COMPARED {
        assert!(rt; are_compared_so(a, b, *meet, *within), "{a:?} and {b:?}");
    }
}

// 200 bits with no pattern that a byte, or 32 of them, would hide.
const BITS: [u8; 25] = [
    0x81, 0x00, 0xff, 0x12, 0x00, 0x00, 0x80, 0x01, 0x7e, 0x00, 0xc3, 0x5a, 0x00, 0x00, 0x00, 0x00,
    0x00, 0x10, 0x08, 0x00, 0x00, 0x00, 0x00, 0x00, 0x80,
];

// Whether the range is shifted as it is bit by bit, over bits that are set already.
fn is_shifted(from: usize, to: usize) -> bool
    requires order { from ≤ to }
    requires room { to < 200 }
{
    let mut shifted = [0x20; 25];
    shift_into(&mut shifted, &BITS, from, to);
    let mut wanted = [0x20; 25];
    for i in from..to {
        if get_bit(&BITS, i) {
            set_bit(&mut wanted, i + 1);
        }
    }
    shifted == wanted
}

#[test]
fn a_range_is_shifted_bit_by_bit(rt: HostRuntime) {
    for from in 0..60 {
        for to in from..200 {
            assert!(rt; is_shifted(from, to), "{from} to {to}");
        }
    }
}

#[test]
fn the_bits_of_01_80_shifted_are_02_80(rt: HostRuntime) {
    let mut shifted = [0x00, 0x80];
    shift_into(&mut shifted, &[0x01, 0x80], 0, 15);
    assert!(rt; shifted == [0x02, 0x80]);
    let mut longer = [0x00, 0x00, 0x00];
    shift_into(&mut longer, &[0x01, 0x80], 0, 16);
    assert!(rt; longer == [0x02, 0x00, 0x01]);
    shift_into(&mut longer, &[0x01, 0x80], 1, 15);
    assert!(rt; longer == [0x02, 0x00, 0x01]);
}

// Whether one of the bits in the range is set, bit by bit.
fn has_bit_between(from: usize, to: usize) -> bool
    requires { to ≤ 200 }
{
    for i in from..to {
        if get_bit(&BITS, i) {
            return true;
        }
    }
    false
}

#[test]
fn a_range_has_a_bit_where_one_of_its_bits_is_set(rt: HostRuntime) {
    for from in 0..60 {
        for to in from..201 {
            let wanted = has_bit_between(from, to);
            assert!(rt; any_between(&BITS, from, to) == wanted, "{from} to {to}");
        }
    }
}

// What the kernels answer, byte by byte.
fn have_common(a: &[u8], b: &[u8]) -> bool
    requires { length a.now ≡ length b.now }
{
    for i in 0..a.len() {
        if a[i] & b[i] != 0 {
            return true;
        }
    }
    false
}

fn is_within(a: &[u8], b: &[u8]) -> bool
    requires { length a.now ≡ length b.now }
{
    for i in 0..a.len() {
        if a[i] & !b[i] != 0 {
            return false;
        }
    }
    true
}

fn is_joined(joined: &[u8], a: &[u8], b: &[u8]) -> bool
    requires first { length a.now ≡ length joined.now }
    requires second { length b.now ≡ length joined.now }
{
    for i in 0..joined.len() {
        if joined[i] != a[i] | b[i] {
            return false;
        }
    }
    true
}

// Whether the kernels answer so of the two sets.
fn kernels_agree(alloc: Global, a: &[u8], b: &[u8]) -> Option<bool> {
    let mut joined = a.to_vec(alloc).ok()?;
    if a.len() != b.len() || joined.len() != b.len() {
        return None;
    }
    or_into(joined.as_mut_slice(), b);
    Some(
        and_any(a, b) == have_common(a, b)
            && subset(a, b) == is_within(a, b)
            && is_joined(joined.as_slice(), a, b),
    )
}

// A set of so many equal bytes, but for the one in this place.
fn set_with(alloc: Global, len: usize, bytes: u8, place: usize, byte: u8) -> Option<Vec<u8>>
    requires { place < len }
{
    let mut set = vec![in alloc; bytes; len].ok()?;
    set[place] = byte;
    Some(set)
}

// The bytes of another set, and its byte in the place where the one set has a bit: none, the same,
// another one of that byte, or all.
const OTHERS: &[(u8, u8)] = &[(0x00, 0x00), (0x00, 0x10), (0x00, 0x80), (0xff, 0xff)];

// Whether they do where one set has one bit, in this byte, and the other is any of those.
fn one_bit_agrees(alloc: Global, len: usize, place: usize) -> Option<bool> {
    if len <= place {
        return None;
    }
    let one = set_with(alloc, len, 0x00, place, 0x10)?;
    for (bytes, byte) in OTHERS {
        let set = set_with(alloc, len, *bytes, place, *byte)?;
        if !kernels_agree(alloc, &one, &set)? || !kernels_agree(alloc, &set, &one)? {
            return Some(false);
        }
    }
    Some(true)
}

// Whether they do with that bit in each byte in turn.
fn each_bit_agrees(alloc: Global, len: usize) -> Option<bool> {
    for place in 0..len {
        if !one_bit_agrees(alloc, len, place)? {
            return Some(false);
        }
    }
    Some(true)
}

// The lengths of short sets.
const SHORT: &[usize] = &[1, 15, 16, 17, 31, 32, 33];

#[test]
fn one_bit_is_found_in_each_byte_of_short_sets(rt: HostRuntime) {
    for len in SHORT {
        assert!(rt; each_bit_agrees(rt.alloc(), *len) == Some(true), "{len}");
    }
    assert!(rt; kernels_agree(rt.alloc(), &[], &[]) == Some(true));
    assert!(rt; !and_any(&[], &[]));
    assert!(rt; subset(&[], &[]));
}

// The lengths of long sets, and places at both ends, in the middle, and where whole lanes end.
const LONG: &[(usize, usize)] = &[
    (8_191, 0),
    (8_191, 4_094),
    (8_191, 4_095),
    (8_191, 8_158),
    (8_191, 8_159),
    (8_191, 8_190),
    (8_192, 0),
    (8_192, 4_095),
    (8_192, 4_096),
    (8_192, 8_159),
    (8_192, 8_160),
    (8_192, 8_191),
];

#[test]
fn one_bit_is_found_in_long_sets(rt: HostRuntime) {
    for (len, place) in LONG {
        let agrees = one_bit_agrees(rt.alloc(), *len, *place);
        assert!(rt; agrees == Some(true), "{len} at {place}");
    }
}

// Whether the kernels see the bit that `one` alone has and `rest` alone lacks, and join the two to
// `all`.
fn bit_is_seen(one: &[u8], rest: &mut [u8], all: &[u8]) -> Option<bool> {
    if rest.len() != one.len() || all.len() != one.len() {
        return None;
    }
    let is_seen = and_any(one, all) && !and_any(one, rest) && !subset(one, rest);
    or_into(rest, one);
    Some(is_seen && subset(all, rest))
}

// Whether they do where that bit is in each byte of them in turn.
fn each_is_seen(one: &mut [u8], rest: &mut [u8], all: &[u8]) -> Option<bool> {
    for place in 0..one.len() {
        one[place] = 0x10;
        *rest.get_mut(place)? = 0xef;
        if !bit_is_seen(one, rest, all)? {
            return Some(false);
        }
        *one.get_mut(place)? = 0x00;
    }
    Some(true)
}

// Whether they do in sets of so many bytes.
fn each_bit_is_seen(alloc: Global, len: usize) -> Option<bool> {
    let all = vec![in alloc; 0xff; len].ok()?;
    let mut one = vec![in alloc; 0x00; len].ok()?;
    let mut rest = vec![in alloc; 0xff; len].ok()?;
    each_is_seen(&mut one, &mut rest, &all)
}

#[test]
fn one_bit_is_seen_in_each_of_8192_bytes(rt: HostRuntime) {
    assert_eq!(rt; each_bit_is_seen(rt.alloc(), 8_192), Some(true));
}

#[test]
fn one_bit_is_seen_in_each_of_8191_bytes(rt: HostRuntime) {
    assert_eq!(rt; each_bit_is_seen(rt.alloc(), 8_191), Some(true));
}

#[test]
fn sets_longer_than_the_lanes_are_compared_to_their_end(rt: HostRuntime) {
    let mut last = [0x00; 200];
    set_bit(&mut last, 1599);
    let none = [0x00; 200];
    assert!(rt; and_any(&last, &last));
    assert!(rt; !and_any(&last, &none));
    assert!(rt; subset(&none, &last));
    assert!(rt; !subset(&last, &none));
    assert!(rt; any_between(&last, 0, 1600));
    assert!(rt; !any_between(&last, 0, 1599));
}
