//! Ranges within a set: moves the numbers from one bound up to another by one, or asks whether
//! there is one. An automaton steps a long gap so, whose slots follow one another.
//!
//! Whole bytes go at once, and single bits at the two ends. The loop over bytes has no branch, so
//! the compiler makes vector code of it. Words of 64 bits would need lemmas on sums of bytes.

ghost use Rattle.std.specs.Prelude.{◌≡◌, ℕ, ◌+◌, ◌-◌, ◌*◌, ◌<◌, ◌≤◌, ◌⊎◌, ◌↔◌, IsTrue, length, slice_index};
ghost use Rattle.sig_bits.specs.BitSets.{HasBit, HasBitBetween, IsShiftedBit};
ghost use Rattle.sig_bits.specs.Joined.{IsJoined};

use crate::bit_sets::{get_bit, set_bit};
use crate::lanes::{LANES, load, nonzero};

/// Adds the successor of each number of `src` from `from` up to `to`, which is left out, to `dst`.
pub fn shift_into(dst: &mut [u8], src: &[u8], from: usize, to: usize)
    requires order { from ≤ to }
    requires source { to ≤ 8 * length src.now }
    requires room { to < 8 * length dst.old }
    ensures { (j : ℕ) → HasBit dst.new j ↔ (HasBit dst.old j ⊎ IsShiftedBit src.now from to j) }
{
    let first = from / 8 + 1;
    let last = to / 8;
    if last <= first {
        shift_bits(dst, src, from, to);
        return;
    }
    shift_bits(dst, src, from, 8 * first - 1);
    shift_bytes(dst, src, first, last);
    shift_bits(dst, src, 8 * last - 1, to);
}

// The same, bit by bit.
fn shift_bits(dst: &mut [u8], src: &[u8], from: usize, to: usize)
    requires order { from ≤ to }
    requires source { to ≤ 8 * length src.now }
    requires room { to < 8 * length dst.old }
    ensures { (j : ℕ) → HasBit dst.new j ↔ (HasBit dst.old j ⊎ IsShiftedBit src.now from to j) }
{
    for i in from..to {
        if get_bit(src, i) {
            set_bit(dst, i + 1);
        }
    }
}

// The same for the bits that come to stand in the bytes from the first up to the last, which is
// left out.
fn shift_bytes(dst: &mut [u8], src: &[u8], first: usize, last: usize)
    requires order { 0 < first }
    requires some { first ≤ last }
    requires source { last ≤ length src.now }
    requires room { last ≤ length dst.old }
    ensures { (j : ℕ) → HasBit dst.new j ↔ (HasBit dst.old j ⊎ IsShiftedBit src.now (8 * first - 1) (8 * last - 1) j) }
{
    for k in first..last {
        dst[k] |= (src[k] << 1) | (src[k - 1] >> 7);
    }
}

/// Whether the set has a number from `from` up to `to`, which is left out.
pub fn any_between(bits: &[u8], from: usize, to: usize) -> bool
    requires { to ≤ 8 * length bits.now }
    ensures { IsTrue result ↔ HasBitBetween bits.now from to }
{
    let first = from / 8 + 1;
    let last = to / 8;
    if last <= first {
        return any_bit(bits, from, to);
    }
    any_bit(bits, from, 8 * first) || any_byte(bits, first, last) || any_bit(bits, 8 * last, to)
}

// The same, bit by bit.
fn any_bit(bits: &[u8], from: usize, to: usize) -> bool
    requires { to ≤ 8 * length bits.now }
    ensures { IsTrue result ↔ HasBitBetween bits.now from to }
{
    for i in from..to {
        if get_bit(bits, i) {
            return true;
        }
    }
    false
}

// The same for the bits of the bytes from the first up to the last, which is left out.
fn any_byte(bits: &[u8], first: usize, last: usize) -> bool
    requires order { first ≤ last }
    requires within { last ≤ length bits.now }
    ensures { IsTrue result ↔ HasBitBetween bits.now (8 * first) (8 * last) }
{
    let mut from = first;
    while from + LANES <= last {
        if nonzero(load(bits, from)) != 0 {
            return true;
        }
        from += LANES;
    }
    joined(bits, from, last) != 0
}

// The bytes joined into one.
fn joined(bits: &[u8], from: usize, to: usize) -> u8
    requires order { from ≤ to }
    requires within { to ≤ length bits.now }
    ensures { IsJoined (slice_index bits.now) from to result }
{
    let mut joined = 0;
    for k in from..to {
        joined |= bits[k];
    }
    joined
}
