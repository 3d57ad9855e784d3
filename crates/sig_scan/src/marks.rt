//! The offsets of a window at which a byte of a class stands, as a set of bits.
//!
//! 32 bytes are compared at once, and give the next four bytes of the set.

ghost use Rattle.std.specs.Prelude.{◌≡◌, ℕ, ◌+◌, ◌*◌, ◌<◌, ◌≤◌, ◌↔◌, ◌⊎◌, length, slice_index};
ghost use Rattle.std.specs.Int.{bit_at};
ghost use Rattle.sig_bits.specs.BitSets.{HasBit};
ghost use Rattle.sig_scan.specs.Classes.{Takes, TakesAt};
ghost use Rattle.sig_scan.specs.Frontiers.{HasBits};
ghost use Rattle.sig_scan.specs.Marks.{HasLanes, HasWord, MarksBelow};

use crate::class::{Class, is_in};
use sig_bits::{clear, set_bit};
use std::simd::prelude::*;

// How many bytes are compared at once.
const LANES: usize = 32;

/// Makes it the set of the offsets at which a byte of the class stands.
pub(crate) fn mark(set: &mut [u8], bytes: &[u8], class: Class)
    requires { length bytes.now < 8 * length set.old }
    ensures { HasBits (TakesAt class bytes.now) set.new }
{
    clear(set);
    let mut from = 0;
    while from + LANES <= bytes.len() {
        add_word(set, from / 8, taken(load(bytes, from), class));
        from += LANES;
    }
    mark_rest(set, bytes, class, from);
}

// The last bytes, one by one.
fn mark_rest(set: &mut [u8], bytes: &[u8], class: Class, from: usize)
    requires room { length bytes.now < 8 * length set.old }
    requires within { from ≤ length bytes.now }
    requires before { MarksBelow class bytes.now from set.old }
    ensures { HasBits (TakesAt class bytes.now) set.new }
{
    for offset in from..bytes.len() {
        if is_in(bytes[offset], class) {
            set_bit(set, offset);
        }
    }
}

// Adds the lowest 32 bits of the word to the set, from this byte of it on.
#[inline(always)]
fn add_word(set: &mut [u8], at: usize, word: u64)
    requires { at + 4 ≤ length set.old }
    ensures { (j : ℕ) → HasBit set.new j ↔ (HasBit set.old j ⊎ HasWord word (8 * at) 32 j) }
{
    let mut left = word;
    for k in 0..4 {
        set[at + k] |= (left % 256) as u8;
        left >>= 8;
    }
}

// The bytes from one offset on.
#[inline(always)]
fn load(bytes: &[u8], from: usize) -> u8x32
    requires { from + 32 ≤ length bytes.now }
    ensures { HasLanes result bytes.now from }
{
    u8x32::from_slice(&bytes[from..])
}

// A bit for each lane of the class.
#[inline(always)]
fn taken(lanes: u8x32, class: Class) -> u64
    ensures { (k : ℕ) → k < 32 → (bit_at result k ≡ 1) ↔ Takes class (slice_index lanes k) }
{
    let inside = at_most(lanes, class.high) & !below(lanes, class.low);
    if class.outside { !inside } else { inside }
}

// A bit for each lane that is below the byte.
#[inline(always)]
fn below(lanes: u8x32, byte: u8) -> u64
    ensures { (k : ℕ) → k < 32 → (bit_at result k ≡ 1) ↔ (slice_index lanes k < byte) }
{
    lanes.simd_lt(u8x32::splat(byte)).to_bitmask()
}

// A bit for each lane that is the byte or below it.
#[inline(always)]
fn at_most(lanes: u8x32, byte: u8) -> u64
    ensures { (k : ℕ) → k < 32 → (bit_at result k ≡ 1) ↔ (slice_index lanes k ≤ byte) }
{
    lanes.simd_le(u8x32::splat(byte)).to_bitmask()
}

/// Keeps the offsets that are in the set `src` too.
pub(crate) fn and_into(dst: &mut [u8], src: &[u8])
    requires { length dst.old ≡ length src.now }
    ensures { (i : ℕ) → HasBit dst.new i ↔ (HasBit dst.old i × HasBit src.now i) }
{
    for (i, byte) in src.iter().enumerate() {
        dst[i] &= *byte;
    }
}
