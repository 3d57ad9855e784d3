//! Lanes: the next 32 bytes of a slice as one vector, by the portable vectors of `std::simd`.
//!
//! A set of 65,535 slots has 8 KiB, so it is compared in 256 steps. What is left after the last
//! whole lane is the caller's to go through.

ghost use Rattle.std.specs.Prelude.{◌≡◌, ◌≢◌, ◌↔◌, ◌+◌, ◌^◌, ◌<◌, ◌≤◌, ◌⊎◌, ℕ, length, slice_index};
ghost use Rattle.std.specs.Int.{bit_at};
ghost use Rattle.sig_bits.specs.Joined.{HasLanes, IsFirstNonzero, IsJoined};

use std::simd::prelude::*;

/// How many bytes are taken at once.
pub(crate) const LANES: usize = 32;

/// The bytes from one place on.
#[inline(always)]
pub(crate) fn load(bytes: &[u8], from: usize) -> u8x32
    requires { from + 32 ≤ length bytes.now }
    ensures { HasLanes result (λ k. slice_index bytes.now (from + k)) }
{
    u8x32::from_slice(&bytes[from..])
}

/// Puts the lanes at one place of the bytes.
#[inline(always)]
pub(crate) fn store(lanes: u8x32, bytes: &mut [u8], from: usize)
    requires { from + 32 ≤ length bytes.old }
    ensures stored { (k : ℕ) → k < 32 → slice_index bytes.new (from + k) ≡ slice_index lanes k }
    ensures kept { (k : ℕ) → (k < from) ⊎ (from + 32 ≤ k) → slice_index bytes.new k ≡ slice_index bytes.old k }
{
    lanes.copy_to_slice(&mut bytes[from..from + LANES]);
}

/// A bit for each lane that is not 0.
#[inline(always)]
pub(crate) fn nonzero(lanes: u8x32) -> u64
    ensures joined { IsJoined (slice_index lanes) 0 32 result }
    ensures each { (k : ℕ) → k < 32 → ((bit_at result k ≡ 1) ↔ (slice_index lanes k ≢ 0)) }
    ensures few { result < 2 ^ 32 }
{
    lanes.simd_ne(u8x32::splat(0)).to_bitmask()
}

/// The place of the first byte that is not 0, from one place on.
pub(crate) fn first_nonzero(bytes: &[u8; 32], from: usize) -> Option<usize>
    requires { from ≤ 32 }
    ensures { IsFirstNonzero bytes.now from result }
{
    let later = nonzero(load(bytes, 0)) >> from;
    if later == 0 {
        None
    } else {
        Some(from + later.trailing_zeros() as usize)
    }
}
