//! Bytes from and to the outside: the two device traits, and the adapters that make them of any
//! reader and any writer. Sets of bytes, and sets of states, as bits; groups of bytes.
//!
//! What a device means is in the ghost members of its trait, in the words of `specs/Device.antt`.
//! A set is its bits, one by one: `specs/BitSets.antt` and `specs/ByteClasses.antt`. Groups are the
//! list of the lowest byte of the group of each byte: `specs/Groups.antt`.
#![tactic(auto)]

mod bit_ranges;
mod bit_sets;
mod byte_class;
mod fault;
mod groups;
mod input;
mod lanes;
mod laws;
mod output;
mod whole;

pub use bit_ranges::{any_between, shift_into};
pub use bit_sets::{and_any, clear, get_bit, or_into, set_bit, subset};
pub use byte_class::ByteClass;
pub use fault::{DeviceFault, ReadWholeError};
pub use groups::Groups;
pub use input::{FromRead, Input};
pub use laws::{bits_are_within, same_bits_are_same_bytes, zeros_have_no_bit};
pub use output::{FromWrite, Output};
pub use whole::read_whole;
