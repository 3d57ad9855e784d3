//! An input read to its end, into one buffer that grows: the only call of this crate that
//! allocates. The loader, `WholeCore` and the engines that judge a file share it.
//!
//! A read has room for 4 KiB at least. The room that is added grows from 16 to 64 KiB, so a small
//! file costs a few pages and not a cleared buffer of 64 KiB. The vector doubles its capacity, and
//! bytes are read to their place, so none is copied here.
//!
//! Of a failed read and memory that runs out, whichever comes first is the answer. An input that
//! has failed before fails again at its first read. So no call in which a read failed answers `Ok`.

ghost use Rattle.std.specs.Prelude.{◌≡◌, ◌+◌, ◌≤◌, true, false, OnOk, IfOk, IfErr, IfSome, IsErrOf, take, vec_len};
ghost use Rattle.sig_bits.specs.Device.{IsAtEnd};

use crate::fault::ReadWholeError;
use crate::input::Input;
use std::alloc::Global;

// How much room a read has at least.
const LEAST_ROOM: usize = 1 << 12;

// How much room is made at first, and how much later at most.
const FIRST_PIECE: usize = 1 << 14;

const PIECE: usize = 1 << 16;

/// Reads all that is still to come, in pieces that grow from 16 to 64 KiB.
///
/// Each piece is read to its place, so no byte is copied again by this crate. The buffer's room
/// doubles as it grows; less than two pieces of it are cleared ahead of a read. So a small file
/// costs a few pages.
pub fn read_whole<R: Input>(alloc: Global, input: &mut R) -> Result<Vec<u8>, ReadWholeError>
    ensures whole { IfOk result (λ bytes. IfSome (R.to_come input.old) (λ all. bytes.items ≡ all)) }
    ensures at_end { OnOk result (IsAtEnd (R.to_come input.new)) }
    ensures lowers { IfOk result (λ bytes. R.limit input.old ≡ vec_len bytes + R.limit input.new) }

    // A failed read is reported, and only a failed read.
    ensures sound { OnOk result ((R.failed input.old ≡ false) × (R.failed input.new ≡ false)) }
    ensures read { IsErrOf result ReadWholeError.Read → R.failed input.new ≡ true }
    ensures memory { IsErrOf result ReadWholeError.OutOfMemory → R.failed input.new ≡ R.failed input.old }
{
    let mut bytes = Vec::new(alloc);
    let mut filled = 0;
    'pieces: loop {
        make_room(&mut bytes, filled)?;
        let Ok(n) = input.read(&mut bytes[filled..]) else {
            return Err(ReadWholeError::Read);
        };
        if n == 0 {
            bytes.truncate(filled);
            return Ok(bytes);
        }
        filled += n;
    }
}

// Makes room for a piece behind the filled front, which stays.
fn make_room(bytes: &mut Vec<u8>, filled: usize) -> Result<(), ReadWholeError>
    requires { filled ≤ vec_len bytes.old }
    ensures room { OnOk result (filled + 4096 ≤ vec_len bytes.new) }
    ensures front { OnOk result (take filled bytes.new.items ≡ take filled bytes.old.items) }
    ensures memory { IfErr result (λ e. e ≡ ReadWholeError.OutOfMemory) }
{
    if bytes.len() - filled >= LEAST_ROOM {
        return Ok(());
    }
    let piece = bytes.len().clamp(FIRST_PIECE, PIECE);
    bytes
        .resize(bytes.len() + piece, 0)
        .map_err(|_| ReadWholeError::OutOfMemory)
}
