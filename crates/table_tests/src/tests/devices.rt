//! Inputs and outputs.

use sig_bits::{DeviceFault, FromRead, FromWrite, Input, Output, ReadWholeError, read_whole};
use std::alloc::Global;
use std::io::{Error, ErrorKind, Read, Result as IoResult, Write};
use std::test::Fail;

// Gives the byte 0x41 so often, one a read, is then interrupted once, and then gives the end.
#[derive(Drop)]
struct Interrupted {
    before: u8,
    done: bool,
}

impl Read for Interrupted {
    fn read(&mut self, buf: &mut [u8]) -> IoResult<usize> {
        if self.before > 0 && !buf.is_empty() {
            self.before -= 1;
            buf[0] = 0x41;
            return Ok(1);
        }
        if self.done {
            return Ok(0);
        }
        self.done = true;
        Err(Error::from(ErrorKind::Interrupted))
    }
}

// Takes one byte a write, so many in all, and then says that it took none. It counts its calls.
#[derive(Drop)]
struct Narrow {
    room: u8,
    taken: u8,
    calls: u8,
}

impl Write for Narrow {
    fn write(&mut self, buf: &[u8]) -> IoResult<usize> {
        self.calls = self.calls.saturating_add(1);
        if self.room == 0 || buf.is_empty() {
            return Ok(0);
        }
        self.room -= 1;
        self.taken = self.taken.saturating_add(1);
        Ok(1)
    }

    fn flush(&mut self) -> IoResult<()> {
        self.calls = self.calls.saturating_add(1);
        Ok(())
    }
}

// Takes all of a write, and fails to see it through.
#[derive(Drop)]
struct NeverFlushed;

impl Write for NeverFlushed {
    fn write(&mut self, buf: &[u8]) -> IoResult<usize> {
        Ok(buf.len())
    }

    fn flush(&mut self) -> IoResult<()> {
        Err(Error::from(ErrorKind::Other))
    }
}

// Takes all of each write, and fails to see the first one through, and no later one. It counts its
// writes and its flushes.
#[derive(Drop)]
struct FlushedLater {
    writes: u8,
    flushes: u8,
}

impl Write for FlushedLater {
    fn write(&mut self, buf: &[u8]) -> IoResult<usize> {
        self.writes = self.writes.saturating_add(1);
        Ok(buf.len())
    }

    fn flush(&mut self) -> IoResult<()> {
        self.flushes = self.flushes.saturating_add(1);
        if self.flushes == 1 {
            return Err(Error::from(ErrorKind::Other));
        }
        Ok(())
    }
}

// Is interrupted once, and then takes all of each write.
#[derive(Drop)]
struct InterruptedOnce {
    done: bool,
}

impl Write for InterruptedOnce {
    fn write(&mut self, buf: &[u8]) -> IoResult<usize> {
        if self.done {
            return Ok(buf.len());
        }
        self.done = true;
        Err(Error::from(ErrorKind::Interrupted))
    }

    fn flush(&mut self) -> IoResult<()> {
        Ok(())
    }
}

// Gives 0, 1, 2 and so on up to a byte, one a read.
#[derive(Drop)]
struct OneByOne {
    next: u8,
    end: u8,
}

impl Read for OneByOne {
    fn read(&mut self, buf: &mut [u8]) -> IoResult<usize> {
        if buf.is_empty() || self.next >= self.end {
            return Ok(0);
        }
        buf[0] = self.next;
        self.next += 1;
        Ok(1)
    }
}

// Fails each read, and counts them.
#[derive(Drop)]
struct Failing<'a> {
    reads: &'a mut u8,
}

impl Read for Failing<'_> {
    fn read(&mut self, _buf: &mut [u8]) -> IoResult<usize> {
        *self.reads = (*self.reads).saturating_add(1);
        Err(Error::from(ErrorKind::Other))
    }
}

// Gives all of a file that there is room for. It counts its reads, and those behind the last byte.
#[derive(Drop)]
struct Counted<'a> {
    rest: &'a [u8],
    reads: &'a mut u32,
    ends: &'a mut u32,
}

impl Read for Counted<'_> {
    fn read(&mut self, buf: &mut [u8]) -> IoResult<usize> {
        let count = self.rest.len().min(buf.len());
        *self.reads = (*self.reads).saturating_add(1);
        if count == 0 {
            *self.ends = (*self.ends).saturating_add(1);
        }
        buf[..count].copy_from_slice(&self.rest[..count]);
        self.rest = &self.rest[count..];
        Ok(count)
    }
}

// Gives the byte 0x41, and fails the second read alone. It counts its reads.
#[derive(Drop)]
struct FailingOnce<'a> {
    reads: &'a mut u8,
}

impl Read for FailingOnce<'_> {
    fn read(&mut self, buf: &mut [u8]) -> IoResult<usize> {
        *self.reads = (*self.reads).saturating_add(1);
        if *self.reads == 2 {
            return Err(Error::from(ErrorKind::Other));
        }
        if buf.is_empty() || *self.reads > 2 {
            return Ok(0);
        }
        buf[0] = 0x41;
        Ok(1)
    }
}

// Whether each of three reads of the input fails.
fn fails_thrice<R: Read>(input: &mut FromRead<R>) -> bool {
    let mut buf = [0u8; 3];
    for _ in 0..3u8 {
        if input.read(&mut buf) != Err(DeviceFault) {
            return false;
        }
    }
    true
}

#[test]
fn a_failed_reader_is_not_read_again(rt: HostRuntime) {
    let mut reads = 0;
    {
        let mut input = FromRead::new(Failing { reads: &mut reads });
        assert!(rt; fails_thrice(&mut input));
        let refused = read_whole(rt.alloc(), &mut input).err();
        assert!(rt; refused == Some(ReadWholeError::Read));
    }
    assert!(rt; reads == 1);
}

#[test]
fn a_read_that_fails_once_is_not_tried_again(rt: HostRuntime) {
    let mut reads = 0;
    {
        let mut input = FromRead::new(FailingOnce { reads: &mut reads });
        let refused = read_whole(rt.alloc(), &mut input).err();
        assert!(rt; refused == Some(ReadWholeError::Read));
        assert!(rt; fails_thrice(&mut input));
    }
    assert_eq!(rt; reads, 2, "one byte, and the fault");
}

// Lengths of files, below, at and above those for which more room is made.
const LENGTHS: [u32; 8] = [0, 1, 4096, 16_383, 16_384, 16_385, 131_072, 200_000];

#[test]
fn a_reader_is_read_once_behind_its_last_byte(rt: HostRuntime) -> Result<(), Fail> {
    for len in LENGTHS {
        let file = vec![in rt.alloc(); 0x42; len as usize]?;
        let (mut reads, mut ends) = (0, 0);
        {
            let mut input = FromRead::new(Counted {
                rest: &file,
                reads: &mut reads,
                ends: &mut ends,
            });
            let whole = read_whole(rt.alloc(), &mut input)?;
            assert!(rt; whole == file);
        }
        assert_eq!(rt; ends, 1, "{len}");
        assert!(rt; reads <= len / 4096 + 2, "{len} bytes in {reads} reads");
    }
    Ok(())
}

#[test]
fn an_empty_buffer_takes_nothing(rt: HostRuntime) {
    let mut input = FromRead::new(&b"\x41\x42"[..]);
    let mut buf = [0u8; 2];
    assert!(rt; input.read(&mut []) == Ok(0));
    assert!(rt; input.read(&mut buf) == Ok(2));
    assert!(rt; buf == [0x41, 0x42]);
    assert!(rt; input.read(&mut []) == Ok(0));
}

// Whether these are so many bytes, 0, 1, 2 and so on.
fn are_rising(bytes: &[u8], count: usize) -> bool {
    for (i, byte) in bytes.iter().enumerate() {
        if *byte as usize != i {
            return false;
        }
    }
    bytes.len() == count
}

#[test]
fn a_reader_that_gives_one_byte_a_read_is_read_whole(rt: HostRuntime) -> Result<(), Fail> {
    let mut input = FromRead::new(OneByOne { next: 0, end: 255 });
    let whole = read_whole(rt.alloc(), &mut input)?;
    assert!(rt; are_rising(&whole, 255));
    Ok(())
}

#[test]
fn a_reader_is_read_to_its_end(rt: HostRuntime) {
    let mut input = FromRead::new(&b"\x41\x42\x43\x44"[..]);
    let mut buf = [0u8; 3];
    assert!(rt; input.read(&mut buf) == Ok(3));
    assert!(rt; buf == [0x41, 0x42, 0x43]);
    assert!(rt; input.read(&mut buf) == Ok(1));
    assert!(rt; buf[0] == 0x44);
    assert!(rt; input.read(&mut buf) == Ok(0));
    assert!(rt; input.read(&mut buf) == Ok(0));
}

#[test]
fn an_interrupted_read_is_final(rt: HostRuntime) {
    let mut input = FromRead::new(Interrupted {
        before: 1,
        done: false,
    });
    let mut buf = [0u8; 3];
    assert!(rt; input.read(&mut buf) == Ok(1));
    assert!(rt; input.read(&mut buf) == Err(DeviceFault));
    assert!(rt; input.read(&mut buf) == Err(DeviceFault));
}

// Whether just these bytes are read of the whole input.
fn is_read_as<R: Read>(alloc: Global, input: &mut FromRead<R>, bytes: &[u8]) -> bool {
    match read_whole(alloc, input) {
        Ok(whole) => whole.as_slice() == bytes,
        Err(_) => false,
    }
}

#[test]
fn a_reader_is_read_whole(rt: HostRuntime) -> Result<(), Fail> {
    let long = vec![in rt.alloc(); 0x42; 200_000]?;
    let mut input = FromRead::new(long.as_slice());
    assert!(rt; is_read_as(rt.alloc(), &mut input, &long));
    let mut one_a_read = FromRead::new(Interrupted {
        before: 5,
        done: true,
    });
    assert!(rt; is_read_as(rt.alloc(), &mut one_a_read, b"AAAAA"));
    let mut failing = FromRead::new(Interrupted {
        before: 5,
        done: false,
    });
    let refused = read_whole(rt.alloc(), &mut failing).err();
    assert!(rt; refused == Some(ReadWholeError::Read));
    Ok(())
}

#[test]
fn writes_follow_one_another(rt: HostRuntime) {
    let mut output = FromWrite::new(Vec::new(rt.alloc()));
    assert!(rt; output.write_all(b"ab").is_ok());
    assert!(rt; output.write_all(b"").is_ok());
    assert!(rt; output.write_all(b"c").is_ok());
    assert!(rt; output.into_inner().as_slice() == b"abc".as_slice());
}

#[test]
fn a_short_write_goes_on_and_a_failed_one_is_final(rt: HostRuntime) {
    let mut output = FromWrite::new(Narrow {
        room: 3,
        taken: 0,
        calls: 0,
    });
    assert!(rt; output.write_all(b"ab") == Ok(()));
    assert!(rt; output.write_all(b"cd") == Err(DeviceFault));
    assert!(rt; output.write_all(b"") == Err(DeviceFault));
    assert!(rt; output.write_all(b"ef") == Err(DeviceFault));
    let writer = output.into_inner();
    assert!(rt; writer.taken == 3);
    assert_eq!(rt;
        writer.calls,
        5,
        "two writes and a flush, and then two writes"
    );
}

#[test]
fn a_failed_flush_is_a_failed_write(rt: HostRuntime) {
    let mut output = FromWrite::new(NeverFlushed);
    assert!(rt; output.write_all(b"ab") == Err(DeviceFault));
}

#[test]
fn a_flush_that_fails_once_is_not_tried_again(rt: HostRuntime) {
    let mut output = FromWrite::new(FlushedLater {
        writes: 0,
        flushes: 0,
    });
    assert!(rt; output.write_all(b"ab") == Err(DeviceFault));
    assert!(rt; output.write_all(b"cd") == Err(DeviceFault));
    let writer = output.into_inner();
    assert_eq!(rt; (writer.writes, writer.flushes), (1, 1));
}

#[test]
fn a_write_of_nothing_is_seen_through(rt: HostRuntime) {
    let mut output = FromWrite::new(FlushedLater {
        writes: 0,
        flushes: 0,
    });
    assert!(rt; output.write_all(b"") == Err(DeviceFault));
    let writer = output.into_inner();
    assert_eq!(rt; (writer.writes, writer.flushes), (0, 1));
}

#[test]
fn a_write_may_have_some_mebibytes(rt: HostRuntime) -> Result<(), Fail> {
    let long = vec![in rt.alloc(); 0x42; 5 << 20]?;
    let mut output = FromWrite::new(Vec::new(rt.alloc()));
    assert!(rt; output.write_all(&long) == Ok(()));
    assert!(rt; output.into_inner() == long);
    Ok(())
}

#[test]
fn an_interrupted_write_is_final(rt: HostRuntime) {
    let mut output = FromWrite::new(InterruptedOnce { done: false });
    assert!(rt; output.write_all(b"ab") == Err(DeviceFault));
    assert!(rt; output.write_all(b"ab") == Err(DeviceFault));
}
