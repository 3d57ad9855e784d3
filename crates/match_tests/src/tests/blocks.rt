//! The worked rows, scanned by blocks of any length and read in pieces of any length.

ghost use Rattle.std.specs.Prelude.{None, false, length};

use crate::tests::worked::WORKED;
use crate::tests::{hit, loaded, repeated, table_of};
use sig_bits::{DeviceFault, FromRead, Input};
use sig_core::{DroidCore, Hit};
use sig_scan::BlockCore;
use std::test::Fail;

// Lengths of blocks.
const BLOCKS: [u32; 5] = [1, 2, 3, 7, 4096];

// How many bytes a read gives at most.
const PIECES: [usize; 4] = [1, 2, 5, 64];

// Gives at most so many bytes a read.
#[derive(Drop)]
struct Pieces<'a> {
    rest: &'a [u8],
    most: usize,
}

impl Input for Pieces<'_> {
    ghost failed = { λ _. false };

    ghost limit = { λ s. length s.rest.now };

    ghost to_come = { λ _. None };

    fn read(&mut self, buf: &mut [u8]) -> Result<usize, DeviceFault> {
        let count = self.rest.len().min(self.most).min(buf.len());
        buf[..count].copy_from_slice(&self.rest[..count]);
        self.rest = &self.rest[count..];
        Ok(count)
    }
}

#[test]
fn blocks_hit_where_the_rows_say(rt: HostRuntime) -> Result<(), Fail> {
    for (sequences, file, is_hit) in WORKED {
        for block in BLOCKS {
            let table = table_of(rt.alloc(), sequences)?;
            let core = BlockCore::with_block(rt.alloc(), table, block.max(1));
            for most in PIECES {
                let mut pieces = Pieces { rest: file, most };
                let results = core.match_binary_signatures(&mut pieces)?;
                let are_any = !results.hits().is_empty();
                assert_eq!(rt; are_any, *is_hit, "{sequences} by {block} and {most}");
            }
        }
    }
    Ok(())
}

#[test]
fn words_lie_across_pieces_and_blocks(rt: HostRuntime) -> Result<(), Fail> {
    let table = loaded(rt.alloc(), "fmt/1,1,Variable,,,42434445\n")?;
    let core = BlockCore::prepared(rt.alloc(), table);
    let hits: &[Hit] = &[hit(0, 0)];
    for end in [1 << 15, 1 << 16, 1 << 18, 1 << 19] {
        for back in 0..8 {
            let mut file = repeated(rt.alloc(), b"@", end - back)?;
            for byte in b"BCDE@" {
                file.push(*byte)?;
            }
            let results = core.match_binary_signatures(&mut FromRead::new(file.as_slice()))?;
            assert!(rt; results.hits() == hits, "{end} less {back}");
        }
    }
    Ok(())
}
