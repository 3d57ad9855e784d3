//! A scan of one file, block by block.
//!
//! The bytes at hand are a block, with as many bytes before it as the longest word takes. Of each
//! sequence a state is known. When the buffer is full, each sequence goes on over the words that
//! begin before the last `keep` bytes, which all end in sight; then these bytes move to the front.
//! At the end of the file all that is left is in the bytes at hand, and the sequences of a
//! signature are asked in turn until one of them does not stand.
//!
//! A signature is excluded where the greatest offset of a stage that it waits in is passed. None of
//! its sequences is looked for any more: of `BOF,0,,FFD8` and `FFD9` anywhere, the second is not
//! looked for behind the first block of a file in which the first did not stand.
//!
//! One loop goes over the sequences of all signatures. Each has the number of its signature beside
//! it, and each signature one flag: whether it may still hit the file. So nothing depends on where
//! the sequences of a signature begin among all.

ghost use Rattle.std.specs.Prelude.{◌≡◌, ℕ, ◌+◌, ◌<◌, ◌≤◌, ◌↔◌, ◌^◌, ◌-◌, All, IfOk, IsTrue, List, OnOk, Some, drop, false, length, min, true};
ghost use Rattle.sig_bits.specs.Bytes.{IsBytes};
ghost use Rattle.sig_scan.specs.Courses.{IsProgramOf};
ghost use Rattle.sig_scan.specs.Passes.{ArePast};
ghost use Rattle.sig_scan.specs.Scans.{AreDone, AreExcluded, AreMarked, CanSettle, EndsPast, HasRead, HasSizes, IsScanOf, IsShortCourse, Knows, ReadsOn};
ghost use Rattle.std.specs.List.{slice_get};
ghost use Rattle.sig_table.specs.Standing.{Stands};
ghost use Rattle.sig_table.specs.Views.{SequenceView, TableView};

use crate::buffer::Buffer;
use crate::frontier::Frontier;
use crate::program::Program;
use crate::state::{Site, State, is_past, settle, stands};
use sig_bits::{DeviceFault, Input};
use std::alloc::{AllocError, Global};
use std::marker::Model;

// A scan of one file for the sequences of a program.
#[derive(Debug, Drop)]
pub(crate) struct Scan<'p> {
    program: &'p Program,
    keep: usize,
    base: u64,
    buffer: Buffer,
    states: Vec<State>,
    // Of each signature, whether it may still hit the file.
    may_hit: Vec<bool>,
    found: Vec<usize>,
    frontier: Frontier,
}

impl<'p> Model for Scan<'p> {
    ghost use Rattle.sig_scan.specs.Scans.{IsScan, ScanView};

    ghost Value = { ScanView };

    ghost view = { λ s. record {
      program = s.program.now;
      keep = s.keep;
      base = s.base;
      buffer = s.buffer;
      states = s.states.items;
      may_hit = s.may_hit.items;
      found = s.found.items;
    } };

    ghost invariant = { λ s. IsScan s.frontier
        (record {
          program = s.program.now;
          keep = s.keep;
          base = s.base;
          buffer = s.buffer;
          states = s.states.items;
          may_hit = s.may_hit.items;
          found = s.found.items;
        }) };
}

impl<'p> Scan<'p> {
    // Of a file of which the buffer has all bytes that are read, for the signatures that it may
    // hit. So many bytes hold any word. All memory is asked for here.
    pub(crate) fn new(
        alloc: Global,
        program: &'p Program,
        may_hit: Vec<bool>,
        keep: usize,
        buffer: Buffer,
    ) -> Result<Scan<'p>, AllocError>
        requires owners { All (λ g. g < length may_hit.items) program.now.owners }
        requires held { All (IsShortCourse keep) program.now.courses }
        requires bytes { IsBytes buffer.bytes }
        ensures sizes { IfOk result (HasSizes keep buffer.room (length may_hit.items)) }
        ensures fresh { (table : TableView) → IsProgramOf table may_hit.items program.now → length may_hit.items ≡ length table.signatures
            → AreExcluded table may_hit.items buffer.bytes → IfOk result (IsScanOf table buffer.bytes) }
    {
        let states = Vec::from_slice(alloc, program.first_states())?;
        let found = vec![in alloc; 0; program.sequence_count()]?;
        let frontier = Frontier::new(alloc, buffer.room())?;
        Ok(Scan {
            program,
            keep,
            base: 0,
            buffer,
            states,
            may_hit,
            found,
            frontier,
        })
    }

    // Reads on in the file until the buffer is full, and answers whether it is. If it is not, the
    // file is at its end.
    pub(crate) fn read_on<R: Input>(&mut self, input: &mut R) -> Result<bool, DeviceFault>
        requires { self.old.keep < self.old.buffer.room }
        ensures len { length self.new.may_hit ≡ length self.old.may_hit }
        ensures room { self.new.keep < self.new.buffer.room }
        ensures read { (table : TableView) (file : List ℕ) → IsScanOf table file self.old
            → OnOk result (HasRead table file (R.to_come input.old) (R.to_come input.new) self.new) }
        ensures lowers { IfOk result (λ full. IsTrue full → R.limit input.new < R.limit input.old) }
        ensures reads { ReadsOn (λ full. full ≡ false) result (R.failed input.old) (R.failed input.new) (R.to_come input.new) }
    {
        if self.buffer.is_full() {
            self.settle();
        }
        self.buffer.fill(input)?;
        Ok(self.buffer.is_full())
    }

    // Goes on over the words that begin before the last `keep` bytes, and has these alone at hand.
    fn settle(&mut self)
        requires bytes { self.old.keep ≤ length self.old.buffer.bytes }
        requires room { self.old.keep < self.old.buffer.room }
        ensures sizes { HasSizes self.old.keep self.old.buffer.room (length self.old.may_hit) self.new }
        ensures free { length self.new.buffer.bytes < self.new.buffer.room }
        ensures settled { (table : TableView) (file : List ℕ) → IsScanOf table file self.old → IsScanOf table file self.new }
    {
        let bytes = self.buffer.as_bytes();
        let limit = bytes.len() - self.keep;
        self.program.look(
            bytes,
            self.base,
            &self.states,
            &self.may_hit,
            &mut self.found,
        );
        let site = Site {
            bytes,
            base: self.base,
            limit,
            reach: self.keep,
            is_last: false,
        };
        settle_all(
            self.program,
            &mut self.states,
            &mut self.may_hit,
            &self.found,
            site,
            &mut self.frontier,
        );
        self.buffer.take_off(limit);
        self.base = self.base.saturating_add(limit as u64);
    }

    // At the end of the file: marks each signature of the table that hits it, and no other. The
    // scan is of the file as before.
    pub(crate) fn finish(&mut self, marks: &mut [bool])
        requires { length marks.old ≡ length self.old.may_hit }
        ensures marks { (table : TableView) (file : List ℕ) → IsScanOf table file self.old → AreMarked table file marks.new }
        ensures of { (table : TableView) (file : List ℕ) → IsScanOf table file self.old → IsScanOf table file self.new }
    {
        self.close();
        marks.copy_from_slice(&self.may_hit);
        let program = self.program;
        for k in 0..program.sequence_count() {
            let signature = program.signature_of(k);
            if marks[signature] {
                marks[signature] = self.stands(k);
            }
        }
    }

    // At the end of the file: finds for each sequence how far it goes on in the bytes at hand.
    fn close(&mut self)
        ensures len { length self.new.may_hit ≡ length self.old.may_hit }
        ensures past { EndsPast self.new }
        ensures of { (table : TableView) (file : List ℕ) → IsScanOf table file self.old → IsScanOf table file self.new }
    {
        let bytes = self.buffer.with_one_more();
        self.program.look(
            bytes,
            self.base,
            &self.states,
            &self.may_hit,
            &mut self.found,
        );
    }

    // Whether a sequence of a signature that the file may hit stands in the file.
    fn stands(&mut self, sequence: usize) -> bool
        requires { sequence < length self.old.program.courses }
        ensures same { self.new ≡ self.old }
        ensures stands { (table : TableView) (file : List ℕ) (of : IsScanOf table file self.old) (g : ℕ) (s : SequenceView) → EndsPast self.old
            → slice_get self.old.program.owners sequence ≡ Some g → slice_get self.old.may_hit g ≡ Some true
            → slice_get of.sequences sequence ≡ Some s → IsTrue result ↔ Stands s file }
    {
        let stages = self.program.stages_of(sequence);
        let tail = self.program.tail_of(sequence);
        let state = self.states[sequence];
        let from = state.from.max(self.found[sequence]);
        let bytes = self.buffer.as_bytes();
        stands(
            State {
                done: state.done,
                from,
            },
            stages,
            tail,
            bytes,
            self.base,
            self.keep,
            &mut self.frontier,
        )
    }
}

// The sequences of each signature that the file may hit go on over the words that begin before the
// limit, and their offsets are counted from there on. A signature of which one can't stand any more
// is excluded.
fn settle_all(
    program: &Program,
    states: &mut [State],
    may_hit: &mut [bool],
    found: &[usize],
    site: Site<'_>,
    frontier: &mut Frontier,
)
    requires ready { CanSettle program.now states.old may_hit.old (length found.now) site frontier.old }
    requires past { ArePast program.now.courses states.old site.bytes.now found.now }
    ensures room { frontier.new ≡ frontier.old }
    ensures done { AreDone program.now.courses states.new }
    ensures settled { (table : TableView) (file : List ℕ) → Knows table file program.now site.entry.reach site.entry.base site.entry.bytes.now states.old may_hit.old
        → Knows table file program.now site.entry.reach (min (site.entry.base + site.entry.limit) (2 ^ 64 - 1)) (drop site.entry.limit site.entry.bytes.now) states.new may_hit.new }
{
    for k in 0..program.sequence_count() {
        let signature = program.signature_of(k);
        if may_hit[signature] {
            let stages = program.stages_of(k);
            let state = State {
                done: states[k].done,
                from: states[k].from.max(found[k].min(site.limit)),
            };
            let settled = settle(state, stages, site, frontier);
            may_hit[signature] = !is_past(settled, stages, site.base);
            states[k] = State {
                done: settled.done,
                from: settled.from.saturating_sub(site.limit),
            };
        }
    }
}
