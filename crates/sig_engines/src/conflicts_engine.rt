//! `conflicts`, over any output: the pairs of formats of a table, one after another.
//!
//! A line is written as soon as its pair is known. So where memory runs out or a write fails, the
//! lines before stand, and the last line is missing. Each signature of the table is decided once
//! before the first pair (`lives_of_table`), since a format is in many pairs. What is made of all
//! pairs together, a line for each format and the forced pairs, is made of their notes at the end.

ghost use Rattle.std.specs.Prelude.{◌≡◌, ◌↔◌, ◌+◌, ◌-◌, ◌++◌, ◌^◌, ◌<◌, [], None, Some, All, false, true, IfErr, IfOk, IsSome, IsTrue, OnOk, length, string_bytes};
ghost use Rattle.sig_engines.specs.Conflicts.{AddsConflicts, HasRoom, IsClassOf, IsCounted, IsUnmade, StopsConflicts, asked_line, counts_line, pairs_in};
ghost use Rattle.sig_engines.specs.Forced.{Forces};
ghost use Rattle.sig_engines.specs.Notes.{noted, summary_if_asked};
ghost use Rattle.sig_engines.specs.Pairs.{AreTold, IsFileAsked, IsFileFault, IsPairCut, IsRankFault, IsTargetFault, IsTold};
ghost use Rattle.sig_engines.specs.Ranking.{IsOfFormats};
ghost use Rattle.sig_engines.specs.Stores.{IsMade};
ghost use Rattle.sig_engines.specs.Asks.{shows_class};
ghost use Rattle.sig_engines.specs.Witnesses.{KeepsWitness};
ghost use Rattle.sig_bits.specs.Device.{Adds, AddsFront};
ghost use Rattle.sig_cert.specs.Deciding.{AreFormats, Decided};
ghost use Rattle.sig_find.specs.FormatPairs.{NamesSignatures};
ghost use Rattle.sig_find.specs.Lives.{AreLivesOfTable};
ghost use Rattle.sig_table.specs.Tables.{IsTable};

use crate::ask::{ConflictsAsk, ConflictsRun};
use crate::counts::Counts;
use crate::error::{CutShort, PairsFault};
use crate::forced::rank_forced;
use crate::note::Note;
use crate::pair_lines::{line_of_counts, line_of_pair};
use crate::store::Store;
use crate::summary::push_summary;
use crate::witness_name::WitnessName;
use sig_bits::Output;
use sig_find::{
    Observer, PairClass, PairDecision, TableLives, class_of_pair, decide_pair, lives_of_table,
};
use sig_table::{FormatId, OutError, Table};
use std::alloc::{AllocError, Global};

/// What `conflicts` answers.
#[derive(Debug, Drop)]
pub struct PairsAnswer {
    /// Each pair that was asked for is decided.
    pub all_decided: bool,
    /// A line for each forced pair that does not stand in the priority file.
    pub refused: String,
}

/// Writes a line for each pair of formats that is asked for and not known to be decided, or one for
/// each format, and a last one with the counts. Answers whether all these pairs are decided: then
/// the table is, if all pairs were asked for.
///
/// Of a pair without a line no file leaves both formats, and the file of an `ambiguous` line leaves
/// both. The folder and the files that are asked for are made: those of the pairs before their
/// lines, and the priority file before the search, and it is written behind it. The observer is
/// told how many of how many pairs are done, at once and after each.
#[inline(never)]
pub fn run_conflicts<'a, S: Store, W: Output, O: Observer>(
    run: &ConflictsRun<'_, 'a, S>,
    out: &mut W,
    observer: &mut O,
) -> Result<PairsAnswer, PairsFault<'a>>
    ensures answers { IfOk result (λ answer. AddsConflicts (IsMade S.name_of S.Writer.written S.Writer.failed (S.held run.now.store.now))
        answer.all_decided (string_bytes answer.refused) run.now.ask run.now.table.now (W.written out.old) (W.written out.new)) }
    ensures decided { IfOk result (λ answer. answer.all_decided ≡ true → run.now.ask.only ≡ None → Decided run.now.table.now) }
    ensures writes { OnOk result (W.failed out.new ≡ false) }
    ensures stops { IfErr result (StopsConflicts S.Writer.failed (S.held run.now.store.now) run.now.ask run.now.table.now
        (W.failed out.new) (W.written out.old) (W.written out.new) (out.new ≡ out.old)) }
    ensures observed { O.becomes observer.old observer.new }
{
    let file = make_targets(run)?;
    answer_pairs(run, file, out, observer)
}

/// Makes the folder and the priority file that are asked for.
pub(crate) fn make_targets<'a, S: Store>(
    run: &ConflictsRun<'_, 'a, S>,
) -> Result<Option<S::Writer>, PairsFault<'a>>
    ensures made { IfOk result (IsFileAsked S.name_of S.Writer.written S.Writer.failed (S.held run.now.store.now) run.now.ask.priorities) }
    ensures faults { IfErr result (λ fault. IsTargetFault fault run.now.ask) }
    ensures unmade { IfErr result (IsUnmade (S.held run.now.store.now)) }
{
    if let Some(folder) = run.ask.files {
        if !run.store.make_folder(folder) {
            return Err(PairsFault::CannotOpen(folder));
        }
    }
    let Some(name) = run.ask.priorities else {
        return Ok(None);
    };
    match run.store.create(name) {
        Some(file) => Ok(Some(file)),
        None => Err(PairsFault::CannotOpen(name)),
    }
}

/// The same over a priority file that was made, where one is asked for.
pub(crate) fn answer_pairs<'a, S: Store, W: Output, O: Observer>(
    run: &ConflictsRun<'_, 'a, S>,
    file: Option<S::Writer>,
    out: &mut W,
    observer: &mut O,
) -> Result<PairsAnswer, PairsFault<'a>>
    requires { IsFileAsked S.name_of S.Writer.written S.Writer.failed (S.held run.now.store.now) run.now.ask.priorities file }
    ensures answers { IfOk result (λ answer. AddsConflicts (IsMade S.name_of S.Writer.written S.Writer.failed (S.held run.now.store.now))
        answer.all_decided (string_bytes answer.refused) run.now.ask run.now.table.now (W.written out.old) (W.written out.new)) }
    ensures decided { IfOk result (λ answer. answer.all_decided ≡ true → run.now.ask.only ≡ None → Decided run.now.table.now) }
    ensures writes { OnOk result (W.failed out.new ≡ false) }
    ensures stops { IfErr result (StopsConflicts S.Writer.failed (S.held run.now.store.now) run.now.ask run.now.table.now
        (W.failed out.new) (W.written out.old) (W.written out.new) ⊥) }
    ensures observed { O.becomes observer.old observer.new }
{
    let lives = lives_of_table(run.alloc, run.table, run.ask.budget)?;
    let told = write_pairs(run, &lives, out, observer)?;
    let refused = write_forced(run, &told.notes, file)?;
    let lines = last_lines(run, told.counts, &told.notes)?;
    write_line(lines.as_str(), out)?;
    Ok(PairsAnswer {
        all_decided: told.counts.are_all_decided(),
        refused,
    })
}

// What is known of the pairs so far: how many there are of each kind, and a note of each that has a
// line.
#[derive(Drop)]
struct Told {
    counts: Counts,
    notes: Vec<Note>,
}

impl Told {
    // One pair more.
    fn add(
        &mut self,
        a: FormatId,
        b: FormatId,
        decision: &PairDecision,
        class: Option<PairClass>,
    ) -> Result<(), AllocError>
        requires { HasRoom self.old.counts }
        ensures counted { OnOk result (IsCounted self.old.counts self.new.counts (Some decision.now) class) }
        ensures noted { OnOk result (self.new.notes.items ≡ self.old.notes.items ++ noted (a.0, b.0) (Some decision.now) class) }
    {
        self.counts.add(decision, class);
        match decision {
            PairDecision::Decided => Ok(()),
            PairDecision::Ambiguous { .. }
            | PairDecision::Tried { .. }
            | PairDecision::Unknown { .. } => {
                self.notes.push(Note { a, b, class })?;
                Ok(())
            }
        }
    }
}

// Writes the lines of all pairs that are asked for, in table order.
fn write_pairs<'a, S: Store, W: Output, O: Observer>(
    run: &ConflictsRun<'_, 'a, S>,
    lives: &TableLives,
    out: &mut W,
    observer: &mut O,
) -> Result<Told, PairsFault<'a>>
    requires { AreLivesOfTable run.now.table.now run.now.ask.budget lives.now }
    ensures told { IfOk result (λ told. AreTold (IsMade S.name_of S.Writer.written S.Writer.failed (S.held run.now.store.now)) run.now.ask run.now.table.now []
        told.counts told.notes.items (W.written out.old) (W.written out.new)) }
    ensures limits { IsTable run.now.table.now }
    ensures few { IfOk result (λ told. pairs_in told.counts < 2 ^ 32) }
    ensures stops { IfErr result (StopsConflicts S.Writer.failed (S.held run.now.store.now) run.now.ask run.now.table.now
        (W.failed out.new) (W.written out.old) (W.written out.new) ⊥) }
    ensures observed { O.becomes observer.old observer.new }
{
    let formats = run.table.format_count() as u16;
    let mut told = Told {
        counts: Counts::new(),
        notes: Vec::new(run.alloc),
    };
    let pairs = pair_count(run.table, run.ask);
    observer.report(0, pairs);
    for i in 0..formats {
        for j in i + 1..formats {
            let (a, b) = (FormatId(i), FormatId(j));
            if !run.ask.has_pair(a, b) {
                continue;
            }
            write_pair(run, lives, a, b, &mut told, out)?;
            observer.report(u64::from(told.counts.pairs()), pairs);
        }
    }
    Ok(told)
}

// How many pairs of formats are asked for of which neither outranks the other.
fn pair_count(table: &Table, ask: ConflictsAsk<'_>) -> u64 {
    let formats = table.format_count() as u16;
    let mut count = 0u64;
    for i in 0..formats {
        for j in i + 1..formats {
            let (a, b) = (FormatId(i), FormatId(j));
            if ask.has_pair(a, b) && !table.are_related(a, b) {
                count = count.saturating_add(1);
            }
        }
    }
    count
}

// Settles one pair, notes it, keeps its file and writes its line, if it has them.
fn write_pair<'a, S: Store, W: Output>(
    run: &ConflictsRun<'_, 'a, S>,
    lives: &TableLives,
    a: FormatId,
    b: FormatId,
    told: &mut Told,
    out: &mut W,
) -> Result<(), PairsFault<'a>>
    requires lives { AreLivesOfTable run.now.table.now run.now.ask.budget lives.now }
    requires formats { AreFormats run.now.table.now (a, b) }
    requires room { HasRoom told.old.counts }
    ensures told { OnOk result (IsTold (IsMade S.name_of S.Writer.written S.Writer.failed (S.held run.now.store.now)) run.now.ask run.now.table.now (a.0, b.0)
        told.old.counts told.new.counts told.old.notes.items told.new.notes.items (W.written out.old) (W.written out.new)) }
    ensures cut { IfErr result (λ fault. IsPairCut S.Writer.failed fault run.now.ask run.now.table.now (a.0, b.0) (W.failed out.new) (W.written out.old) (W.written out.new)) }
    ensures unmade { IfErr result (IsUnmade (S.held run.now.store.now)) }
{
    if run.table.are_related(a, b) {
        return Ok(());
    }
    let decision = decide_pair(run.alloc, run.table, lives, a, b, run.ask.budget)?;
    let class = class_if_asked(run, lives, a, b, &decision)?;
    let line = line_if_asked(run, a, b, &decision, class)?;
    told.add(a, b, &decision, class)?;
    keep_witness(run, a, b, &decision)?;
    write_line(line.as_str(), out)?;
    Ok(())
}

// The class of a pair that is ambiguous, where classes are needed.
fn class_if_asked<S>(
    run: &ConflictsRun<'_, '_, S>,
    lives: &TableLives,
    a: FormatId,
    b: FormatId,
    decision: &PairDecision,
) -> Result<Option<PairClass>, AllocError>
    requires lives { AreLivesOfTable run.now.table.now run.now.ask.budget lives.now }
    requires formats { AreFormats run.now.table.now (a, b) }
    ensures { IfOk result (λ class. IsClassOf run.now.ask run.now.table.now (a.0, b.0) (Some decision.now) class) }
{
    if !run.ask.needs_class() {
        return Ok(None);
    }
    match decision {
        PairDecision::Ambiguous { .. } | PairDecision::Tried { .. } => {
            Ok(Some(class_of_pair(run.alloc, run.table, lives, a, b, run.ask.budget)?))
        }
        PairDecision::Decided | PairDecision::Unknown { .. } => Ok(None),
    }
}

// The line of a pair; nothing where each format has a line instead.
fn line_if_asked<S>(
    run: &ConflictsRun<'_, '_, S>,
    a: FormatId,
    b: FormatId,
    decision: &PairDecision,
    class: Option<PairClass>,
) -> Result<String, AllocError>
    requires formats { AreFormats run.now.table.now (a, b) }
    requires signatures { NamesSignatures run.now.table.now (a.0, b.0) decision.now }
    ensures { IfOk result (λ line. string_bytes line ≡ asked_line run.now.ask run.now.table.now (a.0, b.0) decision.now class) }
{
    if run.ask.summary {
        return Ok(String::new(run.alloc));
    }
    let shown = if run.ask.class { class } else { None };
    line_of_pair(run.alloc, run.table, a, b, decision, shown, run.ask.hex)
}

// Writes the file of an ambiguous pair, where there is a folder for it.
fn keep_witness<'a, S: Store>(
    run: &ConflictsRun<'_, 'a, S>,
    a: FormatId,
    b: FormatId,
    decision: &PairDecision,
) -> Result<(), PairsFault<'a>>
    requires { AreFormats run.now.table.now (a, b) }
    ensures kept { OnOk result (KeepsWitness (IsMade S.name_of S.Writer.written S.Writer.failed (S.held run.now.store.now)) run.now.table.now run.now.ask.files
        (a.0, b.0) (Some decision.now)) }
    ensures faults { IfErr result (λ fault. IsFileFault S.Writer.failed fault run.now.ask run.now.table.now (a.0, b.0)) }
    ensures unmade { IfErr result (IsUnmade (S.held run.now.store.now)) }
{
    let Some(folder) = run.ask.files else {
        return Ok(());
    };
    let file = match decision {
        PairDecision::Ambiguous { file, .. } | PairDecision::Tried { file, .. } => file,
        PairDecision::Decided | PairDecision::Unknown { .. } => return Ok(()),
    };
    let name = WitnessName::of(run.table, a, b);
    let path = name.path(run.alloc, folder)?;
    let Some(mut made) = run.store.create(path.as_str()) else {
        return Err(PairsFault::NoFile(folder, name));
    };
    match made.write_all(file) {
        Ok(()) => Ok(()),
        Err(_) => Err(PairsFault::Cut(CutShort::Write)),
    }
}

// Writes the priorities of the table and the forced pairs to the priority file, if there is one.
// Answers a line for each forced pair that is not written.
fn write_forced<'a, S: Store>(
    run: &ConflictsRun<'_, 'a, S>,
    notes: &[Note],
    file: Option<S::Writer>,
) -> Result<String, PairsFault<'a>>
    requires file { IsFileAsked S.name_of S.Writer.written S.Writer.failed (S.held run.now.store.now) run.now.ask.priorities file }
    requires notes { All (IsOfFormats run.now.table.now) notes.now }
    requires limits { IsTable run.now.table.now }
    ensures forces { IfOk result (λ refused. Forces (IsMade S.name_of S.Writer.written S.Writer.failed (S.held run.now.store.now)) run.now.table.now
        run.now.ask.budget run.now.ask.priorities notes.now (string_bytes refused)) }
    ensures faults { IfErr result (IsRankFault S.Writer.failed) }
    ensures unmade { IfErr result (IsUnmade (S.held run.now.store.now)) }
{
    let Some(mut file) = file else {
        return Ok(String::new(run.alloc));
    };
    let forced = rank_forced(run.alloc, run.table, notes, run.ask.budget)?;
    match forced.ranking.write(run.alloc, run.table, &mut file) {
        Ok(()) => Ok(forced.refused),
        Err(OutError::Write) => Err(PairsFault::Cut(CutShort::Write)),
        Err(OutError::OutOfMemory) => Err(PairsFault::Cut(CutShort::OutOfMemory)),
    }
}

// The lines behind those of the pairs: one for each format, if they are asked for, and the counts.
fn last_lines<S>(
    run: &ConflictsRun<'_, '_, S>,
    counts: Counts,
    notes: &[Note],
) -> Result<String, AllocError>
    requires { pairs_in counts < 2 ^ 32 }
    ensures { IfOk result (λ lines. string_bytes lines ≡ summary_if_asked run.now.ask.summary run.now.table.now notes.now
        ++ counts_line (shows_class run.now.ask) counts) }
{
    let mut lines = String::new(run.alloc);
    if run.ask.summary {
        push_summary(run.alloc, &mut lines, run.table, notes)?;
    }
    let last = line_of_counts(run.alloc, counts, run.ask.shows_class())?;
    lines.push_str(last.as_str())?;
    Ok(lines)
}

/// Writes a line, if there is one.
pub(crate) fn write_line<W: Output>(line: &str, out: &mut W) -> Result<(), CutShort>
    ensures adds { OnOk result (Adds (W.written out.old) line.now (W.written out.new)) }
    ensures shown { OnOk result (0 < length line.now → W.failed out.new ≡ false) }
    ensures cut { IfErr result (λ e. (e ≡ CutShort.Write) × (W.failed out.new ≡ true) × AddsFront (W.written out.old) line.now (W.written out.new)) }
{
    if line.is_empty() {
        return Ok(());
    }
    out.write_all(line.as_bytes())?;
    Ok(())
}
