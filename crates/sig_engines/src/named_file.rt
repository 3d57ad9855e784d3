//! `match` of one file by its name, and the lines of faults.
//!
//! If `a.bin` can't be opened, the error output gets `cannot open a.bin`; if a read of it fails,
//! `a.bin: read failed`. In both cases the next file has its turn. The lines of an answer are in
//! memory before one is written; that of a fault needs none. Folders are left to `folder_engine`.

ghost use Rattle.std.specs.Prelude.{◌≡◌, [], false, IfErr, IfOk, None, OnOk, option_map, Some, true};
ghost use Rattle.sig_bits.specs.Device.{Adds};
ghost use Rattle.sig_engines.specs.FileProgress.{told_text};
ghost use Rattle.sig_engines.specs.ManyFiles.{AddsFiles, CutsFiles, IsUnmatched, IsMatched, IsPrinted, fault_words, file_fault_line, line_by};
ghost use Rattle.sig_engines.specs.Tallies.{done_of, with_fault};
ghost use Rattle.sig_engines.specs.Visits.{IsOne, to_match};
ghost use Rattle.sig_engines.specs.Writing.{Prints};

use crate::ask::MatchRun;
use crate::error::{FileFault, NameFault, RunError};
use crate::file_progress::{put_done, show_done};
use crate::match_engine::{FileAnswer, answer_of_match};
use crate::store::Store;
use crate::tally::Tally;
use crate::writing::put;
use sig_bits::{DeviceFault, Output};
use sig_core::DroidCore;

/// Writes what is asked of one file, or tells its fault. Answers the tally with it.
pub(crate) fn match_file<S: Store, K: DroidCore, W: Output, E: Output>(
    run: &MatchRun<'_, S, K>,
    name: &str,
    tally: Tally,
    out: &mut W,
    err: &mut E,
) -> Result<Tally, RunError>
    ensures answers { IfOk result (AddsFiles [] (IsPrinted S.Reader.failed run.now.ask (K.lists run.now.core.now) (S.held run.now.store.now)) (IsOne (to_match name.now)) run.now.ask.progress tally
        (W.written out.old) (W.written out.new) (E.failed err.new) (E.written err.old) (E.written err.new)) }
    ensures quiet { IfOk result (λ to. run.now.ask.progress ≡ false → to.failed ≡ 0 → err.new ≡ err.old) }
    ensures writes { OnOk result (W.failed out.old ≡ false → W.failed out.new ≡ false) }
    ensures stays_failed { E.failed err.new ≡ false → E.failed err.old ≡ false }

    // The one refusal, and when.
    ensures write { IfErr result (λ e. (e ≡ RunError.Write) × (W.failed out.new ≡ true)) }
    ensures cut { IfErr result (λ e. CutsFiles [] (IsPrinted S.Reader.failed run.now.ask (K.lists run.now.core.now) (S.held run.now.store.now)) (IsOne (to_match name.now)) run.now.ask.progress tally
        (W.written out.old) (W.written out.new) (E.failed err.new) (E.written err.old) (E.written err.new)) }
{
    let progress = run.ask.progress;
    let answer = match answer_of_name(run, name) {
        Ok(answer) => answer,
        Err(fault) => {
            return Ok(tell(
                progress,
                tally,
                name.as_bytes(),
                NameFault::File(fault),
                err,
            ));
        }
    };
    let tally = tally.with_file(answer.hits, answer.bytes);
    show_done(progress, tally.done(), err);
    match out.write_all(&answer.text) {
        Ok(()) => Ok(tally),
        Err(_) => Err(RunError::Write),
    }
}

// The answer to the file of this name.
fn answer_of_name<S: Store, K: DroidCore>(
    run: &MatchRun<'_, S, K>,
    name: &str,
) -> Result<FileAnswer, FileFault>
    ensures text { IfOk result (λ answer. IsMatched S.Reader.failed run.now.ask (K.lists run.now.core.now) (S.held run.now.store.now) name.now
        (Ok (record { text = answer.text.items; hits = answer.hits; bytes = answer.bytes }))) }
    ensures fault { IfErr result (IsUnmatched S.Reader.failed (S.held run.now.store.now) name.now) }
{
    let Some(file) = run.store.open(name) else {
        return Err(FileFault::CannotOpen);
    };
    match answer_of_match(run.alloc, run.core, run.ask, name, file) {
        Ok(answer) => Ok(answer),
        Err(error) => Err(FileFault::Run(error)),
    }
}

/// Tells a fault, and answers the tally with it. With reports its line stands between two of them.
pub(crate) fn tell<E: Output>(
    progress: bool,
    tally: Tally,
    name: &[u8],
    fault: NameFault,
    err: &mut E,
) -> Tally
    ensures counts { result ≡ with_fault tally }
    ensures reports { E.failed err.new ≡ false → Adds (E.written err.old) (told_text progress (done_of (with_fault tally)) (file_fault_line name.now fault)) (E.written err.new) }
    ensures sound { E.failed err.new ≡ false → E.failed err.old ≡ false }
{
    let tally = tally.with_fault();
    let _ = put_fault(progress, tally.done(), name, fault, err);
    tally
}

fn put_fault<E: Output>(
    progress: bool,
    done: u64,
    name: &[u8],
    fault: NameFault,
    err: &mut E,
) -> Result<(), DeviceFault>
    ensures prints { Prints result (told_text progress done (file_fault_line name.now fault)) (E.written err.old) (E.written err.new) (E.failed err.new) }
    ensures sound { E.failed err.new ≡ false → E.failed err.old ≡ false }
{
    if !progress {
        return put_line(name, fault, err);
    }
    put(err, "\n")?;
    put_line(name, fault, err)?;
    put_done(done, err)
}

// Writes the line of a fault in pieces, which takes no memory.
fn put_line<E: Output>(name: &[u8], fault: NameFault, err: &mut E) -> Result<(), DeviceFault>
    ensures prints { Prints result (file_fault_line name.now fault) (E.written err.old) (E.written err.new) (E.failed err.new) }
    ensures sound { E.failed err.new ≡ false → E.failed err.old ≡ false }
{
    match fault_words(fault) {
        None => put_unopened(name, err),
        Some(words) => put_words(name, words, err),
    }
}

fn put_words<E: Output>(name: &[u8], words: &str, err: &mut E) -> Result<(), DeviceFault>
    ensures prints { Prints result (line_by name.now (Some words.now)) (E.written err.old) (E.written err.new) (E.failed err.new) }
    ensures sound { E.failed err.new ≡ false → E.failed err.old ≡ false }
{
    err.write_all(name)?;
    put(err, ": ")?;
    put(err, words)?;
    put(err, "\n")
}

fn put_unopened<E: Output>(name: &[u8], err: &mut E) -> Result<(), DeviceFault>
    ensures prints { Prints result (line_by name.now None) (E.written err.old) (E.written err.new) (E.failed err.new) }
    ensures sound { E.failed err.new ≡ false → E.failed err.old ≡ false }
{
    put(err, "cannot open ")?;
    err.write_all(name)?;
    put(err, "\n")
}

// What stands behind the name in the line of a fault, unless it is that of one that can't be
// opened.
fn fault_words(fault: NameFault) -> Option<&'static str>
    ensures { option_map (λ words. words.now) result ≡ fault_words fault }
{
    match fault {
        NameFault::File(FileFault::CannotOpen) => None,
        NameFault::File(FileFault::Run(error)) => Some(error.text()),
        NameFault::IsFolder => Some("is a folder"),
        NameFault::NotRegular => Some("is not a regular file"),
        NameFault::NotText => Some("a name that is no UTF-8"),
        NameFault::TooDeep => Some("below too many folders"),
    }
}
