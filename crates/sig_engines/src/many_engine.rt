//! `match` of many files, over any store, any core and any outputs.
//!
//! The files are matched one after another, and what is written of one stands when the next is
//! opened. A file with a fault is told on the error output, and the others go on. Their names are
//! given, or they stand in a list that is read as the files are matched, so it may have any number.
//!
//! Reports of how many files are done, and the last line that counts them, stand on the error
//! output, too, where they are asked for.

ghost use Rattle.std.specs.Prelude.{◌≡◌, ◌≢◌, ◌==◌, ◌++◌, [], false, Err, IfErr, IfOk, IsErrOf, map, Ok, OnOk, true};
ghost use Rattle.sig_bits.specs.Device.{Adds, AddsFront};
ghost use Rattle.sig_engines.specs.FileProgress.{end_text};
ghost use Rattle.sig_engines.specs.FileTexts.{head_text};
ghost use Rattle.sig_engines.specs.Listed.{end_of, has_failed, unread_of};
ghost use Rattle.sig_engines.specs.ManyFiles.{AddsAll, AddsFiles, AreListedVisits, CutsAll, CutsFiles, EndsEarly, IsPrinted, StopsAll, summary_text};
ghost use Rattle.sig_engines.specs.Tallies.{none_yet};
ghost use Rattle.sig_engines.specs.Visits.{AreOf, AreVisits};

use crate::ask::{MatchAsk, MatchRun};
use crate::error::{FileFault, NameFault, RunError};
use crate::file_progress::{end_reports, show_done};
use crate::folder_engine::match_folder;
use crate::name_reader::NameReader;
use crate::named_file::{match_file, tell};
use crate::store::Store;
use crate::tally::Tally;
use sig_bits::{Input, Output};
use sig_core::DroidCore;
use std::str;

/// Writes the lines or the records of each file, in the order of their names, and tells of each
/// file with a fault. Answers whether there is none.
///
/// A failed write to `err` is not told, and one to `out` ends the run.
#[inline(never)]
pub fn run_match_many<S: Store, K: DroidCore, W: Output, E: Output>(
    run: &MatchRun<'_, S, K>,
    names: &[&str],
    out: &mut W,
    err: &mut E,
) -> Result<bool, RunError>
    ensures answers { IfOk result (AddsAll run.now.ask (IsPrinted S.Reader.failed run.now.ask (K.lists run.now.core.now) (S.held run.now.store.now)) (AreVisits run.now.ask.recursive (S.held run.now.store.now) (map (λ n. n.now) names.now))
        (W.written out.old) (W.written out.new) (E.failed err.new) (E.written err.old) (E.written err.new)) }
    ensures quiet { result ≡ Ok true → run.now.ask.progress ≡ false → run.now.ask.summary ≡ false → err.new ≡ err.old }
    ensures sound { OnOk result (W.failed out.new ≡ false) }

    // The one refusal, and when.
    ensures write { IfErr result (λ e. (e ≡ RunError.Write) × (W.failed out.new ≡ true)) }
    ensures cut { IfErr result (λ e. CutsAll run.now.ask (IsPrinted S.Reader.failed run.now.ask (K.lists run.now.core.now) (S.held run.now.store.now)) (AreVisits run.now.ask.recursive (S.held run.now.store.now) (map (λ n. n.now) names.now))
        (W.written out.old) (W.written out.new) (E.failed err.new) (E.written err.old) (E.written err.new)) }
{
    show_done(run.ask.progress, 0, err);
    let matched = match_words(run, names, out, err);
    finish(run.ask, matched, err)
}

/// The same of files whose names stand in a list. Each file is answered before the next name is
/// read.
///
/// A name that is no text can't be opened. A read of the list that fails ends the run, and so does
/// a name that memory has no room for.
#[inline(never)]
pub fn run_match_listed<S: Store, K: DroidCore, I: Input + Drop, W: Output, E: Output>(
    run: &MatchRun<'_, S, K>,
    list: &mut NameReader<I>,
    out: &mut W,
    err: &mut E,
) -> Result<bool, RunError>
    ensures answers { IfOk result (AddsAll run.now.ask (IsPrinted S.Reader.failed run.now.ask (K.lists run.now.core.now) (S.held run.now.store.now)) (AreListedVisits run.now.ask.recursive (S.held run.now.store.now) (end_of list.old) (unread_of I.to_come list.old))
        (W.written out.old) (W.written out.new) (E.failed err.new) (E.written err.old) (E.written err.new)) }
    ensures quiet { result ≡ Ok true → run.now.ask.progress ≡ false → run.now.ask.summary ≡ false → err.new ≡ err.old }
    ensures sound { OnOk result (W.failed out.new ≡ false) }

    // Each refusal, and when.
    ensures refuses { (IsErrOf result RunError.Write → W.failed out.new ≡ true) × (IsErrOf result RunError.Read → has_failed I.failed list.new ≡ true) }
    ensures stopped { IfErr result (λ e. e ≢ RunError.Write → StopsAll run.now.ask (IsPrinted S.Reader.failed run.now.ask (K.lists run.now.core.now) (S.held run.now.store.now)) (AreListedVisits run.now.ask.recursive (S.held run.now.store.now) (end_of list.old) (unread_of I.to_come list.old))
        (W.written out.old) (W.written out.new) (E.failed err.new) (E.written err.old) (E.written err.new)) }
    ensures cut { IfErr result (λ e. CutsAll run.now.ask (IsPrinted S.Reader.failed run.now.ask (K.lists run.now.core.now) (S.held run.now.store.now)) (AreListedVisits run.now.ask.recursive (S.held run.now.store.now) (end_of list.old) (unread_of I.to_come list.old))
        (W.written out.old) (W.written out.new) (E.failed err.new) (E.written err.old) (E.written err.new)) }
{
    show_done(run.ask.progress, 0, err);
    let matched = match_list(run, list, out, err);
    finish(run.ask, matched, err)
}

// Ends the reports, and writes the last line, where these are asked for. Answers whether no file
// has a fault.
fn finish<E: Output>(
    ask: MatchAsk<'_>,
    matched: Result<Tally, RunError>,
    err: &mut E,
) -> Result<bool, RunError>
    ensures whole { IfOk result (λ whole. (tally : Tally) × (matched ≡ Ok tally) × (whole ≡ (tally.failed == 0))
        × (E.failed err.new ≡ false → Adds (E.written err.old) (end_text ask.entry.progress ++ summary_text ask.entry.summary tally) (E.written err.new))) }
    ensures fault { IfErr result (λ e. (matched ≡ Err e)
        × (E.failed err.new ≡ false → Adds (E.written err.old) (end_text ask.entry.progress) (E.written err.new))) }
    ensures quiet { ask.entry.progress ≡ false → ask.entry.summary ≡ false → err.new ≡ err.old }
    ensures sound { E.failed err.new ≡ false → E.failed err.old ≡ false }
{
    end_reports(ask.progress, err);
    let tally = matched?;
    if ask.summary {
        let _ = tally.put_summary(err);
    }
    Ok(tally.failed == 0)
}

// Writes the head, and what is asked of the files of these names, or tells their faults. Answers
// the tally of them.
fn match_words<S: Store, K: DroidCore, W: Output, E: Output>(
    run: &MatchRun<'_, S, K>,
    names: &[&str],
    out: &mut W,
    err: &mut E,
) -> Result<Tally, RunError>
    ensures answers { IfOk result (AddsFiles (head_text run.now.ask.csv) (IsPrinted S.Reader.failed run.now.ask (K.lists run.now.core.now) (S.held run.now.store.now)) (AreVisits run.now.ask.recursive (S.held run.now.store.now) (map (λ n. n.now) names.now)) run.now.ask.progress none_yet
        (W.written out.old) (W.written out.new) (E.failed err.new) (E.written err.old) (E.written err.new)) }
    ensures quiet { IfOk result (λ tally. run.now.ask.progress ≡ false → tally.failed ≡ 0 → err.new ≡ err.old) }
    ensures sound { OnOk result (W.failed out.new ≡ false) }
    ensures stays_failed { E.failed err.new ≡ false → E.failed err.old ≡ false }

    // The one refusal, and when.
    ensures write { IfErr result (λ e. (e ≡ RunError.Write) × (W.failed out.new ≡ true)) }
    ensures cut { IfErr result (λ e. CutsFiles (head_text run.now.ask.csv) (IsPrinted S.Reader.failed run.now.ask (K.lists run.now.core.now) (S.held run.now.store.now)) (AreVisits run.now.ask.recursive (S.held run.now.store.now) (map (λ n. n.now) names.now)) run.now.ask.progress none_yet
        (W.written out.old) (W.written out.new) (E.failed err.new) (E.written err.old) (E.written err.new)) }
{
    write_head(run.ask, out)?;
    let mut tally = Tally::new();
    for name in names {
        tally = match_name(run, name, tally, out, err)?;
    }
    Ok(tally)
}

// The same of the names in a list.
fn match_list<S: Store, K: DroidCore, I: Input + Drop, W: Output, E: Output>(
    run: &MatchRun<'_, S, K>,
    list: &mut NameReader<I>,
    out: &mut W,
    err: &mut E,
) -> Result<Tally, RunError>
    ensures answers { IfOk result (AddsFiles (head_text run.now.ask.csv) (IsPrinted S.Reader.failed run.now.ask (K.lists run.now.core.now) (S.held run.now.store.now)) (AreListedVisits run.now.ask.recursive (S.held run.now.store.now) (end_of list.old) (unread_of I.to_come list.old)) run.now.ask.progress none_yet
        (W.written out.old) (W.written out.new) (E.failed err.new) (E.written err.old) (E.written err.new)) }
    ensures quiet { IfOk result (λ tally. run.now.ask.progress ≡ false → tally.failed ≡ 0 → err.new ≡ err.old) }
    ensures sound { OnOk result (W.failed out.new ≡ false) }
    ensures stays_failed { E.failed err.new ≡ false → E.failed err.old ≡ false }

    // Each refusal, and when.
    ensures refuses { (IsErrOf result RunError.Write → W.failed out.new ≡ true) × (IsErrOf result RunError.Read → has_failed I.failed list.new ≡ true) }
    ensures ended { IfErr result (EndsEarly (head_text run.now.ask.csv) (IsPrinted S.Reader.failed run.now.ask (K.lists run.now.core.now) (S.held run.now.store.now)) (AreListedVisits run.now.ask.recursive (S.held run.now.store.now) (end_of list.old) (unread_of I.to_come list.old)) run.now.ask.progress none_yet
        (W.written out.old) (W.written out.new) (E.failed err.new) (E.written err.old) (E.written err.new)) }
{
    write_head(run.ask, out)?;
    let mut name = Vec::new(run.alloc);
    let mut tally = Tally::new();
    'names: while list.next(&mut name)? {
        tally = match_listed(run, &name, tally, out, err)?;
    }
    Ok(tally)
}

// Writes the names of the fields, where records are asked for, and else nothing, which an output
// that has failed refuses, too.
fn write_head<W: Output>(ask: MatchAsk<'_>, out: &mut W) -> Result<(), RunError>
    ensures adds { OnOk result (Adds (W.written out.old) (head_text ask.entry.csv) (W.written out.new)) }
    ensures sound { OnOk result (W.failed out.new ≡ false) }
    ensures write { IfErr result (λ e. (e ≡ RunError.Write) × (W.failed out.new ≡ true)) }
    ensures cut { IfErr result (λ e. AddsFront (W.written out.old) (head_text ask.entry.csv) (W.written out.new)) }
{
    match out.write_all(head(ask).as_bytes()) {
        Ok(()) => Ok(()),
        Err(_) => Err(RunError::Write),
    }
}

// What stands before all files.
fn head(ask: MatchAsk<'_>) -> &'static str
    ensures { result.now ≡ head_text ask.entry.csv }
{
    if ask.csv {
        "file,puid,signature,name\n"
    } else {
        ""
    }
}

// Writes what is asked of a name that stands in a list, or tells its fault. Answers the tally with
// it.
fn match_listed<S: Store, K: DroidCore, W: Output, E: Output>(
    run: &MatchRun<'_, S, K>,
    name: &[u8],
    tally: Tally,
    out: &mut W,
    err: &mut E,
) -> Result<Tally, RunError>
    ensures answers { IfOk result (AddsFiles [] (IsPrinted S.Reader.failed run.now.ask (K.lists run.now.core.now) (S.held run.now.store.now)) (AreOf run.now.ask.recursive (S.held run.now.store.now) name.now) run.now.ask.progress tally
        (W.written out.old) (W.written out.new) (E.failed err.new) (E.written err.old) (E.written err.new)) }
    ensures quiet { IfOk result (λ to. run.now.ask.progress ≡ false → to.failed ≡ 0 → err.new ≡ err.old) }
    ensures writes { OnOk result (W.failed out.old ≡ false → W.failed out.new ≡ false) }
    ensures stays_failed { E.failed err.new ≡ false → E.failed err.old ≡ false }

    // The one refusal, and when.
    ensures write { IfErr result (λ e. (e ≡ RunError.Write) × (W.failed out.new ≡ true)) }
    ensures cut { IfErr result (λ e. CutsFiles [] (IsPrinted S.Reader.failed run.now.ask (K.lists run.now.core.now) (S.held run.now.store.now)) (AreOf run.now.ask.recursive (S.held run.now.store.now) name.now) run.now.ask.progress tally
        (W.written out.old) (W.written out.new) (E.failed err.new) (E.written err.old) (E.written err.new)) }
{
    match str::from_utf8(name) {
        Ok(text) => match_name(run, text, tally, out, err),
        Err(_) => Ok(tell(
            run.ask.progress,
            tally,
            name,
            NameFault::File(FileFault::CannotOpen),
            err,
        )),
    }
}

// Writes what is asked of one file, or of those in a folder, or tells the fault. Answers the tally
// with them.
fn match_name<S: Store, K: DroidCore, W: Output, E: Output>(
    run: &MatchRun<'_, S, K>,
    name: &str,
    tally: Tally,
    out: &mut W,
    err: &mut E,
) -> Result<Tally, RunError>
    ensures answers { IfOk result (AddsFiles [] (IsPrinted S.Reader.failed run.now.ask (K.lists run.now.core.now) (S.held run.now.store.now)) (AreOf run.now.ask.recursive (S.held run.now.store.now) name.now) run.now.ask.progress tally
        (W.written out.old) (W.written out.new) (E.failed err.new) (E.written err.old) (E.written err.new)) }
    ensures quiet { IfOk result (λ to. run.now.ask.progress ≡ false → to.failed ≡ 0 → err.new ≡ err.old) }
    ensures writes { OnOk result (W.failed out.old ≡ false → W.failed out.new ≡ false) }
    ensures stays_failed { E.failed err.new ≡ false → E.failed err.old ≡ false }

    // The one refusal, and when.
    ensures write { IfErr result (λ e. (e ≡ RunError.Write) × (W.failed out.new ≡ true)) }
    ensures cut { IfErr result (λ e. CutsFiles [] (IsPrinted S.Reader.failed run.now.ask (K.lists run.now.core.now) (S.held run.now.store.now)) (AreOf run.now.ask.recursive (S.held run.now.store.now) name.now) run.now.ask.progress tally
        (W.written out.old) (W.written out.new) (E.failed err.new) (E.written err.old) (E.written err.new)) }
{
    if !run.store.is_folder(name) {
        return match_file(run, name, tally, out, err);
    }
    if run.ask.recursive {
        return match_folder(run, name, tally, out, err);
    }
    Ok(tell(
        run.ask.progress,
        tally,
        name.as_bytes(),
        NameFault::IsFolder,
        err,
    ))
}
