//! `match` of the files in a folder, and in the folders below it.
//!
//! What stands in a folder that was opened waits in one list, the next thing last. So a folder deep
//! below others takes no stack, and what is kept are the names of those folders that are open.

ghost use Rattle.std.specs.Prelude.{◌≡◌, ◌<◌, ◌+◌, [], false, IfErr, IfOk, List, map, OnErr, OnOk, true};
ghost use Rattle.sig_engines.specs.ManyFiles.{AddsFiles, CutsFiles, EndsByWrite, IsPrinted};
ghost use Rattle.sig_engines.specs.Stores.{IsUnlisted, Lists, item_of};
ghost use Rattle.sig_engines.specs.Visits.{AreIn, AreMet, greatest_depth};
ghost use Rattle.sig_engines.specs.Waiting.{AreMetOf, Leads, Pushes, worth, worth_of};
ghost use Rattle.sig_engines.specs.declared.store.Entry.{Entry};

use crate::ask::MatchRun;
use crate::error::{FileFault, NameFault, RunError};
use crate::named_file::{match_file, tell};
use crate::store::{Entry, EntryKind, Store};
use crate::tally::Tally;
use sig_bits::Output;
use sig_core::DroidCore;
use std::alloc::{AllocError, Global};

// How many folders may lie in one another below one that is named. The system knows no such names,
// since they would be too long.
const GREATEST_DEPTH: u16 = 4096;

// What waits for its turn, and how many folders may lie in one another below it.
#[derive(Drop)]
struct Waiting {
    entry: Entry,
    room: u16,
}

/// Writes what is asked of each file in a folder, and in those below it, in the order of their
/// names, and tells each fault. Answers the tally with them.
pub(crate) fn match_folder<S: Store, K: DroidCore, W: Output, E: Output>(
    run: &MatchRun<'_, S, K>,
    folder: &str,
    tally: Tally,
    out: &mut W,
    err: &mut E,
) -> Result<Tally, RunError>
    ensures answers { IfOk result (AddsFiles [] (IsPrinted S.Reader.failed run.now.ask (K.lists run.now.core.now) (S.held run.now.store.now)) (AreIn (AreMet (S.held run.now.store.now) greatest_depth) (S.held run.now.store.now) folder.now) run.now.ask.progress tally
        (W.written out.old) (W.written out.new) (E.failed err.new) (E.written err.old) (E.written err.new)) }
    ensures quiet { IfOk result (λ to. run.now.ask.progress ≡ false → to.failed ≡ 0 → err.new ≡ err.old) }
    ensures writes { OnOk result (W.failed out.old ≡ false → W.failed out.new ≡ false) }
    ensures stays_failed { E.failed err.new ≡ false → E.failed err.old ≡ false }

    // The one refusal, and when.
    ensures write { IfErr result (λ e. (e ≡ RunError.Write) × (W.failed out.new ≡ true)) }
    ensures cut { IfErr result (λ e. CutsFiles [] (IsPrinted S.Reader.failed run.now.ask (K.lists run.now.core.now) (S.held run.now.store.now)) (AreIn (AreMet (S.held run.now.store.now) greatest_depth) (S.held run.now.store.now) folder.now) run.now.ask.progress tally
        (W.written out.old) (W.written out.new) (E.failed err.new) (E.written err.old) (E.written err.new)) }
{
    let mut waiting = Vec::new(run.alloc);
    if let Err(fault) = push_folder(run.alloc, run.store, folder, GREATEST_DEPTH, &mut waiting) {
        return Ok(tell(
            run.ask.progress,
            tally,
            folder.as_bytes(),
            NameFault::File(fault),
            err,
        ));
    }
    let mut tally = tally;
    'entries: while let Some(next) = waiting.pop() {
        tally = match_entry(run, &next, &mut waiting, tally, out, err)?;
    }
    Ok(tally)
}

// Writes what is asked of a file that stands in a folder, or has what stands in a folder wait, or
// tells the fault. Answers the tally with it.
fn match_entry<S: Store, K: DroidCore, W: Output, E: Output>(
    run: &MatchRun<'_, S, K>,
    next: &Waiting,
    waiting: &mut Vec<Waiting>,
    tally: Tally,
    out: &mut W,
    err: &mut E,
) -> Result<Tally, RunError>
    ensures answers { IfOk result (AddsFiles [] (IsPrinted S.Reader.failed run.now.ask (K.lists run.now.core.now) (S.held run.now.store.now)) (λ visits. Leads (S.held run.now.store.now) (AreMetOf (S.held run.now.store.now) next.now) visits waiting.old.items waiting.new.items) run.now.ask.progress tally
        (W.written out.old) (W.written out.new) (E.failed err.new) (E.written err.old) (E.written err.new)) }
    ensures quiet { IfOk result (λ to. run.now.ask.progress ≡ false → to.failed ≡ 0 → err.new ≡ err.old) }
    ensures writes { OnOk result (W.failed out.old ≡ false → W.failed out.new ≡ false) }
    ensures stays_failed { E.failed err.new ≡ false → E.failed err.old ≡ false }
    ensures lowers { OnOk result (worth_of waiting.new.items < worth_of waiting.old.items + worth next.now.room) }
    ensures refused { IfErr result (EndsByWrite [] (IsPrinted S.Reader.failed run.now.ask (K.lists run.now.core.now) (S.held run.now.store.now)) (AreMetOf (S.held run.now.store.now) next.now) run.now.ask.progress tally
        (W.failed out.new) (W.written out.old) (W.written out.new) (E.failed err.new) (E.written err.old) (E.written err.new)) }
{
    let name = next.entry.name.as_str();
    let fault = match next.entry.kind {
        EntryKind::File => return match_file(run, name, tally, out, err),
        EntryKind::NotRegular => NameFault::NotRegular,
        EntryKind::NotText => NameFault::NotText,
        EntryKind::Folder if next.room == 0 => NameFault::TooDeep,
        EntryKind::Folder => {
            match push_folder(run.alloc, run.store, name, next.room - 1, waiting) {
                Ok(()) => return Ok(tally),
                Err(fault) => NameFault::File(fault),
            }
        }
    };
    Ok(tell(run.ask.progress, tally, name.as_bytes(), fault, err))
}

// Has all that stands in a folder wait, the first thing last. Where it can't, nothing more waits.
fn push_folder<S: Store>(
    alloc: Global,
    store: &S,
    folder: &str,
    room: u16,
    waiting: &mut Vec<Waiting>,
) -> Result<(), FileFault>
    ensures pushes { OnOk result ((entries : List Entry) × Lists (S.held store.now) folder.now (map item_of entries) × Pushes room entries waiting.old.items waiting.new.items) }
    ensures fault { IfErr result (λ fault. IsUnlisted (S.held store.now) folder.now fault) }
    ensures unchanged { OnErr result (waiting.new.items ≡ waiting.old.items) }
{
    let mut entries = store.list(alloc, folder)?;
    match push_entries(&mut entries, room, waiting) {
        Ok(()) => Ok(()),
        Err(_) => Err(FileFault::Run(RunError::OutOfMemory)),
    }
}

fn push_entries(
    entries: &mut Vec<Entry>,
    room: u16,
    waiting: &mut Vec<Waiting>,
) -> Result<(), AllocError>
    ensures pushes { OnOk result (Pushes room entries.old.items waiting.old.items waiting.new.items) }
    ensures unchanged { OnErr result (waiting.new.items ≡ waiting.old.items) }
{
    waiting.reserve(entries.len())?;
    'entries: while let Some(entry) = entries.pop() {
        waiting.push(Waiting { entry, room })?;
    }
    Ok(())
}
