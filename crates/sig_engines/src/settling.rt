//! `conflicts` with its error output: how much of the search is done, and behind it the forced
//! pairs that are not in the priority file.

ghost use Rattle.std.specs.Prelude.{◌≡◌, ◌⊎◌, None, false, true, IfErr, IfOk, OnOk, string_bytes};
ghost use Rattle.sig_engines.specs.Conflicts.{AddsConflicts, Settles, StopsConflicts};
ghost use Rattle.sig_engines.specs.Pairs.{IsFileAsked};
ghost use Rattle.sig_engines.specs.Progress.{ShowsIf};
ghost use Rattle.sig_engines.specs.Stores.{IsMade};
ghost use Rattle.sig_cert.specs.Deciding.{Decided};

use crate::ask::ConflictsRun;
use crate::conflicts_engine::{PairsAnswer, answer_pairs, make_targets};
use crate::error::PairsFault;
use crate::progress::{Meter, Things};
use crate::store::Store;
use crate::writing::put;
use sig_bits::Output;
use sig_find::Unobserved;

/// Does what [`run_conflicts`](crate::run_conflicts) does. With `progress` it tells `err` how many
/// pairs are done, and behind that which forced pairs are not in the priority file, a line each.
#[inline(never)]
pub fn settle<'a, S: Store, W: Output, E: Output>(
    run: &ConflictsRun<'_, 'a, S>,
    progress: bool,
    out: &mut W,
    err: &mut E,
) -> Result<bool, PairsFault<'a>>
    ensures settles { IfOk result (λ is_yes. Settles (IsMade S.name_of S.Writer.written S.Writer.failed (S.held run.now.store.now)) progress is_yes run.now.ask run.now.table.now
        (W.written out.old) (W.written out.new) (E.failed err.new) (E.written err.old) (E.written err.new)) }
    ensures decided { IfOk result (λ is_yes. is_yes ≡ true → run.now.ask.only ≡ None → Decided run.now.table.now) }
    ensures writes { OnOk result (W.failed out.new ≡ false) }
    ensures stops { IfErr result (StopsConflicts S.Writer.failed (S.held run.now.store.now) run.now.ask run.now.table.now
        (W.failed out.new) (W.written out.old) (W.written out.new) (out.new ≡ out.old)) }

    // The error output: the progress alone, where no priority file is asked for, and before a
    // fault.
    ensures shown { OnOk result (run.now.ask.priorities ≡ None → ShowsIf progress Things.Pairs (E.failed err.new) err.old err.new (E.written err.old) (E.written err.new)) }
    ensures faulted { IfErr result (λ fault. (err.new ≡ err.old) ⊎ ShowsIf progress Things.Pairs (E.failed err.new) err.old err.new (E.written err.old) (E.written err.new)) }
{
    let file = make_targets(run)?;
    let answer = search(run, file, progress, out, err)?;
    let refused = answer.refused.as_str();
    if !refused.is_empty() {
        let _ = put(err, refused);
    }
    Ok(answer.all_decided)
}

// Searches all pairs. With `progress` it tells `err` how many are done.
fn search<'a, S: Store, W: Output, E: Output>(
    run: &ConflictsRun<'_, 'a, S>,
    file: Option<S::Writer>,
    progress: bool,
    out: &mut W,
    err: &mut E,
) -> Result<PairsAnswer, PairsFault<'a>>
    requires { IsFileAsked S.name_of S.Writer.written S.Writer.failed (S.held run.now.store.now) run.now.ask.priorities file }
    ensures answers { IfOk result (λ answer. AddsConflicts (IsMade S.name_of S.Writer.written S.Writer.failed (S.held run.now.store.now))
        answer.all_decided (string_bytes answer.refused) run.now.ask run.now.table.now (W.written out.old) (W.written out.new)) }
    ensures decided { IfOk result (λ answer. answer.all_decided ≡ true → run.now.ask.only ≡ None → Decided run.now.table.now) }
    ensures writes { OnOk result (W.failed out.new ≡ false) }
    ensures stops { IfErr result (StopsConflicts S.Writer.failed (S.held run.now.store.now) run.now.ask run.now.table.now
        (W.failed out.new) (W.written out.old) (W.written out.new) ⊥) }
    ensures shown { ShowsIf progress Things.Pairs (E.failed err.new) err.old err.new (E.written err.old) (E.written err.new) }
{
    if !progress {
        return answer_pairs(run, file, out, &mut Unobserved);
    }
    let mut meter = Meter::new(Things::Pairs, err);
    let answer = answer_pairs(run, file, out, &mut meter);
    meter.end();
    answer
}
