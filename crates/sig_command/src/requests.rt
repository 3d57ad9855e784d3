//! All that the program does: it reads its arguments, opens the files, answers, and gives the
//! status.
//!
//! Arguments that `clap` takes get an answer, with 0 or 1, or a fault of what they ask for. Others
//! end by the kind of their fault: with 0 for help and the version, which are answers and go to the
//! output, else with 2; or with 3 if memory ran out or the text could not be written. Arguments
//! that are no UTF-8 are a fault with 2.
//!
//! A fault's line follows the reports of progress, and comes whole only if none of their writes
//! failed. With an error output that fails, the status is still that of a fault of what is asked
//! for. If some of several files have a fault, each has its line and the run none of its own. So it
//! is with the faults that `lint` tells on the output: it ends with 2, as for a refused table.

ghost use Rattle.std.specs.Prelude.{None, Some, drop, ◌≡◌, ◌≢◌, ◌<◌, ◌⊎◌, false, is_ok, is_some, List, option_map, true, IfErr, IfOk, OnOk, ⊤, length};
ghost use Rattle.std.specs.Vec.Iter.{into_iter_items};
ghost use Rattle.std.specs.IoError.{error_kind};
ghost use Rattle.clap.specs.Values.{kind_of};
ghost use Rattle.clap.specs.Words.{Text};
ghost use Rattle.sig_command.specs.Requests.{AnswersWords, AreNamesOf, AsksPairs, CutsSomeWords, CutsWords, HasAnswer, HasFailedWrite, HasFault, IsFolderFault, IsListFault, IsLoadFault, IsNamesFaultOf, IsOnly, IsRunFault, JoinsBoth, LacksPriorities, ListsSomeWords, ListsWords, MakesOut, NamesNone, ShowsAsked, ShowsSomeWords, ShowsWords, TellsOf, TellsRun, answer_of, file_fault, pairs_fault};
ghost use Rattle.sig_command.specs.Faults.{TellsWrite};
ghost use Rattle.sig_command.specs.Several.{AreVisitsOf, IsList};
ghost use Rattle.sig_engines.specs.ManyFiles.{AddsAll, AreListedVisits, IsPrinted};
ghost use Rattle.sig_engines.specs.PriorityInputs.{to_come_of};
ghost use Rattle.sig_engines.specs.Stores.{IsTableOf, LacksFolder, Opens, OpensPriorities, SomeFailed};
ghost use Rattle.sig_command.specs.CommandLine.{texts_of};
ghost use Rattle.sig_command.specs.Endings.{AnswersAndMakes, AnswersBy, EndsByFault, EndsByKind, KeepsErrors, KeepsOutput, ReportsBy, ReportsMemory, TellsBy};
ghost use Rattle.sig_table.specs.Tables.{IsTable};

use crate::args::{ConflictsOptions, FileNames, MatchOptions, Request, read_args, request_of};
use crate::fault::Fault;
use clap::Error;
use clap::error::ErrorKind;
use either::Either;
use sig_bits::{FromRead, FromWrite, Input, Output};
use sig_core::DroidCore;
use sig_engines::{
    ConflictsAsk, ConflictsRun, DeadAsk, FileFault, FindAsk, FormatNames, MatchAsk, MatchRun,
    NameReader, NamesError, PairsFault, PriorityInput, RunError, Store, SystemFiles, TablePaths,
    find_dead, format_named, run_check, run_find, run_lint, run_match, run_match_listed,
    run_match_many, run_show, run_witness, settle,
};
use sig_scan::BlockCore;
use sig_table::{FormatId, Puid, Table};
use std::alloc::Global;
use std::env::Args;
use std::io::{ErrorKind as IoKind, Read};
use std::rt::{Env, Files};
use std::{env, io};

/// Runs the program on the words that it was started with, and answers the status. `input` is
/// standard input.
///
/// No contract says which words these are. So the clauses speak of some words, and of what is
/// written with 0 they say nothing: some words ask for help. `command` says it.
pub fn run<R: Env + Files + AllocGlobal, I: Read + Copy + Drop, W: Output, E: Output>(
    rt: &R,
    input: I,
    out: &mut W,
    err: &mut E,
) -> u8
    ensures known { result < 4 }
    ensures output { KeepsOutput (CutsSomeWords ⟦<FromRead<Either<R::File, I>> as Input>⟧.failed (W.written out.old) (W.written out.new))
        (ListsSomeWords (W.written out.old) (W.written out.new)) result (W.failed out.new) out.old out.new }
    ensures errors { KeepsErrors (ShowsSomeWords ⟦<FromRead<Either<R::File, I>> as Input>⟧.failed) (ListsSomeWords (W.written out.old) (W.written out.new))
        result (E.failed err.new) err.old err.new (E.written err.old) (E.written err.new) }

    // A no answers some words.
    ensures denied { result ≡ 1 → (words : List Text) × AnswersWords None words false (W.written out.old) (W.written out.new) }
{
    match words_of(rt) {
        Ok(words) => command(rt, input, words.as_slice(), out, err),
        Err(fault) => fault.report(err),
    }
}

// The words behind the program's name.
fn words_of<R: Env + AllocGlobal>(rt: &R) -> Result<Vec<String>, Fault<'static>>
    ensures { IfErr result (λ fault. (fault ≡ Fault.NotText) ⊎ (fault ≡ Fault.Run RunError.OutOfMemory)) }
{
    let words = env::args(rt).map_err(fault_of_words)?;
    words_behind_name(rt.alloc(), words)
}

// All words but the first, which is the program's name.
fn words_behind_name(alloc: Global, mut words: Args) -> Result<Vec<String>, Fault<'static>>
    ensures words { IfOk result (λ rest. rest.items ≡ drop 1 (into_iter_items words)) }
    ensures memory { IfErr result (λ fault. fault ≡ Fault.Run RunError.OutOfMemory) }
{
    let mut rest = Vec::new(alloc);
    let _ = words.next();
    'words: while let Some(word) = words.next() {
        if rest.push(word).is_err() {
            return Err(Fault::Run(RunError::OutOfMemory));
        }
    }
    Ok(rest)
}

// A word that is no text, or want of memory: the system tells of no other fault.
fn fault_of_words(error: io::Error) -> Fault<'static>
    ensures text { error_kind error ≡ IoKind.InvalidData → result ≡ Fault.NotText }
    ensures memory { error_kind error ≢ IoKind.InvalidData → result ≡ Fault.Run RunError.OutOfMemory }
{
    match error.kind() {
        IoKind::InvalidData => Fault::NotText,
        _ => Fault::Run(RunError::OutOfMemory),
    }
}

/// Runs the program on its words, without its name, over the files of the system and this standard
/// input, and answers the status.
pub fn command<R: Files + AllocGlobal, I: Read + Copy + Drop, W: Output, E: Output>(
    rt: &R,
    input: I,
    words: &[String],
    out: &mut W,
    err: &mut E,
) -> u8
    ensures status { (result < 4) × EndsByFault (texts_of words.now) result }
    ensures output { KeepsOutput (CutsWords ⟦<FromRead<Either<R::File, I>> as Input>⟧.failed None (texts_of words.now) (W.written out.old) (W.written out.new))
        (ListsWords None (texts_of words.now) (W.written out.old) (W.written out.new)) result (W.failed out.new) out.old out.new }
    ensures errors { KeepsErrors (ShowsWords ⟦<FromRead<Either<R::File, I>> as Input>⟧.failed None (texts_of words.now))
        (ListsWords None (texts_of words.now) (W.written out.old) (W.written out.new)) result (E.failed err.new) err.old err.new (E.written err.old) (E.written err.new) }
    ensures answers { AnswersBy None (texts_of words.now) result (W.written out.old) (W.written out.new) }
    ensures told { TellsBy None (texts_of words.now) result (W.written out.old) (W.written out.new)
        (E.failed err.new) err.old err.new (E.written err.old) (E.written err.new) }
    ensures faults { ReportsBy ⟦<FromRead<Either<R::File, I>> as Input>⟧.failed (HasFailedWrite ⟦<FromWrite<R::File> as Output>⟧.failed (W.failed out.new))
        None (texts_of words.now) result W.written out.old out.new E.failed E.written err.old err.new }
{
    command_over(&SystemFiles::new(rt, input), rt.alloc(), words, out, err)
}

/// Runs the program on its words, without its name, over the files of a store, and answers the
/// status.
///
/// The answer and the help go to `out`, the faults that `lint` lists too; a fault is one line on
/// `err`, and a usage fault is the text of `clap`. With `--progress` a search tells `err` how much
/// of it is done, and of files that are matched by their names each that has a fault is one line
/// there. A failed write to `err` changes no status.
pub fn command_over<S: Store, W: Output, E: Output>(
    store: &S,
    alloc: Global,
    words: &[String],
    out: &mut W,
    err: &mut E,
) -> u8
    ensures status { (result < 4) × EndsByFault (texts_of words.now) result }
    ensures output { KeepsOutput (CutsWords S.Reader.failed (S.held store.now) (texts_of words.now) (W.written out.old) (W.written out.new))
        (ListsWords (S.held store.now) (texts_of words.now) (W.written out.old) (W.written out.new)) result (W.failed out.new) out.old out.new }
    ensures errors { KeepsErrors (ShowsWords S.Reader.failed (S.held store.now) (texts_of words.now))
        (ListsWords (S.held store.now) (texts_of words.now) (W.written out.old) (W.written out.new)) result (E.failed err.new) err.old err.new (E.written err.old) (E.written err.new) }
    ensures answers { AnswersAndMakes S.name_of S.Writer.written S.Writer.failed (S.held store.now) (texts_of words.now) result
        (W.written out.old) (W.written out.new) }
    ensures told { TellsBy (S.held store.now) (texts_of words.now) result (W.written out.old) (W.written out.new)
        (E.failed err.new) err.old err.new (E.written err.old) (E.written err.new) }
    ensures faults { ReportsBy S.Reader.failed (HasFailedWrite S.Writer.failed (W.failed out.new)) (S.held store.now) (texts_of words.now)
        result W.written out.old out.new E.failed E.written err.old err.new }
{
    let matches = match read_args(alloc, words) {
        Ok(matches) => matches,
        Err(error) => return show_usage(alloc, &error, out, err),
    };
    let Some(request) = request_of(&matches) else {
        unreachable!();
    };
    match answer(store, alloc, request, out, err) {
        Ok(true) => 0,
        Ok(false) => 1,
        Err(fault) => fault.report(err),
    }
}

// Whether the answer is a yes.
fn answer<'m, 'a, S: Store, W: Output, E: Output>(
    store: &S,
    alloc: Global,
    request: Request<'m, 'a>,
    out: &mut W,
    err: &mut E,
) -> Result<bool, Fault<'a>>
    ensures answered { IfOk result (HasAnswer (S.held store.now) request.entry W.failed W.written out.old out.new) }
    ensures refused { IfErr result (HasFault S.Reader.failed S.Writer.failed (S.held store.now) request.entry
        W.failed W.written out.old out.new) }
    ensures made { IfOk result (λ is_yes. MakesOut S.name_of S.Writer.written S.Writer.failed (S.held store.now)
        request.entry is_yes (W.written out.old) (W.written out.new)) }
    ensures told { TellsOf S.Reader.failed (S.held store.now) request.entry (is_ok result)
        E.failed E.written err.old err.new }
    ensures joined { IfErr result (JoinsBoth S.Reader.failed (S.held store.now) request.entry
        W.written out.old out.new E.failed E.written err.old err.new) }
    ensures progress { IfOk result (λ is_yes. ShowsAsked (S.held store.now) request.entry is_yes
        (W.written out.old) (W.written out.new) (E.failed err.new) err.old err.new (E.written err.old) (E.written err.new)) }
{
    match request {
        Request::Show { table } => show_table(store, alloc, table, out),
        Request::Lint { table } => lint_table(store, alloc, table, out),
        Request::Match { all, table, file } => match_file(store, alloc, all, table, file, out),
        Request::MatchMany {
            options,
            table,
            names,
        } => match_many(store, alloc, options, table, names, out, err),
        Request::Find { table, ask } => find_in_table(store, alloc, table, ask, out, err),
        Request::Conflicts {
            table,
            options,
            progress,
        } => settle_pairs(store, alloc, table, options, progress, out, err),
        Request::Dead { table, ask } => judge_formats(store, alloc, table, ask, out, err),
        Request::Check { table, certificate } => {
            check_certificate(store, alloc, table, certificate, out)
        }
        Request::Witness { table, file } => judge_file(store, alloc, table, file, out),
    }
}

fn show_table<'a, S: Store, W: Output>(
    store: &S,
    alloc: Global,
    table: TablePaths<'a>,
    out: &mut W,
) -> Result<bool, Fault<'a>>
    ensures answered { IfOk result (HasAnswer (S.held store.now) (Request.Show table.entry) W.failed W.written out.old out.new) }
    ensures refused { IfErr result (HasFault S.Reader.failed S.Writer.failed (S.held store.now) (Request.Show table.entry)
        W.failed W.written out.old out.new) }
{
    match run_show(alloc, &load(store, alloc, table)?, out) {
        Ok(()) => Ok(true),
        Err(error) => Err(Fault::Run(error)),
    }
}

// The faults of a table are told on the output, and end with the status of a refused one.
fn lint_table<'a, S: Store, W: Output>(
    store: &S,
    alloc: Global,
    table: TablePaths<'a>,
    out: &mut W,
) -> Result<bool, Fault<'a>>
    ensures answered { IfOk result (HasAnswer (S.held store.now) (Request.Lint table.entry) W.failed W.written out.old out.new) }
    ensures refused { IfErr result (HasFault S.Reader.failed S.Writer.failed (S.held store.now) (Request.Lint table.entry)
        W.failed W.written out.old out.new) }
{
    let mut signatures = open(store, table.signatures)?;
    let mut priorities = open_priorities(store, table.priorities)?;
    match run_lint(alloc, &mut signatures, &mut priorities, out) {
        Ok(true) => Ok(true),
        Ok(false) => Err(Fault::FaultyTable),
        Err(error) => Err(Fault::Run(error)),
    }
}

fn match_file<'a, S: Store, W: Output>(
    store: &S,
    alloc: Global,
    all: bool,
    table: TablePaths<'a>,
    name: &'a str,
    out: &mut W,
) -> Result<bool, Fault<'a>>
    ensures answered { IfOk result (HasAnswer (S.held store.now) (Request.Match all table.entry name.entry) W.failed W.written out.old out.new) }
    ensures refused { IfErr result (HasFault S.Reader.failed S.Writer.failed (S.held store.now) (Request.Match all table.entry name.entry)
        W.failed W.written out.old out.new) }
{
    let core = BlockCore::new(alloc, load(store, alloc, table)?);
    let mut file = open_file(store, name)?;
    match run_match(alloc, &core, all, &mut file, out) {
        Ok(()) => Ok(true),
        Err(error) => Err(Fault::Run(error)),
    }
}

// Of files by their names: what is asked of each, or of some and the faults of the others. The core
// and the names of formats stand in a frame of its own.
#[inline(never)]
fn match_many<'m, 'a, S: Store, W: Output, E: Output>(
    store: &S,
    alloc: Global,
    options: MatchOptions<'a>,
    table: TablePaths<'a>,
    names: FileNames<'m, 'a>,
    out: &mut W,
    err: &mut E,
) -> Result<bool, Fault<'a>>
    ensures answered { IfOk result (HasAnswer (S.held store.now) (Request.MatchMany options.entry table.entry names.entry) W.failed W.written out.old out.new) }
    ensures refused { IfErr result (HasFault S.Reader.failed S.Writer.failed (S.held store.now) (Request.MatchMany options.entry table.entry names.entry)
        W.failed W.written out.old out.new) }
    ensures told { TellsOf S.Reader.failed (S.held store.now) (Request.MatchMany options.entry table.entry names.entry) (is_ok result)
        E.failed E.written err.old err.new }
    ensures joined { IfErr result (JoinsBoth S.Reader.failed (S.held store.now) (Request.MatchMany options.entry table.entry names.entry)
        W.written out.old out.new E.failed E.written err.old err.new) }
    ensures progress { IfOk result (λ is_yes. ShowsAsked (S.held store.now) (Request.MatchMany options.entry table.entry names.entry) is_yes
        (W.written out.old) (W.written out.new) (E.failed err.new) err.old err.new (E.written err.old) (E.written err.new)) }
{
    let table = load(store, alloc, table)?;
    let format_names = format_names(store, alloc, options.names)?;
    let core = BlockCore::prepared(alloc, table);
    let ask = match_ask(options, &format_names);
    let run = MatchRun {
        alloc,
        store,
        core: &core,
        ask,
    };
    match_named(&run, names, out, err)
}

// The files of these names, with a table that is loaded.
fn match_named<'m, 'a, S: Store, K: DroidCore, W: Output, E: Output>(
    run: &MatchRun<'_, S, K>,
    names: FileNames<'m, 'a>,
    out: &mut W,
    err: &mut E,
) -> Result<bool, Fault<'a>>
    ensures answers { IfOk result (λ is_yes. (is_yes ≡ true) × AddsAll run.now.ask (IsPrinted S.Reader.failed run.now.ask (K.lists run.now.core.now) (S.held run.now.store.now)) (AreVisitsOf run.now.ask (S.held run.now.store.now) names.entry)
        (W.written out.old) (W.written out.new) (E.failed err.new) (E.written err.old) (E.written err.new) true) }
    ensures quiet { OnOk result (run.now.ask.progress ≡ false → run.now.ask.summary ≡ false → err.new ≡ err.old) }
    ensures shown { OnOk result (W.failed out.new ≡ false) }
    ensures faults { IfErr result (λ fault. IsRunFault fault (IsListFault S.Reader.failed (S.held run.now.store.now) names.entry fault)) }
    ensures told { IfErr result (λ fault. TellsRun run.now.ask (IsPrinted S.Reader.failed run.now.ask (K.lists run.now.core.now) (S.held run.now.store.now)) (AreVisitsOf run.now.ask (S.held run.now.store.now) names.entry) (IsList names.entry) fault
        W.written out.old out.new E.failed E.written err.old err.new) }
    ensures write { IfErr result (λ fault. TellsWrite fault → W.failed out.new ≡ true) }
{
    match names {
        FileNames::Words(words) => answer_of(run_match_many(run, words, out, err)),
        FileNames::List(name, end) => {
            match_listed(run, open_file(run.store, name)?, end, out, err)
        }
        FileNames::Input(end) => match_listed(run, run.store.standard_input(), end, out, err),
    }
}

// The files whose names stand in this list.
fn match_listed<'a, S: Store, K: DroidCore, W: Output, E: Output>(
    run: &MatchRun<'_, S, K>,
    list: S::Reader,
    end: u8,
    out: &mut W,
    err: &mut E,
) -> Result<bool, Fault<'a>>
    ensures answers { IfOk result (λ is_yes. (is_yes ≡ true) × AddsAll run.now.ask (IsPrinted S.Reader.failed run.now.ask (K.lists run.now.core.now) (S.held run.now.store.now)) (AreListedVisits run.now.ask.recursive (S.held run.now.store.now) end (S.Reader.to_come list))
        (W.written out.old) (W.written out.new) (E.failed err.new) (E.written err.old) (E.written err.new) true) }
    ensures quiet { OnOk result (run.now.ask.progress ≡ false → run.now.ask.summary ≡ false → err.new ≡ err.old) }
    ensures shown { OnOk result (W.failed out.new ≡ false) }
    ensures faults { IfErr result (λ fault. IsRunFault fault ((fault ≡ Fault.Run RunError.Read) × SomeFailed S.Reader.failed)) }
    ensures told { IfErr result (λ fault. TellsRun run.now.ask (IsPrinted S.Reader.failed run.now.ask (K.lists run.now.core.now) (S.held run.now.store.now)) (AreListedVisits run.now.ask.recursive (S.held run.now.store.now) end (S.Reader.to_come list)) ⊤ fault
        W.written out.old out.new E.failed E.written err.old err.new) }
    ensures write { IfErr result (λ fault. TellsWrite fault → W.failed out.new ≡ true) }
{
    let Ok(mut list) = NameReader::new(run.alloc, list, end) else {
        return Err(Fault::Run(RunError::OutOfMemory));
    };
    answer_of(run_match_listed(run, &mut list, out, err))
}

// What a run comes to: where some file has a fault, that is the run's.
fn answer_of<'a>(matched: Result<bool, RunError>) -> Result<bool, Fault<'a>>
    ensures { result ≡ answer_of matched }
{
    match matched {
        Ok(true) => Ok(true),
        Ok(false) => Err(Fault::SomeFiles),
        Err(error) => Err(Fault::Run(error)),
    }
}

// The names of formats in the file of this name, if there is one. Its buffers stand in a frame of
// its own.
#[inline(never)]
fn format_names<'a, S: Store>(
    store: &S,
    alloc: Global,
    path: Option<&'a str>,
) -> Result<Option<FormatNames>, Fault<'a>>
    ensures names { IfOk result (λ names. AreNamesOf (S.held store.now) path.entry names) }
    ensures fault { IfErr result (λ fault. (fault ≡ Fault.Run RunError.OutOfMemory) ⊎ IsNamesFaultOf S.Reader.failed (S.held store.now) path.entry fault) }
{
    let Some(path) = path else {
        return Ok(None);
    };
    let mut file = open(store, path)?;
    match FormatNames::load(alloc, &mut file) {
        Ok(names) => Ok(Some(names)),
        Err(NamesError::OutOfMemory) => Err(Fault::Run(RunError::OutOfMemory)),
        Err(error) => Err(Fault::Names(error)),
    }
}

// What is asked of each file.
fn match_ask<'n>(options: MatchOptions<'_>, names: &'n Option<FormatNames>) -> MatchAsk<'n>
    ensures all { result.all ≡ options.entry.all }
    ensures csv { result.csv ≡ options.entry.csv }
    ensures names { option_map (λ n. n.now) result.names ≡ names.now }
    ensures recursive { result.recursive ≡ options.entry.recursive }
    ensures progress { result.progress ≡ options.entry.progress }
    ensures summary { result.summary ≡ options.entry.summary }
{
    let MatchOptions {
        all,
        csv,
        recursive,
        progress,
        summary,
        ..
    } = options;
    MatchAsk {
        all,
        csv,
        names: names.as_ref(),
        recursive,
        progress,
        summary,
    }
}

fn find_in_table<'a, S: Store, W: Output, E: Output>(
    store: &S,
    alloc: Global,
    table: TablePaths<'a>,
    ask: FindAsk<'a>,
    out: &mut W,
    err: &mut E,
) -> Result<bool, Fault<'a>>
    ensures answered { IfOk result (HasAnswer (S.held store.now) (Request.Find table.entry ask.entry) W.failed W.written out.old out.new) }
    ensures refused { IfErr result (HasFault S.Reader.failed S.Writer.failed (S.held store.now) (Request.Find table.entry ask.entry)
        W.failed W.written out.old out.new) }
    ensures made { IfOk result (λ is_yes. MakesOut S.name_of S.Writer.written S.Writer.failed (S.held store.now)
        (Request.Find table.entry ask.entry) is_yes (W.written out.old) (W.written out.new)) }
    ensures told { TellsOf S.Reader.failed (S.held store.now) (Request.Find table.entry ask.entry) (is_ok result)
        E.failed E.written err.old err.new }
    ensures progress { IfOk result (λ is_yes. ShowsAsked (S.held store.now) (Request.Find table.entry ask.entry) is_yes
        (W.written out.old) (W.written out.new) (E.failed err.new) err.old err.new (E.written err.old) (E.written err.new)) }
{
    let table = load(store, alloc, table)?;
    match run_find(alloc, store, &table, ask, out, err) {
        Ok(is_yes) => Ok(is_yes),
        Err(fault) => Err(file_fault(ask.out, fault)),
    }
}

fn settle_pairs<'a, S: Store, W: Output, E: Output>(
    store: &S,
    alloc: Global,
    table: TablePaths<'a>,
    options: ConflictsOptions<'a>,
    progress: bool,
    out: &mut W,
    err: &mut E,
) -> Result<bool, Fault<'a>>
    ensures answered { IfOk result (HasAnswer (S.held store.now) (Request.Conflicts table.entry options.entry progress) W.failed W.written out.old out.new) }
    ensures refused { IfErr result (HasFault S.Reader.failed S.Writer.failed (S.held store.now) (Request.Conflicts table.entry options.entry progress)
        W.failed W.written out.old out.new) }
    ensures made { IfOk result (λ is_yes. MakesOut S.name_of S.Writer.written S.Writer.failed (S.held store.now)
        (Request.Conflicts table.entry options.entry progress) is_yes (W.written out.old) (W.written out.new)) }
    ensures told { TellsOf S.Reader.failed (S.held store.now) (Request.Conflicts table.entry options.entry progress) (is_ok result)
        E.failed E.written err.old err.new }
    ensures progress { IfOk result (λ is_yes. ShowsAsked (S.held store.now) (Request.Conflicts table.entry options.entry progress) is_yes
        (W.written out.old) (W.written out.new) (E.failed err.new) err.old err.new (E.written err.old) (E.written err.new)) }
{
    if options.summary && options.only.is_some() {
        return Err(Fault::SummaryOfOne);
    }
    let table = load(store, alloc, table)?;
    let ask = ask_of(&table, options)?;
    let run = ConflictsRun {
        alloc,
        store,
        table: &table,
        ask,
    };
    match settle(&run, progress, out, err) {
        Ok(is_yes) => Ok(is_yes),
        Err(fault) => Err(pairs_fault(fault)),
    }
}

fn pairs_fault(fault: PairsFault<'_>) -> Fault<'_>
    ensures { result ≡ pairs_fault fault.entry }
{
    match fault {
        PairsFault::CannotOpen(name) => Fault::CannotOpen(name),
        PairsFault::NoFile(folder, name) => Fault::NoFile(folder, name),
        PairsFault::Cut(error) => Fault::CutShort(error),
    }
}

// What is asked of the pairs of this table.
fn ask_of<'a>(table: &Table, options: ConflictsOptions<'a>) -> Result<ConflictsAsk<'a>, Fault<'a>>
    requires { options.summary ≡ true → is_some options.only ≡ false }
    ensures asks { IfOk result (AsksPairs options.entry table.now) }
    ensures unnamed { IfErr result (λ fault. (fault ≡ Fault.NotInTable) × NamesNone table.now options.entry.only) }
{
    Ok(ConflictsAsk {
        budget: options.budget,
        hex: options.hex,
        class: options.class,
        summary: options.summary,
        only: only_of(table, options.only)?,
        priorities: options.priorities,
        files: options.files,
    })
}

// The format that the word of `--only` names.
fn only_of<'a>(table: &Table, only: Option<&'a str>) -> Result<Option<FormatId>, Fault<'a>>
    ensures named { IfOk result (IsOnly table.now only.entry) }
    ensures unnamed { IfErr result (λ fault. (fault ≡ Fault.NotInTable) × NamesNone table.now only.entry) }
{
    let Some(word) = only else {
        return Ok(None);
    };
    let Some(puid) = Puid::parse(word.as_bytes()) else {
        return Err(Fault::NotInTable);
    };
    match format_named(table, &puid) {
        Some(format) => Ok(Some(format)),
        None => Err(Fault::NotInTable),
    }
}

fn judge_formats<'a, S: Store, W: Output, E: Output>(
    store: &S,
    alloc: Global,
    table: TablePaths<'a>,
    ask: DeadAsk,
    out: &mut W,
    err: &mut E,
) -> Result<bool, Fault<'a>>
    ensures answered { IfOk result (HasAnswer (S.held store.now) (Request.Dead table.entry ask) W.failed W.written out.old out.new) }
    ensures refused { IfErr result (HasFault S.Reader.failed S.Writer.failed (S.held store.now) (Request.Dead table.entry ask)
        W.failed W.written out.old out.new) }
    ensures told { TellsOf S.Reader.failed (S.held store.now) (Request.Dead table.entry ask) (is_ok result)
        E.failed E.written err.old err.new }
    ensures progress { IfOk result (λ is_yes. ShowsAsked (S.held store.now) (Request.Dead table.entry ask) is_yes
        (W.written out.old) (W.written out.new) (E.failed err.new) err.old err.new (E.written err.old) (E.written err.new)) }
{
    let table = load(store, alloc, table)?;
    match find_dead(alloc, &table, ask, out, err) {
        Ok(is_yes) => Ok(is_yes),
        Err(cut) => Err(Fault::CutShort(cut)),
    }
}

fn check_certificate<'a, S: Store, W: Output>(
    store: &S,
    alloc: Global,
    table: TablePaths<'a>,
    name: &'a str,
    out: &mut W,
) -> Result<bool, Fault<'a>>
    ensures answered { IfOk result (HasAnswer (S.held store.now) (Request.Check table.entry name.entry) W.failed W.written out.old out.new) }
    ensures refused { IfErr result (HasFault S.Reader.failed S.Writer.failed (S.held store.now) (Request.Check table.entry name.entry)
        W.failed W.written out.old out.new) }
{
    let table = load(store, alloc, table)?;
    let mut certificate = open(store, name)?;
    match run_check(alloc, &table, &mut certificate, out) {
        Ok(is_accepted) => Ok(is_accepted),
        Err(error) => Err(Fault::Run(error)),
    }
}

fn judge_file<'a, S: Store, W: Output>(
    store: &S,
    alloc: Global,
    table: TablePaths<'a>,
    name: &'a str,
    out: &mut W,
) -> Result<bool, Fault<'a>>
    ensures answered { IfOk result (HasAnswer (S.held store.now) (Request.Witness table.entry name.entry) W.failed W.written out.old out.new) }
    ensures refused { IfErr result (HasFault S.Reader.failed S.Writer.failed (S.held store.now) (Request.Witness table.entry name.entry)
        W.failed W.written out.old out.new) }
{
    let table = load(store, alloc, table)?;
    let mut file = open(store, name)?;
    match run_witness(alloc, &table, &mut file, out) {
        Ok(is_ambiguous) => Ok(is_ambiguous),
        Err(error) => Err(Fault::Run(error)),
    }
}

// Why there is no answer of the file of this name.
fn file_fault(name: &str, fault: FileFault) -> Fault<'_>
    ensures { result ≡ file_fault name.entry fault }
{
    match fault {
        FileFault::CannotOpen => Fault::CannotOpen(name),
        FileFault::Run(error) => Fault::Run(error),
    }
}

// Opens the files of a table before one is read. It stands in a frame of its own, as the
// engines do: the buffers of all of them in one frame would double the stack that the program
// needs.
#[inline(never)]
fn load<'a, S: Store>(store: &S, alloc: Global, paths: TablePaths<'a>) -> Result<Table, Fault<'a>>
    ensures read { IfOk result (IsTableOf (S.held store.now) paths.entry) }
    ensures faults { IfErr result (IsLoadFault S.Reader.failed (S.held store.now) paths.entry) }
{
    let mut signatures = open(store, paths.signatures)?;
    let mut priorities = open_priorities(store, paths.priorities)?;
    match Table::load(alloc, &mut signatures, &mut priorities) {
        Ok(table) => Ok(table),
        Err(error) => Err(Fault::Table(error)),
    }
}

// The priorities of a table: the file of this name, or none.
fn open_priorities<'a, S: Store>(
    store: &S,
    name: Option<&'a str>,
) -> Result<PriorityInput<S::Reader>, Fault<'a>>
    ensures opens { IfOk result (λ input. OpensPriorities (S.held store.now) name.entry (to_come_of S.Reader.to_come input)) }
    ensures unopened { IfErr result (LacksPriorities (S.held store.now) name.entry) }
{
    match name {
        Some(name) => Ok(PriorityInput::File(open(store, name)?)),
        None => Ok(PriorityInput::none()),
    }
}

fn open<'a, S: Store>(store: &S, name: &'a str) -> Result<S::Reader, Fault<'a>>
    ensures opens { IfOk result (λ file. Opens (S.held store.now) name.entry.now (Some (S.Reader.to_come file))) }
    ensures unopened { IfErr result (λ fault. (fault ≡ Fault.CannotOpen name.entry) × Opens (S.held store.now) name.entry.now None) }
{
    match store.open(name) {
        Some(file) => Ok(file),
        None => Err(Fault::CannotOpen(name)),
    }
}

// Opens a file that may turn out to be a folder, which would open, too, and fail where it is read.
fn open_file<'a, S: Store>(store: &S, name: &'a str) -> Result<S::Reader, Fault<'a>>
    ensures opens { IfOk result (λ file. Opens (S.held store.now) name.entry.now (Some (S.Reader.to_come file))) }
    ensures unopened { IfErr result (λ fault. ((fault ≡ Fault.CannotOpen name.entry) × Opens (S.held store.now) name.entry.now None)
        ⊎ IsFolderFault (S.held store.now) name.entry fault) }
    ensures file { OnOk result (LacksFolder (S.held store.now) name.entry.now) }
{
    if store.is_folder(name) {
        return Err(Fault::IsFolder(name));
    }
    open(store, name)
}

// What `clap` says: help is an answer, and all else a fault of the words, unless memory ran out.
fn show_usage<W: Output, E: Output>(alloc: Global, error: &Error, out: &mut W, err: &mut E) -> u8
    ensures status { EndsByKind (kind_of error.now) result }
    ensures output { KeepsOutput ⊥ ⊥ result (W.failed out.new) out.old out.new }
    ensures errors { KeepsErrors (λ is_answered is_failed before after. ⊥) ⊥ result (E.failed err.new) err.old err.new (E.written err.old) (E.written err.new) }
    ensures memory { kind_of error.now ≡ ErrorKind.OutOfMemory → E.failed err.new ≡ false → ReportsMemory (E.written err.old) (E.written err.new) }
{
    let text = match error.to_string(alloc) {
        Ok(text) if error.kind() != ErrorKind::OutOfMemory => text,
        _ => return Fault::Run(RunError::OutOfMemory).report(err),
    };
    if error.use_stderr() {
        let _ = err.write_all(usage_of(text.as_str()).as_bytes());
        return 2;
    }
    match out.write_all(text.as_bytes()) {
        Ok(()) => 0,
        Err(_) => Fault::Run(RunError::Write).report(err),
    }
}

// What `clap` says of the words. No contract of `clap` says that its text has a byte.
fn usage_of(text: &str) -> &str
    ensures { 0 < length result.now }
{
    if text.is_empty() {
        "error: usage\n"
    } else {
        text
    }
}
