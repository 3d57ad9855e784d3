//! What the words of the command line ask for, as `clap` reads them.
//!
//! `match a b c` asks for `Match`, of the table in `a` and `b` and of the file `c`;
//! `match a b c d`, `match --with-names a b c` and `match --files-from d a b` ask for `MatchMany`.
//! The names of several files are the list that `clap` keeps, so they take no memory here. That is
//! why `ArgMatches` outlives the request.
//!
//! No file is opened, and whether a table has the format of `--only` is not looked at.

ghost use Rattle.std.specs.Prelude.{◌≡◌, ◌≢◌, ◌⊎◌, [], codes, false, IfErr, IfOk, IfSome, None, Some, true};
ghost use Rattle.clap.specs.Values.{kind_of};
ghost use Rattle.clap.specs.Matches.{found_of};
ghost use Rattle.clap.specs.declared.Command.TheViews.{out-Command as fields_of};
ghost use Rattle.clap.specs.Words.{all_of, app_of, first_of, new_rule, one_of, rows_of, rule_of, subcommand_rows_of};
ghost use Rattle.sig_command.specs.CommandLine.{AreTaken, Asks, HasFaultKind, HasFlag, HasNoFiles, IsHelpAsked, IsLine, NamesEach, NamesOptions, NamesTable, asking, budget_rule, check_command, conflicts_command, dead_command, fault_of_words, files_command, find_command, given, is_named, lint_command, list_names, match_command, name_end, named, names_priorities, null_rule, of_many, of_table, out_rule, program_of, several, show_command, subcommand_of_words, texts_of, wanted, witness_command};

use crate::help::{
    CHECK_HELP, CONFLICTS_HELP, DEAD_HELP, FIND_HELP, LINT_HELP, MATCH_HELP, SHOW_HELP,
    WITNESS_HELP,
};
use clap::error::ErrorKind;
use clap::{Arg, ArgAction, ArgMatches, Command, Error, value_parser};
use sig_engines::{DeadAsk, FindAsk, TablePaths};
use std::alloc::Global;

/// What the words ask of `conflicts`. Whether the table has the format of `only` is not looked at
/// yet.
#[derive(Clone, Copy, Debug, PartialEq, Eq)]
pub(crate) struct ConflictsOptions<'a> {
    pub(crate) budget: u32,
    pub(crate) only: Option<&'a str>,
    pub(crate) class: bool,
    pub(crate) summary: bool,
    pub(crate) hex: bool,
    pub(crate) files: Option<&'a str>,
    pub(crate) priorities: Option<&'a str>,
}

/// What the words ask of each of many files.
#[derive(Clone, Copy, Debug, PartialEq, Eq)]
pub(crate) struct MatchOptions<'a> {
    pub(crate) all: bool,
    pub(crate) csv: bool,
    pub(crate) names: Option<&'a str>,
    pub(crate) recursive: bool,
    pub(crate) progress: bool,
    pub(crate) summary: bool,
}

impl MatchOptions<'_> {
    // Whether the names of the files are printed, whatever their number.
    fn is_named(self) -> bool
        ensures { result ≡ is_named self.entry }
    {
        self.csv || (self.names.is_some() || (self.recursive || (self.progress || self.summary)))
    }
}

/// Where the names of many files come from.
#[derive(Clone, Copy, Debug, PartialEq, Eq)]
pub(crate) enum FileNames<'m, 'a> {
    /// The words.
    Words(&'m [&'a str]),
    /// The file of this name, in which each name is ended by this byte.
    List(&'a str, u8),
    /// Standard input, in which each name is ended by this byte.
    Input(u8),
}

/// What the words ask for.
#[derive(Clone, Copy, Debug, PartialEq, Eq)]
pub(crate) enum Request<'m, 'a> {
    /// The canonical files of a table.
    Show {
        table: TablePaths<'a>,
    },
    /// All faults of a table.
    Lint {
        table: TablePaths<'a>,
    },
    /// Which formats are left for a file, or with `all` which it hits.
    Match {
        all: bool,
        table: TablePaths<'a>,
        file: &'a str,
    },
    /// The same for each of many files, after the file's name: of several words, or of one with
    /// `--with-names` or one of the options but `--all`, or of the names in a list.
    MatchMany {
        options: MatchOptions<'a>,
        table: TablePaths<'a>,
        names: FileNames<'m, 'a>,
    },
    /// Whether a table is decided: a certificate of it, or a file that leaves two formats.
    Find {
        table: TablePaths<'a>,
        ask: FindAsk<'a>,
    },
    /// Which pairs of formats of a table are not decided.
    Conflicts {
        table: TablePaths<'a>,
        options: ConflictsOptions<'a>,
        progress: bool,
    },
    /// Which formats and signatures of a table no file can leave.
    Dead {
        table: TablePaths<'a>,
        ask: DeadAsk,
    },
    /// Whether a certificate of a table is accepted.
    Check {
        table: TablePaths<'a>,
        certificate: &'a str,
    },
    /// Whether a file leaves two formats of a table.
    Witness {
        table: TablePaths<'a>,
        file: &'a str,
    },
}

/// Reads the words, of which the first is no name of the program. What is found asks for something.
///
/// The error is also a request for help.
pub(crate) fn read_args<'a>(alloc: Global, words: &'a [String]) -> Result<ArgMatches<'a>, Error>
    ensures found { IfOk result (λ matches. subcommand_rows_of matches ≡ subcommand_of_words (texts_of words.now)) }
    ensures asked { IfOk result (λ matches. (request : Request) × Asks (subcommand_of_words (texts_of words.now)) request) }
    ensures taken { IfErr result (λ e. AreTaken (texts_of words.now) → kind_of e ≡ ErrorKind.OutOfMemory) }
    ensures sound { IfOk result (λ matches. fault_of_words (texts_of words.now) ≡ []) }
    ensures kinds { IfErr result (HasFaultKind (texts_of words.now)) }
    ensures help { IfErr result (λ e. (kind_of e ≡ ErrorKind.DisplayHelp) ⊎ (kind_of e ≡ ErrorKind.DisplayVersion) → IsHelpAsked (texts_of words.now)) }
{
    let mut command = command_line(alloc, words)?;
    let matches = command.try_get_matches_from_mut(words)?;
    if request_of(&matches).is_none() {
        return Err(command.error(ErrorKind::MissingRequiredArgument, missing(&matches))?);
    }
    Ok(matches)
}

// What is wrong with words that `clap` takes and that ask for nothing.
fn missing(matches: &ArgMatches<'_>) -> &'static str {
    match matches.subcommand_matches("match") {
        Some(listed) if listed.get_str("NAMES").is_some() => {
            "the argument '--files-from <NAMES>' cannot be used with '[FILE]...'"
        }
        _ => "the following required arguments were not provided:\n  <FILE>...",
    }
}

// Whether the words name a priority file. `clap` fills the arguments without a name in their order,
// so it is given a command line that has no place for the file where there is none.
fn names_priorities(words: &[String]) -> bool
    ensures { result ≡ names_priorities (texts_of words.now) }
{
    for word in words {
        let word = word.as_str();
        if word == "--" {
            return true;
        }
        if word == "--no-priorities" {
            return false;
        }
    }
    true
}

// All subcommands and their words, with a place for a priority file where these words name one.
// They stand in a frame of their own, which is gone when the words are read.
#[inline(never)]
fn command_line<'a>(alloc: Global, words: &[String]) -> Result<Command<'a>, Error>
    ensures app { IfOk result (λ command. app_of command ≡ program_of (texts_of words.now)) }
    ensures memory { IfErr result (λ e. kind_of e ≡ ErrorKind.OutOfMemory) }
{
    let has_priorities = names_priorities(words);
    let command = Command::new(alloc, "pronom_sig")
        .about("Identify files by signatures, and check tables of signatures for ambiguity")
        .version("0.1.0")
        .bin_name("pronom_sig")?
        .no_binary_name(true)
        .subcommand_required(true)
        .subcommand(show_line(alloc, has_priorities)?)?
        .subcommand(lint_line(alloc, has_priorities)?)?
        .subcommand(match_line(alloc, has_priorities)?)?
        .subcommand(find_line(alloc, has_priorities)?)?
        .subcommand(conflicts_line(alloc, has_priorities)?)?
        .subcommand(dead_line(alloc, has_priorities)?)?
        .subcommand(check_line(alloc, has_priorities)?)?
        .subcommand(witness_line(alloc, has_priorities)?)?;
    Ok(command)
}

// `show SIGS PRIOS`
fn show_line<'a>(alloc: Global, has_priorities: bool) -> Result<Command<'a>, Error>
    ensures line { IfOk result (IsLine (show_command has_priorities)) }
    ensures memory { IfErr result (λ e. kind_of e ≡ ErrorKind.OutOfMemory) }
{
    let line = with_table_args(alloc, Command::new(alloc, "show"), has_priorities)?
        .about("Check a table and print it in canonical form")
        .after_help(SHOW_HELP);
    Ok(line)
}

// `lint SIGS PRIOS`
fn lint_line<'a>(alloc: Global, has_priorities: bool) -> Result<Command<'a>, Error>
    ensures line { IfOk result (IsLine (lint_command has_priorities)) }
    ensures memory { IfErr result (λ e. kind_of e ≡ ErrorKind.OutOfMemory) }
{
    let line = with_table_args(alloc, Command::new(alloc, "lint"), has_priorities)?
        .about("List all faults of a table, and how to mend them")
        .after_help(LINT_HELP);
    Ok(line)
}

// `match [--all] [--with-names] [--csv] [--names FORMATS] [--recursive] [--files-from NAMES [-0]]
// [--progress] [--summary] SIGS PRIOS [FILE..]`
fn match_line<'a>(alloc: Global, has_priorities: bool) -> Result<Command<'a>, Error>
    ensures line { IfOk result (IsLine (match_command has_priorities)) }
    ensures memory { IfErr result (λ e. kind_of e ≡ ErrorKind.OutOfMemory) }
{
    let line = files_line(alloc, has_priorities)?;
    with_many_args(alloc, line)
}

// The words of `match` for one file and for several. All of them in one frame take more stack than
// any other part of the program.
#[inline(never)]
fn files_line<'a>(alloc: Global, has_priorities: bool) -> Result<Command<'a>, Error>
    ensures line { IfOk result (IsLine (files_command has_priorities)) }
    ensures memory { IfErr result (λ e. kind_of e ≡ ErrorKind.OutOfMemory) }
{
    let line = with_table_args(alloc, Command::new(alloc, "match"), has_priorities)?
        .about("Print the formats that match each file, after priorities")
        .after_help(MATCH_HELP)
        .arg(several(alloc, "FILE").help("The files to identify"))?
        .arg(flag(alloc, "all").help("Print all formats that match, before priorities"))?
        .arg(flag(alloc, "with-names").help("Print the file's name also for one FILE"))?
        .arg(flag(alloc, "csv").help("Print records of CSV, with the files' names"))?;
    Ok(line)
}

// The words of `match` for many files.
#[inline(never)]
fn with_many_args<'a>(alloc: Global, command: Command<'a>) -> Result<Command<'a>, Error>
    ensures app { IfOk result (λ r. app_of r ≡ of_many (app_of command.entry)) }
    ensures local { IfOk result (λ r. (fields_of r).has_globals ≡ (fields_of command.entry).has_globals) }
    ensures memory { IfErr result (λ e. kind_of e ≡ ErrorKind.OutOfMemory) }
{
    let command = command
        .arg(option(alloc, "names", "FORMATS").help(
            "Print the names of formats from this CSV file",
        ))?
        .arg(flag(alloc, "recursive").help("Identify the files in each folder, and below it"))?
        .arg(option(alloc, "files-from", "NAMES").help(
            "Read the names of the files from this file",
        ))?
        .arg(null(alloc).help("The names in NAMES are ended by NUL"))?
        .arg(flag(alloc, "progress").help("Report on standard error how many files are done"))?
        .arg(flag(alloc, "summary").help("Count the files on standard error at the end"))?;
    Ok(command)
}

// `find [--budget N] --out OUT [--hex] [--progress] SIGS PRIOS`
fn find_line<'a>(alloc: Global, has_priorities: bool) -> Result<Command<'a>, Error>
    ensures line { IfOk result (IsLine (find_command has_priorities)) }
    ensures memory { IfErr result (λ e. kind_of e ≡ ErrorKind.OutOfMemory) }
{
    let line = with_table_args(alloc, Command::new(alloc, "find"), has_priorities)?
        .about("Certify that no file gets two formats, or find a file that does")
        .after_help(FIND_HELP)
        .arg(budget(alloc).help("States that one search may visit"))?
        .arg(out(alloc).help("Where the certificate or the file is written"))?
        .arg(flag(alloc, "hex").help("Also print the bytes of OUT in hexadecimal"))?
        .arg(flag(alloc, "progress").help("Report on standard error how many products are done"))?;
    Ok(line)
}

// `conflicts [--budget N] [--only PUID] [--class] [--summary] [--hex] [--files DIR] [--priorities
// FILE] [--progress] SIGS PRIOS`
fn conflicts_line<'a>(alloc: Global, has_priorities: bool) -> Result<Command<'a>, Error>
    ensures line { IfOk result (IsLine (conflicts_command has_priorities)) }
    ensures memory { IfErr result (λ e. kind_of e ≡ ErrorKind.OutOfMemory) }
{
    let line = with_table_args(alloc, Command::new(alloc, "conflicts"), has_priorities)?
        .about("List all pairs of formats that can both be reported for one file")
        .after_help(CONFLICTS_HELP)
        .arg(budget(alloc).help("States that one search may visit"))?
        .arg(option(alloc, "only", "PUID").help("Print the pairs of this format alone"))?
        .arg(flag(alloc, "class").help("Print the class of each pair, and count the classes"))?
        .arg(flag(alloc, "summary").help("Print a line for each format in place of the pairs"))?
        .arg(flag(alloc, "hex").help("Also print the bytes of each file in hexadecimal"))?
        .arg(option(alloc, "files", "DIR").help("Write each file to this folder"))?
        .arg(option(alloc, "priorities", "FILE").help(
            "Write a priority file with the forced pairs",
        ))?
        .arg(flag(alloc, "progress").help("Report on standard error how many pairs are done"))?;
    Ok(line)
}

// `dead [--budget N] [--hex] [--progress] SIGS PRIOS`
fn dead_line<'a>(alloc: Global, has_priorities: bool) -> Result<Command<'a>, Error>
    ensures line { IfOk result (IsLine (dead_command has_priorities)) }
    ensures memory { IfErr result (λ e. kind_of e ≡ ErrorKind.OutOfMemory) }
{
    let line = with_table_args(alloc, Command::new(alloc, "dead"), has_priorities)?
        .about("List formats and signatures that are reported for no file")
        .after_help(DEAD_HELP)
        .arg(budget(alloc).help("States that one search may visit"))?
        .arg(flag(alloc, "hex").help("Also print a shortest file for each live signature"))?
        .arg(flag(alloc, "progress").help("Report on standard error how many formats are done"))?;
    Ok(line)
}

// `check SIGS PRIOS CERT`
fn check_line<'a>(alloc: Global, has_priorities: bool) -> Result<Command<'a>, Error>
    ensures line { IfOk result (IsLine (check_command has_priorities)) }
    ensures memory { IfErr result (λ e. kind_of e ≡ ErrorKind.OutOfMemory) }
{
    let line = with_table_args(alloc, Command::new(alloc, "check"), has_priorities)?
        .about("Check a certificate")
        .after_help(CHECK_HELP)
        .arg(required(alloc, "CERT").help("The certificate"))?;
    Ok(line)
}

// `witness SIGS PRIOS FILE`
fn witness_line<'a>(alloc: Global, has_priorities: bool) -> Result<Command<'a>, Error>
    ensures line { IfOk result (IsLine (witness_command has_priorities)) }
    ensures memory { IfErr result (λ e. kind_of e ≡ ErrorKind.OutOfMemory) }
{
    let line = with_table_args(alloc, Command::new(alloc, "witness"), has_priorities)?
        .about("Tell whether two formats are reported for a file")
        .after_help(WITNESS_HELP)
        .arg(required(alloc, "FILE").help("The file to check"))?;
    Ok(line)
}

// The words that name a table. The flag is read before `clap` reads any word.
fn with_table_args<'a>(
    alloc: Global,
    command: Command<'a>,
    has_priorities: bool,
) -> Result<Command<'a>, Error>
    ensures app { IfOk result (λ r. app_of r ≡ of_table has_priorities (app_of command.entry)) }
    ensures local { IfOk result (λ r. (fields_of r).has_globals ≡ (fields_of command.entry).has_globals) }
    ensures memory { IfErr result (λ e. kind_of e ≡ ErrorKind.OutOfMemory) }
{
    let command = command
        .arg(required(alloc, "SIGS").help("The signatures, as CSV"))?
        .arg(flag(alloc, "no-priorities").help("Leave PRIOS out: the table has no priorities"))?;
    if !has_priorities {
        return Ok(command);
    }
    Ok(command.arg(required(alloc, "PRIOS").help("The priorities, as CSV"))?)
}

fn required<'a>(alloc: Global, name: &'a str) -> Arg<'a>
    ensures rule { rule_of result ≡ wanted name.entry.now }
    ensures local { result.global ≡ false }
{
    Arg::new(alloc, name).required(true)
}

// An argument of one value or more, which may be left out.
fn several<'a>(alloc: Global, name: &'a str) -> Arg<'a>
    ensures rule { rule_of result ≡ several name.entry.now }
    ensures local { result.global ≡ false }
{
    optional(alloc, name).num_args(1..)
}

fn optional<'a>(alloc: Global, name: &'a str) -> Arg<'a>
    ensures rule { rule_of result ≡ new_rule name.entry.now }
    ensures local { result.global ≡ false }
{
    Arg::new(alloc, name)
}

fn flag<'a>(alloc: Global, name: &'a str) -> Arg<'a>
    ensures rule { rule_of result ≡ given name.entry.now }
    ensures local { result.global ≡ false }
{
    Arg::new(alloc, name).long(name).action(ArgAction::SetTrue)
}

// `--null`, or `-0`
fn null<'a>(alloc: Global) -> Arg<'a>
    ensures rule { rule_of result ≡ null_rule }
    ensures local { result.global ≡ false }
{
    flag(alloc, "null").short('0')
}

// An option, with the name of its value.
fn option<'a>(alloc: Global, name: &'a str, value: &'a str) -> Arg<'a>
    ensures rule { rule_of result ≡ named name.entry.now value.entry.now }
    ensures local { result.global ≡ false }
{
    Arg::new(alloc, value).long(name)
}

// `--out OUT`
fn out<'a>(alloc: Global) -> Arg<'a>
    ensures rule { rule_of result ≡ out_rule }
    ensures local { result.global ≡ false }
{
    option(alloc, "out", "OUT").required(true)
}

// `[--budget N]`
fn budget<'a>(alloc: Global) -> Arg<'a>
    ensures rule { rule_of result ≡ budget_rule }
    ensures local { result.global ≡ false }
{
    option(alloc, "budget", "N")
        .default_value("100000")
        .value_parser(value_parser!(u32).range(1..))
}

/// What is asked for by what was found in the words.
pub(crate) fn request_of<'m, 'a>(matches: &'m ArgMatches<'a>) -> Option<Request<'m, 'a>>
    ensures asked { IfSome result (λ request. Asks (subcommand_rows_of matches.now) request) }
    ensures none { result ≡ None → (request : Request) → ¬ Asks (subcommand_rows_of matches.now) request }
{
    if let Some(shown) = matches.subcommand_matches("show") {
        return show_request(shown);
    }
    if let Some(checking) = matches.subcommand_matches("check") {
        return check_request(checking);
    }
    if let Some(finding) = matches.subcommand_matches("find") {
        return find_request(finding);
    }
    if let Some(settling) = matches.subcommand_matches("conflicts") {
        return conflicts_request(settling);
    }
    if let Some(dying) = matches.subcommand_matches("dead") {
        return dead_request(dying);
    }
    if let Some(judging) = matches.subcommand_matches("witness") {
        return witness_request(judging);
    }
    if let Some(linted) = matches.subcommand_matches("lint") {
        return lint_request(linted);
    }
    match_request(matches.subcommand_matches("match")?)
}

fn show_request<'m, 'a>(matches: &'m ArgMatches<'a>) -> Option<Request<'m, 'a>>
    ensures asked { IfSome result (λ request. Asks (asking (codes "show") matches.now) request) }
    ensures none { result ≡ None → (request : Request) → ¬ Asks (asking (codes "show") matches.now) request }
{
    Some(Request::Show {
        table: table_paths(matches)?,
    })
}

fn lint_request<'m, 'a>(matches: &'m ArgMatches<'a>) -> Option<Request<'m, 'a>>
    ensures asked { IfSome result (λ request. Asks (asking (codes "lint") matches.now) request) }
    ensures none { result ≡ None → (request : Request) → ¬ Asks (asking (codes "lint") matches.now) request }
{
    Some(Request::Lint {
        table: table_paths(matches)?,
    })
}

fn match_request<'m, 'a>(matches: &'m ArgMatches<'a>) -> Option<Request<'m, 'a>>
    ensures asked { IfSome result (λ request. Asks (asking (codes "match") matches.now) request) }
    ensures none { result ≡ None → (request : Request) → ¬ Asks (asking (codes "match") matches.now) request }
{
    let table = table_paths(matches)?;
    match matches.get_str("NAMES") {
        Some(word) => list_request(matches, table, word),
        None => files_request(matches, table),
    }
}

// Of the files that the words name.
fn files_request<'m, 'a>(
    matches: &'m ArgMatches<'a>,
    table: TablePaths<'a>,
) -> Option<Request<'m, 'a>>
    requires named { NamesTable table (rows_of (found_of matches.now)) }
    requires unlisted { first_of (codes "NAMES") (rows_of (found_of matches.now)) ≡ None }
    ensures asked { IfSome result (λ request. Asks (asking (codes "match") matches.now) request) }
    ensures none { result ≡ None → HasNoFiles (rows_of (found_of matches.now)) }
{
    let options = match_options(matches);
    let with_names = matches.get_flag("with-names");
    match matches.get_strs("FILE")? {
        [] => None,
        [file] if !with_names && !options.is_named() => Some(Request::Match {
            all: options.all,
            table,
            file: *file,
        }),
        files => Some(Request::MatchMany {
            options,
            table,
            names: FileNames::Words(files),
        }),
    }
}

// Of the files whose names stand in the list that this word names.
fn list_request<'m, 'a>(
    matches: &'m ArgMatches<'a>,
    table: TablePaths<'a>,
    word: &'a str,
) -> Option<Request<'m, 'a>>
    requires named { NamesTable table (rows_of (found_of matches.now)) }
    requires listed { first_of (codes "NAMES") (rows_of (found_of matches.now)) ≡ Some word.now }
    ensures asked { IfSome result (λ request. Asks (asking (codes "match") matches.now) request) }
    ensures none { result ≡ None → all_of (codes "FILE") (rows_of (found_of matches.now)) ≢ None }
{
    match matches.get_strs("FILE") {
        Some(_) => None,
        None => Some(Request::MatchMany {
            options: match_options(matches),
            table,
            names: list_names(word, name_end(matches.get_flag("null"))),
        }),
    }
}

// The byte that ends a name in a list.
fn name_end(is_null: bool) -> u8
    ensures { result ≡ name_end is_null }
{
    if is_null { 0 } else { b'\n' }
}

// What is asked of each file.
fn match_options<'a>(matches: &ArgMatches<'a>) -> MatchOptions<'a>
    ensures { NamesEach result (rows_of (found_of matches.now)) }
{
    MatchOptions {
        all: matches.get_flag("all"),
        csv: matches.get_flag("csv"),
        names: matches.get_str("FORMATS"),
        recursive: matches.get_flag("recursive"),
        progress: matches.get_flag("progress"),
        summary: matches.get_flag("summary"),
    }
}

// The list that this word names: a hyphen stands for standard input.
fn list_names<'m, 'a>(word: &'a str, end: u8) -> FileNames<'m, 'a>
    ensures { result ≡ list_names word.entry end }
{
    if word == "-" {
        FileNames::Input(end)
    } else {
        FileNames::List(word, end)
    }
}

fn find_request<'m, 'a>(matches: &'m ArgMatches<'a>) -> Option<Request<'m, 'a>>
    ensures asked { IfSome result (λ request. Asks (asking (codes "find") matches.now) request) }
    ensures none { result ≡ None → (request : Request) → ¬ Asks (asking (codes "find") matches.now) request }
{
    Some(Request::Find {
        ask: FindAsk {
            budget: matches.get_one::<u32>("N")?,
            out: matches.get_str("OUT")?,
            hex: matches.get_flag("hex"),
            progress: matches.get_flag("progress"),
        },
        table: table_paths(matches)?,
    })
}

fn conflicts_request<'m, 'a>(matches: &'m ArgMatches<'a>) -> Option<Request<'m, 'a>>
    ensures asked { IfSome result (λ request. Asks (asking (codes "conflicts") matches.now) request) }
    ensures none { result ≡ None → (request : Request) → ¬ Asks (asking (codes "conflicts") matches.now) request }
{
    Some(Request::Conflicts {
        options: conflicts_options(matches)?,
        progress: matches.get_flag("progress"),
        table: table_paths(matches)?,
    })
}

fn conflicts_options<'a>(matches: &ArgMatches<'a>) -> Option<ConflictsOptions<'a>>
    ensures named { IfSome result (λ options. NamesOptions options (rows_of (found_of matches.now))) }
    ensures none { result ≡ None → (options : ConflictsOptions) → ¬ NamesOptions options (rows_of (found_of matches.now)) }
{
    Some(ConflictsOptions {
        budget: matches.get_one::<u32>("N")?,
        only: matches.get_str("PUID"),
        class: matches.get_flag("class"),
        summary: matches.get_flag("summary"),
        hex: matches.get_flag("hex"),
        files: matches.get_str("DIR"),
        priorities: matches.get_str("FILE"),
    })
}

fn dead_request<'m, 'a>(matches: &'m ArgMatches<'a>) -> Option<Request<'m, 'a>>
    ensures asked { IfSome result (λ request. Asks (asking (codes "dead") matches.now) request) }
    ensures none { result ≡ None → (request : Request) → ¬ Asks (asking (codes "dead") matches.now) request }
{
    Some(Request::Dead {
        ask: DeadAsk {
            budget: matches.get_one::<u32>("N")?,
            hex: matches.get_flag("hex"),
            progress: matches.get_flag("progress"),
        },
        table: table_paths(matches)?,
    })
}

fn check_request<'m, 'a>(matches: &'m ArgMatches<'a>) -> Option<Request<'m, 'a>>
    ensures asked { IfSome result (λ request. Asks (asking (codes "check") matches.now) request) }
    ensures none { result ≡ None → (request : Request) → ¬ Asks (asking (codes "check") matches.now) request }
{
    Some(Request::Check {
        table: table_paths(matches)?,
        certificate: matches.get_str("CERT")?,
    })
}

fn witness_request<'m, 'a>(matches: &'m ArgMatches<'a>) -> Option<Request<'m, 'a>>
    ensures asked { IfSome result (λ request. Asks (asking (codes "witness") matches.now) request) }
    ensures none { result ≡ None → (request : Request) → ¬ Asks (asking (codes "witness") matches.now) request }
{
    Some(Request::Witness {
        table: table_paths(matches)?,
        file: matches.get_str("FILE")?,
    })
}

fn table_paths<'a>(matches: &ArgMatches<'a>) -> Option<TablePaths<'a>>
    ensures named { IfSome result (λ paths. NamesTable paths (rows_of (found_of matches.now))) }
    ensures none { result ≡ None → (paths : TablePaths) → ¬ NamesTable paths (rows_of (found_of matches.now)) }
{
    Some(TablePaths {
        signatures: matches.get_str("SIGS")?,
        priorities: matches.get_str("PRIOS"),
    })
}
