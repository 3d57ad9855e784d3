//! Help, the version, and words that are refused.

use crate::tests::{O, P, S, make_with, remove, run_in};
use fixtures::TWO;
use std::test::Fail;

// What the help of the program begins with.
const PROGRAM: &str =
    "Identify files by signatures, and check tables of signatures for ambiguity\n";

// Words that ask for a text, and how it begins.
const TEXTS: &[(&[&str], &str)] = &[
    (&["--help"], PROGRAM),
    (&["-h"], PROGRAM),
    (&["help"], PROGRAM),
    (
        &["show", "--help"],
        "Check a table and print it in canonical form\n",
    ),
    (
        &["lint", "--help"],
        "List all faults of a table, and how to mend them\n",
    ),
    (
        &["match", "--help"],
        "Print the formats that match each file, after priorities\n",
    ),
    (
        &["find", "--help"],
        "Certify that no file gets two formats, or find a file that does\n",
    ),
    (
        &["conflicts", "--help"],
        "List all pairs of formats that can both be reported for one file\n",
    ),
    (&["check", "--help"], "Check a certificate\n"),
    (
        &["witness", "--help"],
        "Tell whether two formats are reported for a file\n",
    ),
    (&["--version"], "pronom_sig 0.1.0\n"),
];

// What the help of `lint` says.
const OF_LINT: &[&str] = &[
    "those of the signatures first:\n  FILE line L row N: CODE: FIELD \"TEXT\" at PLACE: expected WHAT; CURE\n",
    "the first line is `no fault`. Then come warnings, which\nchange no status: of a signature",
    "\n\nStatuses:\n  0  no fault\n  2  usage error, or a fault of the two files\n",
];

// What the help of `match` says.
const OF_MATCH: &[&str] = &[
    "No line means that no format of the table\nmatches.",
    "the file is ambiguous.\n\nWith more than one FILE, or with --with-names, each line begins with",
    "other files are still identified.\n\nWith --files-from ",
    "also if there is only one FILE.\n\nStatuses:\n  0  ",
    "  2  usage error, or the table or FORMATS is refused\n",
    "Usage: pronom_sig match [OPTIONS] <SIGS> <PRIOS> [FILE]...\n",
    "stand in NAMES, one a line, or with\n-0 each ended by a NUL.",
    "file,puid,signature,name. A file that no format matches has one\nrecord, with its name alone.",
    "FORMATS is a CSV file with the header puid,name.\n",
    "Print the file's name also for one FILE\n",
    "Print records of CSV, with the files' names\n",
    "its last line counts them, and the bytes that were read:\n  files F identified I several S none N failed E bytes B\n",
    "Report on standard error how many files are done\n",
    "Count the files on standard error at the end\n",
];

// What the help of `find` says.
const OF_FIND: &[&str] = &[
    "Run `conflicts` and `dead` first, and `find` last: they show all that is to be\nmended",
    "which `check` accepts\n  witness A B  the formats A and B are both reported for the file OUT",
    "unless the search gave up.\n\n`decided` does not mean that the formats are the right ones.",
    "Where the search gave up, the reason is on standard error:\n  more than N rows\n",
    "or a priority\n    between their formats.\n  over 64 signatures outrank S or T: see conflicts\n",
    "A priority between the formats\n    of S and T settles it; fewer",
    "may, too.\n\nStatuses:\n  0  ",
    "\n  1  the search gave up\n  2  usage error, or the table is refused\n",
    "  --budget <N>     States that one search may visit [default: 100000]\n",
    "Also print the bytes of OUT in hexadecimal\n",
];

// What the help of `conflicts` says.
const OF_CONFLICTS: &[&str] = &[
    "Pairs of which one format outranks\nthe other are left out.\n  ambiguous A B S T N  the formats",
    "match. No shorter file that these two match gets both\n",
    "formats. With `tried` behind N one may: the search\n",
    "  unknown A B S T      the search gave up on the signatures numbered S of A\n",
    "With --hex the bytes of the file are the last word of an `ambiguous` line.",
    "the pairs:\n  pairs P decided D ambiguous M unknown U\n\nWith --class a word behind N tells",
    "  over   A must be over B. Each file that is reported as A also matches B, so\n",
    "  under  B must be over A. Each file that is reported as B also matches A\n  same   both hold.",
    "  apart  neither holds. Some files are only A's, and others are only B's\n  open   one of",
    "With --only just the pairs of the format PUID are searched.\n",
    "A priority decides a pair even if it leaves a format with no file. So run\n`dead`, too.",
    "  2  usage error, the table is refused, or it lacks the format of --only\n",
    "  --budget <N>         States that one search may visit [default: 100000]\n",
    "  --only <PUID>        Print the pairs of this format alone\n",
    "  --class              Print the class of each pair, and count the classes\n",
    "  --summary            Print a line for each format in place of the pairs\n",
    "  --files <DIR>        Write each file to this folder\n",
    "  --priorities <FILE>  Write a priority file with the forced pairs\n",
    "  A N over .. under .. same .. apart .. open .. unknown ..\n",
    "  not written HIGHER LOWER: LOWER would be dead\n",
];

// What the help of `dead` says.
const OF_DEAD: &[&str] = &[
    "  dead A       A is reported for no file: A matches no file, or formats over A\n",
    "The last line is `formats F alive .. dead .. unknown ..` and then the same of\n`signatures S`.",
    "  --budget <N>     States that one search may visit [default: 100000]\n",
];

// What the help of `check` says.
const OF_CHECK: &[&str] = &[
    "Prints one line: `accepted`, or `refused` and the first fault of the\n",
];

// What the help of `witness` says.
const OF_WITNESS: &[&str] = &["or `not ambiguous` if at most one is. An ambiguous file\nshows"];

// What the help of `show` says.
const OF_SHOW: &[&str] = &[
    "first the header, then the\nrows in canonical form.",
    "load as the same table.\nWith --no-priorities the second part is its header alone.\n",
];

// The subcommands, and what their help says.
const HELPS: &[(&str, &[&str])] = &[
    ("show", OF_SHOW),
    ("lint", OF_LINT),
    ("match", OF_MATCH),
    ("find", OF_FIND),
    ("conflicts", OF_CONFLICTS),
    ("dead", OF_DEAD),
    ("check", OF_CHECK),
    ("witness", OF_WITNESS),
];

// Whether a subcommand's help says all of this, and if not, what it does not say.
fn first_unsaid(
    rt: &HostRuntime,
    name: &str,
    texts: &[&'static str],
) -> Result<Option<&'static str>, Fail> {
    let shown = run_in(rt, "", &[name, "--help"])?;
    for text in texts {
        if !shown.answer().contains(*text) {
            return Ok(Some(*text));
        }
    }
    Ok(None)
}

#[test]
fn shows_help_and_the_version(rt: HostRuntime) -> Result<(), Fail> {
    for (words, begin) in TEXTS {
        assert!(rt; run_in(&rt, "", words)?.begins(begin), "{words:?}");
    }
    Ok(())
}

#[test]
fn the_help_of_a_subcommand_says_what_it_prints(rt: HostRuntime) -> Result<(), Fail> {
    for (name, texts) in HELPS {
        let unsaid = first_unsaid(&rt, name, texts)?;
        assert!(rt; unsaid.is_none(), "{name}: {unsaid:?}");
    }
    Ok(())
}

// Whether no line of the text has more columns than these.
fn is_within(text: &str, columns: usize) -> bool {
    text.lines().all(|line| line.len() <= columns)
}

#[test]
fn a_line_of_help_has_at_most_78_columns(rt: HostRuntime) -> Result<(), Fail> {
    let shown = run_in(&rt, "", &["--help"])?;
    assert!(rt; is_within(shown.answer(), 78));
    for (name, _) in HELPS {
        let shown = run_in(&rt, "", &[*name, "--help"])?;
        assert!(rt; is_within(shown.answer(), 78), "{name}");
    }
    Ok(())
}

// Words that are refused, and how the text that says so begins.
const WRONG: &[(&[&str], &str)] = &[
    (&[], "error: 'pronom_sig' requires a subcommand"),
    (&["look"], "error: unrecognized subcommand 'look'"),
    (
        &["show", "a"],
        "error: the following required arguments were not provided:",
    ),
    (
        &["show", "a", "b", "c"],
        "error: unexpected argument 'c' found",
    ),
    (
        &["match", "a", "b"],
        "error: the following required arguments were not provided:",
    ),
    (
        &["check", "a", "b"],
        "error: the following required arguments were not provided:",
    ),
    (
        &["witness", "a", "b"],
        "error: the following required arguments were not provided:",
    ),
    (
        &["check", "a", "b", "c", "d"],
        "error: unexpected argument 'd' found",
    ),
    (
        &["match", "--files-from", "c", "a", "b", "d"],
        "error: the argument '--files-from <NAMES>' cannot be used with '[FILE]...'",
    ),
    (
        &["match", "--most", "a", "b", "c"],
        "error: unexpected argument '--most' found",
    ),
];

#[test]
fn refuses_wrong_words(rt: HostRuntime) -> Result<(), Fail> {
    for (words, begin) in WRONG {
        assert!(rt; run_in(&rt, "", words)?.refuses(begin), "{words:?}");
    }
    Ok(())
}

// The same of words for a search.
const WITHOUT_NAME: &[(&[&str], &str)] = &[
    (
        &["find", "a", "b"],
        "error: the following required arguments were not provided:\n  --out <OUT>\n",
    ),
    (
        &["find", "--budget", "100", "a", "b"],
        "error: the following required arguments were not provided:\n  --out <OUT>\n",
    ),
    (
        &["find", "--budget", "--out", "o", "a", "b"],
        "error: a value is required for '--budget <N>' but none was supplied\n",
    ),
    (
        &["dead", "--budget", "0", "a", "b"],
        "error: invalid value '0' for '--budget <N>': 0 is not in 1..=4294967295\n",
    ),
    (
        &["find", "--budget", "0", "--out", "o", "a", "b"],
        "error: invalid value '0' for '--budget <N>': 0 is not in 1..=4294967295\n",
    ),
    (
        &["find", "--budget", "4294967296", "--out", "o", "a", "b"],
        "error: invalid value '4294967296' for '--budget <N>': 4294967296 is not in 1..=4294967295\n",
    ),
    (
        &["find", "--budget", "many", "--out", "o", "a", "b"],
        "error: invalid value 'many' for '--budget <N>': invalid digit found in string\n",
    ),
    (
        &["find", "--budget", "100", "--out", "o", "a"],
        "error: the following required arguments were not provided:\n  <PRIOS>\n",
    ),
];

#[test]
fn wants_a_name_and_a_budget_that_is_a_number(rt: HostRuntime) -> Result<(), Fail> {
    for (words, begin) in WITHOUT_NAME {
        assert!(rt; run_in(&rt, "", words)?.refuses(begin), "{words:?}");
    }
    Ok(())
}

// Words with no budget, and what is answered of two formats that no file has both of.
const BY_DEFAULT: &[(&[&str], &str)] = &[
    (&["find", "--out", O, S, P], "decided\n"),
    (
        &["conflicts", S, P],
        "pairs 1 decided 1 ambiguous 0 unknown 0\n",
    ),
    (
        &["dead", S, P],
        "formats 2 alive 2 dead 0 unknown 0 signatures 2 alive 2 dead 0 unknown 0\n",
    ),
];

#[test]
fn a_budget_can_be_left_out(rt: HostRuntime) -> Result<(), Fail> {
    let folder = "by_default";
    make_with(&rt, folder, TWO)?;
    for (words, out) in BY_DEFAULT {
        assert!(rt; run_in(&rt, folder, words)?.is(0, out, ""), "{words:?}");
    }
    remove(&rt, folder)
}
