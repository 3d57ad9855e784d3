//! The worked rows, fed to a scan in pieces of any length.

use crate::tests::{PIECES, fronts_agree, hit, loaded, scanned_by, table_of};
use sig_core::Hit;
use sig_table::Table;
use std::alloc::{AllocError, Global};
use std::test::Fail;

// Sequences of signature 1 of `fmt/1`, a file, and whether it hits, worked out by hand.
pub(crate) const WORKED: &[(&str, &[u8], bool)] = &[
    ("BOF,0,,4142", b"AB", true),
    ("BOF,1,,41??", b"\x00A\xff\x00", true),
    ("BOF,1,,41??", b"\x00A", false),
    ("Variable,,,41*42", b"BA", false),
    ("Variable,,,41*42", b"\x00AB", true),
    ("Variable,,,4142", b"\x00AB\x00", true),
    ("BOF,0,,41{1-2}42", b"ABB", true),
    ("BOF,0,,41{1-2}42", b"AB", false),
    ("BOF,0,,41{0-1}42{1}43", b"ABB\x00C", true),
    ("EOF,0,2,4142", b"AB\x00\x00", true),
    ("EOF,0,2,4142", b"AB\x00\x00\x00", false),
    ("EOF,2,,41", b"A\x00\x00", true),
    ("EOF,2,,41", b"A\x00", false),
    ("Variable,,,*", b"", true),
    ("BOF,0,,(41|4142)43", b"ABC", true),
    ("BOF,0,,[!41]", b"", false),
    ("BOF,0,,[!41]", b"A", false),
    ("BOF,0,,[!41]", b"B", true),
    ("BOF,0,,41\nfmt/1,1,EOF,0,,41", b"A", true),
    ("BOF,0,,41\nfmt/1,1,EOF,0,,41", b"AB", false),
    ("BOF,1,3,41", b"\x00A", true),
    ("BOF,1,3,41", b"\x00\x00\x00A", true),
    ("BOF,1,3,41", b"A", false),
    ("BOF,1,3,41", b"\x00\x00\x00\x00A", false),
    ("EOF,0,,41*", b"\x00A\x00", true),
    ("EOF,0,,41*", b"\x00", false),
    ("BOF,0,,*41", b"\x00\x00A\x00", true),
    ("BOF,0,,*41", b"", false),
    ("BOF,0,,[4142:4241]", b"AB", true),
    ("BOF,0,,[4142:4241]", b"B\x00", true),
    ("BOF,0,,[4142:4241]", b"BA", true),
    ("BOF,0,,[4142:4241]", b"B\x00\xff", true),
    ("BOF,0,,[4142:4241]", b"AA", false),
    ("BOF,0,,[4142:4241]", b"BB", false),
    ("BOF,0,,[4142:4241]", b"A", false),
    ("BOF,0,,[!4142]", b"AC", true),
    ("BOF,0,,[!4142]", b"\x00\x00", true),
    ("BOF,0,,[!4142]", b"AB", false),
    ("BOF,0,,[!4142]", b"\x00", false),
    ("BOF,0,,[!0000:FFFE]", b"\xff\xff", true),
    ("BOF,0,,[!0000:FFFE]", b"\xff\xfe", false),
    ("BOF,0,,{65534}", b"", false),
    ("Variable,,,{65533}", b"", false),
    ("BOF,0,,4a{3-3}{0-*}(0d0a|[!0a])", b"Jxyz\r\n", true),
    ("BOF,0,,4a{3-3}{0-*}(0d0a|[!0a])", b"Jxyz\n\n", false),
    ("BOF,0,,4a{3-3}{0-*}(0d0a|[!0a])", b"Jxyz\n", false),
    // Words of several lengths, and several beginnings.
    ("BOF,0,,41{1-2}42", b"ABABB", true),
    ("BOF,1,1,41{1-2}42", b"ABABB", false),
    ("BOF,2,2,41{1-2}42", b"ABABB", true),
    ("BOF,0,2,41{2-5}42", b"ABB", false),
    ("EOF,0,,41{2-5}42", b"ABBBBBB", true),
    ("EOF,0,,41{2-4}42", b"ABBBBBB", false),
    ("BOF,0,3,(41|4142)43", b"ABBC", false),
    ("BOF,0,1,(41424344|43)*44", b"ABCD", false),
    ("BOF,0,1,(41424344|43)*44", b"ABCDxD", true),
    ("BOF,0,2,41??42", b"AxB", true),
    ("BOF,0,1,41??42", b"AB", false),
    ("BOF,3,27,42", b"AAAAAAAAAAAAAAAAAAAAAAAAAAAB", true),
    ("BOF,0,2,[30:39]", b":9:", true),
    ("BOF,0,1,[!30:39]", b"5:", true),
    // A word that begins behind the limit of a block can end earlier.
    ("Variable,,,(41424344|43)*44", b"ABCD", true),
    ("Variable,,,(41424344|43)*44", b"ABC", false),
    // Literals of four bytes and more are looked for at once, at each place of a block.
    ("Variable,,,41424344", b"ABCD", true),
    ("Variable,,,41424344", b"xABCDx", true),
    ("Variable,,,41424344", b"xxABCD", true),
    ("Variable,,,41424344", b"ABCxABDxBCD", false),
    (
        "Variable,,,41{2}41424344*44434241",
        b"xAxxABCDxxDCBAx",
        true,
    ),
    (
        "Variable,,,41{2}41424344*44434241",
        b"xAxABCDxxxDCBAx",
        false,
    ),
    ("Variable,,,41{2}41424344*44434241", b"DCBAxAxxABCD", false),
    ("Variable,,,4142434441424344", b"ABCDABCxABCDABCDx", true),
    (
        "Variable,,,4142434441424345*4142434441424344",
        b"ABCDABCDABCDABCEABCDABCD",
        true,
    ),
    (
        "Variable,,,41424344\nfmt/1,1,Variable,,,42434445",
        b"xxABCDE",
        true,
    ),
    (
        "Variable,,,41424344\nfmt/1,1,Variable,,,42434445",
        b"xxABCDD",
        false,
    ),
    // Words in either case, by the prefilter and alone.
    ("Variable,,,(41|61)(42|62)(43|63)(44|64)", b"xaBcDx", true),
    (
        "Variable,,,(41|61)(42|62)(43|63)(44|64)",
        b"xAbxdABcE",
        false,
    ),
    (
        "Variable,,,3C(41|61)(42|62)43(44|64)(45|65)",
        b"<ABCd<abCDe",
        true,
    ),
    ("Variable,,,(41|61)(42|62)*(43|63)", b"xbaBxC", true),
    ("Variable,,,(41|61)(42|62)*(43|63)", b"xbaxbC", false),
    ("Variable,,,(41|42|43)(44|64)", b"Cd", true),
    // What stood is not asked again, however far back it is.
    ("Variable,,,41*42*43", b"AxxxxxxxxBxxxxxxxxC", true),
    ("Variable,,,41*42*43", b"BxxxxxxxxAxxxxxxxxC", false),
    ("Variable,,,41{3-*}42", b"AxxxB", true),
    ("Variable,,,41{3-*}42", b"AxxB", false),
    ("Variable,,,41{3-*}", b"Axxx", true),
    ("Variable,,,41{3-*}", b"Axx", false),
    // The greatest offset of a first stage, in a later block.
    ("BOF,0,9,41*42", b"xxxxxxxxxAxxxB", true),
    ("BOF,0,8,41*42", b"xxxxxxxxxAxxxB", false),
    // A tail behind a stage, and one that reaches into it.
    ("EOF,0,4,41*4243", b"AxxxxxxxxBCxx", true),
    ("EOF,0,1,41*4243", b"AxxxxxxxxBCxx", false),
    ("EOF,0,,4142*4243", b"xABC", false),
    ("EOF,0,,4142*4243", b"xABBC", true),
];

// Signature rows, a file, and each format that it hits with its first signature, worked out by
// hand.
const WORKED_TABLES: &[(&str, &[u8], &[(u16, u16)])] = &[
    ("fmt/1,9,BOF,0,,41\nfmt/1,2,BOF,0,,41\n", b"A", &[(0, 0)]),
    (
        "fmt/1,1,BOF,0,,41\nx-fmt/20,2,BOF,0,,41\n",
        b"A",
        &[(0, 0), (1, 1)],
    ),
    ("", b"A", &[]),
    (
        "fmt/1,1,BOF,0,,41??\nfmt/2,2,BOF,0,,??42\nfmt/3,3,BOF,0,,4142\n",
        b"AB",
        &[(0, 0), (1, 1), (2, 2)],
    ),
    (
        "fmt/1,1,BOF,0,,41??\nfmt/2,2,BOF,0,,??42\nfmt/3,3,BOF,0,,4142\n",
        b"A\0",
        &[(0, 0)],
    ),
    (
        "fmt/1,1,BOF,0,,41??\nfmt/2,2,BOF,0,,??42\nfmt/3,3,BOF,0,,4142\n",
        b"",
        &[],
    ),
    (
        "fmt/1,1,BOF,0,,41\nfmt/2,2,BOF,0,,41\nfmt/3,3,BOF,0,,41\n",
        b"A",
        &[(0, 0), (1, 1), (2, 2)],
    ),
    (
        "fmt/1,1,BOF,0,,4142\nfmt/2,2,EOF,0,,42\n",
        b"AB",
        &[(0, 0), (1, 1)],
    ),
    (
        "fmt/1,1,BOF,0,,41\nfmt/2,2,BOF,0,,41\nfmt/3,3,BOF,0,,41\nfmt/3,3,BOF,1,,42\n",
        b"A",
        &[(0, 0), (1, 1)],
    ),
];

// Whether these are the hits.
fn are_hits(hits: &[Hit], wants: &[(u16, u16)]) -> bool {
    for (it, (format, signature)) in hits.iter().zip(wants) {
        if *it != hit(*format, *signature) {
            return false;
        }
    }
    hits.len() == wants.len()
}

// Whether the scan answers these hits of the file, whole and in pieces of several lengths.
fn answers(
    alloc: Global,
    table: &Table,
    file: &[u8],
    wants: &[(u16, u16)],
) -> Result<bool, AllocError> {
    for piece in PIECES {
        let results = scanned_by(alloc, table, file, *piece)?;
        if !are_hits(results.hits(), wants) {
            return Ok(false);
        }
    }
    Ok(true)
}

// Whether it does so of the sequences of one signature, and agrees with the search behind each
// front.
fn answers_one(
    alloc: Global,
    sequences: &str,
    file: &[u8],
    wants: &[(u16, u16)],
) -> Result<bool, Fail> {
    let table = table_of(alloc, sequences)?;
    Ok(answers(alloc, &table, file, wants)? && fronts_agree(alloc, &table, file)?)
}

#[test]
fn the_rows_of_one_signature_are_answered(rt: HostRuntime) -> Result<(), Fail> {
    for (sequences, file, is_hit) in WORKED {
        let wants: &[(u16, u16)] = if *is_hit { &[(0, 0)] } else { &[] };
        assert!(rt;
            answers_one(rt.alloc(), sequences, file, wants)?,
            "{sequences} {file:?}"
        );
    }
    Ok(())
}

// Whether it does so of the signatures of these rows.
fn answers_rows(
    alloc: Global,
    rows: &str,
    file: &[u8],
    wants: &[(u16, u16)],
) -> Result<bool, Fail> {
    let table = loaded(alloc, rows)?;
    Ok(answers(alloc, &table, file, wants)?)
}

#[test]
fn the_rows_of_several_formats_are_answered(rt: HostRuntime) -> Result<(), Fail> {
    for (rows, file, wants) in WORKED_TABLES {
        assert!(rt;
            answers_rows(rt.alloc(), rows, file, wants)?,
            "{rows} {file:?}"
        );
    }
    Ok(())
}
