//! What the error output tells of many files: how many are done, their faults, and the last line.

use crate::tests::table_of;
use fixtures::{Failing, Memory, NO_FOLDER, Named, Room, Rows};
use sig_bits::{FromRead, FromWrite, Output};
use sig_engines::{
    MatchAsk, MatchRun, NameReader, RunError, Store, run_match_listed, run_match_many,
};
use sig_match::WholeCore;
use std::test::Fail;

// A format whose files begin with `A`, below one whose files begin with `AB`.
const BELOW: Rows = Rows("fmt/1,1,BOF,0,,41\nfmt/2,2,BOF,0,,4142\n", "fmt/2,fmt/1\n");

const TWO: Named = Named {
    name: "two",
    bytes: b"ABCD",
};

const ODD: Named = Named {
    name: "odd",
    bytes: b"B",
};

const EMPTY: Named = Named {
    name: "empty",
    bytes: b"",
};

// What is asked, before priorities or behind them.
#[derive(Clone, Copy)]
struct Asked {
    all: bool,
    progress: bool,
    summary: bool,
}

impl Asked {
    fn ask<'n>(self) -> MatchAsk<'n> {
        MatchAsk {
            all: self.all,
            csv: false,
            names: None,
            recursive: false,
            progress: self.progress,
            summary: self.summary,
        }
    }
}

const COUNTED: Asked = Asked {
    all: false,
    progress: false,
    summary: true,
};

const ALL_COUNTED: Asked = Asked {
    all: true,
    progress: false,
    summary: true,
};

const REPORTED: Asked = Asked {
    all: false,
    progress: true,
    summary: false,
};

const BOTH: Asked = Asked {
    all: false,
    progress: true,
    summary: true,
};

// The names of files, what is asked of them, whether no file has a fault, and what is told.
#[derive(Clone, Copy)]
struct Row(&'static [&'static str], Asked, bool, &'static str);

const ROWS: &[Row] = &[
    Row(
        &[],
        COUNTED,
        true,
        "files 0 identified 0 several 0 none 0 failed 0 bytes 0\n",
    ),
    Row(
        &["two", "odd", "two", "empty"],
        COUNTED,
        true,
        "files 4 identified 2 several 0 none 2 failed 0 bytes 9\n",
    ),
    Row(
        &["two", "none", "odd", ""],
        ALL_COUNTED,
        false,
        "cannot open none\ncannot open \nfiles 4 identified 0 several 1 none 1 failed 2 bytes 5\n",
    ),
    Row(&[], REPORTED, true, "\r0 files\n"),
    Row(
        &["two", "odd"],
        REPORTED,
        true,
        "\r0 files\r1 files\r2 files\n",
    ),
    Row(
        &["none", "two", "none"],
        BOTH,
        false,
        "\r0 files\ncannot open none\n\r1 files\r2 files\ncannot open none\n\r3 files\n\
        files 3 identified 1 several 0 none 0 failed 2 bytes 4\n",
    ),
];

fn core_below(rt: &HostRuntime) -> Result<WholeCore, Fail> {
    Ok(WholeCore::new(rt.alloc(), table_of(rt, BELOW.0, BELOW.1)?))
}

fn memory(rt: &HostRuntime) -> Memory {
    Memory {
        alloc: rt.alloc(),
        first: TWO,
        second: ODD,
        third: EMPTY,
        upper: NO_FOLDER,
        lower: NO_FOLDER,
    }
}

// What is answered for these files over this output, with what is told of them.
fn told<S: Store, W: Output>(
    rt: &HostRuntime,
    store: &S,
    names: &[&str],
    asked: Asked,
    out: &mut W,
) -> Result<(Result<bool, RunError>, Vec<u8>), Fail> {
    let core = core_below(rt)?;
    let run = MatchRun {
        alloc: rt.alloc(),
        store,
        core: &core,
        ask: asked.ask(),
    };
    let mut err = FromWrite::new(Vec::new(rt.alloc()));
    let answer = run_match_many(&run, names, out, &mut err);
    Ok((answer, err.into_inner()))
}

#[test]
fn the_last_line_counts_the_files_and_reports_go_before_it(rt: HostRuntime) -> Result<(), Fail> {
    for row in ROWS {
        let Row(names, asked, is_whole, line) = *row;
        let mut out = FromWrite::new(Vec::new(rt.alloc()));
        let (answer, told) = told(&rt, &memory(&rt), names, asked, &mut out)?;
        assert!(rt; answer == Ok(is_whole), "{line}");
        assert!(rt; told.as_slice() == line.as_bytes(), "{line}");
    }
    Ok(())
}

#[test]
fn of_many_files_each_hundredth_is_reported(rt: HostRuntime) -> Result<(), Fail> {
    let mut names = Vec::new(rt.alloc());
    for _ in 0..205 {
        names.push("odd")?;
    }
    let mut out = FromWrite::new(Vec::new(rt.alloc()));
    let (answer, told) = told(&rt, &memory(&rt), &names, REPORTED, &mut out)?;
    assert!(rt; answer == Ok(true));
    assert!(rt; told.ends_with(b"\r98 files\r99 files\r100 files\r200 files\n"));
    Ok(())
}

const FAILING: &Failing = &Failing {
    first: TWO,
    second: ODD,
    third: Named {
        name: "bad",
        bytes: b"AB",
    },
};

#[test]
fn a_failed_write_ends_the_reports(rt: HostRuntime) -> Result<(), Fail> {
    let (answer, told) = told(&rt, FAILING, &["bad", "two", "odd"], BOTH, &mut Room::of(0))?;
    assert!(rt; answer == Err(RunError::Write));
    let expected: &[u8] = b"\r0 files\nbad: read failed\n\r1 files\r2 files\n";
    assert!(rt; told.as_slice() == expected);
    Ok(())
}

#[test]
fn names_in_a_list_are_counted_too(rt: HostRuntime) -> Result<(), Fail> {
    let core = core_below(&rt)?;
    let store = memory(&rt);
    let run = MatchRun {
        alloc: rt.alloc(),
        store: &store,
        core: &core,
        ask: BOTH.ask(),
    };
    let list: &[u8] = b"two\n\xff\nempty";
    let mut list = NameReader::new(rt.alloc(), FromRead::new(list), b'\n')?;
    let mut out = FromWrite::new(Vec::new(rt.alloc()));
    let mut err = FromWrite::new(Vec::new(rt.alloc()));
    let answer = run_match_listed(&run, &mut list, &mut out, &mut err);
    let expected: &[u8] = b"\r0 files\r1 files\ncannot open \xff\n\r2 files\r3 files\n\
        files 3 identified 1 several 0 none 1 failed 1 bytes 4\n";
    assert!(rt; answer == Ok(false));
    assert!(rt; out.into_inner().as_slice() == b"two\tfmt/2 2\nempty\t-\n".as_slice());
    assert!(rt; err.into_inner().as_slice() == expected);
    Ok(())
}
