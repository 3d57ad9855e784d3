//! Many files, out of a store in memory and out of one with a file whose reads fail.

use crate::tests::table_of;
use fixtures::{Broken, Failing, Memory, NO_FOLDER, Named, Pieces, Room, Rows};
use sig_bits::{FromRead, FromWrite, Input};
use sig_core::DroidCore;
use sig_engines::{
    FormatNames, MatchAsk, MatchRun, NameReader, NamesError, RunError, Store, run_match_listed,
    run_match_many,
};
use sig_match::{StreamCore, WholeCore};
use std::test::Fail;

// A format whose files begin with `A`, below one whose files begin with `AB`.
const BELOW: Rows = Rows("fmt/1,1,BOF,0,,41\nfmt/2,2,BOF,0,,4142\n", "fmt/2,fmt/1\n");

const GOOD: Named = Named {
    name: "good",
    bytes: b"AB",
};

const ODD: Named = Named {
    name: "o\td\n",
    bytes: b"B",
};

const BAD: Named = Named {
    name: "bad",
    bytes: b"AB",
};

// What is asked where the formats have no names.
#[derive(Clone, Copy)]
struct Nameless {
    all: bool,
    csv: bool,
}

impl Nameless {
    fn ask<'n>(self) -> MatchAsk<'n> {
        MatchAsk {
            all: self.all,
            csv: self.csv,
            names: None,
            recursive: false,
            progress: false,
            summary: false,
        }
    }
}

// What is left of each file, what each file hits, and both as records.
const LEFT: Nameless = Nameless {
    all: false,
    csv: false,
};

const HIT: Nameless = Nameless {
    all: true,
    csv: false,
};

const LEFT_RECORDS: Nameless = Nameless {
    all: false,
    csv: true,
};

const HIT_RECORDS: Nameless = Nameless {
    all: true,
    csv: true,
};

const FAILING: &Failing = &Failing {
    first: GOOD,
    second: ODD,
    third: BAD,
};

// The names of files, what is asked of them, whether no file has a fault, what is written, and the
// lines of the faults.
#[derive(Clone, Copy)]
struct Printed(
    &'static [&'static str],
    Nameless,
    bool,
    &'static str,
    &'static str,
);

const PRINTED: &[Printed] = &[
    Printed(&["good"], LEFT, true, "good\tfmt/2 2\n", ""),
    Printed(&["good"], HIT, true, "good\tfmt/1 1\ngood\tfmt/2 2\n", ""),
    Printed(
        &["o\td\n", "good", "good"],
        LEFT,
        true,
        "o\td\n\t-\ngood\tfmt/2 2\ngood\tfmt/2 2\n",
        "",
    ),
    Printed(
        &["none", "o\td\n", "", "good"],
        HIT,
        false,
        "o\td\n\t-\ngood\tfmt/1 1\ngood\tfmt/2 2\n",
        "cannot open none\ncannot open \n",
    ),
    Printed(&[], LEFT, true, "", ""),
    Printed(
        &["good", "none", "o\td\n"],
        HIT_RECORDS,
        false,
        "file,puid,signature,name\ngood,fmt/1,1,\ngood,fmt/2,2,\n\"o\td\n\",,,\n",
        "cannot open none\n",
    ),
    Printed(
        &["good"],
        LEFT_RECORDS,
        true,
        "file,puid,signature,name\ngood,fmt/2,2,\n",
        "",
    ),
    Printed(&[], LEFT_RECORDS, true, "file,puid,signature,name\n", ""),
];

// Whether this is answered for files, and these are the lines and the faults that are written.
fn is_run<S: Store, K: DroidCore>(rt: &HostRuntime, store: &S, core: &K, row: &Printed) -> bool {
    let Printed(names, asked, is_whole, lines, faults) = *row;
    let mut out = FromWrite::new(Vec::new(rt.alloc()));
    let mut err = FromWrite::new(Vec::new(rt.alloc()));
    let answer = run_match_many(
        &MatchRun {
            alloc: rt.alloc(),
            store,
            core,
            ask: asked.ask(),
        },
        names,
        &mut out,
        &mut err,
    );
    let (out, err) = (out.into_inner(), err.into_inner());
    answer == Ok(is_whole)
        && out.as_slice() == lines.as_bytes()
        && err.as_slice() == faults.as_bytes()
}

// Whether it is so of the files in memory.
fn is_printed<K: DroidCore>(rt: &HostRuntime, core: &K, row: &Printed) -> bool {
    let store = Memory {
        alloc: rt.alloc(),
        first: GOOD,
        second: ODD,
        third: BAD,
        upper: NO_FOLDER,
        lower: NO_FOLDER,
    };
    is_run(rt, &store, core, row)
}

// The core of that table.
fn core_below(rt: &HostRuntime) -> Result<WholeCore, Fail> {
    Ok(WholeCore::new(rt.alloc(), table_of(rt, BELOW.0, BELOW.1)?))
}

#[test]
fn each_line_begins_with_the_name_of_its_file(rt: HostRuntime) -> Result<(), Fail> {
    let core = core_below(&rt)?;
    for row in PRINTED {
        assert!(rt; is_printed(&rt, &core, row), "{}", row.3);
    }
    Ok(())
}

#[test]
fn a_core_that_streams_prints_the_same(rt: HostRuntime) -> Result<(), Fail> {
    let core = StreamCore::new(rt.alloc(), table_of(&rt, BELOW.0, BELOW.1)?);
    for row in PRINTED {
        assert!(rt; is_printed(&rt, &core, row), "{}", row.3);
    }
    Ok(())
}

// What is printed where the reads of the second file fail.
const GOING_ON: &Printed = &Printed(
    &["good", "bad", "good"],
    LEFT,
    false,
    "good\tfmt/2 2\ngood\tfmt/2 2\n",
    "bad: read failed\n",
);

#[test]
fn the_files_behind_one_that_is_not_read_go_on(rt: HostRuntime) -> Result<(), Fail> {
    let core = core_below(&rt)?;
    assert!(rt; is_run(&rt, FAILING, &core, GOING_ON));
    Ok(())
}

const NAMES: &[&str] = &["bad", "good", "none"];

// Whether a failed write ends the run, with these faults told before it.
fn ends_at_a_write(rt: &HostRuntime, core: &WholeCore, faults: &[u8]) -> bool {
    let mut out = Room::of(0);
    let mut err = FromWrite::new(Vec::new(rt.alloc()));
    let answer = run_match_many(
        &MatchRun {
            alloc: rt.alloc(),
            store: FAILING,
            core,
            ask: LEFT.ask(),
        },
        NAMES,
        &mut out,
        &mut err,
    );
    let told = err.into_inner();
    answer == Err(RunError::Write) && told.as_slice() == faults
}

#[test]
fn a_failed_write_ends_the_run(rt: HostRuntime) -> Result<(), Fail> {
    let core = core_below(&rt)?;
    assert!(rt; ends_at_a_write(&rt, &core, b"bad: read failed\n"));
    Ok(())
}

// Whether a fault that is not told ends nothing, and these lines are written.
fn goes_on_untold(rt: &HostRuntime, core: &WholeCore, lines: &[u8]) -> bool {
    let mut out = FromWrite::new(Vec::new(rt.alloc()));
    let mut err = Broken::new();
    let answer = run_match_many(
        &MatchRun {
            alloc: rt.alloc(),
            store: FAILING,
            core,
            ask: LEFT.ask(),
        },
        NAMES,
        &mut out,
        &mut err,
    );
    let written = out.into_inner();
    answer == Ok(false) && written.as_slice() == lines
}

#[test]
fn a_fault_that_is_not_told_ends_nothing(rt: HostRuntime) -> Result<(), Fail> {
    let core = core_below(&rt)?;
    assert!(rt; goes_on_untold(&rt, &core, b"good\tfmt/2 2\n"));
    Ok(())
}

#[test]
fn a_name_with_commas_and_quotes_is_one_field(rt: HostRuntime) -> Result<(), Fail> {
    let core = core_below(&rt)?;
    let store = Memory {
        alloc: rt.alloc(),
        first: Named {
            name: "a,\"b\".bin",
            bytes: b"A",
        },
        second: ODD,
        third: BAD,
        upper: NO_FOLDER,
        lower: NO_FOLDER,
    };
    let row = Printed(
        &["a,\"b\".bin"],
        LEFT_RECORDS,
        true,
        "file,puid,signature,name\n\"a,\"\"b\"\".bin\",fmt/1,1,\n",
        "",
    );
    assert!(rt; is_run(&rt, &store, &core, &row));
    Ok(())
}

// A list of names, what ends a name, what is asked, what is answered, what is written, and the
// lines of the faults.
#[derive(Clone, Copy)]
struct Listed(
    &'static [u8],
    u8,
    Nameless,
    Result<bool, RunError>,
    &'static str,
    &'static [u8],
);

const LISTED: &[Listed] = &[
    Listed(b"", b'\n', LEFT, Ok(true), "", b""),
    Listed(b"good\n", b'\n', LEFT, Ok(true), "good\tfmt/2 2\n", b""),
    Listed(
        b"good\nbad",
        b'\n',
        HIT,
        Ok(true),
        "good\tfmt/1 1\ngood\tfmt/2 2\nbad\tfmt/1 1\nbad\tfmt/2 2\n",
        b"",
    ),
    Listed(
        b"good\0o\td\n\0",
        0,
        LEFT,
        Ok(true),
        "good\tfmt/2 2\no\td\n\t-\n",
        b"",
    ),
    Listed(
        b"good\n\n\xff\xfe\nnone\r\nbad\n",
        b'\n',
        LEFT,
        Ok(false),
        "good\tfmt/2 2\nbad\tfmt/2 2\n",
        b"cannot open \ncannot open \xff\xfe\ncannot open none\r\n",
    ),
    Listed(
        b"\0\0",
        0,
        LEFT_RECORDS,
        Ok(false),
        "file,puid,signature,name\n",
        b"cannot open \ncannot open \n",
    ),
];

// Whether this is answered for the names in a list, and these are the lines and the faults.
fn is_listed<I: Input + Drop>(
    rt: &HostRuntime,
    core: &WholeCore,
    input: I,
    row: &Listed,
) -> Result<bool, Fail> {
    let Listed(_, end, asked, answers, lines, faults) = *row;
    let store = Memory {
        alloc: rt.alloc(),
        first: GOOD,
        second: ODD,
        third: BAD,
        upper: NO_FOLDER,
        lower: NO_FOLDER,
    };
    let mut list = NameReader::new(rt.alloc(), input, end)?;
    let mut out = FromWrite::new(Vec::new(rt.alloc()));
    let mut err = FromWrite::new(Vec::new(rt.alloc()));
    let answer = run_match_listed(
        &MatchRun {
            alloc: rt.alloc(),
            store: &store,
            core,
            ask: asked.ask(),
        },
        &mut list,
        &mut out,
        &mut err,
    );
    let (out, err) = (out.into_inner(), err.into_inner());
    Ok(answer == answers && out.as_slice() == lines.as_bytes() && err.as_slice() == faults)
}

#[test]
fn the_names_of_files_stand_in_a_list(rt: HostRuntime) -> Result<(), Fail> {
    let core = core_below(&rt)?;
    for row in LISTED {
        assert!(rt;
            is_listed(&rt, &core, FromRead::new(row.0), row)?,
            "{}",
            row.4
        );
        assert!(rt; is_listed(&rt, &core, Pieces::of(row.0), row)?, "{}", row.4);
    }
    Ok(())
}

// A list that fails where its second name ends.
const LIST_FAILS: &Listed = &Listed(
    b"good\nbad",
    b'\n',
    LEFT,
    Err(RunError::Read),
    "good\tfmt/2 2\n",
    b"",
);

#[test]
fn a_list_that_is_not_read_ends_the_run(rt: HostRuntime) -> Result<(), Fail> {
    let core = core_below(&rt)?;
    assert!(rt; is_listed(&rt, &core, Pieces::failing(LIST_FAILS.0), LIST_FAILS)?);
    Ok(())
}

// So many names of five bytes: some end within a read of the list, and some do not.
const MANY: usize = 10_000;

#[test]
fn a_list_may_be_longer_than_a_read(rt: HostRuntime) -> Result<(), Fail> {
    let mut names = Vec::new(rt.alloc());
    for _ in 0..MANY {
        names.extend_from_slice(b"good\n")?;
    }
    let core = core_below(&rt)?;
    let mut list = NameReader::new(rt.alloc(), FromRead::new(names.as_slice()), b'\n')?;
    let mut out = FromWrite::new(Vec::new(rt.alloc()));
    let mut err = FromWrite::new(Vec::new(rt.alloc()));
    let answer = run_match_listed(
        &MatchRun {
            alloc: rt.alloc(),
            store: FAILING,
            core: &core,
            ask: LEFT.ask(),
        },
        &mut list,
        &mut out,
        &mut err,
    );
    assert!(rt; answer == Ok(true));
    assert!(rt; out.into_inner().len() == MANY * b"good\tfmt/2 2\n".len());
    assert!(rt; err.into_inner().is_empty());
    Ok(())
}

// The names of formats, one of which no table has.
const NAMED: &[u8] = b"puid,name\r\nfmt/2,\"Two, with \"\"quotes\"\"\"\r\nfmt/9,Nine\r\n";

// Whether this is written with those names of formats.
fn is_named(rt: &HostRuntime, csv: bool, names: &[&str], text: &str) -> Result<bool, Fail> {
    let core = core_below(rt)?;
    let formats = FormatNames::load(rt.alloc(), &mut FromRead::new(NAMED));
    let ask = MatchAsk {
        all: true,
        csv,
        recursive: false,
        progress: false,
        summary: false,
        names: formats.as_ref().ok(),
    };
    let mut out = FromWrite::new(Vec::new(rt.alloc()));
    let mut err = FromWrite::new(Vec::new(rt.alloc()));
    let answer = run_match_many(
        &MatchRun {
            alloc: rt.alloc(),
            store: FAILING,
            core: &core,
            ask,
        },
        names,
        &mut out,
        &mut err,
    );
    let written = out.into_inner();
    Ok(answer == Ok(true) && written.as_slice() == text.as_bytes())
}

#[test]
fn the_names_of_formats_stand_behind_their_lines(rt: HostRuntime) -> Result<(), Fail> {
    assert!(rt;
        is_named(
            &rt,
            false,
            &["good", "o\td\n"],
            "good\tfmt/1 1\t\ngood\tfmt/2 2\tTwo, with \"quotes\"\no\td\n\t-\n",
        )?
    );
    assert!(rt;
        is_named(
            &rt,
            true,
            &["good", "o\td\n"],
            "file,puid,signature,name\ngood,fmt/1,1,\ngood,fmt/2,2,\"Two, with \"\"quotes\"\"\"\n\"o\td\n\",,,\n",
        )?
    );
    Ok(())
}

// A file of names that is refused, and why.
const REFUSED: &[(&[u8], NamesError)] = &[
    (b"", NamesError::Header),
    (b"fmt/1,One\n", NamesError::Header),
    (b"puid,name,more\n", NamesError::Header),
    (b"puid\n", NamesError::Header),
    (b"puid,name\nfmt/1\n", NamesError::Fields { row: 1 }),
    (
        b"puid,name\nfmt/1,One\nfmt/2,Two,2\n",
        NamesError::Fields { row: 2 },
    ),
    (b"puid,name\nfmt/01,One\n", NamesError::Puid { row: 1 }),
    (b"puid,name\n,One\n", NamesError::Puid { row: 1 }),
    (
        b"puid,name\nfmt/1,One\nx-fmt/1,\nfmt/1,One\n",
        NamesError::Twice { row: 3 },
    ),
];

#[test]
fn refuses_names_of_formats_by_their_rows(rt: HostRuntime) -> Result<(), Fail> {
    for (text, fault) in REFUSED {
        let names = FormatNames::load(rt.alloc(), &mut FromRead::new(*text));
        assert!(rt; names.err() == Some(*fault), "{fault:?}");
    }
    let names = FormatNames::load(rt.alloc(), &mut Pieces::failing(NAMED));
    assert!(rt; names.err() == Some(NamesError::Read));
    Ok(())
}
