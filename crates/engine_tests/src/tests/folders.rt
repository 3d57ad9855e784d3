//! Folders in the place of files: with `--recursive` each file in them, and else a fault.

ghost use Rattle.std.specs.Prelude.{None};

use crate::tests::table_of;
use fixtures::{Failing, Folder, Listed, Memory, Named, Room, Rows};
use sig_bits::FromWrite;
use sig_engines::{
    Entry, EntryKind, FileFault, MatchAsk, MatchRun, RunError, Store, run_match_many,
};
use sig_match::WholeCore;
use std::alloc::Global;
use std::test::Fail;

const ONE: Rows = Rows("fmt/1,1,BOF,0,,41\n", "");

const FIRST: Named = Named {
    name: "up/a",
    bytes: b"A",
};

const SECOND: Named = Named {
    name: "up/low/b",
    bytes: b"AB",
};

const THIRD: Named = Named {
    name: "c",
    bytes: b"B",
};

// A file, one folder in another, something with a name that is no text, a pipe, and a file that is
// gone.
const UPPER: Folder = Folder {
    name: "up",
    entries: &[
        Listed {
            name: "up",
            kind: EntryKind::NotText,
        },
        Listed {
            name: "up/a",
            kind: EntryKind::File,
        },
        Listed {
            name: "up/gone",
            kind: EntryKind::File,
        },
        Listed {
            name: "up/low",
            kind: EntryKind::Folder,
        },
        Listed {
            name: "up/pipe",
            kind: EntryKind::NotRegular,
        },
    ],
};

// A file, and a folder that can't be listed.
const LOWER: Folder = Folder {
    name: "up/low",
    entries: &[
        Listed {
            name: "up/low/b",
            kind: EntryKind::File,
        },
        Listed {
            name: "up/low/shut",
            kind: EntryKind::Folder,
        },
    ],
};

// What is asked of each file: its line.
fn asked<'n>(recursive: bool) -> MatchAsk<'n> {
    MatchAsk {
        all: false,
        csv: false,
        names: None,
        recursive,
        progress: false,
        summary: false,
    }
}

// The names, whether folders are gone through, whether nothing has a fault, the lines, and those of
// the faults.
#[derive(Clone, Copy)]
struct Gone(
    &'static [&'static str],
    bool,
    bool,
    &'static str,
    &'static str,
);

const GONE: &[Gone] = &[
    Gone(
        &["up"],
        true,
        false,
        "up/a\tfmt/1 1\nup/low/b\tfmt/1 1\n",
        "up: a name that is no UTF-8\ncannot open up/gone\ncannot open up/low/shut\nup/pipe: is not a regular file\n",
    ),
    Gone(
        &["c", "up/low", "c"],
        true,
        false,
        "c\t-\nup/low/b\tfmt/1 1\nc\t-\n",
        "cannot open up/low/shut\n",
    ),
    Gone(&["c", "up/a"], true, true, "c\t-\nup/a\tfmt/1 1\n", ""),
    Gone(
        &["up", "c", "up/low"],
        false,
        false,
        "c\t-\n",
        "up: is a folder\nup/low: is a folder\n",
    ),
];

fn memory(rt: &HostRuntime) -> Memory {
    Memory {
        alloc: rt.alloc(),
        first: FIRST,
        second: SECOND,
        third: THIRD,
        upper: UPPER,
        lower: LOWER,
    }
}

// Whether this is answered for the files of the store, and just this is written.
fn is_gone<S: Store>(rt: &HostRuntime, store: &S, row: &Gone) -> Result<bool, Fail> {
    let Gone(names, recursive, is_whole, lines, faults) = *row;
    let core = WholeCore::new(rt.alloc(), table_of(rt, ONE.0, ONE.1)?);
    let ask = asked(recursive);
    let mut out = FromWrite::new(Vec::new(rt.alloc()));
    let mut err = FromWrite::new(Vec::new(rt.alloc()));
    let answer = run_match_many(
        &MatchRun {
            alloc: rt.alloc(),
            store,
            core: &core,
            ask,
        },
        names,
        &mut out,
        &mut err,
    );
    let (out, err) = (out.into_inner(), err.into_inner());
    Ok(
        answer == Ok(is_whole)
            && out.as_slice() == lines.as_bytes()
            && err.as_slice() == faults.as_bytes(),
    )
}

#[test]
fn each_file_in_a_folder_has_its_turn(rt: HostRuntime) -> Result<(), Fail> {
    for row in GONE {
        assert!(rt; is_gone(&rt, &memory(&rt), row)?, "{:?}", row.0);
    }
    Ok(())
}

// A read of the folder fails.
#[test]
fn a_folder_that_is_not_read_has_a_line(rt: HostRuntime) -> Result<(), Fail> {
    let store = Failing {
        first: FIRST,
        second: SECOND,
        third: THIRD,
    };
    let row = Gone(
        &["unread", "up/a"],
        true,
        false,
        "up/a\tfmt/1 1\n",
        "unread: read failed\n",
    );
    assert!(rt; is_gone(&rt, &store, &row)?);
    Ok(())
}

// A write fails at the second of the folder's files, behind the fault of the first thing in it.
#[test]
fn a_failed_write_ends_the_run_in_a_folder(rt: HostRuntime) -> Result<(), Fail> {
    let core = WholeCore::new(rt.alloc(), table_of(&rt, ONE.0, ONE.1)?);
    let store = memory(&rt);
    let mut out = Room::of(15);
    let mut err = FromWrite::new(Vec::new(rt.alloc()));
    let answer = run_match_many(
        &MatchRun {
            alloc: rt.alloc(),
            store: &store,
            core: &core,
            ask: asked(true),
        },
        &["up", "c"],
        &mut out,
        &mut err,
    );
    assert!(rt; answer == Err(RunError::Write));
    assert!(rt; out.left() == 2);
    assert!(rt;
        err.into_inner().as_slice()
            == b"up: a name that is no UTF-8\ncannot open up/gone\n".as_slice()
    );
    Ok(())
}

// A store in which each folder has one in it, without end.
struct Endless;

impl Store for Endless {
    type Reader = fixtures::Pieces<'static>;

    type Writer = fixtures::Broken;

    ghost held = { λ _. None };

    ghost name_of = { λ _. None };

    fn open(&self, _name: &str) -> Option<fixtures::Pieces<'static>> {
        None
    }

    fn create(&self, _name: &str) -> Option<fixtures::Broken> {
        None
    }

    fn standard_input(&self) -> fixtures::Pieces<'static> {
        fixtures::Pieces::of(b"")
    }

    fn is_folder(&self, _name: &str) -> bool {
        true
    }

    fn list(&self, alloc: Global, _folder: &str) -> Result<Vec<Entry>, FileFault> {
        let mut entries = Vec::new(alloc);
        let Ok(name) = String::from_str(alloc, "in") else {
            return Err(FileFault::Run(RunError::OutOfMemory));
        };
        let entry = Entry {
            name,
            kind: EntryKind::Folder,
        };
        match entries.push(entry) {
            Ok(()) => Ok(entries),
            Err(_) => Err(FileFault::Run(RunError::OutOfMemory)),
        }
    }

    fn make_folder(&self, _name: &str) -> bool {
        false
    }
}

// The run ends, and takes no stack for it.
#[test]
fn folders_without_end_are_not_gone_through(rt: HostRuntime) -> Result<(), Fail> {
    let row = Gone(&["top"], true, false, "", "in: below too many folders\n");
    assert!(rt; is_gone(&rt, &Endless, &row)?);
    Ok(())
}
