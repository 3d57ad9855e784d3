//! What `conflicts` makes beside its lines: a priority file with the forced pairs, and a file for
//! each ambiguous pair. Tables and files are worked out by hand.

use crate::tests::{
    Fault, P, S, make, make_with, path_in, path_of, put, put_table, remove, run_in,
};
use fixtures::Rows;
use std::fs;
use std::test::Fail;

// The files of the first and of the third are together those of the second: each of them must be
// over it, and both together leave it no file.
const NOTHING_LEFT: Rows = Rows(
    "fmt/1,1,BOF,0,,41\nfmt/2,2,BOF,0,,??\nfmt/3,3,BOF,0,,[!41]\n",
    "",
);

// Each file of the second is one of the first, but the first is over the third, and that over the
// second.
const ROUND: Rows = Rows(
    "fmt/1,1,BOF,0,,41\nfmt/2,2,BOF,0,,4142\nfmt/3,3,BOF,0,,43\n",
    "fmt/1,fmt/3\nfmt/3,fmt/2\n",
);

// Each is one of those before it.
const NESTED: Rows = Rows(
    "fmt/1,1,BOF,0,,41\nfmt/2,2,BOF,0,,4142\nx-fmt/3,3,BOF,0,,414243\n",
    "",
);

// The first two only meet, and of the last two each file is a file of the other.
const NONE_FORCED: Rows = Rows(
    "fmt/1,1,BOF,0,,41\nfmt/2,2,EOF,0,,42\nfmt/3,3,BOF,0,,43\nfmt/4,4,BOF,0,,43\n",
    "fmt/3,fmt/1\n",
);

// A table, the rows of the priority file that is made, and the lines on the error output.
#[derive(Clone, Copy)]
struct Ranked(Rows, &'static str, &'static str);

const RANKED: &[Ranked] = &[
    Ranked(
        NOTHING_LEFT,
        "fmt/1,fmt/2\n",
        "not written fmt/3 fmt/2: fmt/2 would be dead\n",
    ),
    Ranked(
        ROUND,
        "fmt/1,fmt/3\nfmt/3,fmt/2\n",
        "not written fmt/2 fmt/1: cycle\n",
    ),
    Ranked(NESTED, "fmt/2,fmt/1\nx-fmt/3,fmt/1\nx-fmt/3,fmt/2\n", ""),
    Ranked(NONE_FORCED, "fmt/3,fmt/1\n", ""),
];

// What the file of this name in the folder holds.
fn bytes_of(rt: &HostRuntime, folder: &str, name: &str) -> Result<Vec<u8>, Fail> {
    let path = path_in(rt, folder, name)?;
    Ok(fs::read(rt, path.as_str())?)
}

// Whether the file of this name in the folder has these rows of priorities.
fn has_rows(rt: &HostRuntime, folder: &str, name: &str, rows: &str) -> Result<bool, Fail> {
    let wanted = format!(in rt.alloc(); "higher,lower\n{rows}")?;
    Ok(bytes_of(rt, folder, name)?.as_slice() == wanted.as_bytes())
}

// Whether the forced pairs of the row's table are written so, and the lines are those without a
// file.
fn is_ranked(rt: &HostRuntime, folder: &str, row: &Ranked) -> Result<bool, Fail> {
    let Ranked(Rows(rows, pairs), written, refused) = *row;
    put_table(rt, folder, rows, pairs)?;
    // It is made in place of one that is longer.
    put(rt, folder, "made.csv", &[120; 200])?;
    let plain = run_in(rt, folder, &["conflicts", S, P])?;
    let ranked = run_in(
        rt,
        folder,
        &["conflicts", "--priorities", "@/made.csv", S, P],
    )?;
    Ok(ranked.is(1, plain.answer(), refused) && has_rows(rt, folder, "made.csv", written)?)
}

#[test]
fn forced_pairs_are_written(rt: HostRuntime) -> Result<(), Fail> {
    let folder = "ranked";
    make(&rt, folder)?;
    for row in RANKED {
        assert!(rt; is_ranked(&rt, folder, row)?, "{:?}", row.0);
    }
    remove(&rt, folder)
}

#[test]
fn a_table_with_its_forced_pairs_is_settled(rt: HostRuntime) -> Result<(), Fail> {
    let folder = "ranked_again";
    make_with(&rt, folder, NESTED)?;
    let words = ["conflicts", "--priorities", "@/made.csv", S, P];
    assert!(rt; run_in(&rt, folder, &words)?.report().is_empty());
    let lines = "pairs 0 decided 0 ambiguous 0 unknown 0\n";
    assert!(rt; run_in(&rt, folder, &["conflicts", S, "@/made.csv"])?.is(0, lines, ""));
    let alive = "formats 3 alive 3 dead 0 unknown 0 signatures 3 alive 3 dead 0 unknown 0\n";
    assert!(rt; run_in(&rt, folder, &["dead", S, "@/made.csv"])?.is(0, alive, ""));
    remove(&rt, folder)
}

// With progress the lines of the forced pairs stand behind it.
#[test]
fn refused_pairs_are_told_behind_the_progress(rt: HostRuntime) -> Result<(), Fail> {
    let folder = "ranked_told";
    make_with(&rt, folder, NOTHING_LEFT)?;
    let words = [
        "conflicts",
        "--progress",
        "--priorities",
        "@/made.csv",
        S,
        P,
    ];
    let shown = run_in(&rt, folder, &words)?;
    assert!(rt;
        shown.report()
            == "\r0 of 3 pairs\r1 of 3 pairs\r2 of 3 pairs\r3 of 3 pairs\n\
        not written fmt/3 fmt/2: fmt/2 would be dead\n"
    );
    remove(&rt, folder)
}

#[test]
fn witnesses_are_kept_by_the_names_of_their_formats(rt: HostRuntime) -> Result<(), Fail> {
    let folder = "kept";
    make_with(&rt, folder, NESTED)?;
    let words = ["conflicts", "--files", "@/a/b", S, P];
    let lines = "ambiguous fmt/1 fmt/2 1 2 2\nambiguous fmt/1 x-fmt/3 1 3 3\n\
                 ambiguous fmt/2 x-fmt/3 2 3 3\npairs 3 decided 0 ambiguous 3 unknown 0\n";
    assert!(rt; run_in(&rt, folder, &words)?.is(1, lines, ""));
    assert!(rt; bytes_of(&rt, folder, "a/b/fmt_1-fmt_2.bin")?.as_slice() == b"AB".as_slice());
    assert!(rt; bytes_of(&rt, folder, "a/b/fmt_1-x-fmt_3.bin")?.as_slice() == b"ABC".as_slice());
    assert!(rt; bytes_of(&rt, folder, "a/b/fmt_2-x-fmt_3.bin")?.as_slice() == b"ABC".as_slice());
    remove(&rt, folder)
}

// They are kept also where each format has a line instead; one that is longer is replaced, and
// other files stay.
#[test]
fn witnesses_replace_files_of_their_names(rt: HostRuntime) -> Result<(), Fail> {
    let folder = "replaced";
    make_with(&rt, folder, NESTED)?;
    put(&rt, folder, "fmt_1-fmt_2.bin", b"longer")?;
    put(&rt, folder, "fmt_1-fmt_4.bin", b"other")?;
    let words = ["conflicts", "--summary", "--files", "@", S, P];
    assert!(rt;
        run_in(&rt, folder, &words)?
            .answer()
            .starts_with("fmt/1 2 over 0 under 2 ")
    );
    assert!(rt; bytes_of(&rt, folder, "fmt_1-fmt_2.bin")?.as_slice() == b"AB".as_slice());
    assert!(rt; bytes_of(&rt, folder, "fmt_1-fmt_4.bin")?.as_slice() == b"other".as_slice());
    remove(&rt, folder)
}

// What can't be made is told before the first line, but for the file of a pair.
const UNMADE: &[Fault] = &[
    Fault(
        &[
            "conflicts",
            "--files",
            "@/priorities.csv",
            "--priorities",
            "@/kept.csv",
            S,
            P,
        ],
        3,
        "cannot open @/priorities.csv\n",
    ),
    Fault(
        &[
            "conflicts",
            "--progress",
            "--priorities",
            "@/none/made.csv",
            S,
            P,
        ],
        3,
        "cannot open @/none/made.csv\n",
    ),
    Fault(
        &[
            "conflicts",
            "--only",
            "fmt/9",
            "--priorities",
            "@/kept.csv",
            S,
            P,
        ],
        2,
        "only: not in the table\n",
    ),
];

#[test]
fn tells_what_cannot_be_made(rt: HostRuntime) -> Result<(), Fail> {
    let folder = "unmade";
    make_with(&rt, folder, NESTED)?;
    put(&rt, folder, "kept.csv", b"kept")?;
    for Fault(words, status, line) in UNMADE {
        let path = path_of(&rt, folder)?;
        let line = line.replace(rt.alloc(), "@", path.as_str())?;
        assert!(rt;
            run_in(&rt, folder, words)?.is(*status, "", line.as_str()),
            "{words:?}"
        );
    }
    assert!(rt; bytes_of(&rt, folder, "kept.csv")?.as_slice() == b"kept".as_slice());
    remove(&rt, folder)
}

// A folder has the name of the second file, so it can't be made; the line of the first pair stands.
#[test]
fn lines_before_a_file_that_cannot_be_made_stand(rt: HostRuntime) -> Result<(), Fail> {
    let folder = "unkept";
    make_with(&rt, folder, NESTED)?;
    let path = path_in(&rt, folder, "fmt_1-x-fmt_3.bin")?;
    fs::create_dir(&rt, path.as_str())?;
    let line = format!(in rt.alloc(); "cannot open {}\n", path.as_str())?;
    let shown = run_in(&rt, folder, &["conflicts", "--files", "@", S, P])?;
    assert!(rt; shown.is(3, "ambiguous fmt/1 fmt/2 1 2 2\n", line.as_str()));
    remove(&rt, folder)
}

// A priority file that is not written ends the run: the lines before stand, and the last is
// missing.
#[test]
fn a_priority_file_that_is_not_written_ends_the_run(rt: HostRuntime) -> Result<(), Fail> {
    let folder = "unwritten";
    make_with(&rt, folder, NESTED)?;
    let lines = "ambiguous fmt/1 fmt/2 1 2 2\nambiguous fmt/1 x-fmt/3 1 3 3\n\
                 ambiguous fmt/2 x-fmt/3 2 3 3\n";
    let words = ["conflicts", "--priorities", "/dev/full", S, P];
    assert!(rt; run_in(&rt, folder, &words)?.is(3, lines, "write failed\n"));
    remove(&rt, folder)
}

#[test]
fn a_summary_is_of_all_formats(rt: HostRuntime) -> Result<(), Fail> {
    let words = ["conflicts", "--summary", "--only", "fmt/1", "a", "b"];
    let begin = "error: the argument '--summary' cannot be used with '--only <PUID>'\n";
    assert!(rt; run_in(&rt, "", &words)?.refuses(begin));
    Ok(())
}
