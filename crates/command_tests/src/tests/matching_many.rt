//! `match` of several files through the program, and of one with its name: each line behind its
//! file's name, files with faults among others, a refused table and a failed write.

use crate::tests::{Fault, P, S, first_untold, make_with, path_of, put, remove, run_in, words_in};
use fixtures::{Room, Rows};
use sig_bits::FromWrite;
use sig_command::command;
use std::fs;
use std::rt::Files;
use std::test::Fail;

// A format whose files begin with `A`, below one whose files begin with `AB`.
const BELOW: Rows = Rows("fmt/1,1,BOF,0,,41\nfmt/2,2,BOF,0,,4142\n", "fmt/2,fmt/1\n");

// Words, the status, and what is written to both outputs.
struct Answered(&'static [&'static str], u8, &'static str, &'static str);

// The text, with the path of the folder in the place of each `@`.
fn text_in(rt: &HostRuntime, folder: &str, text: &str) -> Result<String, Fail> {
    let path = path_of(rt, folder)?;
    Ok(text.replace(rt.alloc(), "@", path.as_str())?)
}

// Whether the program answers so.
fn is_answered(rt: &HostRuntime, folder: &str, row: &Answered) -> Result<bool, Fail> {
    let Answered(words, status, out, err) = *row;
    let out = text_in(rt, folder, out)?;
    let err = text_in(rt, folder, err)?;
    is_shown(rt, folder, words, status, &out, &err)
}

fn is_shown(
    rt: &HostRuntime,
    folder: &str,
    words: &[&str],
    status: u8,
    out: &str,
    err: &str,
) -> Result<bool, Fail> {
    Ok(run_in(rt, folder, words)?.is(status, out, err))
}

// Puts files into the folder: one that begins with `AB`, one with neither, and one with `A`.
fn put_many(rt: &HostRuntime, folder: &str) -> Result<(), Fail> {
    put(rt, folder, "both.bin", b"AB")?;
    put(rt, folder, "none.bin", b"B")?;
    put(rt, folder, "one.bin", b"AC")
}

const MANY: &[Answered] = &[
    Answered(
        &[
            "match",
            S,
            P,
            "@/one.bin",
            "@/both.bin",
            "@/none.bin",
            "@/both.bin",
        ],
        0,
        "@/one.bin\tfmt/1 1\n@/both.bin\tfmt/2 2\n@/none.bin\t-\n@/both.bin\tfmt/2 2\n",
        "",
    ),
    Answered(
        &["match", "--all", S, P, "@/both.bin", "@/one.bin"],
        0,
        "@/both.bin\tfmt/1 1\n@/both.bin\tfmt/2 2\n@/one.bin\tfmt/1 1\n",
        "",
    ),
    Answered(&["match", S, P, "@/none.bin"], 0, "", ""),
    Answered(&["match", S, P, "@"], 3, "", "@: is a folder\n"),
];

#[test]
fn prints_the_lines_of_each_file_behind_its_name(rt: HostRuntime) -> Result<(), Fail> {
    let folder = "many";
    make_with(&rt, folder, BELOW)?;
    put_many(&rt, folder)?;
    for row in MANY {
        assert!(rt; is_answered(&rt, folder, row)?, "{:?}", row.0);
    }
    remove(&rt, folder)
}

// With the flag the name stands before the lines of the only file, too, and of several all is as
// without it.
const WITH_NAMES: &[Answered] = &[
    Answered(
        &["match", "--with-names", S, P, "@/both.bin"],
        0,
        "@/both.bin\tfmt/2 2\n",
        "",
    ),
    Answered(
        &["match", S, P, "@/one.bin", "--with-names"],
        0,
        "@/one.bin\tfmt/1 1\n",
        "",
    ),
    Answered(
        &["match", "--with-names", S, P, "@/none.bin"],
        0,
        "@/none.bin\t-\n",
        "",
    ),
    Answered(
        &["match", "--with-names", "--all", S, P, "@/both.bin"],
        0,
        "@/both.bin\tfmt/1 1\n@/both.bin\tfmt/2 2\n",
        "",
    ),
    Answered(
        &["match", "--all", "--with-names", S, P, "@/none.bin"],
        0,
        "@/none.bin\t-\n",
        "",
    ),
    Answered(
        &["match", "--with-names", S, P, "@/both.bin", "@/none.bin"],
        0,
        "@/both.bin\tfmt/2 2\n@/none.bin\t-\n",
        "",
    ),
    Answered(
        &["match", "--with-names", S, P, "@/missing.bin"],
        3,
        "",
        "cannot open @/missing.bin\n",
    ),
    Answered(
        &["match", "--with-names", S, P, "@"],
        3,
        "",
        "@: is a folder\n",
    ),
];

#[test]
fn prints_the_name_of_one_file_where_it_is_asked_for(rt: HostRuntime) -> Result<(), Fail> {
    let folder = "named";
    make_with(&rt, folder, BELOW)?;
    put_many(&rt, folder)?;
    for row in WITH_NAMES {
        assert!(rt; is_answered(&rt, folder, row)?, "{:?}", row.0);
    }
    remove(&rt, folder)
}

// Records, behind the names of their fields: of each file, also of one alone.
const RECORDS: &[Answered] = &[
    Answered(
        &["match", "--csv", S, P, "@/both.bin", "@/none.bin"],
        0,
        "file,puid,signature,name\n@/both.bin,fmt/2,2,\n@/none.bin,,,\n",
        "",
    ),
    Answered(
        &["match", "--csv", "--all", S, P, "@/both.bin"],
        0,
        "file,puid,signature,name\n@/both.bin,fmt/1,1,\n@/both.bin,fmt/2,2,\n",
        "",
    ),
    Answered(
        &["match", S, P, "@/comma,\"quote\".bin", "--csv"],
        0,
        "file,puid,signature,name\n\"@/comma,\"\"quote\"\".bin\",fmt/1,1,\n",
        "",
    ),
    Answered(
        &["match", "--csv", S, P, "@/missing.bin", "@/one.bin"],
        3,
        "file,puid,signature,name\n@/one.bin,fmt/1,1,\n",
        "cannot open @/missing.bin\n",
    ),
];

#[test]
fn prints_records_where_they_are_asked_for(rt: HostRuntime) -> Result<(), Fail> {
    let folder = "records";
    make_with(&rt, folder, BELOW)?;
    put_many(&rt, folder)?;
    put(&rt, folder, "comma,\"quote\".bin", b"A")?;
    for row in RECORDS {
        assert!(rt; is_answered(&rt, folder, row)?, "{:?}", row.0);
    }
    remove(&rt, folder)
}

// The names of formats: behind each line, or in the last field of each record.
const NAMED: &[Answered] = &[
    Answered(
        &["match", "--names", "@/formats.csv", S, P, "@/both.bin"],
        0,
        "@/both.bin\tfmt/2 2\tTwo, or more\n",
        "",
    ),
    Answered(
        &[
            "match",
            "--names",
            "@/formats.csv",
            "--all",
            S,
            P,
            "@/both.bin",
            "@/none.bin",
        ],
        0,
        "@/both.bin\tfmt/1 1\t\n@/both.bin\tfmt/2 2\tTwo, or more\n@/none.bin\t-\n",
        "",
    ),
    Answered(
        &[
            "match",
            "--csv",
            "--names",
            "@/formats.csv",
            S,
            P,
            "@/both.bin",
            "@/one.bin",
        ],
        0,
        "file,puid,signature,name\n@/both.bin,fmt/2,2,\"Two, or more\"\n@/one.bin,fmt/1,1,\n",
        "",
    ),
    Answered(
        &[
            "match",
            "--csv",
            "--names",
            "@/missing.csv",
            S,
            P,
            "@/both.bin",
        ],
        3,
        "",
        "cannot open @/missing.csv\n",
    ),
    Answered(
        &["match", "--names", S, S, P, "@/both.bin"],
        2,
        "",
        "names: header\n",
    ),
    Answered(
        &["match", "--names", "@/wide.csv", S, P, "@/both.bin"],
        2,
        "",
        "names row 2: fields\n",
    ),
    Answered(
        &[
            "match",
            "--csv",
            "--names",
            "@/odd.csv",
            "--files-from",
            "@/missing",
            S,
            P,
        ],
        2,
        "",
        "names row 1: puid\n",
    ),
    Answered(
        &["match", "--names", "@/twice.csv", S, P, "@/both.bin"],
        2,
        "",
        "names row 3: pair twice\n",
    ),
    Answered(
        &["match", "--names", "@", S, P, "@/both.bin"],
        3,
        "",
        "read failed\n",
    ),
    Answered(
        &["match", "--names", "@/missing.csv", P, P, "@/both.bin"],
        2,
        "",
        "signatures: L2 header\n",
    ),
];

#[test]
fn prints_the_names_of_formats_where_they_are_asked_for(rt: HostRuntime) -> Result<(), Fail> {
    let folder = "formats";
    make_with(&rt, folder, BELOW)?;
    put_many(&rt, folder)?;
    put(
        &rt,
        folder,
        "formats.csv",
        b"puid,name\nx-fmt/7,Seven\nfmt/2,\"Two, or more\"\n",
    )?;
    put(
        &rt,
        folder,
        "wide.csv",
        b"puid,name\nfmt/1,One\nfmt/2,Two,2\n",
    )?;
    put(&rt, folder, "odd.csv", b"puid,name\nfmt-1,One\n")?;
    put(
        &rt,
        folder,
        "twice.csv",
        b"puid,name\nfmt/1,One\nfmt/2,Two\nfmt/1,One\n",
    )?;
    for row in NAMED {
        assert!(rt; is_answered(&rt, folder, row)?, "{:?}", row.0);
    }
    remove(&rt, folder)
}

const L: &str = "@/names";

// The names of the files stand in a list: one a line, or each ended by NUL.
const LISTED: &[Answered] = &[
    Answered(
        &["match", "--files-from", L, S, P],
        0,
        "@/both.bin\tfmt/2 2\n@/none.bin\t-\n@/one.bin\tfmt/1 1\n",
        "",
    ),
    Answered(
        &["match", "--csv", "--all", S, P, "--files-from", L],
        0,
        "file,puid,signature,name\n@/both.bin,fmt/1,1,\n@/both.bin,fmt/2,2,\n@/none.bin,,,\n@/one.bin,fmt/1,1,\n",
        "",
    ),
    Answered(
        &["match", "-0", "--files-from", "@/ended", S, P],
        3,
        "@/one.bin\tfmt/1 1\n@/both.bin\tfmt/2 2\n",
        "cannot open @/missing.bin\n",
    ),
    Answered(
        &["match", "--null", "--files-from", "@/ended", S, P],
        3,
        "@/one.bin\tfmt/1 1\n@/both.bin\tfmt/2 2\n",
        "cannot open @/missing.bin\n",
    ),
    Answered(&["match", "--files-from", "/dev/null", S, P], 0, "", ""),
    Answered(
        &["match", "--csv", "--files-from", "/dev/null", S, P],
        0,
        "file,puid,signature,name\n",
        "",
    ),
    Answered(
        &["match", "--files-from", "@/missing", S, P],
        3,
        "",
        "cannot open @/missing\n",
    ),
    Answered(
        &["match", "--csv", "--files-from", "@", S, P],
        3,
        "",
        "@: is a folder\n",
    ),
    Answered(
        &["match", "--files-from", "@/missing", S, "none.csv"],
        3,
        "",
        "cannot open none.csv\n",
    ),
];

// Puts the text into the folder, with its path in the place of each `@`.
fn put_text(rt: &HostRuntime, folder: &str, name: &str, text: &str) -> Result<(), Fail> {
    let text = text_in(rt, folder, text)?;
    put(rt, folder, name, text.as_bytes())
}

#[test]
fn takes_the_names_of_the_files_from_a_list(rt: HostRuntime) -> Result<(), Fail> {
    let folder = "listed";
    make_with(&rt, folder, BELOW)?;
    put_many(&rt, folder)?;
    put_text(&rt, folder, "names", "@/both.bin\n@/none.bin\n@/one.bin")?;
    put_text(
        &rt,
        folder,
        "ended",
        "@/one.bin\0@/missing.bin\0@/both.bin\0",
    )?;
    for row in LISTED {
        assert!(rt; is_answered(&rt, folder, row)?, "{:?}", row.0);
    }
    remove(&rt, folder)
}

// A folder with one below it, from which a link leads back, and a link to the folder.
fn put_folders(rt: &HostRuntime, folder: &str) -> Result<(), Fail> {
    let path = path_of(rt, folder)?;
    fs::create_dir_all(rt, text_in(rt, folder, "@/deep/down/empty")?.as_str())?;
    put(rt, folder, "deep/one.bin", b"AC")?;
    put(rt, folder, "deep/down/both.bin", b"AB")?;
    put(rt, folder, "deep/z.bin", b"B")?;
    rt.symlink(
        path.as_str(),
        text_in(rt, folder, "@/deep/down/back")?.as_str(),
    )?;
    rt.symlink("deep", text_in(rt, folder, "@/link")?.as_str())?;
    put_text(rt, folder, "names", "@/deep/down\n@/deep/z.bin\n")
}

// Folders are gone through in the order of the names that stand in them, and links in them are not
// followed.
const RECURSIVE: &[Answered] = &[
    Answered(
        &["match", "--recursive", S, P, "@/deep"],
        0,
        "@/deep/down/both.bin\tfmt/2 2\n@/deep/one.bin\tfmt/1 1\n@/deep/z.bin\t-\n",
        "",
    ),
    Answered(
        &[
            "match",
            "--recursive",
            "--csv",
            S,
            P,
            "@/link/down",
            "@/deep/z.bin",
        ],
        0,
        "file,puid,signature,name\n@/link/down/both.bin,fmt/2,2,\n@/deep/z.bin,,,\n",
        "",
    ),
    Answered(
        &["match", "--recursive", "--files-from", "@/names", S, P],
        0,
        "@/deep/down/both.bin\tfmt/2 2\n@/deep/z.bin\t-\n",
        "",
    ),
    Answered(
        &["match", "--files-from", "@/names", S, P],
        3,
        "@/deep/z.bin\t-\n",
        "@/deep/down: is a folder\n",
    ),
    Answered(
        &["match", "--recursive", "--summary", S, P, "@/deep"],
        0,
        "@/deep/down/both.bin\tfmt/2 2\n@/deep/one.bin\tfmt/1 1\n@/deep/z.bin\t-\n",
        "files 3 identified 2 several 0 none 1 failed 0 bytes 5\n",
    ),
    Answered(
        &["match", "--recursive", S, P, "@/deep/down/empty/"],
        0,
        "",
        "",
    ),
    Answered(
        &["match", "--recursive", S, P, "@/deep/z.bin"],
        0,
        "@/deep/z.bin\t-\n",
        "",
    ),
    Answered(
        &["match", "--recursive", S, P, "@/missing", "@/deep/z.bin"],
        3,
        "@/deep/z.bin\t-\n",
        "cannot open @/missing\n",
    ),
];

#[test]
fn identifies_the_files_in_folders(rt: HostRuntime) -> Result<(), Fail> {
    let folder = "folders";
    make_with(&rt, folder, BELOW)?;
    put_folders(&rt, folder)?;
    for row in RECURSIVE {
        assert!(rt; is_answered(&rt, folder, row)?, "{:?}", row.0);
    }
    remove(&rt, folder)
}

const GOING_ON: &Answered = &Answered(
    &[
        "match",
        S,
        P,
        "@/missing.bin",
        "@/one.bin",
        "@",
        "@/one.bin",
    ],
    3,
    "@/one.bin\tfmt/1 1\n@/one.bin\tfmt/1 1\n",
    "cannot open @/missing.bin\n@: is a folder\n",
);

#[test]
fn goes_on_behind_a_file_with_a_fault(rt: HostRuntime) -> Result<(), Fail> {
    let folder = "go_on";
    make_with(&rt, folder, BELOW)?;
    put(&rt, folder, "one.bin", b"A")?;
    assert!(rt; is_answered(&rt, folder, GOING_ON)?);
    remove(&rt, folder)
}

const REFUSED: &[Fault] = &[
    Fault(
        &["match", P, P, "@/one.bin", "none.bin"],
        2,
        "signatures: L2 header\n",
    ),
    Fault(
        &["match", S, "none.csv", "none.bin", "@/one.bin"],
        3,
        "cannot open none.csv\n",
    ),
];

#[test]
fn a_refused_table_comes_before_any_line(rt: HostRuntime) -> Result<(), Fail> {
    let folder = "no_table";
    make_with(&rt, folder, BELOW)?;
    put(&rt, folder, "one.bin", b"A")?;
    let untold = first_untold(&rt, folder, REFUSED)?;
    assert!(rt; untold.is_none(), "{untold:?}");
    remove(&rt, folder)
}

// Whether the program, with an output that takes no byte, ends with this status and reports this.
fn is_unwritten(
    rt: &HostRuntime,
    folder: &str,
    words: &[&str],
    faults: &str,
) -> Result<bool, Fail> {
    let words = words_in(rt, folder, words)?;
    let mut out = Room::of(0);
    let mut err = FromWrite::new(Vec::new(rt.alloc()));
    let status = command(rt, rt.stdin(), words.as_slice(), &mut out, &mut err);
    let told = err.into_inner();
    Ok(status == 3 && told.as_slice() == faults.as_bytes())
}

#[test]
fn a_failed_write_is_told_last(rt: HostRuntime) -> Result<(), Fail> {
    let folder = "no_room";
    make_with(&rt, folder, BELOW)?;
    put(&rt, folder, "one.bin", b"A")?;
    let words = &["match", S, P, "none.bin", "@/one.bin", "other.bin"];
    let faults = "cannot open none.bin\nwrite failed\n";
    assert!(rt; is_unwritten(&rt, folder, words, faults)?);
    remove(&rt, folder)
}
