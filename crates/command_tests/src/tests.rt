//! What no contract says: the answers to rows worked out by hand, texts and statuses, and what
//! failing readers and writers do to them.

mod checking;
mod conflicting;
mod dying;
mod failing;
mod finding;
mod linting;
mod matching;
mod matching_many;
mod progress;
mod refusals;
mod settling;
mod showing;
mod stores;
mod usage;
mod without_priorities;
mod witnessing;

use fixtures::{PRIORITIES, Rows, SIGNATURES};
use sig_bits::FromWrite;
use sig_command::command;
use std::test::Fail;
use std::{env, fs, process};

// The words for the files of a table, for a file beside them, and for what is made there. In words
// and in texts `@` stands for the folder of the test.
pub(crate) const S: &str = "@/signatures.csv";

pub(crate) const P: &str = "@/priorities.csv";

pub(crate) const F: &str = "@/file.bin";

pub(crate) const O: &str = "@/out.bin";

// What a run of the program leaves.
#[derive(Drop)]
pub(crate) struct Shown {
    status: u8,
    out: String,
    err: String,
}

impl Shown {
    pub(crate) fn of(status: u8, out: Vec<u8>, err: Vec<u8>) -> Result<Shown, Fail> {
        let out = String::from_utf8(out)?;
        let err = String::from_utf8(err)?;
        Ok(Shown { status, out, err })
    }

    // Whether the run ended with this status, and wrote just these texts.
    pub(crate) fn is(&self, status: u8, out: &str, err: &str) -> bool {
        self.status == status && self.out.as_str() == out && self.err.as_str() == err
    }

    // Whether it ended with this status and answered this, whatever it reported.
    pub(crate) fn says(&self, status: u8, out: &str) -> bool {
        self.status == status && self.out.as_str() == out
    }

    // Whether it did and reported this, whatever it answered.
    pub(crate) fn reports(&self, status: u8, err: &str) -> bool {
        self.status == status && self.err.as_str() == err
    }

    // Whether the answer begins so, and nothing is reported.
    pub(crate) fn begins(&self, begin: &str) -> bool {
        self.status == 0 && self.out.as_str().starts_with(begin) && self.err.is_empty()
    }

    // Whether the words were refused with a text that begins so, and nothing is answered.
    pub(crate) fn refuses(&self, begin: &str) -> bool {
        self.status == 2 && self.err.as_str().starts_with(begin) && self.out.is_empty()
    }

    pub(crate) fn answer(&self) -> &str {
        self.out.as_str()
    }

    pub(crate) fn report(&self) -> &str {
        self.err.as_str()
    }
}

// Puts the words behind the others, with this path in the place of each `@`.
fn push_words(
    rt: &HostRuntime,
    owned: &mut Vec<String>,
    path: &str,
    words: &[&str],
) -> Result<(), Fail> {
    for word in words {
        owned.push(word.replace(rt.alloc(), "@", path)?)?;
    }
    Ok(())
}

// The words for the folder of this name.
pub(crate) fn words_in(
    rt: &HostRuntime,
    folder: &str,
    words: &[&str],
) -> Result<Vec<String>, Fail> {
    let path = path_of(rt, folder)?;
    let mut owned = Vec::new(rt.alloc());
    push_words(rt, &mut owned, path.as_str(), words)?;
    Ok(owned)
}

fn run_words(rt: &HostRuntime, words: &[String]) -> Result<Shown, Fail> {
    let mut out = FromWrite::new(Vec::new(rt.alloc()));
    let mut err = FromWrite::new(Vec::new(rt.alloc()));
    let status = command(rt, rt.stdin(), words, &mut out, &mut err);
    Shown::of(status, out.into_inner(), err.into_inner())
}

// Runs the program on words for the folder of this name.
pub(crate) fn run_in(rt: &HostRuntime, folder: &str, words: &[&str]) -> Result<Shown, Fail> {
    let words = words_in(rt, folder, words)?;
    run_words(rt, &words)
}

// Whether the program answers this, and nothing else.
pub(crate) fn is_answer(
    rt: &HostRuntime,
    folder: &str,
    words: &[&str],
    out: &str,
) -> Result<bool, Fail> {
    Ok(run_in(rt, folder, words)?.is(0, out, ""))
}

// Whether it reports this with this status, and answers nothing.
pub(crate) fn is_fault(
    rt: &HostRuntime,
    folder: &str,
    words: &[&str],
    status: u8,
    err: &str,
) -> Result<bool, Fail> {
    Ok(run_in(rt, folder, words)?.is(status, "", err))
}

// Words, the status, and what is reported where nothing is answered.
pub(crate) struct Fault(
    pub(crate) &'static [&'static str],
    pub(crate) u8,
    pub(crate) &'static str,
);

// Whether each of these words is refused so, and if not, which is the first that is not.
pub(crate) fn first_untold(
    rt: &HostRuntime,
    folder: &str,
    faults: &[Fault],
) -> Result<Option<&'static [&'static str]>, Fail> {
    for Fault(words, status, err) in faults {
        if !is_fault(rt, folder, words, *status, err)? {
            return Ok(Some(*words));
        }
    }
    Ok(None)
}

// Where the folder of this name is, one for each run of the tests.
pub(crate) fn path_of(rt: &HostRuntime, folder: &str) -> Result<String, Fail> {
    let temp = env::temp_dir(rt)?;
    let temp = temp.as_path();
    let process = process::id(rt.process());
    Ok(format!(in rt.alloc(); "{}/pronom_sig_{folder}_{process}", temp.display())?)
}

// Makes that folder.
pub(crate) fn make(rt: &HostRuntime, folder: &str) -> Result<(), Fail> {
    let path = path_of(rt, folder)?;
    fs::create_dir_all(rt, path.as_str())?;
    Ok(())
}

// Removes it with what is in it.
pub(crate) fn remove(rt: &HostRuntime, folder: &str) -> Result<(), Fail> {
    let path = path_of(rt, folder)?;
    fs::remove_dir_all(rt, path.as_str())?;
    Ok(())
}

// Where a file of this name is in it.
pub(crate) fn path_in(rt: &HostRuntime, folder: &str, name: &str) -> Result<String, Fail> {
    let path = path_of(rt, folder)?;
    Ok(format!(in rt.alloc(); "{path}/{name}")?)
}

// Puts a file into it.
pub(crate) fn put(rt: &HostRuntime, folder: &str, name: &str, bytes: &[u8]) -> Result<(), Fail> {
    let path = path_in(rt, folder, name)?;
    fs::write(rt, path.as_str(), bytes)?;
    Ok(())
}

// Puts a file of these rows into it, below its header.
fn put_rows(
    rt: &HostRuntime,
    folder: &str,
    name: &str,
    header: &str,
    rows: &str,
) -> Result<(), Fail> {
    let text = format!(in rt.alloc(); "{header}{rows}")?;
    put(rt, folder, name, text.as_bytes())
}

// Puts the two files of a table into it.
pub(crate) fn put_table(
    rt: &HostRuntime,
    folder: &str,
    rows: &str,
    pairs: &str,
) -> Result<(), Fail> {
    put_rows(rt, folder, "signatures.csv", SIGNATURES, rows)?;
    put_rows(rt, folder, "priorities.csv", PRIORITIES, pairs)
}

// Makes the folder of this name with the two files of a table.
pub(crate) fn make_with(rt: &HostRuntime, folder: &str, table: Rows) -> Result<(), Fail> {
    make(rt, folder)?;
    put_table(rt, folder, table.0, table.1)
}
