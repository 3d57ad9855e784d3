//! Files by their names.
//!
//! What the program reads and makes by name it asks of a store, so what it does with the files of a
//! store that tells what it holds can be said in a contract. `held` is one function of all names: a
//! store that tells what its files hold also tells of a name that it has no file. What is written
//! to a file that was made is not part of it.
//!
//! The files of the system tell nothing. A folder opens there, and its first read fails, so the
//! program's line is `read failed`. No clause says that `SystemFiles` ever opens or makes a file,
//! nor that one that is made has its name and is emptied: `.ci/program` and `bench/limits.py` show
//! it.

ghost use Rattle.std.specs.Prelude.{◌≡◌, ◌≢◌, ℕ, false, IfErr, IfOk, IfSome, List, map, None, Option, option_map, true};
ghost use Rattle.sig_engines.specs.Stores.{CannotMake, GivesInput, HasFolder, Holding, IsNamed, IsUnlisted, LacksFolder, Lists, Makes, Opens, item_of};

use crate::error::{FileFault, RunError};
use either::Either;
use sig_bits::{FromRead, FromWrite, Input, Output};
use std::alloc::Global;
use std::io::Read;
use std::rt::Files;
use std::{fs, io};

/// A store of files.
pub trait Store {
    type Reader: Input + Drop;

    type Writer: Output + Drop;

    /// The bytes of the file of each name, where they are known.
    ghost held: { Self → Holding };

    /// The name of a file that is made, where it is known.
    ghost name_of: { Self.Writer → Option (List ℕ) };

    /// Opens the file of this name, from its front.
    fn open(&self, name: &str) -> Option<Self::Reader>
        ensures opens { Opens (held self.now) name.now (option_map (λ file. Self.Reader.to_come file) result) }
        ensures fresh { IfSome result (λ file. Self.Reader.failed file ≡ false) };

    /// Makes a file of this name, in place of one that is there.
    ///
    /// What is written to it is not among what the store is known to hold. Over any store nothing
    /// but this call gives a file of a name, so who promises one (`IsMade`) has made it here.
    fn create(&self, name: &str) -> Option<Self::Writer>
        ensures named { IfSome result (λ file. IsNamed (name_of file) name.now) }
        ensures makes { IfSome result (λ file. Makes (held self.now) (Self.Writer.written file)) }
        ensures fresh { IfSome result (λ file. Self.Writer.failed file ≡ false) }
        ensures refused { result ≡ None → CannotMake (held self.now) name.now };

    /// Standard input, from where it is read next.
    fn standard_input(&self) -> Self::Reader
        ensures gives { GivesInput (held self.now) (Self.Reader.to_come result) }
        ensures fresh { Self.Reader.failed result ≡ false };

    /// Whether there is a folder of this name, or a link to one.
    fn is_folder(&self, name: &str) -> bool
        ensures has { result ≡ true → HasFolder (held self.now) name.now }
        ensures lacks { result ≡ false → LacksFolder (held self.now) name.now };

    /// What stands in a folder, in the order of the bytes of the names. Links are left out.
    fn list(&self, alloc: Global, folder: &str) -> Result<Vec<Entry>, FileFault>
        ensures lists { IfOk result (λ entries. Lists (held self.now) folder.now (map item_of entries.items)) }
        ensures fault { IfErr result (IsUnlisted (held self.now) folder.now) };

    /// Makes a folder of this name, and those that it lies in, where they are missing. Answers
    /// whether it is there.
    fn make_folder(&self, name: &str) -> bool
        ensures refused { result ≡ false → CannotMake (held self.now) name.now };
}

/// What stands in a folder.
#[derive(Debug, Drop)]
pub struct Entry {
    /// Its name, with the folder's before it; of a name that is no text the folder's alone.
    pub name: String,
    pub kind: EntryKind,
}

/// What an entry of a folder is.
#[derive(Clone, Copy, Debug, PartialEq, Eq)]
pub enum EntryKind {
    /// A regular file, or one that was gone when it was asked for.
    File,
    Folder,
    /// A pipe, a socket or a device.
    NotRegular,
    /// Something with a name that is no text.
    NotText,
}

/// The names of the files of a table. One without a priority file has no priorities.
#[derive(Clone, Copy, Debug, PartialEq, Eq)]
pub struct TablePaths<'a> {
    pub signatures: &'a str,
    pub priorities: Option<&'a str>,
}

/// The files of the system, and standard input.
#[derive(Clone, Copy)]
pub struct SystemFiles<'a, R, I> {
    rt: &'a R,
    input: I,
}

impl<'a, R: Files, I: Read + Copy + Drop> SystemFiles<'a, R, I> {
    pub fn new(rt: &'a R, input: I) -> SystemFiles<'a, R, I> {
        SystemFiles { rt, input }
    }
}

impl<R: Files, I: Read + Copy + Drop> Store for SystemFiles<'_, R, I> {
    type Reader = FromRead<Either<R::File, I>>;

    type Writer = FromWrite<R::File>;

    ghost held = { λ _. None };

    ghost name_of = { λ _. None };

    fn open(&self, name: &str) -> Option<FromRead<Either<R::File, I>>> {
        match fs::open(self.rt, name) {
            Ok(file) => Some(FromRead::new(Either::Left(file))),
            Err(_) => None,
        }
    }

    fn create(&self, name: &str) -> Option<FromWrite<R::File>> {
        match fs::create(self.rt, name) {
            Ok(file) => Some(FromWrite::new(file)),
            Err(_) => None,
        }
    }

    fn standard_input(&self) -> FromRead<Either<R::File, I>> {
        FromRead::new(Either::Right(self.input))
    }

    fn is_folder(&self, name: &str) -> bool {
        match fs::metadata(self.rt, name) {
            Ok(metadata) => metadata.is_dir(),
            Err(_) => false,
        }
    }

    fn list(&self, alloc: Global, folder: &str) -> Result<Vec<Entry>, FileFault> {
        let found = match fs::read_dir(&(self.rt, alloc), folder) {
            Ok(found) => found,
            Err(error) => return Err(unopened(error.kind())),
        };
        let mut entries = Vec::new(alloc);
        for next in found {
            let entry = match next {
                Ok(entry) => entry_of(alloc, self.rt, entry.path().as_str()),
                Err(error) => unnamed_entry(alloc, folder, error.kind()),
            };
            if let Some(entry) = entry? {
                push_entry(&mut entries, entry)?;
            }
        }
        entries.sort_unstable_by(|a, b| a.name.cmp(&b.name));
        Ok(entries)
    }

    fn make_folder(&self, name: &str) -> bool {
        fs::create_dir_all(self.rt, name).is_ok()
    }
}

// Why a folder is not opened.
fn unopened(error: io::ErrorKind) -> FileFault
    ensures { result ≢ FileFault.Run RunError.Write }
{
    match error {
        io::ErrorKind::OutOfMemory => FileFault::Run(RunError::OutOfMemory),
        _ => FileFault::CannotOpen,
    }
}

// What stands under this name of a folder, unless it is a link.
fn entry_of<R: Files>(alloc: Global, rt: &R, name: &str) -> Result<Option<Entry>, FileFault>
    ensures { IfErr result (λ fault. fault ≢ FileFault.Run RunError.Write) }
{
    let kind = match fs::symlink_metadata(rt, name) {
        Ok(metadata) if metadata.is_symlink() => return Ok(None),
        Ok(metadata) if metadata.is_dir() => EntryKind::Folder,
        Ok(metadata) if !metadata.is_file() => EntryKind::NotRegular,
        _ => EntryKind::File,
    };
    new_entry(alloc, name, kind)
}

// What a folder does not name.
fn unnamed_entry(
    alloc: Global,
    folder: &str,
    error: io::ErrorKind,
) -> Result<Option<Entry>, FileFault>
    ensures { IfErr result (λ fault. fault ≢ FileFault.Run RunError.Write) }
{
    match error {
        io::ErrorKind::InvalidFilename => new_entry(alloc, folder, EntryKind::NotText),
        io::ErrorKind::OutOfMemory => Err(FileFault::Run(RunError::OutOfMemory)),
        _ => Err(FileFault::Run(RunError::Read)),
    }
}

fn new_entry(alloc: Global, name: &str, kind: EntryKind) -> Result<Option<Entry>, FileFault>
    ensures { IfErr result (λ fault. fault ≢ FileFault.Run RunError.Write) }
{
    match String::from_str(alloc, name) {
        Ok(name) => Ok(Some(Entry { name, kind })),
        Err(_) => Err(FileFault::Run(RunError::OutOfMemory)),
    }
}

fn push_entry(entries: &mut Vec<Entry>, entry: Entry) -> Result<(), FileFault>
    ensures { IfErr result (λ fault. fault ≢ FileFault.Run RunError.Write) }
{
    match entries.push(entry) {
        Ok(()) => Ok(()),
        Err(_) => Err(FileFault::Run(RunError::OutOfMemory)),
    }
}
