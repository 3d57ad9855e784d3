//! The names of the files in which `conflicts` keeps what is ambiguous: `fmt_1-x-fmt_2.bin` for a
//! file that leaves the formats `fmt/1` and `x-fmt/2`.
//!
//! A slash can't stand in a file's name, so `_` stands for it, which is in no PUID: two pairs never
//! have one name.

ghost use Rattle.std.specs.Prelude.{◌≡◌, ◌++◌, false, IfOk, string_bytes};
ghost use Rattle.sig_cert.specs.Deciding.{AreFormats};
ghost use Rattle.sig_engines.specs.Writing.{Prints};
ghost use Rattle.sig_engines.specs.Witnesses.{IsNameOf, format_name, path_text, registry_name, witness_name};

use crate::writing::{put, put_number};
use sig_bits::{DeviceFault, Output};
use sig_table::{FormatId, Registry, Table};
use std::alloc::{AllocError, Global};
use std::fmt::Write;

/// A format in a file's name: `fmt_1`.
#[derive(Clone, Copy, Debug, PartialEq, Eq)]
pub struct FormatName {
    pub registry: Registry,
    pub number: u32,
}

/// The name of the file of two formats.
#[derive(Clone, Copy, Debug, PartialEq, Eq)]
pub struct WitnessName {
    pub first: FormatName,
    pub second: FormatName,
}

impl FormatName {
    fn of(table: &Table, format: FormatId) -> FormatName
        requires { AreFormats table.now (format, format) }
        ensures { IsNameOf table.now format.0 result }
    {
        let puid = table.puid(format);
        FormatName {
            registry: puid.registry(),
            number: puid.number(),
        }
    }
}

impl WitnessName {
    pub(crate) fn of(table: &Table, a: FormatId, b: FormatId) -> WitnessName
        requires { AreFormats table.now (a, b) }
        ensures first { IsNameOf table.now a.0 result.first }
        ensures second { IsNameOf table.now b.0 result.second }
    {
        WitnessName {
            first: FormatName::of(table, a),
            second: FormatName::of(table, b),
        }
    }

    /// The name in a folder.
    pub(crate) fn path(self, alloc: Global, folder: &str) -> Result<String, AllocError>
        ensures { IfOk result (λ path. string_bytes path ≡ path_text folder.now self) }
    {
        let first = registry_name(self.first.registry);
        let first_number = self.first.number;
        let second = registry_name(self.second.registry);
        let second_number = self.second.number;
        let mut path = String::new(alloc);
        write!(
            path,
            "{folder}/{first}{first_number}-{second}{second_number}.bin"
        )?;
        Ok(path)
    }
}

/// Writes the name in a folder, in pieces, which takes no memory.
pub fn put_path<E: Output>(err: &mut E, folder: &str, name: WitnessName) -> Result<(), DeviceFault>
    ensures prints { Prints result (path_text folder.now name) (E.written err.old) (E.written err.new) (E.failed err.new) }
    ensures sound { E.failed err.new ≡ false → E.failed err.old ≡ false }
{
    put(err, folder)?;
    put(err, "/")?;
    put_format(err, name.first)?;
    put(err, "-")?;
    put_format(err, name.second)?;
    put(err, ".bin")
}

fn put_format<E: Output>(err: &mut E, name: FormatName) -> Result<(), DeviceFault>
    ensures prints { Prints result (format_name name) (E.written err.old) (E.written err.new) (E.failed err.new) }
    ensures sound { E.failed err.new ≡ false → E.failed err.old ≡ false }
{
    put(err, registry_name(name.registry))?;
    put_number(err, name.number)
}

fn registry_name(registry: Registry) -> &'static str
    ensures { result.now ≡ registry_name registry }
{
    match registry {
        Registry::Fmt => "fmt_",
        Registry::XFmt => "x-fmt_",
    }
}
