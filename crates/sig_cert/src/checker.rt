//! The checker: one pass over the bytes of a certificate.
//!
//! Each function judges what one step of `specs/Verdicts.antt` judges, and moves the view past it.
//! The first fault ends the pass. Nothing of a table is kept when the next one is judged.

ghost use Rattle.std.specs.Prelude.{◌≡◌, ◌⊎◌, ◌<◌, ◌≤◌, if◌then◌else◌, IsErrOf, MatchOption, MatchResult, OnOk, length, []};
ghost use Rattle.sig_cert.specs.Closed.{Closed};
ghost use Rattle.sig_cert.specs.Deciding.{Decided};
ghost use Rattle.sig_cert.specs.Layouts.{version_byte};
ghost use Rattle.sig_cert.specs.Growing.{CountPassed, HasOpenPair, IsOpenPair, MayGrow, VersionPassed};
ghost use Rattle.sig_cert.specs.Pairs.{format_pairs, signature_pairs, signatures_of};
ghost use Rattle.sig_cert.specs.Verdicts.{CertificateJudged, CountJudged, EntryJudged, Judges, PairJudged, PairsJudged, TablesJudged, Verdict, VersionJudged};
ghost use Rattle.sig_table.specs.Tables.{IsTable};

use crate::error::CheckError;
use crate::fields::{field, number_of_four};
use crate::site::Site;
use crate::tables::judge_table;
use crate::version::Version;
use crate::view::CertView;
use sig_table::{FormatId, Table};
use std::alloc::Global;

/// Judges a certificate for a table of signatures: accepted, or the first fault in the order of
/// judging (`docs/CERTIFICATES.md`).
pub fn check(alloc: Global, table: &Table, certificate: &[u8]) -> Result<(), CheckError>
    ensures first_fault { IsErrOf result CheckError.OutOfMemory ⊎ Verdict table.now certificate.now result }
    ensures memory { IsErrOf result CheckError.OutOfMemory → MayGrow table.now certificate.now }
    ensures closed { OnOk result (Closed table.now certificate.now) }
    ensures decided { OnOk result (Decided table.now) }
{
    judge_certificate(alloc, table, &mut CertView::over(certificate))
}

fn judge_certificate(
    alloc: Global,
    table: &Table,
    view: &mut CertView<'_>,
) -> Result<(), CheckError>
    ensures judged { Judges (CertificateJudged table.now) view.old view.new result }
    ensures memory { IsErrOf result CheckError.OutOfMemory → MayGrow table.now view.old }
    ensures at_end { MatchResult result (λ done. view.new ≡ []) (λ e. Unit {0}) }
    ensures table { OnOk result (IsTable table.now) }
{
    let magic = field(view, 4)?;
    if magic != b"PSAC".as_slice() {
        return Err(CheckError::Magic);
    }
    judge_version(alloc, table, view)
}

fn judge_version(alloc: Global, table: &Table, view: &mut CertView<'_>) -> Result<(), CheckError>
    ensures judged { Judges (VersionJudged table.now) view.old view.new result }
    ensures memory { IsErrOf result CheckError.OutOfMemory → VersionPassed table.now view.old × HasOpenPair table.now }
    ensures at_end { MatchResult result (λ done. view.new ≡ []) (λ e. Unit {0}) }
    ensures table { OnOk result (IsTable table.now) }
{
    let field = field(view, 1)?;
    let version = version_of(field[0]).ok_or(CheckError::Version)?;
    judge_count(alloc, table, version, view)
}

fn version_of(byte: u8) -> Option<Version>
    ensures { MatchOption result ((version : Version) → ¬ (byte ≡ version_byte version)) (λ version. byte ≡ version_byte version) }
{
    match byte {
        1 => Some(Version::Exact),
        2 => Some(Version::Covering),
        _ => None,
    }
}

fn judge_count(
    alloc: Global,
    table: &Table,
    version: Version,
    view: &mut CertView<'_>,
) -> Result<(), CheckError>
    ensures judged { Judges (CountJudged version table.now) view.old view.new result }
    ensures memory { IsErrOf result CheckError.OutOfMemory → CountPassed table.now view.old × HasOpenPair table.now }
    ensures at_end { MatchResult result (λ done. view.new ≡ []) (λ e. Unit {0}) }
    ensures table { OnOk result (IsTable table.now) }
{
    let count = number_of_four(view)?;
    if count != pair_count(table.format_count() as u32) {
        return Err(CheckError::PairCount);
    }
    judge_pairs(alloc, table, version, view)
}

/// How many pairs so many formats have.
pub fn pair_count(formats: u32) -> u32
    requires { formats ≤ 1000 }
    ensures { result ≡ length (format_pairs formats) }
{
    formats * formats.saturating_sub(1) / 2
}

fn judge_pairs(
    alloc: Global,
    table: &Table,
    version: Version,
    view: &mut CertView<'_>,
) -> Result<(), CheckError>
    ensures judged { Judges (PairsJudged version table.now 0 (format_pairs (length table.now.formats))) view.old view.new result }
    ensures memory { IsErrOf result CheckError.OutOfMemory → HasOpenPair table.now }
    ensures at_end { MatchResult result (λ done. view.new ≡ []) (λ e. Unit {0}) }
{
    let mut pair = 0;
    let formats = table.format_count() as u16;
    for i in 0..formats {
        for j in i + 1..formats {
            judge_pair(
                alloc,
                table,
                version,
                pair,
                (FormatId(i), FormatId(j)),
                view,
            )?;
            pair += 1;
        }
    }
    if view.is_at_end() {
        Ok(())
    } else {
        Err(CheckError::Trailing)
    }
}

fn judge_pair(
    alloc: Global,
    table: &Table,
    version: Version,
    pair: u32,
    formats: (FormatId, FormatId),
    view: &mut CertView<'_>,
) -> Result<(), CheckError>
    requires { length table.now.signatures ≤ 4000 }
    ensures judged { Judges (PairJudged version table.now pair (formats.0.0, formats.1.0)) view.old view.new result }
    ensures memory { IsErrOf result CheckError.OutOfMemory → IsOpenPair table.now (formats.0.0, formats.1.0) }
{
    let related = table.are_related(formats.0, formats.1);
    let kind = field(view, 1)?;
    if kind[0] != kind_of(related) {
        return Err(CheckError::Kind { pair });
    }
    if related {
        Ok(())
    } else {
        judge_tables(alloc, table, version, pair, formats, view)
    }
}

/// The first byte of a pair's entry: whether one of the two formats outranks the other.
pub fn kind_of(related: bool) -> u8
    ensures { result ≡ (if related then 0 else 1) }
{
    if related { 0 } else { 1 }
}

fn judge_tables(
    alloc: Global,
    table: &Table,
    version: Version,
    pair: u32,
    formats: (FormatId, FormatId),
    view: &mut CertView<'_>,
) -> Result<(), CheckError>
    requires { length table.now.signatures ≤ 4000 }
    ensures judged { Judges (TablesJudged version table.now pair 0 (signature_pairs table.now (formats.0.0, formats.1.0))) view.old view.new result }
    ensures first { IsErrOf result CheckError.OutOfMemory → 0 < length (signatures_of table.now formats.0.0) }
    ensures second { IsErrOf result CheckError.OutOfMemory → 0 < length (signatures_of table.now formats.1.0) }
{
    let mut at = Site { pair, table: 0 };
    for s in table.signatures_of(formats.0) {
        for t in table.signatures_of(formats.1) {
            judge_table(alloc, table, version, (s, t), at, view)?;
            at.table += 1;
        }
    }
    Ok(())
}
