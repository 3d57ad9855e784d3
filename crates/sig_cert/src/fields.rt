//! The fields of a certificate: numbers of two and of four bytes, the highest first.
//!
//! `00 00 01 02` is 258. A field that goes past the end of the bytes is `Truncated`.

ghost use Rattle.std.specs.Prelude.{◌≡◌, ◌<◌, length, MatchResult};
ghost use Rattle.sig_cert.specs.Fields.{Took, TookNumber};

use crate::error::CheckError;
use crate::view::CertView;

/// The next n bytes.
pub(crate) fn field<'a>(view: &mut CertView<'a>, n: usize) -> Result<&'a [u8], CheckError>
    ensures { MatchResult result (λ bytes. Took n view.old bytes.now view.new) (λ e. (e ≡ CheckError.Truncated) × (length view.old < n)) }
{
    view.take(n).ok_or(CheckError::Truncated)
}

/// A number of two bytes.
pub(crate) fn number_of_two(view: &mut CertView<'_>) -> Result<u16, CheckError>
    ensures { TookNumber 2 view.old view.new result }
{
    let bytes = field(view, 2)?;
    Ok(bytes[0] as u16 * 256 + bytes[1] as u16)
}

/// A number of four bytes.
pub(crate) fn number_of_four(view: &mut CertView<'_>) -> Result<u32, CheckError>
    ensures { TookNumber 4 view.old view.new result }
{
    let bytes = field(view, 4)?;
    Ok(((bytes[0] as u32 * 256 + bytes[1] as u32) * 256 + bytes[2] as u32) * 256 + bytes[3] as u32)
}
