//! `match`, over any core, any input and any output.
//!
//! Its whole answer is made before a byte of it is written.

ghost use Rattle.std.specs.Prelude.{◌≡◌, ◌≢◌, None, false, true, IfOk, IsErrOf, OnOk, string_bytes};
ghost use Rattle.sig_bits.specs.Device.{IsAtEnd};
ghost use Rattle.sig_engines.specs.FileTexts.{IsTextOfSome};
ghost use Rattle.sig_engines.specs.Lines.{AddsLinesOfSome, AreAskedOfSome, AreLinesOfSome};
ghost use Rattle.sig_engines.specs.Refusals.{ReadsThenWrites};
ghost use Rattle.sig_engines.specs.Stores.{SomeFailed};

use crate::ask::MatchAsk;
use crate::counted::Counted;
use crate::error::RunError;
use crate::file_text::text_of_file;
use crate::lines::lines_of_file;
use sig_bits::{Input, Output};
use sig_core::{CoreError, DroidCore, Results};
use std::alloc::Global;

/// Writes a line for each format left for the file, in table order. With `all`, for each format
/// that the file hits.
///
/// Nothing is written before the file was read to its end. Where the input does not tell its bytes,
/// the answer is that of some file of bytes.
#[inline(never)]
pub fn run_match<K: DroidCore, R: Input, W: Output>(
    alloc: Global,
    core: &K,
    all: bool,
    file: &mut R,
    out: &mut W,
) -> Result<(), RunError>
    ensures answers { OnOk result (AddsLinesOfSome all (K.lists core.now) (R.to_come file.old) (W.written out.old) (W.written out.new)) }
    ensures at_end { OnOk result (IsAtEnd (R.to_come file.new)) }

    // Each refusal, and when. Before the answer is known nothing is written.
    ensures refuses { ReadsThenWrites result (R.failed file.new ≡ false) (R.failed file.new ≡ true) (W.failed out.new) (out.new ≡ out.old) }
    ensures memory { IsErrOf result RunError.OutOfMemory → R.failed file.old ≡ false → R.failed file.new ≡ false }
{
    let lines = lines_of_match(alloc, core, all, file)?;
    out.write_all(lines.as_bytes()).map_err(|_| RunError::Write)
}

// The lines that are written of a file.
fn lines_of_match<K: DroidCore, R: Input>(
    alloc: Global,
    core: &K,
    all: bool,
    file: &mut R,
) -> Result<String, RunError>
    ensures lines { IfOk result (λ lines. AreLinesOfSome all (K.lists core.now) None (R.to_come file.old) (string_bytes lines)) }
    ensures at_end { OnOk result (IsAtEnd (R.to_come file.new)) }

    // Each refusal, and when.
    ensures reads { OnOk result (R.failed file.new ≡ false) }
    ensures read { IsErrOf result RunError.Read → R.failed file.new ≡ true }
    ensures memory { IsErrOf result RunError.OutOfMemory → R.failed file.old ≡ false → R.failed file.new ≡ false }
    ensures never_write { ¬ IsErrOf result RunError.Write }
{
    let results = asked_hits(core, all, file)?;
    lines_of_file(alloc, core.table(), None, results.hits()).map_err(|_| RunError::OutOfMemory)
}

/// What is written of a file, of how many hits, and how many bytes the file has.
#[derive(Drop)]
pub(crate) struct FileAnswer {
    pub(crate) text: Vec<u8>,
    pub(crate) hits: usize,
    pub(crate) bytes: u64,
}

/// The answer to a file of this name.
pub(crate) fn answer_of_match<K: DroidCore, R: Input + Drop>(
    alloc: Global,
    core: &K,
    ask: MatchAsk<'_>,
    name: &str,
    file: R,
) -> Result<FileAnswer, RunError>
    ensures text { IfOk result (λ answer. IsTextOfSome ask.entry (K.lists core.now) name.now (R.to_come file) answer.hits answer.text.items) }

    // Each refusal, and when.
    ensures read { IsErrOf result RunError.Read → SomeFailed R.failed }
    ensures never_write { ¬ IsErrOf result RunError.Write }
{
    let mut file = Counted::new(file);
    let results = asked_hits(core, ask.all, &mut file)?;
    let hits = results.hits();
    match text_of_file(alloc, core.table(), ask, name, hits) {
        Ok(text) => Ok(FileAnswer {
            text,
            hits: hits.len(),
            bytes: file.bytes,
        }),
        Err(_) => Err(RunError::OutOfMemory),
    }
}

// The hits of the file, or what is left of them.
fn asked_hits<K: DroidCore, R: Input>(
    core: &K,
    all: bool,
    file: &mut R,
) -> Result<Results, RunError>
    ensures asked { IfOk result (AreAskedOfSome all (K.lists core.now) (R.to_come file.old)) }
    ensures at_end { OnOk result (IsAtEnd (R.to_come file.new)) }
    ensures reads { OnOk result (R.failed file.new ≡ false) }
    ensures read { IsErrOf result RunError.Read → R.failed file.new ≡ true }
    ensures memory { IsErrOf result RunError.OutOfMemory → R.failed file.old ≡ false → R.failed file.new ≡ false }
    ensures never_write { ¬ IsErrOf result RunError.Write }
{
    let mut results = core.match_binary_signatures(file).map_err(run_error)?;
    if all {
        return Ok(results);
    }
    core.remove_lower_priority_hits(&mut results);
    Ok(results)
}

fn run_error(error: CoreError) -> RunError
    ensures read { result ≡ RunError.Read → error ≡ CoreError.Read }
    ensures memory { result ≡ RunError.OutOfMemory → error ≡ CoreError.OutOfMemory }
    ensures never_write { result ≢ RunError.Write }
{
    match error {
        CoreError::Read => RunError::Read,
        CoreError::OutOfMemory => RunError::OutOfMemory,
    }
}
