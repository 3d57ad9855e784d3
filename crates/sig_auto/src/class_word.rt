//! Brackets of several bytes as rows of classes, one class for each byte.
//!
//! `[4142:4241]` has the rows `41 42`, `41 43-FF`, `42 00-40` and `42 41`, each an alternative of
//! the tree. They are made once, with the automaton, so a step looks at classes alone; the limit of
//! slots bounds them. Their order numbers the slots, and certificates name slots by number.

ghost use Rattle.std.specs.Prelude.{◌≡◌, ◌++◌, ◌+◌, ◌≤◌, ◌<◌, [], ◌∷◌, OnOk, drop, length, map, slice_index, take, IfOk};
ghost use Rattle.sig_auto.specs.Rows.{above, behind_these, below, between, inner_at, only_these, rest};

use crate::class::Class;
use std::alloc::{AllocError, Global};

// The classes of as many bytes.
pub(crate) type ClassWord = Vec<Class>;

// Adds the rows of the words that are before the bytes, and agree with them on the first `agreed`.
fn push_below(
    alloc: Global,
    rows: &mut Vec<ClassWord>,
    bytes: &[u8],
    agreed: usize,
) -> Result<(), AllocError>
    requires { agreed ≤ length bytes.now }
    ensures { OnOk result (map (λ v. v.items) rows.new.items ≡ map (λ v. v.items) rows.old.items
        ++ behind_these (take agreed bytes.now) (below (drop agreed bytes.now))) }
{
    for j in agreed..bytes.len() {
        if bytes[j] == 0 {
            continue;
        }
        rows.push(row(alloc, bytes, j, Class::Within(0, bytes[j] - 1))?)?;
    }
    Ok(())
}

// Adds the rows of the words that are after the bytes, and agree with them on the first `agreed`.
fn push_above(
    alloc: Global,
    rows: &mut Vec<ClassWord>,
    bytes: &[u8],
    agreed: usize,
) -> Result<(), AllocError>
    requires { agreed ≤ length bytes.now }
    ensures { OnOk result (map (λ v. v.items) rows.new.items ≡ map (λ v. v.items) rows.old.items
        ++ behind_these (take agreed bytes.now) (above (drop agreed bytes.now))) }
{
    let mut j = bytes.len();
    while j > agreed {
        j -= 1;
        if bytes[j] == 255 {
            continue;
        }
        rows.push(row(alloc, bytes, j, Class::Within(bytes[j] + 1, 255))?)?;
    }
    Ok(())
}

// Adds the row of the words that agree with the bytes before place j, and are there between the
// two.
fn push_inner(
    alloc: Global,
    rows: &mut Vec<ClassWord>,
    bytes: &[u8],
    j: usize,
    last: u8,
) -> Result<(), AllocError>
    requires { j < length bytes.now }
    ensures { OnOk result (map (λ v. v.items) rows.new.items ≡ map (λ v. v.items) rows.old.items
        ++ behind_these (take j bytes.now) (inner_at (slice_index bytes.now j) last (drop (j + 1) bytes.now))) }
{
    if bytes[j] as u32 + 1 >= last as u32 {
        return Ok(());
    }
    rows.push(row(alloc, bytes, j, Class::Within(bytes[j] + 1, last - 1))?)?;
    Ok(())
}

// The bytes before place j, the class there, and any bytes behind it.
fn row(alloc: Global, bytes: &[u8], j: usize, class: Class) -> Result<ClassWord, AllocError>
    requires { j < length bytes.now }
    ensures { IfOk result (λ row. row.items ≡ only_these (take j bytes.now) ++ class ∷ rest (drop (j + 1) bytes.now)) }
{
    let mut row = only_these(alloc, &bytes[..j])?;
    row.push(class)?;
    row.extend_from_slice(rest(alloc, &bytes[j + 1..])?.as_slice())?;
    Ok(row)
}

// The bytes alone.
fn only_these(alloc: Global, bytes: &[u8]) -> Result<ClassWord, AllocError>
    ensures { IfOk result (λ row. row.items ≡ only_these bytes.now) }
{
    bytes
        .iter()
        .map(|byte| Class::Within(*byte, *byte))
        .collect(alloc)
}

// Any bytes, as many as these.
fn rest(alloc: Global, bytes: &[u8]) -> Result<ClassWord, AllocError>
    ensures { IfOk result (λ row. row.items ≡ rest bytes.now) }
{
    bytes.iter().map(|_| Class::ANY).collect(alloc)
}

// The rows of the words that are before the first bytes or after the second.
pub(crate) fn outside_rows(alloc: Global, a: &[u8], b: &[u8]) -> Result<Vec<ClassWord>, AllocError>
    ensures { IfOk result (λ rows. map (λ v. v.items) rows.items ≡ below a.now ++ above b.now) }
{
    let mut rows = Vec::new(alloc);
    push_below(alloc, &mut rows, a, 0)?;
    push_above(alloc, &mut rows, b, 0)?;
    Ok(rows)
}

// The rows of the words from the first bytes to the second.
pub(crate) fn range_rows(alloc: Global, a: &[u8], b: &[u8]) -> Result<Vec<ClassWord>, AllocError>
    ensures { IfOk result (λ rows. map (λ v. v.items) rows.items ≡ between a.now b.now) }
{
    let mut rows = Vec::new(alloc);
    for j in 0..a.len().min(b.len()) {
        if a[j] != b[j] {
            rows.push(only_these(alloc, a)?)?;
            push_above(alloc, &mut rows, a, j + 1)?;
            push_inner(alloc, &mut rows, a, j, b[j])?;
            push_below(alloc, &mut rows, b, j + 1)?;
            rows.push(only_these(alloc, b)?)?;
            return Ok(rows);
        }
    }
    Ok(rows)
}
