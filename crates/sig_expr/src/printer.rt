//! The canonical text of an expression, written piece by piece from fixed arrays.
//!
//! `{3-3}` becomes `{3}`, `{0-*}` becomes `*`, and digits are capitals. Numbers are written by
//! `itoa` into room on the stack; its text is std's `decimal`, in which the grammar is stated too.
//! So printing takes no memory. After a failed write a prefix of the text may have been written.

ghost use Rattle.std.specs.Prelude.{◌≡◌, ◌+◌, ◌<◌, [], ◌∷◌, ◌++◌, length, map, slice_index, codes, decimal, IsErr, IsTrue, OnOk, is_err};
ghost use Rattle.hex.specs.Hex.{encode_upper, upper_digits};
ghost use Rattle.sig_bits.specs.Device.{Adds};
ghost use Rattle.sig_expr.specs.Canon.{count_text, from_text, between_text, gap_text, range_text, not_text, atom_text, alternative_text, alternatives_text, item_text, canon};
ghost use Rattle.sig_expr.specs.Writing.{Prints};

use crate::expr::Expr;
use crate::item::{Alternatives, Atom, Item};
use crate::short::Short;
use itoa::Buffer;
use sig_bits::{DeviceFault, Output};

fn put<W: Output>(out: &mut W, bytes: &[u8]) -> Result<(), DeviceFault>
    requires { 0 < length bytes.now }
    ensures { Prints W.failed W.limit W.written out.old bytes.now result out.new }
{
    out.write_all(bytes)
}

// The digit of a value below 16.
fn digit(value: u8) -> u8
    requires { value < 16 }
    ensures { result ≡ slice_index upper_digits value }
{
    b"0123456789ABCDEF"[usize::from(value)]
}

#[tactic(auto, unfolding(hex::specs::Hex::encode_with))]
fn put_pair<W: Output>(out: &mut W, byte: u8) -> Result<(), DeviceFault>
    ensures { Prints W.failed W.limit W.written out.old (encode_upper (byte ∷ [])) result out.new }
{
    put(out, &[digit(byte / 16), digit(byte % 16)])
}

fn put_word<W: Output>(out: &mut W, word: Short) -> Result<(), DeviceFault>
    ensures { Prints W.failed W.limit W.written out.old (encode_upper word) result out.new }
{
    for byte in word.as_bytes() {
        put_pair(out, *byte)?;
    }
    Ok(())
}

#[tactic(auto, using(std::proofs::lemmas::Fmt::decimal_nonempty))]
fn put_number<W: Output>(out: &mut W, number: u32) -> Result<(), DeviceFault>
    ensures { Prints W.failed W.limit W.written out.old (decimal number) result out.new }
{
    put(out, Buffer::new().format(number).as_bytes())
}

// A gap of this length or more.
fn put_from<W: Output>(out: &mut W, min: u32) -> Result<(), DeviceFault>
    ensures { Prints W.failed W.limit W.written out.old (from_text min) result out.new }
{
    put(out, b"{")?;
    put_number(out, min)?;
    put(out, b"-*}")
}

// A gap of one length.
fn put_count<W: Output>(out: &mut W, number: u32) -> Result<(), DeviceFault>
    ensures { Prints W.failed W.limit W.written out.old (count_text number) result out.new }
{
    put(out, b"{")?;
    put_number(out, number)?;
    put(out, b"}")
}

// A gap between two lengths.
fn put_between<W: Output>(out: &mut W, min: u32, max: u32) -> Result<(), DeviceFault>
    ensures { Prints W.failed W.limit W.written out.old (between_text min max) result out.new }
{
    put(out, b"{")?;
    put_number(out, min)?;
    put(out, b"-")?;
    put_number(out, max)?;
    put(out, b"}")
}

fn put_gap<W: Output>(out: &mut W, min: u32, max: Option<u32>) -> Result<(), DeviceFault>
    ensures { Prints W.failed W.limit W.written out.old (gap_text min max) result out.new }
{
    match max {
        None if min == 0 => put(out, b"*"),
        None => put_from(out, min),
        Some(max) if min == max => put_count(out, max),
        Some(max) => put_between(out, min, max),
    }
}

// A bracket with two ends, behind what opens it.
fn put_range<W: Output>(
    out: &mut W,
    opening: &[u8],
    first: Short,
    second: Short,
) -> Result<(), DeviceFault>
    requires { 0 < length opening.now }
    ensures { Prints W.failed W.limit W.written out.old (range_text opening.now first second) result out.new }
{
    put(out, opening)?;
    put_word(out, first)?;
    put(out, b":")?;
    put_word(out, second)?;
    put(out, b"]")
}

// A bracket with one end.
fn put_not<W: Output>(out: &mut W, end: Short) -> Result<(), DeviceFault>
    ensures { Prints W.failed W.limit W.written out.old (not_text end) result out.new }
{
    put(out, b"[!")?;
    put_word(out, end)?;
    put(out, b"]")
}

fn put_atom<W: Output>(out: &mut W, atom: Atom) -> Result<(), DeviceFault>
    ensures { Prints W.failed W.limit W.written out.old (atom_text atom) result out.new }
{
    match atom {
        Atom::Byte(byte) => put_pair(out, byte),
        Atom::Range(first, second) => put_range(out, b"[", first, second),
        Atom::Not(end) => put_not(out, end),
        Atom::NotRange(first, second) => put_range(out, b"[!", first, second),
    }
}

fn put_alternative<W: Output>(out: &mut W, alternative: &[Atom]) -> Result<(), DeviceFault>
    ensures { Prints W.failed W.limit W.written out.old (alternative_text alternative.now) result out.new }
{
    for atom in alternative {
        put_atom(out, *atom)?;
    }
    Ok(())
}

// The alternatives of a list, each behind its sign.
fn put_alternatives<W: Output>(out: &mut W, alternatives: &[Vec<Atom>]) -> Result<(), DeviceFault>
    ensures { Prints W.failed W.limit W.written out.old (alternatives_text (codes "(") (map (λ v. v.items) alternatives.now)) result out.new }
{
    let mut sign = b'(';
    for alternative in alternatives {
        put(out, &[sign])?;
        put_alternative(out, alternative.as_slice())?;
        sign = b'|';
    }
    Ok(())
}

fn put_list<W: Output>(out: &mut W, alternatives: &Alternatives) -> Result<(), DeviceFault>
    ensures { Prints W.failed W.limit W.written out.old (alternatives_text (codes "(") alternatives.now ++ codes ")") result out.new }
{
    put_alternatives(out, alternatives.as_slice())?;
    put(out, b")")
}

fn put_item<W: Output>(out: &mut W, item: &Item) -> Result<(), DeviceFault>
    ensures { Prints W.failed W.limit W.written out.old (item_text item.now) result out.new }
{
    match item {
        Item::Byte(byte) => put_pair(out, *byte),
        Item::Any => put(out, b"??"),
        Item::Gap { min, max } => put_gap(out, *min, *max),
        Item::Alt(alternatives) => put_list(out, alternatives),
        Item::Range(first, second) => put_range(out, b"[", *first, *second),
        Item::Not(end) => put_not(out, *end),
        Item::NotRange(first, second) => put_range(out, b"[!", *first, *second),
    }
}

fn put_items<W: Output>(out: &mut W, items: &[Item]) -> Result<(), DeviceFault>
    ensures { Prints W.failed W.limit W.written out.old (canon items.now) result out.new }
{
    for item in items {
        put_item(out, item)?;
    }
    Ok(())
}

/// Writes the canonical text: pairs in capitals, and each gap in its shortest spelling.
///
/// It takes no memory. After a fault an unknown part of the text may be written.
pub fn print<W: Output>(expr: &Expr, out: &mut W) -> Result<(), DeviceFault>
    ensures fails { W.failed out.new ≡ is_err result }
    ensures stays_failed { IsTrue (W.failed out.old) → IsErr result }
    ensures lowers { OnOk result (W.limit out.old ≡ length (canon expr.now) + W.limit out.new) }
    ensures adds { OnOk result (Adds (W.written out.old) (canon expr.now) (W.written out.new)) }
{
    put_items(out, expr.items())
}
