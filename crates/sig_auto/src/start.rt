//! What a sequence does at the start of a file, found without its automaton.
//!
//! Only a gap can be skipped, and each gap has a slot that takes any byte: so the first item tells
//! with which bytes an expression begins.

ghost use Rattle.std.specs.Prelude.{◌≡◌, ◌⊎◌, ◌&&◌, ◌↔◌, ◌<◌, ℕ, IsTrue, length, map};
ghost use Rattle.sig_auto.specs.Begins.{Begins, BeginsOutside};
ghost use Rattle.sig_auto.specs.Local.{is_nullable};
ghost use Rattle.sig_auto.specs.Rows.{above, below};
ghost use Rattle.sig_auto.specs.Runs.{LeadsOn};
ghost use Rattle.sig_auto.specs.Tracks.{Accepting};
ghost use Rattle.sig_auto.specs.Trees.{Tree, alternatives_tree, atom_tree, atoms_tree, back_tree, front_tree, item_tree, items_tree, whole_tree};
ghost use Rattle.sig_auto.specs.TreeSlots.{slots_of};
ghost use Rattle.sig_bits.specs.ByteClasses.{Holds};
ghost use Rattle.sig_expr.specs.Profile.{AlternativesSound, AtomSound, AtomsSound, ItemSound, ItemsSound};

use sig_bits::ByteClass;
use sig_expr::{Atom, Item};
use sig_table::{Position, Sequence};

/// The bytes on which the start of the sequence's automaton has a successor.
pub fn first_bytes(sequence: &Sequence) -> ByteClass
    ensures { (b : ℕ) → b < 256 → (Holds result b ↔ LeadsOn (whole_tree sequence.now) 0 b) }
{
    let expr = sequence.expr();
    if has_bytes_before(sequence.position()) {
        return ByteClass::all();
    }
    match expr.items().split_first() {
        Some((item, _)) => bytes_of_item(item),
        None => ByteClass::all(),
    }
}

/// Whether the start of the sequence's automaton is accepting: the sequence stands in the empty
/// file.
pub fn accepts_empty(sequence: &Sequence) -> bool
    ensures { IsTrue result ↔ Accepting (whole_tree sequence.now) 0 }
{
    let position = sequence.position();
    let expr = sequence.expr();
    is_at_both_ends(position) && are_nullable(expr.items())
}

// Whether bytes may stand before the expression.
fn has_bytes_before(position: Position) -> bool
    ensures { IsTrue result ↔ 0 < slots_of (front_tree position) }
{
    match position {
        Position::Bof { max, .. } => max > 0,
        Position::Eof { .. } | Position::Variable => true,
    }
}

// Whether neither before nor behind the expression a byte must stand.
fn is_at_both_ends(position: Position) -> bool
    ensures { result ≡ (is_nullable (front_tree position) && is_nullable (back_tree position)) }
{
    match position {
        Position::Bof { min, .. } | Position::Eof { min, .. } => min == 0,
        Position::Variable => true,
    }
}

// Whether the empty word is one of each item's.
fn are_nullable(items: &[Item]) -> bool
    requires { ItemsSound items.now }
    ensures { (last : Tree) → is_nullable (items_tree items.now last) ≡ (result && is_nullable last) }
{
    for item in items {
        if !is_nullable(item) {
            return false;
        }
    }
    true
}

fn is_nullable(item: &Item) -> bool
    requires { ItemSound item.now }
    ensures { result ≡ is_nullable (item_tree item.now) }
{
    match item {
        Item::Gap { min, .. } => *min == 0,
        _ => false,
    }
}

// The bytes with which the words of the item begin.
fn bytes_of_item(item: &Item) -> ByteClass
    requires { ItemSound item.now }
    ensures { (b : ℕ) → b < 256 → (Holds result b ↔ Begins (item_tree item.now) b) }
{
    match item {
        Item::Byte(b) => ByteClass::of_byte(*b),
        Item::Any | Item::Gap { .. } => ByteClass::all(),
        Item::Alt(alternatives) => bytes_of_alternatives(alternatives.as_slice()),
        Item::Range(a, b) => bytes_of_atom(&Atom::Range(*a, *b)),
        Item::Not(a) => bytes_of_atom(&Atom::Not(*a)),
        Item::NotRange(a, b) => bytes_of_atom(&Atom::NotRange(*a, *b)),
    }
}

fn bytes_of_alternatives(alternatives: &[Vec<Atom>]) -> ByteClass
    requires { AlternativesSound (map (λ v. v.items) alternatives.now) }
    ensures { (b : ℕ) → b < 256 → (Holds result b ↔ Begins (alternatives_tree (map (λ v. v.items) alternatives.now)) b) }
{
    let mut bytes = ByteClass::none();
    for alternative in alternatives {
        bytes = bytes.union(bytes_of_atoms(alternative.as_slice()));
    }
    bytes
}

fn bytes_of_atoms(atoms: &[Atom]) -> ByteClass
    requires { AtomsSound atoms.now }
    ensures { (b : ℕ) → b < 256 → (Holds result b ↔ Begins (atoms_tree atoms.now) b) }
{
    match atoms.split_first() {
        Some((atom, _)) => bytes_of_atom(atom),
        None => ByteClass::none(),
    }
}

fn bytes_of_atom(atom: &Atom) -> ByteClass
    requires { AtomSound atom.now }
    ensures { (b : ℕ) → b < 256 → (Holds result b ↔ Begins (atom_tree atom.now) b) }
{
    match atom {
        Atom::Byte(b) => ByteClass::of_byte(*b),
        Atom::Range(a, b) => ByteClass::range(a.as_bytes()[0], b.as_bytes()[0]),
        Atom::Not(a) => bytes_outside(a.as_bytes(), a.as_bytes()),
        Atom::NotRange(a, b) => bytes_outside(a.as_bytes(), b.as_bytes()),
    }
}

// The first bytes of as many that are before the first ones or after the second.
fn bytes_outside(a: &[u8], b: &[u8]) -> ByteClass
    requires a { 0 < length a.now }
    requires b { 0 < length b.now }
    ensures { (c : ℕ) → c < 256 → (Holds result c ↔ BeginsOutside a.now b.now c) }
{
    let mut bytes = ByteClass::range(a[0], b[0]).without();
    if is_above_some(&a[1..]) {
        bytes = bytes.union(ByteClass::of_byte(a[0]));
    }
    if is_below_some(&b[1..]) {
        bytes = bytes.union(ByteClass::of_byte(b[0]));
    }
    bytes
}

// Whether as many bytes are before these.
fn is_above_some(bytes: &[u8]) -> bool
    ensures { IsTrue result ↔ 0 < length (below bytes.now) }
{
    let Some((first, later)) = bytes.split_first() else {
        return false;
    };
    *first > 0 || is_above_some(later)
}

// Whether as many bytes are after these.
fn is_below_some(bytes: &[u8]) -> bool
    ensures { IsTrue result ↔ 0 < length (above bytes.now) }
{
    let Some((first, later)) = bytes.split_first() else {
        return false;
    };
    *first < 255 || is_below_some(later)
}
