//! Automata, products, certificates and the finder.

use crate::tests::cases::{CASES, Case, ONE_FORMAT, TWO_BLOCKERS, table_of};
use crate::tests::{begin, end};
use fixtures::{BOTH_ENDS, OVER_BOTH, Rows, TWO};
use sig_auto::Auto;
use sig_cert::{CheckError, check, check_witness};
use sig_core::CoreError;
use sig_find::{
    Fate, Found, PairClass, SignatureLife, class_of_pair, decide_format, find, lives_of_table,
};
use sig_product::{Product, ProductError, all_blockers};
use sig_table::{FormatId, Sequence, SigId, Table};
use std::alloc::AllocError;
use std::test::Fail;

// What is asked of the automaton of `(41|4142)43` at the start of a file.
fn is_of_a_list(auto: &Auto) -> bool {
    let mut to = [0xFF];
    if auto.slots() != 5 {
        return false;
    }
    auto.step_set(&[0x06], 0x43, &mut to);
    auto.follows(0, 1)
        && auto.follows(0, 2)
        && !auto.follows(0, 3)
        && auto.accepting(4)
        && !auto.accepting(3)
        && to[0] == 0x10
}

// Whether it is so, where there was memory to make it.
fn is_of_a_list_if_made(auto: &Result<Auto, AllocError>) -> bool {
    match auto {
        Ok(auto) => is_of_a_list(auto),
        Err(_) => true,
    }
}

// Whether an automaton of the sequence is right, and takes no memory once it is made.
fn makes_an_automaton(rt: &HostRuntime, sequence: &Sequence) -> Result<bool, Fail> {
    begin(rt);
    let first = Auto::of(rt.alloc(), sequence);
    end(rt);
    let again = Auto::of(rt.alloc(), sequence)?;
    begin(rt);
    let is_right = is_of_a_list(&again);
    end(rt);
    Ok(is_right && is_of_a_list_if_made(&first))
}

#[test]
fn auto_of_lacks_memory_or_is_right(rt: HostRuntime) -> Result<(), Fail> {
    let table = table_of(&rt, Rows("fmt/1,1,BOF,0,,(41|4142)43\n", ""))?;
    assert_eq!(rt; table.signature_count(), 1);
    for sequence in table.sequences_of(SigId(0)) {
        assert!(rt; makes_an_automaton(&rt, sequence)?);
    }
    Ok(())
}

// What is asked of the product of the first two signatures of `TWO_BLOCKERS` with both blockers.
fn is_of_two_blockers(product: &Product) -> bool {
    let mut row = [0xFF; 6];
    if product.width() != row.len() {
        return false;
    }
    product.start(&mut row);
    product.well_formed(&row) && !product.is_bad(&row) && row == [0, 0, 0, 0, 1, 1]
}

// Whether it is so, or memory was wanted.
fn is_product_or_lacks(product: &Result<Product, ProductError>) -> bool {
    match product {
        Ok(product) => is_of_two_blockers(product),
        Err(error) => *error == ProductError::OutOfMemory,
    }
}

// The product, if the table has its four signatures.
fn product_of(
    rt: &HostRuntime,
    table: &Table,
    blockers: &[SigId],
) -> Result<Product, ProductError> {
    if table.signature_count() != 4 {
        return Err(ProductError::Blocker);
    }
    Product::of(rt.alloc(), table, SigId(0), SigId(1), blockers)
}

#[test]
fn product_of_lacks_memory_or_is_right(rt: HostRuntime) -> Result<(), Fail> {
    let table = table_of(&rt, TWO_BLOCKERS)?;
    let blockers = [SigId(2), SigId(3)];
    begin(&rt);
    let first = product_of(&rt, &table, &blockers);
    end(&rt);
    assert!(rt; is_product_or_lacks(&first));
    let again = product_of(&rt, &table, &blockers)?;
    begin(&rt);
    let is_right = is_of_two_blockers(&again);
    end(&rt);
    assert!(rt; is_right);
    Ok(())
}

#[test]
fn product_of_takes_no_memory_for_a_faulty_blocker(rt: HostRuntime) -> Result<(), Fail> {
    let table = table_of(&rt, TWO_BLOCKERS)?;
    begin(&rt);
    let refused = product_of(&rt, &table, &[SigId(1)]);
    end(&rt);
    assert_eq!(rt; refused.err(), Some(ProductError::Blocker));
    Ok(())
}

// Whether these are both blockers.
fn are_both(found: &[SigId]) -> bool {
    found == [SigId(2), SigId(3)].as_slice()
}

#[test]
fn all_blockers_lacks_memory_or_is_right(rt: HostRuntime) -> Result<(), Fail> {
    let table = table_of(&rt, TWO_BLOCKERS)?;
    assert_eq!(rt; table.signature_count(), 4);
    begin(&rt);
    let first = all_blockers(rt.alloc(), &table, SigId(0), SigId(1));
    end(&rt);
    if let Ok(found) = first {
        assert!(rt; are_both(&found));
    }
    let again = all_blockers(rt.alloc(), &table, SigId(0), SigId(1))?;
    assert!(rt; are_both(&again));
    Ok(())
}

// The certificates of `TWO` and of `OVER_BOTH`, in both versions.
const OF_TWO: &[u8] =
    b"PSAC\x01\x00\x00\x00\x01\x01\x00\x00\x00\x00\x00\x02\x00\x00\x00\x00\x00\x01\x00\x01";

const OF_TWO_IN_VERSION_2: &[u8] =
    b"PSAC\x02\x00\x00\x00\x01\x01\x00\x00\x00\x00\x00\x02\x00\x00\x00\x00\x00\x01\x00\x01";

const OF_OVER_BOTH: &[u8] = b"PSAC\x01\x00\x00\x00\x03\
      \x01\x00\x01\x00\x00\x00\x02\x00\x00\x00\x04\
      \x00\x00\x00\x00\x01\x00\x01\x00\x01\x02\x00\x02\x00\x02\x04\x00\x03\x00\x03\x08\
      \x00\x00";

const OF_OVER_BOTH_IN_VERSION_2: &[u8] = b"PSAC\x02\x00\x00\x00\x03\
      \x01\x00\x01\x00\x00\x00\x02\x00\x00\x00\x04\
      \x00\x00\x00\x00\x01\x00\x01\x00\x01\x02\x00\x02\x00\x02\x04\x00\x03\x00\x03\x08\
      \x00\x00";

// The first with its second row dropped.
const NOT_CLOSED: &[u8] = b"PSAC\x01\x00\x00\x00\x01\x01\x00\x00\x00\x00\x00\x01\x00\x00\x00\x00";

const MISSING: CheckError = CheckError::NotClosed {
    pair: 0,
    table: 0,
    row: 0,
    byte: 0x41,
};

// Whether the checker wants memory or answers this of the certificate, and then answers it.
fn judges_or_lacks(
    rt: &HostRuntime,
    rows: Rows,
    certificate: &[u8],
    want: Result<(), CheckError>,
) -> Result<bool, Fail> {
    let table = table_of(rt, rows)?;
    begin(rt);
    let first = check(rt.alloc(), &table, certificate);
    end(rt);
    let again = check(rt.alloc(), &table, certificate);
    Ok((first == Err(CheckError::OutOfMemory) || first == want) && again == want)
}

#[test]
fn check_of_version_1_lacks_memory_or_is_right(rt: HostRuntime) -> Result<(), Fail> {
    assert!(rt; judges_or_lacks(&rt, TWO, OF_TWO, Ok(()))?);
    assert!(rt; judges_or_lacks(&rt, OVER_BOTH, OF_OVER_BOTH, Ok(()))?);
    assert!(rt; judges_or_lacks(&rt, TWO, NOT_CLOSED, Err(MISSING))?);
    Ok(())
}

#[test]
fn check_of_version_2_lacks_memory_or_is_right(rt: HostRuntime) -> Result<(), Fail> {
    assert!(rt; judges_or_lacks(&rt, TWO, OF_TWO_IN_VERSION_2, Ok(()))?);
    assert!(rt; judges_or_lacks(&rt, OVER_BOTH, OF_OVER_BOTH_IN_VERSION_2, Ok(()))?);
    Ok(())
}

// The first two of the formats at these places.
fn first_two(places: &[u16]) -> Option<(FormatId, FormatId)> {
    match places {
        [a, b, ..] => Some((FormatId(*a), FormatId(*b))),
        _ => None,
    }
}

type Two = Result<Option<(FormatId, FormatId)>, CoreError>;

// Whether the answer is the first two of these, or memory was wanted.
fn are_two_or_lacks(answer: &Two, places: &[u16]) -> bool {
    match answer {
        Ok(two) => *two == first_two(places),
        Err(error) => *error == CoreError::OutOfMemory,
    }
}

fn is_witness_checked(rt: &HostRuntime, case: &Case) -> Result<bool, Fail> {
    let table = table_of(rt, case.rows)?;
    begin(rt);
    let first = check_witness(rt.alloc(), &table, case.file);
    end(rt);
    let again = check_witness(rt.alloc(), &table, case.file)?;
    Ok(are_two_or_lacks(&first, case.left) && again == first_two(case.left))
}

#[test]
fn check_witness_lacks_memory_or_is_right(rt: HostRuntime) -> Result<(), Fail> {
    for case in CASES {
        assert!(rt; is_witness_checked(&rt, case)?);
    }
    Ok(())
}

// What is to be found of a table.
#[derive(Clone, Copy)]
enum Finds {
    Certificate,
    // The file `41`, which leaves the first two formats.
    Witness,
    // Nothing, of the first two signatures.
    GaveUp,
}

// Tables, budgets, and what is found.
const FINDS: &[(Rows, u32, Finds)] = &[
    (ONE_FORMAT, 100, Finds::Certificate),
    (TWO, 2, Finds::Certificate),
    (TWO, 1, Finds::GaveUp),
    (BOTH_ENDS, 100, Finds::Witness),
    (OVER_BOTH, 4, Finds::Certificate),
    (OVER_BOTH, 3, Finds::GaveUp),
    (TWO_BLOCKERS, 100, Finds::Certificate),
];

fn is_found(rt: &HostRuntime, table: &Table, found: &Found, finds: Finds) -> bool {
    match (found, finds) {
        (Found::Certificate(bytes), Finds::Certificate) => {
            check(rt.alloc(), table, bytes.as_slice()).is_ok()
        }
        (Found::Witness { file, a, b }, Finds::Witness) => {
            file.as_slice() == b"A".as_slice() && *a == FormatId(0) && *b == FormatId(1)
        }
        (Found::GaveUp { s, t }, Finds::GaveUp) => *s == SigId(0) && *t == SigId(1),
        _ => false,
    }
}

// Whether it is, where there was memory.
fn is_found_if_any(
    rt: &HostRuntime,
    table: &Table,
    found: &Result<Found, AllocError>,
    finds: Finds,
) -> bool {
    match found {
        Ok(found) => is_found(rt, table, found, finds),
        Err(_) => true,
    }
}

fn finds_or_lacks(rt: &HostRuntime, rows: Rows, budget: u32, finds: Finds) -> Result<bool, Fail> {
    let table = table_of(rt, rows)?;
    begin(rt);
    let first = find(rt.alloc(), &table, budget);
    end(rt);
    let again = find(rt.alloc(), &table, budget)?;
    Ok(is_found_if_any(rt, &table, &first, finds) && is_found(rt, &table, &again, finds))
}

#[test]
fn find_lacks_memory_or_is_right(rt: HostRuntime) -> Result<(), Fail> {
    for (rows, budget, finds) in FINDS {
        assert!(rt; finds_or_lacks(&rt, *rows, *budget, *finds)?);
    }
    Ok(())
}

// Tables, budgets, and what is found of the last format.
const FATES: &[(Rows, u32, Fate)] = &[
    (ONE_FORMAT, 100, Fate::Alive),
    (ONE_FORMAT, 2, Fate::Unknown),
    (UNDER_ITS_FRONT, 100, Fate::Dead),
];

// Each file that begins with 41 42 begins with 41.
const UNDER_ITS_FRONT: Rows = Rows("fmt/1,1,BOF,0,,41\nfmt/2,2,BOF,0,,4142\n", "fmt/1,fmt/2\n");

// What is found of the last format of a table that has one.
fn last_fate(
    rt: &HostRuntime,
    table: &Table,
    budget: u32,
) -> Result<(Fate, Vec<SignatureLife>), AllocError> {
    let last = table.format_count().saturating_sub(1) as u16;
    decide_format(rt.alloc(), table, FormatId(last), budget)
}

// Whether it is this, or memory was wanted.
fn is_fate_or_lacks(found: &Result<(Fate, Vec<SignatureLife>), AllocError>, fate: Fate) -> bool {
    match found {
        Ok((found, lives)) => *found == fate && lives.len() == 1,
        Err(_) => true,
    }
}

fn decides_or_lacks(rt: &HostRuntime, rows: Rows, budget: u32, fate: Fate) -> Result<bool, Fail> {
    let table = table_of(rt, rows)?;
    begin(rt);
    let first = last_fate(rt, &table, budget);
    end(rt);
    let (again, _) = last_fate(rt, &table, budget)?;
    Ok(is_fate_or_lacks(&first, fate) && again == fate)
}

#[test]
fn decide_format_lacks_memory_or_is_right(rt: HostRuntime) -> Result<(), Fail> {
    for (rows, budget, fate) in FATES {
        assert!(rt; decides_or_lacks(&rt, *rows, *budget, *fate)?);
    }
    Ok(())
}

// Tables, budgets, and the class of the first two formats.
const CLASSES: &[(Rows, u32, PairClass)] = &[
    (TWO, 100, PairClass::Apart),
    (TWO, 1, PairClass::Open),
    (LONGER_AND_SHORTER, 100, PairClass::Over),
    // No file leaves the second: each hits one of the two above it.
    (TWO_BLOCKERS, 100, PairClass::Under),
];

const LONGER_AND_SHORTER: Rows = Rows("fmt/1,1,BOF,0,,4142\nfmt/2,2,BOF,0,,41\n", "");

// The class of the first two formats, if the table has two.
fn class_of(rt: &HostRuntime, table: &Table, budget: u32) -> Result<Option<PairClass>, AllocError> {
    if table.format_count() < 2 {
        return Ok(None);
    }
    let lives = lives_of_table(rt.alloc(), table, budget)?;
    let class = class_of_pair(rt.alloc(), table, &lives, FormatId(0), FormatId(1), budget)?;
    Ok(Some(class))
}

// Whether it is this class, or memory was wanted.
fn is_class_or_lacks(found: &Result<Option<PairClass>, AllocError>, class: PairClass) -> bool {
    match found {
        Ok(found) => *found == Some(class),
        Err(_) => true,
    }
}

fn tells_class_or_lacks(
    rt: &HostRuntime,
    rows: Rows,
    budget: u32,
    class: PairClass,
) -> Result<bool, Fail> {
    let table = table_of(rt, rows)?;
    begin(rt);
    let first = class_of(rt, &table, budget);
    end(rt);
    let again = class_of(rt, &table, budget)?;
    Ok(is_class_or_lacks(&first, class) && again == Some(class))
}

#[test]
fn class_of_pair_lacks_memory_or_is_right(rt: HostRuntime) -> Result<(), Fail> {
    for (rows, budget, class) in CLASSES {
        assert!(rt; tells_class_or_lacks(&rt, *rows, *budget, *class)?);
    }
    Ok(())
}
