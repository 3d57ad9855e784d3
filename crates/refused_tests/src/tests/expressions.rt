//! Expressions: `parse` and `print`.

use crate::tests::{begin, end};
use fixtures::Room;
use sig_bits::FromWrite;
use sig_expr::{Expr, ExprError, parse, print};
use std::alloc::Global;
use std::test::Fail;

// Whether this is the canonical text of the expression.
fn is_printed(alloc: Global, expr: &Expr, text: &str) -> bool {
    let mut out = FromWrite::new(Vec::new(alloc));
    print(expr, &mut out).is_ok() && out.into_inner().as_slice() == text.as_bytes()
}

// Whether the answer is the expression of this canonical text.
fn is_read(alloc: Global, answer: &Result<Expr, ExprError>, text: &str) -> bool {
    match answer {
        Ok(expr) => is_printed(alloc, expr, text),
        Err(_) => false,
    }
}

// Whether the text is read, or memory is wanted, and then it is read.
fn reads_or_lacks(rt: &HostRuntime, text: &[u8], printed: &str) -> bool {
    begin(rt);
    let first = parse(rt.alloc(), text);
    end(rt);
    let lacks_memory = matches!(&first, Err(ExprError::OutOfMemory));
    (lacks_memory || is_read(rt.alloc(), &first, printed))
        && is_read(rt.alloc(), &parse(rt.alloc(), text), printed)
}

#[test]
fn parse_lacks_memory_or_is_right(rt: HostRuntime) -> Result<(), Fail> {
    assert!(rt; reads_or_lacks(&rt, b"4a{3-3}{0-*}(0d0a|[!0a])", "4A{3}*(0D0A|[!0A])"));
    assert!(rt; reads_or_lacks(&rt, b"[4142:4241]{0-1}43", "[4142:4241]{0-1}43"));
    Ok(())
}

// Texts outside the profile, and why.
const FAULTY: &[(&[u8], ExprError)] = &[
    (b"4142(41|42)]", ExprError::Syntax { place: 11 }),
    (b"4142{65536}", ExprError::GapNumber { place: 4 }),
    (b"(41|42){0}", ExprError::GapEmpty { place: 7 }),
    (b"4142{5-2}", ExprError::GapOrder { place: 4 }),
    (b"4142[42:41]", ExprError::RangeOrder { place: 4 }),
    (b"4142[!00:FF]", ExprError::ClassEmpty { place: 4 }),
    (b"4142[41:4243]", ExprError::RangeLength { place: 4 }),
    (
        b"4142[!414243444546474849]",
        ExprError::BracketTooLong { place: 4 },
    ),
];

// Whether the text is refused so.
fn is_refused(rt: &HostRuntime, text: &[u8], fault: ExprError) -> bool {
    begin(rt);
    let answer = parse(rt.alloc(), text);
    end(rt);
    answer.err() == Some(fault)
}

#[test]
fn parse_takes_no_memory_for_a_fault(rt: HostRuntime) -> Result<(), Fail> {
    for (text, fault) in FAULTY {
        assert!(rt; is_refused(&rt, text, *fault), "{fault:?}");
    }
    Ok(())
}

#[test]
fn parse_takes_no_memory_for_a_long_text(rt: HostRuntime) -> Result<(), Fail> {
    let text = vec![in rt.alloc(); b'4'; 8193]?;
    assert!(rt; is_refused(&rt, &text, ExprError::TooLong));
    Ok(())
}

#[test]
fn print_takes_no_memory(rt: HostRuntime) -> Result<(), Fail> {
    let expr = parse(rt.alloc(), b"4a{3-3}{0-*}(0d0a|[!0a])")?;
    let mut room = Room::of(100);
    begin(&rt);
    let printed = print(&expr, &mut room);
    end(&rt);
    assert!(rt; printed.is_ok());
    assert_eq!(rt; room.left(), 82);
    Ok(())
}
