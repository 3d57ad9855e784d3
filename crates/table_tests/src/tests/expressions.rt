//! Texts of expressions: the first fault of each, the items of those that have none, and their
//! shortest spelling. Up to the greatest length.

use sig_bits::FromWrite;
use sig_expr::ExprError::{
    BracketTooLong, ClassEmpty, GapEmpty, GapNumber, GapOrder, RangeLength, RangeOrder, Syntax,
    TooLong,
};
use sig_expr::{ExprError, parse, print};
use std::alloc::Global;
use std::test::Fail;

// Texts, and the first fault of each.
const FAULTS: &[(&str, ExprError)] = &[
    ("", Syntax { place: 0 }),
    ("4", Syntax { place: 1 }),
    ("[41]", Syntax { place: 3 }),
    ("(41)", Syntax { place: 3 }),
    ("(41|??)", Syntax { place: 4 }),
    ("(41|42", Syntax { place: 6 }),
    ("41 42", Syntax { place: 2 }),
    ("{1-}", Syntax { place: 3 }),
    ("{05}", Syntax { place: 2 }),
    ("{100000}", Syntax { place: 6 }),
    ("[41:42", Syntax { place: 6 }),
    ("[!41:]", Syntax { place: 5 }),
    ("[42:41]?", Syntax { place: 8 }),
    ("41[42:41]", RangeOrder { place: 2 }),
    ("[42:42]", RangeOrder { place: 0 }),
    ("(41|[42:41])", RangeOrder { place: 4 }),
    ("[4142:4142]", RangeOrder { place: 0 }),
    ("[!00:FF]", ClassEmpty { place: 0 }),
    ("[!0000:FFFF]", ClassEmpty { place: 0 }),
    ("[41:4142]", RangeLength { place: 0 }),
    ("[010203040506070809:01]", RangeLength { place: 0 }),
    ("41[!010203040506070809]", BracketTooLong { place: 2 }),
    (
        "[010203040506070809:010203040506070808]",
        BracketTooLong { place: 0 },
    ),
    ("{65536}", GapNumber { place: 0 }),
    ("{65536-*}", GapNumber { place: 0 }),
    ("{0-65536}", GapNumber { place: 0 }),
    ("41{65536}[42:41]", GapNumber { place: 2 }),
    ("41[42:41]{0}", RangeOrder { place: 2 }),
    ("{0}", GapEmpty { place: 0 }),
    ("{5-0}", GapEmpty { place: 0 }),
    ("{5-2}", GapOrder { place: 0 }),
    ("{2-5}{5-2}", GapOrder { place: 5 }),
    ("[!41:42](41|[!4241:4142])", RangeOrder { place: 12 }),
];

// Whether the text is refused with this fault.
fn is_refused(alloc: Global, text: &[u8], fault: ExprError) -> bool {
    match parse(alloc, text) {
        Ok(_) => false,
        Err(refusal) => refusal == fault,
    }
}

#[test]
fn first_faults_are_named(rt: HostRuntime) {
    for (text, fault) in FAULTS {
        assert!(rt; is_refused(rt.alloc(), text.as_bytes(), *fault), "{text}");
    }
}

// Texts that are refused, and the words that tell why.
const TOLD: &[(&str, &str)] = &[
    ("4", "no expression goes on so at 1"),
    ("41{65536}", "gap number over 65535 at 2"),
    ("4142{0}", "empty gap at 4"),
    ("{5-2}", "gap out of order at 0"),
    ("41[42:41]", "range out of order at 2"),
    ("41[!00:FF]", "empty class at 2"),
    ("[41:4142]", "range of two lengths at 0"),
    ("[!010203040506070809]", "bracket over eight bytes at 0"),
];

// Whether the refusal of the text is told in these words.
fn is_told(alloc: Global, text: &[u8], words: &str) -> Result<bool, Fail> {
    match parse(alloc, text) {
        Ok(_) => Ok(false),
        Err(refusal) => Ok(refusal.to_string(alloc)?.as_str() == words),
    }
}

#[test]
fn a_refusal_is_told_with_its_place(rt: HostRuntime) -> Result<(), Fail> {
    for (text, words) in TOLD {
        assert!(rt; is_told(rt.alloc(), text.as_bytes(), words)?, "{text}");
    }
    let long = vec![in rt.alloc(); b'*'; 8193]?;
    assert!(rt; is_told(rt.alloc(), &long, "the text is too long")?);
    Ok(())
}

// How many items the text has, if it is an expression.
fn item_count(alloc: Global, text: &[u8]) -> Option<usize> {
    match parse(alloc, text) {
        Ok(expr) => Some(expr.items().len()),
        Err(_) => None,
    }
}

#[test]
fn texts_of_up_to_8192_bytes_are_read(rt: HostRuntime) -> Result<(), Fail> {
    let text = vec![in rt.alloc(); b'*'; 8193]?;
    assert!(rt; item_count(rt.alloc(), &text[..text.len().min(8192)]) == Some(8192));
    assert!(rt; is_refused(rt.alloc(), &text, TooLong));
    Ok(())
}

#[test]
fn each_kind_of_item_is_read(rt: HostRuntime) {
    let text = b"4a??{0-*}{3-3}{2-5}{2-*}(0d0a|[!0A])[41:5A][!4142][!00:FE]";
    assert!(rt; item_count(rt.alloc(), text) == Some(10));
}

// Spellings, and the shortest form of each.
const SPELLINGS: &[(&str, &str)] = &[
    ("4a{3-3}{0-*}(0d0a|[!0a])", "4A{3}*(0D0A|[!0A])"),
    ("{0-65535}{1}{65535}{10-*}", "{0-65535}{1}{65535}{10-*}"),
    ("??[4142:5a5b][!00:fe]", "??[4142:5A5B][!00:FE]"),
    ("(09|[aF:ff]0A|[!00])", "(09|[AF:FF]0A|[!00])"),
];

// Whether the expression of this text is written so.
fn is_written(alloc: Global, text: &[u8], canonical: &[u8]) -> bool {
    let Ok(expr) = parse(alloc, text) else {
        return false;
    };
    let mut out = FromWrite::new(Vec::new(alloc));
    let answer = print(&expr, &mut out);
    let written = out.into_inner();
    answer.is_ok() && written.as_slice() == canonical
}

#[test]
fn spellings_are_written_in_the_shortest_form(rt: HostRuntime) {
    for (text, canonical) in SPELLINGS {
        let (text, canonical) = (text.as_bytes(), canonical.as_bytes());
        assert!(rt; is_written(rt.alloc(), text, canonical), "{text:?}");
    }
}
