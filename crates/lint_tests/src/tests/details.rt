//! The texts of faults, worked out by hand: what stands there, what was expected, and what is
//! likely to mend it.

use sig_lint::{Cure, lint};
use std::test::Fail;

// A row of the signature file, the text of its fault, and what mends it.
const ROWS: &[(&str, &str, Option<Cure>)] = &[
    (
        "fmt/1,1,BOF,0,4.00E+05,4142",
        "max_offset \"4.00E+05\": expected a number from 0 to 65535, the greatest offset not below the offset or left out; none at Variable; write the number in digits alone",
        Some(Cure::WriteNumberOut),
    ),
    (
        "fmt/1,1,BOF,70000,,41",
        "offset \"70000\": expected a number from 0 to 65535, the greatest offset not below the offset or left out; none at Variable; lower the offset",
        Some(Cure::LowerOffset),
    ),
    (
        "fmt/1,1,Absolute from BOF,0,,41",
        "position \"Absolute from BOF\": expected BOF, EOF or Variable; write the word alone, as it is given",
        Some(Cure::WritePositionAsGiven),
    ),
    (
        ",,,,,",
        "puid \"\": expected fmt/ or x-fmt/ and a number from 1 to 999999999; remove the row",
        Some(Cure::RemoveRow),
    ),
    (
        "fmt/1\t,1,BOF,0,,41",
        "puid \"fmt/1\\x09\": expected fmt/ or x-fmt/ and a number from 1 to 999999999; remove blanks and tabs",
        Some(Cure::RemoveBlanks),
    ),
    (
        "fmt/1;1;BOF;0;;41",
        "record \"fmt/1;1;BOF;0;;41\": expected six fields; separate the fields by commas",
        Some(Cure::SeparateByCommas),
    ),
    (
        "fmt/1,1,BOF,0,,41{4-}",
        "expression \"41{4-}\" at 5: expected an expression that goes on from the bytes before it; write an open gap as {4-*}",
        Some(Cure::OpenGap),
    ),
    (
        "fmt/1,1,BOF,0,,[&01]",
        "expression \"[&01]\" at 1: expected an expression that goes on from the bytes before it; write the bytes of the mask as a list, as (01|03)",
        Some(Cure::ListBytes),
    ),
    (
        "fmt/1,1,BOF,0,,'PDF'",
        "expression \"'PDF'\" at 0: expected an expression that goes on from the bytes before it; write the quoted text as pairs of hexadecimal digits",
        Some(Cure::RemoveQuotes),
    ),
    (
        "fmt/1,1,BOF,0,,41 42",
        "expression \"41 42\" at 2: expected an expression that goes on from the bytes before it; remove blanks and tabs",
        Some(Cure::RemoveBlanks),
    ),
    (
        "fmt/1,1,BOF,65535,,41",
        "expression \"41\": expected at most 65535 slots, those of the offset among them; lower the offset",
        Some(Cure::LowerOffset),
    ),
    (
        "fmt/1,1,BOF,0,,(41)",
        "expression \"(41)\" at 3: expected an expression that goes on from the bytes before it",
        None,
    ),
];

#[test]
fn a_fault_says_what_stands_there_and_what_mends_it(rt: HostRuntime) -> Result<(), Fail> {
    for (row, text, cure) in ROWS {
        let signatures = format!(in rt.alloc();
            "puid,signature,position,offset,max_offset,expression\n{row}\n"
        )?;
        let faults = lint(
            rt.alloc(),
            signatures.as_bytes(),
            b"higher,lower\n".as_slice(),
        )?;
        assert_eq!(rt; faults.len(), 1, "{row}");
        assert_eq!(rt;
            faults[0].details(rt.alloc())?.as_slice(),
            text.as_bytes(),
            "{row}"
        );
        assert!(rt; faults[0].cure() == *cure, "{row}");
    }
    Ok(())
}

// A first record that is no header of a signature file, and what mends it.
const HEADERS: &[(&[u8], Option<Cure>)] = &[
    (
        b"puid;signature;position;offset;max_offset;expression\n",
        Some(Cure::SeparateByCommas),
    ),
    (
        b"puid\tsignature\tposition\toffset\tmax_offset\texpression\n",
        Some(Cure::SeparateByCommas),
    ),
    (
        b"PUID,Signature,Position,Offset,Max_Offset,Expression\n",
        Some(Cure::WriteHeaderAsGiven),
    ),
    (
        b"signature,puid,position,offset,max_offset,expression\n",
        Some(Cure::OrderColumns),
    ),
    (
        b"\xff\xfep\x00u\x00i\x00d\x00,\x00s\x00",
        Some(Cure::SaveAsUtf8),
    ),
    (b"fmt/1,1,BOF,0,,41\n", None),
    (b"", None),
];

#[test]
fn a_wrong_header_says_what_mends_it(rt: HostRuntime) -> Result<(), Fail> {
    for (text, cure) in HEADERS {
        let faults = lint(rt.alloc(), text, b"higher,lower\n".as_slice())?;
        assert_eq!(rt; faults.len(), 1, "{text:?}");
        assert!(rt; faults[0].cure() == *cure, "{text:?}");
    }
    Ok(())
}

#[test]
fn a_pair_is_shown_whole_and_a_long_text_is_cut(rt: HostRuntime) -> Result<(), Fail> {
    let signatures =
        b"puid,signature,position,offset,max_offset,expression\nfmt/1,1,BOF,0,,41\nfmt/1,1,0123456789012345678901234567890123456789012345678901234567890,0,,41\n";
    let faults = lint(
        rt.alloc(),
        signatures.as_slice(),
        b"higher,lower\nfmt/1,fmt/1\n".as_slice(),
    )?;
    assert_eq!(rt; faults.len(), 2);
    let cut =
        "position \"012345678901234567890123456789012345678901234567890123456789..\": expected BOF, EOF or Variable";
    assert_eq!(rt; faults[0].details(rt.alloc())?.as_slice(), cut.as_bytes());
    assert_eq!(rt;
        faults[1].details(rt.alloc())?.as_slice(),
        b"record \"fmt/1,fmt/1\": expected two formats".as_slice()
    );
    Ok(())
}
