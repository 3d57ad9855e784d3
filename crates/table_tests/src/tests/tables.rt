//! Tables: what loads, the first fault of what does not, and what is written.

use sig_bits::{FromRead, FromWrite};
use sig_expr::ExprError;
use sig_table::{
    FormatId, OutError, Position, Puid, Sequence, SigId, Table, TableError, TableFile,
};
use std::alloc::Global;
use std::io::{Error, ErrorKind, Read, Result as IoResult, Write};
use std::test::Fail;

const HEADER: &[u8] = b"puid,signature,position,offset,max_offset,expression\n";

fn loaded(alloc: Global, signatures: &[u8], priorities: &[u8]) -> Result<Table, TableError> {
    Table::load(
        alloc,
        &mut FromRead::new(signatures),
        &mut FromRead::new(priorities),
    )
}

// The table of these rows, with no priority.
fn loaded_rows(alloc: Global, rows: &[u8]) -> Result<Table, TableError> {
    let Ok(mut text) = HEADER.to_vec(alloc) else {
        return Err(TableError::OutOfMemory);
    };
    if text.extend_from_slice(rows).is_err() {
        return Err(TableError::OutOfMemory);
    }
    loaded(alloc, text.as_slice(), b"higher,lower\n".as_slice())
}

// Texts, and whether they are PUIDs.
const PUIDS: &[(&str, bool)] = &[
    ("fmt/1", true),
    ("fmt/999999999", true),
    ("x-fmt/40", true),
    ("fmt/0", false),
    ("fmt/01", false),
    ("fmt/1000000000", false),
    ("fmt/", false),
    ("FMT/1", false),
    ("fmt/1 ", false),
    ("", false),
];

// Whether the text is a PUID that is printed so, or none, as it should be.
fn is_as_it_was_read(alloc: Global, text: &str, is_puid: bool) -> bool {
    let Some(puid) = Puid::parse(text.as_bytes()) else {
        return !is_puid;
    };
    match puid.to_string(alloc) {
        Ok(printed) => is_puid && printed.as_str() == text,
        Err(_) => false,
    }
}

#[test]
fn a_puid_prints_as_it_was_read(rt: HostRuntime) {
    for (text, is_puid) in PUIDS {
        assert!(rt; is_as_it_was_read(rt.alloc(), text, *is_puid), "{text}");
    }
}

// Rows of two formats, of which those of the first signature do not stand together.
const TWO_FORMATS: &[u8] =
    b"fmt/2,7,BOF,0,,41\nx-fmt/1,3,EOF,1,2,4243\nfmt/2,7,Variable,,,43\nfmt/2,7,BOF,0,,41\n";

// Whether this is the PUID of the format.
fn is_puid_of(table: &Table, format: u16, puid: &[u8]) -> bool {
    (format as usize) < table.format_count()
        && Some(table.puid(FormatId(format))) == Puid::parse(puid)
}

#[test]
fn formats_stand_in_the_order_of_their_first_rows(rt: HostRuntime) -> Result<(), Fail> {
    let table = loaded_rows(rt.alloc(), TWO_FORMATS)?;
    assert!(rt; table.format_count() == 2);
    assert!(rt; is_puid_of(&table, 0, b"fmt/2"));
    assert!(rt; is_puid_of(&table, 1, b"x-fmt/1"));
    Ok(())
}

// Whether the signature has this number and is of this format.
fn is_signature(table: &Table, signature: u16, number: u32, format: u16) -> bool {
    (signature as usize) < table.signature_count()
        && table.number_of(SigId(signature)) == number
        && table.format_of(SigId(signature)) == FormatId(format)
}

#[test]
fn signatures_stand_in_the_order_of_their_first_rows(rt: HostRuntime) -> Result<(), Fail> {
    let table = loaded_rows(rt.alloc(), TWO_FORMATS)?;
    assert!(rt; table.signature_count() == 2);
    assert!(rt; is_signature(&table, 0, 7, 0));
    assert!(rt; is_signature(&table, 1, 3, 1));
    Ok(())
}

// Whether the sequences of the signature are of these positions and so many slots.
fn are_sequences(table: &Table, signature: u16, wants: &[(Position, u32)]) -> bool {
    if table.signature_count() <= signature as usize {
        return false;
    }
    let sequences = table.sequences_of(SigId(signature));
    for (it, (position, slots)) in sequences.iter().zip(wants) {
        if it.position() != *position || it.slots() != *slots {
            return false;
        }
    }
    sequences.len() == wants.len()
}

const START: Position = Position::Bof { min: 0, max: 0 };

// The sequences of the two signatures of `TWO_FORMATS`.
const FIRST: &[(Position, u32)] = &[(START, 2), (Position::Variable, 3), (START, 2)];

const SECOND: &[(Position, u32)] = &[(Position::Eof { min: 1, max: 2 }, 5)];

#[test]
fn sequences_stand_in_the_order_of_their_rows(rt: HostRuntime) -> Result<(), Fail> {
    let table = loaded_rows(rt.alloc(), TWO_FORMATS)?;
    assert!(rt; table.signature_count() == 2);
    assert!(rt; are_sequences(&table, 0, FIRST));
    assert!(rt; are_sequences(&table, 1, SECOND));
    Ok(())
}

// Whether these are the signatures of the format, in this order.
fn has_signatures(table: &Table, format: u16, wanted: &[SigId]) -> bool {
    let mut count = 0;
    for signature in table.signatures_of(FormatId(format)) {
        if wanted.get(count) != Some(&signature) {
            return false;
        }
        count += 1;
    }
    count == wanted.len()
}

#[test]
fn the_signatures_of_a_format_rise(rt: HostRuntime) -> Result<(), Fail> {
    let rows = b"fmt/1,9,BOF,0,,41\nfmt/2,1,BOF,0,,41\nfmt/1,2,BOF,0,,41\nfmt/1,9,BOF,1,,41\n";
    let table = loaded_rows(rt.alloc(), rows.as_slice())?;
    assert!(rt; has_signatures(&table, 0, &[SigId(0), SigId(2)]));
    assert!(rt; has_signatures(&table, 1, &[SigId(1)]));
    assert!(rt; has_signatures(&table, 2, &[]));
    Ok(())
}

// Whether a removal of the format finds it.
fn removes(table: &mut Table, puid: &[u8]) -> Option<bool> {
    let puid = Puid::parse(puid)?;
    Some(table.remove_signature_for_puid(&puid))
}

#[test]
fn a_removal_takes_the_signatures_of_its_format_alone(rt: HostRuntime) -> Result<(), Fail> {
    let rows = b"fmt/1,4,BOF,0,,41\nfmt/2,7,BOF,0,,42\nfmt/1,5,BOF,0,,43\nfmt/3,6,BOF,0,,44\n";
    let mut table = loaded_rows(rt.alloc(), rows.as_slice())?;
    assert!(rt; removes(&mut table, b"fmt/9") == Some(false));
    assert!(rt; table.signature_count() == 4);
    assert!(rt; removes(&mut table, b"fmt/1") == Some(true));
    assert!(rt; table.format_count() == 3);
    assert!(rt; is_puid_of(&table, 0, b"fmt/1"));
    assert!(rt; table.signature_count() == 2);
    assert!(rt; is_signature(&table, 0, 7, 1));
    assert!(rt; is_signature(&table, 1, 6, 2));
    Ok(())
}

const SIGNATURES: TableFile = TableFile::Signatures;

const PRIORITIES: TableFile = TableFile::Priorities;

// Signature rows, and their first fault.
const ROW_FAULTS: &[(&[u8], TableError)] = &[
    (
        b"fmt/1,1,BOF,0,41\n",
        TableError::Fields {
            file: SIGNATURES,
            row: 1,
        },
    ),
    (
        b"fmt/0,0,BOF,0,,41\n",
        TableError::Puid {
            file: SIGNATURES,
            row: 1,
        },
    ),
    (
        b"fmt/1,01,Bof,0,,41\n",
        TableError::SignatureNumber { row: 1 },
    ),
    (b"fmt/1,1,Bof,00,,41\n", TableError::Position { row: 1 }),
    (b"fmt/1,1,BOF,00,,\n", TableError::Offset { row: 1 }),
    (b"fmt/1,1,BOF,5,4,41\n", TableError::Offset { row: 1 }),
    (b"fmt/1,1,EOF,65536,,41\n", TableError::Offset { row: 1 }),
    (b"fmt/1,1,Variable,0,,41\n", TableError::Offset { row: 1 }),
    (
        b"fmt/1,1,BOF,0,,41 42\n",
        TableError::Expression {
            row: 1,
            error: ExprError::Syntax { place: 2 },
        },
    ),
    (
        b"fmt/1,1,BOF,0,,4142\nfmt/2,1,BOF,0,,4143\n",
        TableError::SignatureOfTwo { row: 2 },
    ),
    (
        b"fmt/1,1,BOF,0,,41\nfmt/2,1,BOF,0,,41\nfmt/0,3,BOF,0,,41\n",
        TableError::SignatureOfTwo { row: 2 },
    ),
    (
        b"fmt/1,1,BOF,0,,41\nfmt/1,1,BOF,0,,41\nfmt/1,1,BOF,0,,41\nfmt/1,1,BOF,0,,41\n\
        fmt/1,1,BOF,0,,41\nfmt/1,1,BOF,0,,41\nfmt/1,1,BOF,0,,41\nfmt/1,1,BOF,0,,41\nfmt/1,1,BOF,0,,41\n",
        TableError::TooManySequences { row: 9 },
    ),
    (
        b"fmt/1,1,Variable,,,{65534}\n",
        TableError::TooManySlots { row: 1 },
    ),
    (
        b"fmt/1,1,BOF,0,,{65535}\n",
        TableError::TooManySlots { row: 1 },
    ),
    (
        b"fmt/1,1,BOF,65535,,41\n",
        TableError::TooManySlots { row: 1 },
    ),
    (
        b"fmt/1,1,Variable,,,{65526}[4142:4241]\n",
        TableError::TooManySlots { row: 1 },
    ),
    (
        b"fmt/1,1,Variable,,,{65526}[!4142]\n",
        TableError::TooManySlots { row: 1 },
    ),
    (
        b"fmt/1,1,Variable,,,{65532}[!0000:FFFE]\n",
        TableError::TooManySlots { row: 1 },
    ),
];

#[test]
fn the_first_fault_of_a_row_is_named(rt: HostRuntime) {
    for (text, error) in ROW_FAULTS {
        assert!(rt;
            loaded_rows(rt.alloc(), text).err() == Some(*error),
            "{error:?}"
        );
    }
}

// Texts of the two files, and their first fault.
const FILE_FAULTS: &[(&[u8], &[u8], TableError)] = &[
    (b"", b"", TableError::Header { file: SIGNATURES }),
    (
        b"puid\n",
        b"higher,lower\nfmt/1\n",
        TableError::Header { file: SIGNATURES },
    ),
    (
        b"puid,signature\n",
        b"",
        TableError::Header { file: SIGNATURES },
    ),
    (HEADER, b"", TableError::Header { file: PRIORITIES }),
    (
        HEADER,
        b"lower,higher\n",
        TableError::Header { file: PRIORITIES },
    ),
    (
        HEADER,
        b"higher,lower\nfmt/1,fmt/2\n",
        TableError::PriorityUnknown { row: 1 },
    ),
];

#[test]
fn the_signature_file_is_judged_first(rt: HostRuntime) {
    for (signatures, priorities, error) in FILE_FAULTS {
        let refused = loaded(rt.alloc(), signatures, priorities).err();
        assert!(rt; refused == Some(*error), "{error:?}");
    }
}

// The table of the formats 1 to 3, and of these pairs.
fn loaded_pairs(alloc: Global, pairs: &[u8]) -> Result<Table, TableError> {
    let Ok(mut priorities) = b"higher,lower\n".to_vec(alloc) else {
        return Err(TableError::OutOfMemory);
    };
    if priorities.extend_from_slice(pairs).is_err() {
        return Err(TableError::OutOfMemory);
    }
    loaded(alloc, THREE_FORMATS, priorities.as_slice())
}

const THREE_FORMATS: &[u8] = b"puid,signature,position,offset,max_offset,expression\n\
    fmt/1,1,BOF,0,,41\nfmt/2,2,BOF,0,,41\nfmt/3,3,BOF,0,,41\n";

// Whether these are the priorities that are written of the table.
fn has_priorities(alloc: Global, table: &Table, lines: &[u8]) -> bool {
    let mut out = FromWrite::new(Vec::new(alloc));
    let answer = table.write_priorities(alloc, &mut out);
    let written = out.into_inner();
    answer.is_ok() && written.as_slice() == lines
}

#[test]
fn pairs_stand_in_the_order_of_their_rows(rt: HostRuntime) -> Result<(), Fail> {
    let table = loaded_pairs(rt.alloc(), b"fmt/3,fmt/1\nfmt/1,fmt/2\n".as_slice())?;
    let lines = b"higher,lower\nfmt/3,fmt/1\nfmt/1,fmt/2\n";
    assert!(rt; has_priorities(rt.alloc(), &table, lines));
    Ok(())
}

#[test]
fn no_pair_is_implied_by_others(rt: HostRuntime) -> Result<(), Fail> {
    let table = loaded_pairs(rt.alloc(), b"fmt/3,fmt/1\nfmt/1,fmt/2\n".as_slice())?;
    assert!(rt; table.outranks(FormatId(2), FormatId(0)));
    assert!(rt; table.outranks(FormatId(0), FormatId(1)));
    assert!(rt; !table.outranks(FormatId(2), FormatId(1)));
    assert!(rt; !table.outranks(FormatId(1), FormatId(0)));
    assert!(rt; !table.outranks(FormatId(9), FormatId(0)));
    Ok(())
}

// Priority rows, and their first fault.
const PAIR_FAULTS: &[(&[u8], TableError)] = &[
    (
        b"fmt/1\n",
        TableError::Fields {
            file: PRIORITIES,
            row: 1,
        },
    ),
    (
        b"fmt/0,fmt/0,fmt/0\n",
        TableError::Fields {
            file: PRIORITIES,
            row: 1,
        },
    ),
    (
        b"fmt/1,fmt/2\nfmt/0,fmt/3\n",
        TableError::Puid {
            file: PRIORITIES,
            row: 2,
        },
    ),
    (
        b"fmt/9,fmt/0\n",
        TableError::Puid {
            file: PRIORITIES,
            row: 1,
        },
    ),
    (b"fmt/9,fmt/9\n", TableError::PriorityUnknown { row: 1 }),
    (b"fmt/1,x-fmt/1\n", TableError::PriorityUnknown { row: 1 }),
    (
        b"fmt/1,fmt/2\nfmt/2,fmt/2\n",
        TableError::PrioritySelf { row: 2 },
    ),
    (
        b"fmt/1,fmt/2\nfmt/2,fmt/3\nfmt/1,fmt/2\n",
        TableError::PriorityTwice { row: 3 },
    ),
    (
        b"fmt/1,fmt/2\nfmt/2,fmt/1\n",
        TableError::PriorityCycle { row: 2 },
    ),
    (
        b"fmt/1,fmt/2\nfmt/2,fmt/3\nfmt/3,fmt/1\n",
        TableError::PriorityCycle { row: 3 },
    ),
    (
        b"fmt/2,fmt/3\nfmt/1,fmt/2\nfmt/3,fmt/1\n",
        TableError::PriorityCycle { row: 3 },
    ),
    (
        b"fmt/1,fmt/2\nfmt/1,fmt/3\nfmt/3,fmt/2\nfmt/2,fmt/1\n",
        TableError::PriorityCycle { row: 4 },
    ),
    (
        b"fmt/1,fmt/2\nfmt/2,fmt/1\nfmt/1\n",
        TableError::PriorityCycle { row: 2 },
    ),
];

#[test]
fn the_first_fault_of_a_pair_is_named(rt: HostRuntime) {
    for (text, error) in PAIR_FAULTS {
        assert!(rt;
            loaded_pairs(rt.alloc(), text).err() == Some(*error),
            "{error:?}"
        );
    }
}

// Rows of sequences with as many slots as the limit.
const MOST_SLOTS: &[&[u8]] = &[
    b"fmt/1,1,Variable,,,{65533}\n",
    b"fmt/1,1,BOF,0,,{65534}\n",
    b"fmt/1,1,Variable,,,{65525}[4142:4241]\n",
    b"fmt/1,1,Variable,,,{65525}[!4142]\n",
    b"fmt/1,1,Variable,,,{65531}[!0000:FFFE]\n",
];

#[test]
fn as_many_slots_as_the_limit_are_taken(rt: HostRuntime) {
    for row in MOST_SLOTS {
        assert!(rt; loaded_rows(rt.alloc(), row).is_ok(), "{row:?}");
    }
}

// Puts the row of this signature behind the others.
fn push_row(alloc: Global, rows: &mut Vec<u8>, format: u32, number: u32) -> Result<(), Fail> {
    let row = format!(in alloc; "fmt/{format},{number},BOF,0,,41\n")?;
    rows.extend_from_slice(row.as_bytes())?;
    Ok(())
}

// So many rows, each of a signature of its own. The first ones are each of a format of its own, and
// where there are as many formats as asked for, the others are of the last one.
fn many_rows(alloc: Global, count: u32, formats: u32) -> Result<Vec<u8>, Fail> {
    let mut rows = Vec::new(alloc);
    for i in 0..count {
        let number = i + 1;
        push_row(alloc, &mut rows, number.min(formats), number)?;
    }
    Ok(rows)
}

// What a load refuses of them.
fn refused_many(alloc: Global, count: u32, formats: u32) -> Result<Option<TableError>, Fail> {
    let rows = many_rows(alloc, count, formats)?;
    Ok(loaded_rows(alloc, &rows).err())
}

// How many formats and signatures are loaded of them.
fn counts_of_many(alloc: Global, count: u32, formats: u32) -> Result<(usize, usize), Fail> {
    let rows = many_rows(alloc, count, formats)?;
    let table = loaded_rows(alloc, &rows)?;
    Ok((table.format_count(), table.signature_count()))
}

#[test]
fn formats_and_signatures_are_taken_to_their_limits(rt: HostRuntime) -> Result<(), Fail> {
    assert!(rt; counts_of_many(rt.alloc(), 4000, 1000)? == (1000, 4000));
    let refused = refused_many(rt.alloc(), 4001, 1000)?;
    assert!(rt; refused == Some(TableError::TooManyFormats { row: 4001 }));
    let refused = refused_many(rt.alloc(), 1001, 1001)?;
    assert!(rt; refused == Some(TableError::TooManyFormats { row: 1001 }));
    Ok(())
}

// Puts the pair of these formats behind the others.
fn push_pair(alloc: Global, pairs: &mut Vec<u8>, higher: u32, lower: u32) -> Result<(), Fail> {
    let pair = format!(in alloc; "fmt/{higher},fmt/{lower}\n")?;
    pairs.extend_from_slice(pair.as_bytes())?;
    Ok(())
}

// All pairs of a thousand formats, each over all later ones.
fn all_pairs(alloc: Global) -> Result<Vec<u8>, Fail> {
    let mut pairs = b"higher,lower\n".to_vec(alloc)?;
    for higher in 1..1001u32 {
        for lower in higher + 1..1001u32 {
            push_pair(alloc, &mut pairs, higher, lower)?;
        }
    }
    Ok(pairs)
}

// The table of a thousand formats and of all their pairs.
fn loaded_all_pairs(alloc: Global) -> Result<Table, Fail> {
    let mut signatures = HEADER.to_vec(alloc)?;
    signatures.extend_from_slice(&many_rows(alloc, 1000, 1000)?)?;
    Ok(loaded(alloc, &signatures, &all_pairs(alloc)?)?)
}

#[test]
fn all_pairs_of_the_formats_of_a_table_are_taken(rt: HostRuntime) -> Result<(), Fail> {
    let table = loaded_all_pairs(rt.alloc())?;
    assert!(rt; table.outranks(FormatId(0), FormatId(999)));
    assert!(rt; table.outranks(FormatId(998), FormatId(999)));
    assert!(rt; !table.outranks(FormatId(999), FormatId(998)));
    Ok(())
}

// A device whose every read and write fails.
#[derive(Drop)]
struct Failing;

impl Read for Failing {
    fn read(&mut self, _buf: &mut [u8]) -> IoResult<usize> {
        Err(Error::from(ErrorKind::Interrupted))
    }
}

// What a load of the two files that these give refuses.
fn refused_by<A: Read, B: Read>(
    alloc: Global,
    signatures: &mut FromRead<A>,
    priorities: &mut FromRead<B>,
) -> Option<TableError> {
    Table::load(alloc, signatures, priorities).err()
}

#[test]
fn a_failed_read_is_named_with_its_file(rt: HostRuntime) {
    let mut failing = FromRead::new(Failing);
    let mut priorities = FromRead::new(b"higher,lower\n".as_slice());
    let refused = refused_by(rt.alloc(), &mut failing, &mut priorities);
    assert!(rt; refused == Some(TableError::Read { file: SIGNATURES }));
    let mut signatures = FromRead::new(HEADER);
    let refused = refused_by(rt.alloc(), &mut signatures, &mut failing);
    assert!(rt; refused == Some(TableError::Read { file: PRIORITIES }));
    let mut faulty = FromRead::new(b"puid\n".as_slice());
    let refused = refused_by(rt.alloc(), &mut faulty, &mut failing);
    assert!(rt; refused == Some(TableError::Header { file: SIGNATURES }));
}

// Gives a record that is no header, and then fails.
#[derive(Drop)]
struct Interrupted {
    is_given: bool,
}

impl Read for Interrupted {
    fn read(&mut self, buf: &mut [u8]) -> IoResult<usize> {
        let record = b"puid\n".as_slice();
        if self.is_given || buf.len() < record.len() {
            return Err(Error::from(ErrorKind::Interrupted));
        }
        self.is_given = true;
        buf[..record.len()].copy_from_slice(record);
        Ok(record.len())
    }
}

#[test]
fn a_read_that_fails_later_is_named_before_a_fault(rt: HostRuntime) {
    let mut interrupted = FromRead::new(Interrupted { is_given: false });
    let mut priorities = FromRead::new(b"higher,lower\n".as_slice());
    let refused = refused_by(rt.alloc(), &mut interrupted, &mut priorities);
    assert!(rt; refused == Some(TableError::Read { file: SIGNATURES }));
    let mut signatures = FromRead::new(HEADER);
    let mut interrupted = FromRead::new(Interrupted { is_given: false });
    let refused = refused_by(rt.alloc(), &mut signatures, &mut interrupted);
    assert!(rt; refused == Some(TableError::Read { file: PRIORITIES }));
}

// Gives bytes one a read, and then fails or is at its end. It counts its reads.
#[derive(Drop)]
struct OneByOne<'a> {
    bytes: &'a [u8],
    fails: bool,
    reads: &'a mut usize,
}

impl Read for OneByOne<'_> {
    fn read(&mut self, buf: &mut [u8]) -> IoResult<usize> {
        *self.reads = (*self.reads).saturating_add(1);
        if buf.is_empty() {
            return Ok(0);
        }
        match self.bytes.split_first() {
            Some((byte, rest)) => {
                buf[0] = *byte;
                self.bytes = rest;
                Ok(1)
            }
            None if self.fails => Err(Error::from(ErrorKind::Other)),
            None => Ok(0),
        }
    }
}

// What a load refuses of two files that come byte by byte, each with whether a read fails behind
// it, and how often the priority file is read.
fn refused_of(
    alloc: Global,
    signatures: (&[u8], bool),
    priorities: (&[u8], bool),
) -> (Option<TableError>, usize) {
    let (mut first, mut second) = (0, 0);
    let refused = {
        let mut signatures = FromRead::new(OneByOne {
            bytes: signatures.0,
            fails: signatures.1,
            reads: &mut first,
        });
        let mut priorities = FromRead::new(OneByOne {
            bytes: priorities.0,
            fails: priorities.1,
            reads: &mut second,
        });
        Table::load(alloc, &mut signatures, &mut priorities).err()
    };
    (refused, second)
}

const TWO: &[u8] = b"puid,signature,position,offset,max_offset,expression\n\
    fmt/1,1,BOF,0,,4142\nfmt/2,2,BOF,0,,4143\n";

const FIRST_OVER: &[u8] = b"higher,lower\nfmt/1,fmt/2\n";

// The formats have one signature number.
const ONE_NUMBER: &[u8] = b"puid,signature,position,offset,max_offset,expression\n\
    fmt/1,1,BOF,0,,4142\nfmt/2,1,BOF,0,,4143\n";

#[test]
fn a_failed_read_at_any_place_is_named_with_its_file(rt: HostRuntime) {
    let (signatures, priorities) = (TWO, FIRST_OVER);
    let whole = refused_of(rt.alloc(), (signatures, false), (priorities, false));
    assert_eq!(rt; whole.0, None);
    assert!(rt; whole.1 > priorities.len());
    let file = TableFile::Signatures;
    for len in 0..=signatures.len() {
        let refused = refused_of(rt.alloc(), (&signatures[..len], true), (priorities, true));
        assert_eq!(rt; refused, (Some(TableError::Read { file }), 0), "{len}");
    }
    let file = TableFile::Priorities;
    for len in 0..=priorities.len() {
        let (refused, _) = refused_of(rt.alloc(), (signatures, false), (&priorities[..len], true));
        assert_eq!(rt; refused, Some(TableError::Read { file }), "{len}");
    }
}

#[test]
fn a_fault_of_the_signature_file_is_named_before_a_read_of_the_other(rt: HostRuntime) {
    for front in [b"".as_slice(), FIRST_OVER] {
        let refused = refused_of(rt.alloc(), (ONE_NUMBER, false), (front, true));
        assert_eq!(rt; refused, (Some(TableError::SignatureOfTwo { row: 2 }), 0));
    }
}

// Whether this is the signature file that is written of the table.
fn has_signature_file(alloc: Global, table: &Table, lines: &[u8]) -> bool {
    let mut out = FromWrite::new(Vec::new(alloc));
    let answer = table.write_signatures(alloc, &mut out);
    let written = out.into_inner();
    answer.is_ok() && written.as_slice() == lines
}

// Whether it is that of the table of these rows.
fn is_written(alloc: Global, rows: &[u8], lines: &[u8]) -> bool {
    match loaded_rows(alloc, rows) {
        Ok(table) => has_signature_file(alloc, &table, lines),
        Err(_) => false,
    }
}

#[test]
fn a_row_is_written_in_canonical_text(rt: HostRuntime) {
    let lines = b"puid,signature,position,offset,max_offset,expression\nfmt/1,7,BOF,3,3,4A{3}*\n";
    assert!(rt; is_written(rt.alloc(), b"fmt/1,7,BOF,3,,4a{3-3}{0-*}\n", lines));
}

#[test]
fn sequences_of_a_signature_are_written_together(rt: HostRuntime) {
    let rows = b"fmt/2,7,BOF,0,,41\nx-fmt/1,3,EOF,1,2,4243\nfmt/2,7,Variable,,,43??\n\
        fmt/2,9,EOF,0,,[41:5a]{2-5}\nx-fmt/1,3,BOF,65,,(0d0a|[!0a]){1-*}\n";
    let lines = b"puid,signature,position,offset,max_offset,expression\n\
        fmt/2,7,BOF,0,0,41\nfmt/2,7,Variable,,,43??\nx-fmt/1,3,EOF,1,2,4243\n\
        x-fmt/1,3,BOF,65,65,(0D0A|[!0A]){1-*}\nfmt/2,9,EOF,0,0,[41:5A]{2-5}\n";
    assert!(rt; is_written(rt.alloc(), rows, lines));
    let lines = lines.as_slice();
    assert!(rt; is_written(rt.alloc(), &lines[HEADER.len().min(lines.len())..], lines));
}

#[test]
fn no_priority_is_written_as_the_header(rt: HostRuntime) -> Result<(), Fail> {
    let table = loaded_rows(rt.alloc(), b"fmt/1,7,BOF,3,,41\n")?;
    assert!(rt; has_priorities(rt.alloc(), &table, b"higher,lower\n"));
    Ok(())
}

impl Write for Failing {
    fn write(&mut self, _buf: &[u8]) -> IoResult<usize> {
        Err(Error::from(ErrorKind::BrokenPipe))
    }

    fn flush(&mut self) -> IoResult<()> {
        Ok(())
    }
}

// What is refused of writing the two files of the table where no write succeeds.
fn unwritten(alloc: Global, table: &Table) -> (Result<(), OutError>, Result<(), OutError>) {
    let mut first = FromWrite::new(Failing);
    let mut second = FromWrite::new(Failing);
    (
        table.write_signatures(alloc, &mut first),
        table.write_priorities(alloc, &mut second),
    )
}

#[test]
fn a_failed_write_is_named(rt: HostRuntime) -> Result<(), Fail> {
    let table = loaded_rows(rt.alloc(), b"fmt/1,1,BOF,0,,41\n")?;
    let refused = Err(OutError::Write);
    assert!(rt; unwritten(rt.alloc(), &table) == (refused, refused));
    let told = OutError::Write.to_string(rt.alloc())?;
    assert!(rt; told.as_str() == "write failed");
    Ok(())
}

// Rows of both files, and the words that tell why they are no table.
const TOLD: &[(&str, &str, &str)] = &[
    ("fmt/1\n", "", "signatures: fields of row 1"),
    ("fmt/0,1,BOF,0,,41\n", "", "signatures: PUID in row 1"),
    ("fmt/1,0,BOF,0,,41\n", "", "signature number in row 1"),
    ("fmt/1,1,bof,0,,41\n", "", "position in row 1"),
    ("fmt/1,1,BOF,,,41\n", "", "offset in row 1"),
    (
        "fmt/1,1,BOF,0,,4\n",
        "",
        "expression in row 1: no expression goes on so at 1",
    ),
    (
        "fmt/1,1,BOF,0,,41\nfmt/2,1,BOF,0,,41\n",
        "",
        "signature of two formats in row 2",
    ),
    ("fmt/1,1,BOF,65535,,41\n", "", "too many slots in row 1"),
    ("", "fmt/1\n", "priorities: fields of row 1"),
    ("", "fmt/1,fmt/2\n", "unknown format in row 1"),
    (
        "fmt/1,1,BOF,0,,41\n",
        "fmt/1,fmt/1\n",
        "format over itself in row 1",
    ),
    (
        "fmt/1,1,BOF,0,,41\nfmt/2,2,BOF,0,,42\n",
        "fmt/1,fmt/2\nfmt/1,fmt/2\n",
        "pair twice in row 2",
    ),
    (
        "fmt/1,1,BOF,0,,41\nfmt/2,2,BOF,0,,42\n",
        "fmt/1,fmt/2\nfmt/2,fmt/1\n",
        "cycle in row 2",
    ),
];

// The words that tell why rows are no table. There are none of a table.
fn told_of(alloc: Global, rows: &str, pairs: &str) -> Result<String, Fail> {
    let mut signatures = HEADER.to_vec(alloc)?;
    signatures.extend_from_slice(rows.as_bytes())?;
    let mut priorities = b"higher,lower\n".to_vec(alloc)?;
    priorities.extend_from_slice(pairs.as_bytes())?;
    match loaded(alloc, signatures.as_slice(), priorities.as_slice()) {
        Ok(_) => Ok(String::new(alloc)),
        Err(fault) => Ok(fault.to_string(alloc)?),
    }
}

#[test]
fn a_fault_is_told_with_its_row(rt: HostRuntime) -> Result<(), Fail> {
    for (rows, pairs, words) in TOLD {
        let told = told_of(rt.alloc(), rows, pairs)?;
        assert!(rt; told.as_str() == *words, "{words}");
    }
    Ok(())
}
