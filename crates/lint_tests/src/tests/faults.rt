//! The faults of texts, worked out by hand: line, what the loader says, and field.

use sig_bits::FromRead;
use sig_expr::ExprError;
use sig_lint::{Fault, Field, lint};
use sig_table::{Table, TableError, TableFile};
use std::alloc::{AllocError, Global};
use std::test::Fail;

const SIGNATURES: TableFile = TableFile::Signatures;

const PRIORITIES: TableFile = TableFile::Priorities;

// A fault: its line, what the loader says, and its field.
type Told = (u64, TableError, Field);

// Rows of both files behind their headers, and the faults.
struct Case {
    name: &'static str,
    rows: &'static str,
    pairs: &'static str,
    told: &'static [Told],
}

const CASES: &[Case] = &[
    Case {
        name: "no fault",
        rows: "fmt/1,1,BOF,0,,4142\nfmt/2,2,EOF,0,7,42\n",
        pairs: "fmt/2,fmt/1\n",
        told: &[],
    },
    Case {
        name: "fields",
        rows: "fmt/1,1,BOF,0,4142\nfmt/1;1;BOF;0;;4142\n",
        pairs: "fmt/1\n",
        told: &[
            (
                2,
                TableError::Fields {
                    file: SIGNATURES,
                    row: 1,
                },
                Field::Record,
            ),
            (
                3,
                TableError::Fields {
                    file: SIGNATURES,
                    row: 2,
                },
                Field::Record,
            ),
            (
                2,
                TableError::Fields {
                    file: PRIORITIES,
                    row: 1,
                },
                Field::Record,
            ),
        ],
    },
    Case {
        name: "PUIDs",
        rows: "fmt/01,1,BOF,0,,4142\nfmt/1,1,BOF,0,,4142\n",
        pairs: "fmt,fmt/1\nfmt/1,FMT/1\n",
        told: &[
            (
                2,
                TableError::Puid {
                    file: SIGNATURES,
                    row: 1,
                },
                Field::Puid,
            ),
            (
                2,
                TableError::Puid {
                    file: PRIORITIES,
                    row: 1,
                },
                Field::Higher,
            ),
            (
                3,
                TableError::Puid {
                    file: PRIORITIES,
                    row: 2,
                },
                Field::Lower,
            ),
        ],
    },
    Case {
        name: "numbers and positions",
        rows: "fmt/1,0,BOF,0,,41\nfmt/1,1,bof,0,,41\n",
        pairs: "",
        told: &[
            (2, TableError::SignatureNumber { row: 1 }, Field::Signature),
            (3, TableError::Position { row: 2 }, Field::Position),
        ],
    },
    Case {
        name: "offsets",
        rows: "fmt/1,1,BOF,-1,,41\nfmt/1,1,BOF,0,4.00E+05,41\nfmt/1,1,EOF,5,4,41\nfmt/1,1,Variable,0,,41\nfmt/1,1,Variable,,0,41\n",
        pairs: "",
        told: &[
            (2, TableError::Offset { row: 1 }, Field::Offset),
            (3, TableError::Offset { row: 2 }, Field::MaxOffset),
            (4, TableError::Offset { row: 3 }, Field::MaxOffset),
            (5, TableError::Offset { row: 4 }, Field::Offset),
            (6, TableError::Offset { row: 5 }, Field::MaxOffset),
        ],
    },
    Case {
        name: "expressions",
        rows: "fmt/1,1,BOF,0,,4 1\nfmt/1,1,BOF,0,,{65535}\n",
        pairs: "",
        told: &[
            (
                2,
                TableError::Expression {
                    row: 1,
                    error: ExprError::Syntax { place: 1 },
                },
                Field::Expression,
            ),
            (3, TableError::TooManySlots { row: 2 }, Field::Expression),
        ],
    },
    Case {
        name: "a row of another format is left out",
        rows: "fmt/1,1,BOF,0,,4142\nfmt/2,1,BOF,0,,4143\nfmt/2,2,BOF,0,,4144\n",
        pairs: "",
        told: &[(3, TableError::SignatureOfTwo { row: 2 }, Field::Signature)],
    },
    Case {
        name: "a faulty row clashes with no later one",
        rows: "fmt/1,1,BOF,x,,4142\nfmt/2,1,BOF,0,,4142\nfmt/1,1,BOF,0,,4142\n",
        pairs: "",
        told: &[
            (2, TableError::Offset { row: 1 }, Field::Offset),
            (4, TableError::SignatureOfTwo { row: 3 }, Field::Signature),
        ],
    },
    Case {
        name: "the ninth sequence",
        rows: "fmt/1,1,BOF,0,,41\nfmt/1,1,BOF,0,,41\nfmt/1,1,BOF,0,,41\nfmt/1,1,BOF,0,,41\nfmt/1,1,BOF,0,,41\nfmt/1,1,BOF,0,,41\nfmt/1,1,BOF,0,,41\nfmt/1,1,BOF,0,,41\nfmt/1,1,BOF,0,,42\nfmt/1,1,BOF,0,,43\n",
        pairs: "",
        told: &[
            (
                10,
                TableError::TooManySequences { row: 9 },
                Field::Signature,
            ),
            (
                11,
                TableError::TooManySequences { row: 10 },
                Field::Signature,
            ),
        ],
    },
    Case {
        name: "a row tells its lowest fault",
        rows: "fmt/1,0,bof,x,,4 1\n",
        pairs: "fmt/9,fmt/01\n",
        told: &[
            (2, TableError::SignatureNumber { row: 1 }, Field::Signature),
            (
                2,
                TableError::Puid {
                    file: PRIORITIES,
                    row: 1,
                },
                Field::Lower,
            ),
        ],
    },
    Case {
        name: "pairs",
        rows: "fmt/1,1,BOF,0,,41\nfmt/2,2,BOF,0,,42\nfmt/3,3,BOF,0,,43\n",
        pairs: "fmt/1,fmt/2\nfmt/1,fmt/9\nfmt/9,fmt/1\nfmt/3,fmt/3\nfmt/1,fmt/2\nfmt/2,fmt/1\nfmt/2,fmt/3\nfmt/3,fmt/1\n",
        told: &[
            (3, TableError::PriorityUnknown { row: 2 }, Field::Lower),
            (4, TableError::PriorityUnknown { row: 3 }, Field::Higher),
            (5, TableError::PrioritySelf { row: 4 }, Field::Record),
            (6, TableError::PriorityTwice { row: 5 }, Field::Record),
            (7, TableError::PriorityCycle { row: 6 }, Field::Record),
            (9, TableError::PriorityCycle { row: 8 }, Field::Record),
        ],
    },
    Case {
        name: "a format that a faulty row names is known",
        rows: "fmt/1,1,BOF,0,,41\nfmt/2,1,BOF,0,,42\nfmt/3\n",
        pairs: "fmt/1,fmt/2\nfmt/2,fmt/3\nfmt/3,fmt/1\nfmt/4,fmt/1\n",
        told: &[
            (3, TableError::SignatureOfTwo { row: 2 }, Field::Signature),
            (
                4,
                TableError::Fields {
                    file: SIGNATURES,
                    row: 3,
                },
                Field::Record,
            ),
            (4, TableError::PriorityCycle { row: 3 }, Field::Record),
            (5, TableError::PriorityUnknown { row: 4 }, Field::Higher),
        ],
    },
    Case {
        name: "a record may take lines, and empty lines are none",
        rows: "\n\nfmt/1,1,BOF,0,,\"4\n1\"\nfmt/1,0,BOF,0,,41\r\n\r\nfmt/1,0,BOF,0,,41\r\n\rfmt/1,0,BOF,0,,41\r",
        pairs: "",
        told: &[
            (
                4,
                TableError::Expression {
                    row: 1,
                    error: ExprError::Syntax { place: 1 },
                },
                Field::Expression,
            ),
            (6, TableError::SignatureNumber { row: 2 }, Field::Signature),
            (8, TableError::SignatureNumber { row: 3 }, Field::Signature),
            (10, TableError::SignatureNumber { row: 4 }, Field::Signature),
        ],
    },
];

// Whole texts, and the faults.
const FILES: &[Case] = &[
    Case {
        name: "two empty files",
        rows: "",
        pairs: "",
        told: &[
            (1, TableError::Header { file: SIGNATURES }, Field::Record),
            (1, TableError::Header { file: PRIORITIES }, Field::Record),
        ],
    },
    Case {
        name: "no row is judged behind a wrong header, and each format is known",
        rows: "\npuid;signature;position;offset;max_offset;expression\nfmt/01;1;BOF;0;;41\n",
        pairs: "higher,lower\nfmt/7,fmt/8\nfmt/8,fmt/7\nfmt/9,fmt/9\nfmt,fmt/1\n",
        told: &[
            (2, TableError::Header { file: SIGNATURES }, Field::Record),
            (3, TableError::PriorityCycle { row: 2 }, Field::Record),
            (4, TableError::PrioritySelf { row: 3 }, Field::Record),
            (
                5,
                TableError::Puid {
                    file: PRIORITIES,
                    row: 4,
                },
                Field::Higher,
            ),
        ],
    },
    Case {
        name: "a byte order mark is no fault, and another order of the columns is",
        rows: "\u{feff}puid,signature,position,offset,max_offset,expression\nfmt/1,1,BOF,0,,41\n",
        pairs: "lower,higher\nfmt/1,fmt/1\n",
        told: &[(1, TableError::Header { file: PRIORITIES }, Field::Record)],
    },
];

fn is_told(fault: &Fault, told: &Told) -> bool {
    fault.line() == told.0 && fault.error() == told.1 && fault.field() == told.2
}

// Whether the faults of the texts are these, of which `load` answers the first.
fn are_told(
    alloc: Global,
    signatures: &str,
    priorities: &str,
    told: &[Told],
) -> Result<bool, AllocError> {
    let faults = lint(alloc, signatures.as_bytes(), priorities.as_bytes())?;
    if faults.len() != told.len() || !faults.iter().zip(told).all(|(f, t)| is_told(f, t)) {
        return Ok(false);
    }
    let loaded = Table::load(
        alloc,
        &mut FromRead::new(signatures.as_bytes()),
        &mut FromRead::new(priorities.as_bytes()),
    );
    Ok(match loaded {
        Ok(_) => told.is_empty(),
        Err(fault) => told.first().is_some_and(|t| t.1 == fault),
    })
}

#[test]
fn each_row_tells_its_lowest_fault(rt: HostRuntime) -> Result<(), Fail> {
    for case in CASES {
        let rows = case.rows;
        let pairs = case.pairs;
        let signatures = format!(in rt.alloc();
            "puid,signature,position,offset,max_offset,expression\n{rows}"
        )?;
        let priorities = format!(in rt.alloc(); "higher,lower\n{pairs}")?;
        let name = case.name;
        assert!(rt;
            are_told(
                rt.alloc(),
                signatures.as_str(),
                priorities.as_str(),
                case.told
            )?,
            "{name}"
        );
    }
    Ok(())
}

#[test]
fn a_wrong_header_hides_the_rows_of_its_file(rt: HostRuntime) -> Result<(), Fail> {
    for case in FILES {
        let name = case.name;
        assert!(rt;
            are_told(rt.alloc(), case.rows, case.pairs, case.told)?,
            "{name}"
        );
    }
    Ok(())
}

// A signature file of so many formats, each of one row.
fn formats(alloc: Global, count: u32) -> Result<String, AllocError> {
    let mut text = String::from_str(
        alloc,
        "puid,signature,position,offset,max_offset,expression\n",
    )?;
    for i in 1..=count {
        let row = format!(in alloc; "fmt/{i},{i},BOF,0,,41\n")?;
        text.push_str(row.as_str())?;
    }
    Ok(text)
}

#[test]
fn a_format_behind_a_thousand_is_known_and_in_no_cycle(rt: HostRuntime) -> Result<(), Fail> {
    let signatures = formats(rt.alloc(), 1002)?;
    let priorities =
        "higher,lower\nfmt/1,fmt/1001\nfmt/1001,fmt/1\nfmt/1003,fmt/1\nfmt/1002,fmt/1003\n";
    let told: [Told; 4] = [
        (
            1002,
            TableError::TooManyFormats { row: 1001 },
            Field::Record,
        ),
        (
            1003,
            TableError::TooManyFormats { row: 1002 },
            Field::Record,
        ),
        (4, TableError::PriorityUnknown { row: 3 }, Field::Higher),
        (5, TableError::PriorityUnknown { row: 4 }, Field::Lower),
    ];
    assert!(rt; are_told(rt.alloc(), signatures.as_str(), priorities, told.as_slice())?);
    Ok(())
}

#[test]
fn every_row_of_a_wrong_file_is_told(rt: HostRuntime) -> Result<(), Fail> {
    let mut signatures = String::from_str(
        rt.alloc(),
        "puid,signature,position,offset,max_offset,expression\n",
    )?;
    for _ in 0..4000 {
        signatures.push_str("fmt/1,1,BOF,0,,4 1\n")?;
    }
    let faults = lint(
        rt.alloc(),
        signatures.as_bytes(),
        b"higher,lower\n".as_slice(),
    )?;
    assert_eq!(rt; faults.len(), 4000);
    assert_eq!(rt; faults[3999].line(), 4001);
    Ok(())
}
