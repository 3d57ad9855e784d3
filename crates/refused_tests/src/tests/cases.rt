//! Tables with a file each, and what is to be answered, worked out by hand.

use fixtures::{BOTH_ENDS, OVER_BOTH, PRIORITIES, Rows, SIGNATURES, TWO};
use sig_bits::FromRead;
use sig_core::{CoreError, Results};
use sig_table::{FormatId, SigId, Table};
use std::test::Fail;

// Two blockers, neither of which is hit wherever both others are, over brackets of two bytes, a gap
// and a list.
pub(crate) const TWO_BLOCKERS: Rows = Rows(
    "fmt/1,1,BOF,0,,[4142:4241]{0-1}43\n\
     fmt/2,2,BOF,0,,[4142:4241](43|44)*\n\
     fmt/3,3,BOF,0,,????43\n\
     fmt/4,4,BOF,0,,????44\n",
    "fmt/3,fmt/1\nfmt/3,fmt/2\nfmt/4,fmt/1\nfmt/4,fmt/2\n",
);

pub(crate) const ONE_FORMAT: Rows = Rows("fmt/1,1,BOF,0,,4142\n", "");

// Nine words that may stand anywhere, so many that one look at a file is for all of them.
pub(crate) const NINE_WORDS: Rows = Rows(
    "fmt/1,1,Variable,,,41424341\n\
     fmt/2,2,Variable,,,41424342\n\
     fmt/3,3,Variable,,,41424343\n\
     fmt/4,4,Variable,,,41424344\n\
     fmt/5,5,Variable,,,41424345\n\
     fmt/6,6,Variable,,,41424346\n\
     fmt/7,7,Variable,,,41424347\n\
     fmt/8,8,Variable,,,41424348\n\
     fmt/9,9,Variable,,,4142434445\n\
     fmt/10,10,BOF,0,9,41*5A\n",
    "",
);

// The table of these rows.
pub(crate) fn table_of(rt: &HostRuntime, rows: Rows) -> Result<Table, Fail> {
    let signatures = format!(in rt.alloc(); "{SIGNATURES}{}", rows.0)?;
    let priorities = format!(in rt.alloc(); "{PRIORITIES}{}", rows.1)?;
    let mut signatures = FromRead::new(signatures.as_bytes());
    let mut priorities = FromRead::new(priorities.as_bytes());
    let table = Table::load(rt.alloc(), &mut signatures, &mut priorities)?;
    Ok(table)
}

// A table, a file, the formats that it hits, those of them that are left, each by its place, the
// lines of the latter, and the line on whether it is ambiguous. The n-th signature is of the n-th
// format.
#[derive(Clone, Copy)]
pub(crate) struct Case {
    pub(crate) rows: Rows,
    pub(crate) file: &'static [u8],
    pub(crate) hits: &'static [u16],
    pub(crate) left: &'static [u16],
    pub(crate) lines: &'static str,
    pub(crate) witness: &'static str,
}

pub(crate) const CASES: &[Case] = &[
    Case {
        rows: ONE_FORMAT,
        file: b"AB",
        hits: &[0],
        left: &[0],
        lines: "fmt/1 1\n",
        witness: "not ambiguous\n",
    },
    Case {
        rows: TWO,
        file: b"AC",
        hits: &[1],
        left: &[1],
        lines: "fmt/2 2\n",
        witness: "not ambiguous\n",
    },
    Case {
        rows: BOTH_ENDS,
        file: b"A",
        hits: &[0, 1],
        left: &[0, 1],
        lines: "fmt/1 1\nfmt/2 2\n",
        witness: "ambiguous fmt/1 fmt/2\n",
    },
    Case {
        rows: OVER_BOTH,
        file: b"AB",
        hits: &[0, 1, 2],
        left: &[2],
        lines: "fmt/3 3\n",
        witness: "not ambiguous\n",
    },
    Case {
        rows: TWO_BLOCKERS,
        file: b"ABC",
        hits: &[0, 1, 2],
        left: &[2],
        lines: "fmt/3 3\n",
        witness: "not ambiguous\n",
    },
    Case {
        rows: NINE_WORDS,
        file: b"ABCDEZ",
        hits: &[3, 8, 9],
        left: &[3, 8, 9],
        lines: "fmt/4 4\nfmt/9 9\nfmt/10 10\n",
        witness: "ambiguous fmt/4 fmt/9\n",
    },
];

// Whether these are the hits of the formats at these places.
pub(crate) fn are_hits(results: &Results, places: &[u16]) -> bool {
    results.hits().len() == places.len()
        && results.hits().iter().zip(places).all(|(hit, place)| hit.format == FormatId(*place)
            && hit.signature == SigId(*place))
}

// Whether the answer is these hits.
pub(crate) fn is_match(answer: &Result<Results, CoreError>, places: &[u16]) -> bool {
    match answer {
        Ok(results) => are_hits(results, places),
        Err(_) => false,
    }
}

// Whether the first answer is these hits, or wants memory, and the one with memory is these hits.
pub(crate) fn are_answers(
    first: &Result<Results, CoreError>,
    again: &Result<Results, CoreError>,
    places: &[u16],
) -> bool {
    let lacks_memory = matches!(first, Err(CoreError::OutOfMemory));
    (lacks_memory || is_match(first, places)) && is_match(again, places)
}
