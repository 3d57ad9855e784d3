//! The engines, which write nothing where they want memory.

use crate::tests::cases::{CASES, Case, TWO_BLOCKERS, table_of};
use crate::tests::tables::{ITS_PRIORITIES, ITS_SIGNATURES};
use crate::tests::{begin, end};
use fixtures::{OVER_BOTH, Rows, TWO};
use sig_bits::{FromRead, FromWrite};
use sig_core::DroidCore;
use sig_engines::{RunError, run_check, run_lint, run_match, run_show, run_witness};
use sig_match::{StreamCore, WholeCore};
use sig_scan::BlockCore;
use std::alloc::AllocError;
use std::test::Fail;

// Room for what an engine writes, which is made before growths are refused.
fn room(rt: &HostRuntime) -> Result<FromWrite<Vec<u8>>, AllocError> {
    Ok(FromWrite::new(Vec::with_capacity(rt.alloc(), 1000)?))
}

// What an engine answered, and what it wrote.
#[derive(Drop)]
struct Told<T> {
    answer: Result<T, RunError>,
    written: Vec<u8>,
}

impl<T: PartialEq> Told<T> {
    // Whether it is this.
    fn is(&self, want: &T, line: &str) -> bool {
        match &self.answer {
            Ok(told) => told == want && self.written.as_slice() == line.as_bytes(),
            Err(_) => false,
        }
    }

    // Whether it is this, or memory was wanted and nothing written.
    fn is_or_lacks(&self, want: &T, line: &str) -> bool {
        match &self.answer {
            Ok(_) => self.is(want, line),
            Err(error) => *error == RunError::OutOfMemory && self.written.is_empty(),
        }
    }
}

// What `match` of the file answers and writes, with growths refused.
fn matched<K: DroidCore>(rt: &HostRuntime, core: &K, file: &[u8]) -> Result<Told<()>, Fail> {
    let mut input = FromRead::new(file);
    let mut out = room(rt)?;
    begin(rt);
    let answer = run_match(rt.alloc(), core, false, &mut input, &mut out);
    end(rt);
    Ok(Told {
        answer,
        written: out.into_inner(),
    })
}

// Whether `match` is right once memory is there.
fn matches<K: DroidCore>(
    rt: &HostRuntime,
    core: &K,
    file: &[u8],
    lines: &str,
) -> Result<bool, Fail> {
    let mut out = room(rt)?;
    run_match(rt.alloc(), core, false, &mut FromRead::new(file), &mut out)?;
    Ok(out.into_inner().as_slice() == lines.as_bytes())
}

fn stream_core_is_run(rt: &HostRuntime, case: &Case) -> Result<bool, Fail> {
    let core = StreamCore::new(rt.alloc(), table_of(rt, case.rows)?);
    let first = matched(rt, &core, case.file)?;
    Ok(first.is_or_lacks(&(), case.lines) && matches(rt, &core, case.file, case.lines)?)
}

fn block_core_is_run(rt: &HostRuntime, case: &Case) -> Result<bool, Fail> {
    let core = BlockCore::new(rt.alloc(), table_of(rt, case.rows)?);
    let first = matched(rt, &core, case.file)?;
    Ok(first.is_or_lacks(&(), case.lines) && matches(rt, &core, case.file, case.lines)?)
}

fn whole_core_is_run(rt: &HostRuntime, case: &Case) -> Result<bool, Fail> {
    let core = WholeCore::new(rt.alloc(), table_of(rt, case.rows)?);
    let first = matched(rt, &core, case.file)?;
    Ok(first.is_or_lacks(&(), case.lines) && matches(rt, &core, case.file, case.lines)?)
}

#[test]
fn run_match_lacks_memory_or_is_right(rt: HostRuntime) -> Result<(), Fail> {
    for case in CASES {
        assert!(rt; stream_core_is_run(&rt, case)?);
    }
    Ok(())
}

#[test]
fn run_match_of_a_whole_core_lacks_memory_or_is_right(rt: HostRuntime) -> Result<(), Fail> {
    for case in CASES {
        assert!(rt; whole_core_is_run(&rt, case)?);
    }
    Ok(())
}

#[test]
fn run_match_of_a_block_core_lacks_memory_or_is_right(rt: HostRuntime) -> Result<(), Fail> {
    for case in CASES {
        assert!(rt; block_core_is_run(&rt, case)?);
    }
    Ok(())
}

// A certificate, whether it is accepted, and the line.
#[derive(Clone, Copy)]
struct Judged {
    rows: Rows,
    certificate: &'static [u8],
    is_accepted: bool,
    line: &'static str,
}

const JUDGED: &[Judged] = &[
    Judged {
        rows: TWO,
        certificate: b"PSAC\x01\x00\x00\x00\x01\x01\x00\x00\x00\x00\x00\x02\x00\x00\x00\x00\x00\x01\x00\x01",
        is_accepted: true,
        line: "accepted\n",
    },
    Judged {
        rows: OVER_BOTH,
        certificate: b"PSAC\x02\x00\x00\x00\x03\
          \x01\x00\x01\x00\x00\x00\x02\x00\x00\x00\x04\
          \x00\x00\x00\x00\x01\x00\x01\x00\x01\x02\x00\x02\x00\x02\x04\x00\x03\x00\x03\x08\
          \x00\x00",
        is_accepted: true,
        line: "accepted\n",
    },
    Judged {
        rows: TWO,
        certificate: b"PSAC\x01\x00\x00\x00\x01\x01\x00\x00\x00\x00\x00\x01\x00\x00\x00\x00",
        is_accepted: false,
        line: "refused C10 not closed pair 0 table 0 row 0 byte 41\n",
    },
];

// What `check` answers and writes, with growths refused if that is asked.
fn verdict_of(rt: &HostRuntime, case: &Judged, refuses: bool) -> Result<Told<bool>, Fail> {
    let table = table_of(rt, case.rows)?;
    let mut input = FromRead::new(case.certificate);
    let mut out = room(rt)?;
    if refuses {
        begin(rt);
    }
    let answer = run_check(rt.alloc(), &table, &mut input, &mut out);
    if refuses {
        end(rt);
    }
    Ok(Told {
        answer,
        written: out.into_inner(),
    })
}

#[test]
fn run_check_lacks_memory_or_is_right(rt: HostRuntime) -> Result<(), Fail> {
    for case in JUDGED {
        let first = verdict_of(&rt, case, true)?;
        assert!(rt; first.is_or_lacks(&case.is_accepted, case.line));
        let again = verdict_of(&rt, case, false)?;
        assert!(rt; again.is(&case.is_accepted, case.line));
    }
    Ok(())
}

// What `witness` answers and writes, with growths refused if that is asked.
fn witnessed(rt: &HostRuntime, case: &Case, refuses: bool) -> Result<Told<bool>, Fail> {
    let table = table_of(rt, case.rows)?;
    let mut input = FromRead::new(case.file);
    let mut out = room(rt)?;
    if refuses {
        begin(rt);
    }
    let answer = run_witness(rt.alloc(), &table, &mut input, &mut out);
    if refuses {
        end(rt);
    }
    Ok(Told {
        answer,
        written: out.into_inner(),
    })
}

#[test]
fn run_witness_lacks_memory_or_is_right(rt: HostRuntime) -> Result<(), Fail> {
    for case in CASES {
        let is_ambiguous = case.left.len() > 1;
        let first = witnessed(&rt, case, true)?;
        assert!(rt; first.is_or_lacks(&is_ambiguous, case.witness));
        let again = witnessed(&rt, case, false)?;
        assert!(rt; again.is(&is_ambiguous, case.witness));
    }
    Ok(())
}

// What `show` answers and writes, with growths refused if that is asked.
fn shown(rt: &HostRuntime, refuses: bool) -> Result<Told<()>, Fail> {
    let table = table_of(rt, TWO_BLOCKERS)?;
    let mut out = room(rt)?;
    if refuses {
        begin(rt);
    }
    let answer = run_show(rt.alloc(), &table, &mut out);
    if refuses {
        end(rt);
    }
    Ok(Told {
        answer,
        written: out.into_inner(),
    })
}

#[test]
fn run_show_lacks_memory_or_is_right(rt: HostRuntime) -> Result<(), Fail> {
    let text = format!(in rt.alloc(); "{ITS_SIGNATURES}\n{ITS_PRIORITIES}")?;
    let first = shown(&rt, true)?;
    assert!(rt; first.is_or_lacks(&(), &text));
    let again = shown(&rt, false)?;
    assert!(rt; again.is(&(), &text));
    Ok(())
}

// Signature rows below their header, and what `lint` answers and writes with no pair.
const LINTED: &[(&str, bool, &str)] = &[
    (
        "puid,signature,position,offset,max_offset,expression\nfmt/1,1,BOF,0,,41 42\nfmt/1,1,BOF,x,,41\n",
        false,
        "signatures line 2 row 1: L8 expression E2 at 2: expression \"41 42\" at 2: expected an expression that goes on from the bytes before it; remove blanks and tabs\nsignatures line 3 row 2: L7 offset: offset \"x\": expected a number from 0 to 65535, the greatest offset not below the offset or left out; none at Variable\n",
    ),
    (
        "puid,signature,position,offset,max_offset,expression\nfmt/1,1,BOF,0,,{4}\nfmt/2,2,BOF,0,0,{4-4}\n",
        true,
        "no fault\nwarning: signature 1 of fmt/1 has gaps alone\nwarning: signature 2 of fmt/2 has gaps alone\nwarning: signature 2 of fmt/2 has a row of signature 1 of fmt/1\n",
    ),
];

// What `lint` answers and writes of these signatures, with growths refused if that is asked.
fn linted(rt: &HostRuntime, signatures: &str, refuses: bool) -> Result<Told<bool>, Fail> {
    let mut signatures = FromRead::new(signatures.as_bytes());
    let mut priorities = FromRead::new(b"higher,lower\n".as_slice());
    let mut out = room(rt)?;
    if refuses {
        begin(rt);
    }
    let answer = run_lint(rt.alloc(), &mut signatures, &mut priorities, &mut out);
    if refuses {
        end(rt);
    }
    Ok(Told {
        answer,
        written: out.into_inner(),
    })
}

#[test]
fn run_lint_lacks_memory_or_is_right(rt: HostRuntime) -> Result<(), Fail> {
    for (signatures, is_faultless, text) in LINTED {
        let first = linted(&rt, signatures, true)?;
        assert!(rt; first.is_or_lacks(is_faultless, text));
        let again = linted(&rt, signatures, false)?;
        assert!(rt; again.is(is_faultless, text));
    }
    Ok(())
}
