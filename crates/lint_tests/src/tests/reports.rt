//! The text that is told of two files.

use sig_lint::report_on;
use std::test::Fail;

#[test]
fn faults_of_both_files_are_lines_of_one_text(rt: HostRuntime) -> Result<(), Fail> {
    let report = report_on(
        rt.alloc(),
        b"puid,signature,position,offset,max_offset,expression\nfmt/1,1,BOF,0,,4142\nfmt/2,1,BOF,0,,4143\n".as_slice(),
        b"lower,higher\n".as_slice(),
    )?;
    let lines =
        "signatures line 3 row 2: L9 signature of two formats: signature \"1\": expected a number that no other format has\npriorities line 1: L2 header: record \"lower,higher\": expected the header higher,lower; put the columns in the order of the header\n";
    assert!(rt; !report.is_faultless);
    assert_eq!(rt; report.text.as_slice(), lines.as_bytes());
    Ok(())
}

#[test]
fn a_table_without_a_fault_has_its_warnings(rt: HostRuntime) -> Result<(), Fail> {
    let report = report_on(
        rt.alloc(),
        b"puid,signature,position,offset,max_offset,expression\nfmt/1,7,BOF,0,,{4}\nx-fmt/2,8,BOF,0,,{4-4}\n".as_slice(),
        b"higher,lower\n".as_slice(),
    )?;
    let lines =
        "no fault\nwarning: signature 7 of fmt/1 has gaps alone\nwarning: signature 8 of x-fmt/2 has gaps alone\nwarning: signature 8 of x-fmt/2 has a row of signature 7 of fmt/1\n";
    assert!(rt; report.is_faultless);
    assert_eq!(rt; report.text.as_slice(), lines.as_bytes());
    Ok(())
}
