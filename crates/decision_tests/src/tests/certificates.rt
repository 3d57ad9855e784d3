//! Fields of a certificate, and files that leave two formats or fewer.

use sig_bits::FromRead;
use sig_cert::{CertView, check_witness};
use sig_table::{FormatId, Table};
use std::test::Fail;

#[test]
fn a_field_that_is_not_all_there_moves_nothing(rt: HostRuntime) {
    let mut view = CertView::over(b"PSAC\x01");
    assert!(rt; view.take(4) == Some(b"PSAC".as_slice()));
    assert!(rt; view.take(2).is_none());
    assert!(rt; view.take(1) == Some(b"\x01".as_slice()));
    assert!(rt; view.take(0) == Some(b"".as_slice()));
    assert!(rt; view.take(1).is_none());
}

// Files, and the first two formats that each of them leaves.
const LEFT: &[(&[u8], Option<(FormatId, FormatId)>)] = &[
    (b"AB", Some((FormatId(1), FormatId(2)))),
    (b"A\x00", None),
    (b"A\x00B", Some((FormatId(0), FormatId(3)))),
    (b"B", None),
    (b"", None),
];

#[test]
fn names_the_first_two_formats_that_are_left(rt: HostRuntime) -> Result<(), Fail> {
    let mut signatures = FromRead::new(b"puid,signature,position,offset,max_offset,expression
fmt/1,1,BOF,0,,41??
fmt/2,2,BOF,0,,??42
fmt/3,3,BOF,0,,4142
fmt/4,4,EOF,0,,42
"
        .as_slice());
    let mut priorities = FromRead::new(b"higher,lower\nfmt/3,fmt/1\n".as_slice());
    let table = Table::load(rt.alloc(), &mut signatures, &mut priorities)?;
    for (file, two) in LEFT {
        assert!(rt;
            check_witness(rt.alloc(), &table, file)? == *two,
            "{file:?}"
        );
    }
    Ok(())
}
