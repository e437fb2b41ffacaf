//! Texts that are cut short, and texts at the limits of bytes and of calls.
use crate::texts::{SMALL, load_name, load_text_name};
use scene_file::FileFault;
use scene_lower_tests::Pieces;
use scene_streams::MOST_BYTES;
use std::io::ErrorKind;
use std::test::Fail;

#[test]
fn a_text_that_is_cut_short_is_no_json(rt: HostRuntime) -> Result<(), Fail> {
    let text = SMALL.as_bytes();
    for length in 0..text.len() {
        assert_eq!(rt;
            load_text_name(rt.alloc(), &text[..length]),
            "NotJson",
            "{length}"
        );
    }
    assert_eq!(rt; load_text_name(rt.alloc(), text), "good");
    Ok(())
}

#[test]
fn a_text_above_its_limits_is_too_long(rt: HostRuntime) -> Result<(), Fail> {
    let cases = [
        (MOST_BYTES, MOST_BYTES, "NotJson"),
        (MOST_BYTES + 1, MOST_BYTES, "TooLong"),
        (2_000_000, 1, "TooLong"),
    ];
    for (length, step, wanted) in cases {
        let spaces = vec![in rt.alloc(); b' '; length]?;
        let reader = Pieces::new(spaces.as_slice(), step, 0, ErrorKind::Other);
        assert_eq!(rt; load_name(rt.alloc(), reader), wanted, "{length}");
    }
    let text = FileFault::TooLong.to_string(rt.alloc())?;
    assert_eq!(rt; text.as_str(), "fault 56 TooLong");
    Ok(())
}
