//! What a shell tells of the opening of a store, from no line on.
use scene_kept_lines::{Opening, OpeningLimits, tell_opening};
use std::test::Fail;

const TOLD: &str =
    "scene: opening played 0 lines, which took 1.2 s; scene compact FILE would put one scene text in their \
    place, and drop the log, the history and the cursor\n";

const KEPT: &str =
    "scene: opening played 0 lines, which took 1.2 s; a checkpoint is kept, at which the next one begins\n";

const OPENING: Opening = Opening {
    lines: 0,
    millis: Some(1_250),
};

#[test]
fn an_opening_is_long_from_a_limit_on(rt: HostRuntime) -> Result<(), Fail> {
    for (lines, millis, is_long) in [
        (1, 1_251, false),
        (0, u64::MAX, true),
        (u64::MAX, 1_250, true),
    ] {
        assert_eq!(rt; OPENING.is_long(OpeningLimits { lines, millis }), is_long);
    }
    Ok(())
}

#[test]
fn an_opening_outweighs_a_text_by_its_lines_or_its_time(rt: HostRuntime) -> Result<(), Fail> {
    for (lines, millis, parts, outweighs) in [
        (8, None, 2, true),
        (8, None, 3, false),
        (0, Some(1), 125, true),
        (8, Some(1), 126, false),
        (u64::MAX, Some(u64::MAX), u64::MAX, true),
    ] {
        let opening = Opening { lines, millis };
        assert_eq!(rt; opening.outweighs(parts), outweighs);
    }
    Ok(())
}

#[test]
fn an_opening_is_told_with_its_checkpoint(rt: HostRuntime) -> Result<(), Fail> {
    let mut told: Vec<u8> = Vec::new(rt.alloc());
    tell_opening(&mut told, OPENING, false);
    tell_opening(&mut told, OPENING, true);
    let mut wanted: Vec<u8> = Vec::new(rt.alloc());
    wanted.extend_from_slice(TOLD.as_bytes())?;
    wanted.extend_from_slice(KEPT.as_bytes())?;
    assert_eq!(rt; told.as_slice(), wanted.as_slice());
    Ok(())
}
