//! Which lines may change an interpreter.
ghost use Rattle.std.specs.Prelude.{◌≡◌};
ghost use Rattle.scene_interpreter.specs.Changes.{changes_alone, changes_frame, changes_said, changes_setup, changes_within};
ghost use Rattle.scene_interpreter.specs.Setup.{base_of};

use crate::open_frame::OpenFrame;
use crate::setup::Base;
use scene_script::{BadLine, Line};

/// Whether a line may change a setup of this base, or ends it.
pub(crate) fn changes_setup(base: &Base, said: &Result<Line, BadLine>) -> bool
    ensures { result ≡ changes_said (changes_setup (base_of base.now)) said.now }
{
    match said {
        Err(_) | Ok(Line::Empty | Line::Queue | Line::Commit) => false,
        Ok(Line::Kind(..) | Line::Slots(_)) => matches!(base, Base::Declared(..)),
        Ok(_) => true,
    }
}

/// Whether a line may change the state where no frame is open.
fn changes_alone(line: &Line) -> bool
    ensures { result ≡ changes_alone line.now }
{
    !matches!(
        line,
        Line::Empty
            | Line::Kind(..)
            | Line::Slots(_)
            | Line::Load(_)
            | Line::Calls(_)
            | Line::Depth(_)
            | Line::Queue
            | Line::Commit
            | Line::Show
            | Line::Get(_)
            | Line::Changed
            | Line::Added
            | Line::History
            | Line::Dump
            | Line::DumpAll
    )
}

/// Whether a line may change the state behind the setup, where this frame is open, if one is.
pub(crate) fn changes_state(frame: &Option<OpenFrame>, said: &Result<Line, BadLine>) -> bool
    ensures { result ≡ changes_said (changes_within frame.now) said.now }
{
    match (said, frame) {
        (Err(_), _) => false,
        (Ok(line), None) => changes_alone(line),
        (Ok(line), Some(_)) => matches!(line, Line::Do(_) | Line::Queue | Line::Commit),
    }
}
