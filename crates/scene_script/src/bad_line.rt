//! Why a line is bad.
ghost use Rattle.std.specs.Prelude.{◌≡◌, IfOk};
ghost use Rattle.scene_script.specs.declared.bad_line.LineError.TheVariants.{Bad, NoMemory};

use crate::form::LineForm;
use scene_kinds::Text;
use std::alloc::{AllocError, AllocFailed, Global};
use std::fmt;
use thiserror::Error;

/// Why a line is bad: its first mistake, read from the left (docs/SCRIPTS.md, "Bad lines"). `Display` says it in words.
#[derive(Debug, Drop, Error)]
pub enum BadLine {
    #[error("the line is no UTF-8")]
    NotUtf8,
    /// The first word names no line.
    #[error("no command is named {}", quoted(.0))]
    UnknownCommand(Text),
    #[error("a word is missing in `{0}`")]
    MissingWord(LineForm),
    /// The first word behind the last one of the form.
    #[error("`{}` is a word too many for `{}`", quoted(.0), .1)]
    ExtraWord(Text, LineForm),
    /// A word behind a text that can be no more than a further part of it.
    #[error("`{}` is no part of the text before it: a text ends at the next space, which has no escape; write _ or -", quoted(.0))]
    BehindText(Text),
    #[error("no shape is named {}: a shape is Tag, Int, Vec3, Text or Link", quoted(.0))]
    UnknownShape(Text),
    #[error("no kind is named {}", quoted(.0))]
    UnknownKind(Text),
    /// A kind or a shape other than a tag, with no `=` behind it.
    #[error("`{}` needs = and a value behind it", quoted(.0))]
    MissingValue(Text),
    /// A kind or a shape that is a tag, with a `=` behind it.
    #[error("`{}` is a Tag, and so has no = behind it", quoted(.0))]
    ValueOfTag(Text),
    #[error("`{}` is no whole number, as 0, 17 or -5", quoted(.0))]
    NoNumber(Text),
    /// A whole number below the second or above the third.
    #[error("`{}` is out of range, which is {} to {}", quoted(.0), .1, .2)]
    OutOfRange(Text, i64, i64),
    #[error("`{}` isn't three whole numbers with commas between them, as 1,-2,3", quoted(.0))]
    NoVec3(Text),
    #[error("`{}` is no entity, as 0v1", quoted(.0))]
    NoEntity(Text),
    #[error("`{}` is neither an entity, as 0v1, nor + and a number", quoted(.0))]
    NoTarget(Text),
    /// A part of a filter with no kind behind it, or a count with no resource.
    #[error("`{}` needs a name behind it", quoted(.0))]
    MissingName(Text),
    /// A part of a filter behind one that comes after it, behind one like it, or behind a step.
    #[error("`{}` comes too late: need= stands first, then without=, each at most once, and then the steps", quoted(.0))]
    MisplacedPart(Text),
    #[error("`{}` is no step, as addvec:TO:BY, addint:TO:NUMBER, zero:NAME, child:CELL;CELL or count:NAME", quoted(.0))]
    NoStep(Text),
    /// A step that spawns a child, with an empty cell.
    #[error("a cell is missing in `{}`", quoted(.0))]
    MissingCell(Text),
    /// A line of the setup behind it.
    #[error("the setup has ended: kind, slots, load, calls and depth come before all other lines")]
    SetupEnded,
    /// A kind or a slot limit behind a load, which gives both.
    #[error("a scene is loaded: its kinds and its slot limit stay")]
    SceneLoaded,
    /// A line of a frame where none is open.
    #[error("no frame is open: queue and commit come only behind begin")]
    NoFrame,
    /// A line other than those of a frame where one is open.
    #[error("a frame is open: only commands and queue come before its commit")]
    FrameOpen,
}

/// Why a line wasn't read.
#[derive(Debug, Drop, Error)]
pub enum LineError {
    #[error(transparent)]
    Bad(BadLine),
    /// A growth of memory was refused.
    #[error("no memory")]
    NoMemory,
}

impl From<AllocError> for LineError {
    ghost from_gives = { λ _ error. error ≡ NoMemory };

    fn from(_error: AllocError) -> LineError {
        LineError::NoMemory
    }
}

impl<T: Drop> From<AllocFailed<T>> for LineError {
    ghost from_gives = { λ _ error. error ≡ NoMemory };

    fn from(_error: AllocFailed<T>) -> LineError {
        LineError::NoMemory
    }
}

impl From<BadLine> for LineError {
    ghost from_gives = { λ reason error. error ≡ Bad reason };

    fn from(reason: BadLine) -> LineError {
        LineError::Bad(reason)
    }
}

/// A word as a message shows it: as it stands, but quoted and escaped where it is empty or has a control character.
#[derive(Clone, Copy)]
struct Shown<'a> {
    word: &'a str,
}

fn quoted(word: &Text) -> Shown<'_> {
    Shown {
        word: word.as_str(),
    }
}

impl<'a> fmt::Display for Shown<'a> {
    fn fmt<W: fmt::Write>(&self, f: &mut fmt::Formatter<W>) -> fmt::Result {
        let word = self.word;
        if word.is_empty() || word.as_bytes().iter().any(|byte| byte.is_ascii_control()) {
            write!(f, "{word:?}")
        } else {
            write!(f, "{word}")
        }
    }
}

/// A word as a text of its own.
pub(crate) fn text_of(alloc: Global, word: &str) -> Result<Text, AllocError>
    ensures { IfOk result (λ text. text ≡ word.now) }
{
    Ok(Text::from(String::from_str(alloc, word)?))
}
