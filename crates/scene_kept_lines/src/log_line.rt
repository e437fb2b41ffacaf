//! What a line of a store is to its log.
use crate::frame_account::place_of_word;
use scene_answers::play_request;
use scene_interpreter::{Halt, Interpreter, LineAnswer};
use scene_kinds::Schema;
use scene_requests::{Request, is_request};
use scene_script::{Line, LineError, read_line};
use scene_session::{LoneOwner, ThisThread};
use scene_shell::request_said;
use std::alloc::{AllocError, Global};

/// How a log tells a line.
#[derive(Clone, Copy, Debug, PartialEq, Eq)]
pub(crate) enum LineSort {
    /// A command, whose word stands there in the account of a frame: with its frame, or by itself where none is open.
    Command(usize),
    /// The beginning of a frame.
    Begin,
    /// The end of a frame, told with its commands.
    Commit,
    /// The same where it is dropped.
    DropFrame,
    /// A scene text of so many bytes, which is not told itself.
    Load(usize),
    /// A line that asks, marks or says whose turn it is, and is told only where it ends the setup.
    Aside,
    /// A bad line, as no shell keeps one.
    Bad,
    /// Not told: an empty line, or a further queue.
    Untold,
    /// Any other line, told by itself.
    Alone,
}

/// What a line says, as the request that it is or would be; `Ok(None)` where it is bad.
pub(crate) fn said_by(
    alloc: Global,
    schema: &Schema,
    line: &[u8],
) -> Result<Option<Request>, AllocError> {
    if is_request(line) {
        return match request_said(alloc, schema, line)? {
            Ok(said) => Ok(Some(said)),
            Err(_) => Ok(None),
        };
    }
    match read_line(alloc, schema, line) {
        Ok(said) => Ok(Some(Request::Line(said))),
        Err(LineError::Bad(_)) => Ok(None),
        Err(LineError::NoMemory) => Err(AllocError),
    }
}

/// How a log tells a line of a script.
fn sort_of_line(line: &Line) -> LineSort {
    match line {
        Line::Do(command) => LineSort::Command(place_of_word(command)),
        Line::Begin => LineSort::Begin,
        Line::Commit => LineSort::Commit,
        Line::Load(text) => LineSort::Load(text.as_str().len()),
        Line::Empty | Line::Queue => LineSort::Untold,
        Line::Show
        | Line::Get(_)
        | Line::Mark
        | Line::Changed
        | Line::Added
        | Line::Dump
        | Line::DumpAll
        | Line::History
        | Line::As(_) => LineSort::Aside,
        _ => LineSort::Alone,
    }
}

/// How a log tells a line that says this.
pub(crate) fn sort_of(said: &Option<Request>) -> LineSort {
    match said {
        Some(Request::Line(line)) => sort_of_line(line),
        Some(Request::Ask(_)) => LineSort::Aside,
        Some(Request::DropFrame) => LineSort::DropFrame,
        Some(Request::Turn(..) | Request::Declare(..)) => LineSort::Alone,
        None => LineSort::Bad,
    }
}

/// Plays what a line says, and gives its answer. That of a question isn't worked out, nor why a line is bad.
pub(crate) fn answer_to(
    alloc: Global,
    interpreter: &mut Interpreter<LoneOwner>,
    said: Option<Request>,
) -> Result<LineAnswer, Halt> {
    match said {
        Some(asked) => play_request(&ThisThread, alloc, interpreter, asked),
        None => Ok(LineAnswer::Nothing),
    }
}
