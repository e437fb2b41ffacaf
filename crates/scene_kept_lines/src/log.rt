//! What lines that are kept have done.
use crate::frame_account::FrameAccount;
use crate::line_fault::KeptLineFault;
use crate::log_line::{LineSort, answer_to, said_by, sort_of};
use crate::moment::Moment;
use scene_interpreter::{Halt, Interpreter, InterpreterSettings, LineAnswer};
use scene_kinds::Schema;
use scene_script::first_line;
use scene_session::{LoneOwner, Reply};
use std::alloc::{AllocError, Global};
use std::fmt;
use std::io::Write;

/// How many calls came to what.
#[derive(Clone, Copy, Debug, PartialEq, Eq)]
pub struct LogCounts {
    /// Frames that were done.
    pub frames: u64,
    /// Frames that were undone.
    pub undone: u64,
    /// Frames that were done again.
    pub redone: u64,
    /// What was refused.
    pub refused: u64,
}

impl LogCounts {
    /// Nothing is counted.
    fn none() -> LogCounts {
        LogCounts {
            frames: 0,
            undone: 0,
            redone: 0,
            refused: 0,
        }
    }

    /// Counts an answer.
    fn count(&mut self, answer: &LineAnswer) {
        if let LineAnswer::Replied(reply) = answer {
            let count = match reply {
                Reply::Done(_) => &mut self.frames,
                Reply::Undone => &mut self.undone,
                Reply::Redone => &mut self.redone,
                Reply::Refused(_) => &mut self.refused,
            };
            *count = count.saturating_add(1);
        }
    }
}

impl fmt::Display for LogCounts {
    fn fmt<W: fmt::Write>(&self, f: &mut fmt::Formatter<W>) -> fmt::Result {
        let LogCounts {
            frames,
            undone,
            redone,
            refused,
        } = *self;
        write!(
            f,
            "frames {frames}, undone {undone}, redone {redone}, refused {refused}"
        )
    }
}

/// The first line of an answer, without its line break.
fn first_of(text: &str) -> &str {
    match text.split_once('\n') {
        Some((first, _)) => first,
        None => text,
    }
}

/// What a line came to.
#[derive(Drop)]
struct Played {
    sort: LineSort,
    answer: LineAnswer,
    /// Whose call it is.
    session: u32,
    /// Whether it ended the setup.
    ends_setup: bool,
}

/// Plays a line, and gives what it came to.
fn play_line(
    alloc: Global,
    interpreter: &mut Interpreter<LoneOwner>,
    line: &[u8],
) -> Result<Played, Halt> {
    let Ok(said) = said_by(alloc, interpreter.schema(), line) else {
        return Err(Halt::Before);
    };
    let sort = sort_of(&said);
    let session = interpreter.session();
    let was_setting = interpreter.editor().is_none();
    let answer = answer_to(alloc, interpreter, said)?;
    Ok(Played {
        sort,
        answer,
        session,
        ends_setup: was_setting && interpreter.editor().is_some(),
    })
}

/// How far a log has come.
#[derive(Drop)]
struct Log {
    alloc: Global,
    counts: LogCounts,
    /// How many entries there are.
    entries: u64,
    /// When the next lines were kept.
    moment: Moment,
    /// The commands of the frame that is open.
    frame: FrameAccount,
    /// The answer that an entry has.
    answer: String,
    /// What the log says of a line.
    entry: String,
}

impl Log {
    /// The log of no line.
    fn new(alloc: Global) -> Log {
        Log {
            alloc,
            counts: LogCounts::none(),
            entries: 0,
            moment: Moment::unknown(),
            frame: FrameAccount::new(alloc),
            answer: String::new(alloc),
            entry: String::new(alloc),
        }
    }

    /// Begins an entry in the place of the one before.
    fn begin_entry(&mut self, session: u32) -> Result<(), AllocError> {
        self.entries = self.entries.saturating_add(1);
        let Log {
            entries,
            moment,
            ..
        } = *self;
        Ok(write!(&mut self.entry, "{entries} {moment} as {session}: ")?)
    }

    /// Ends an entry with the first line of an answer.
    fn end_entry(&mut self, schema: &Schema, answer: LineAnswer) -> Result<(), AllocError> {
        self.answer.clear();
        answer.write_text(self.alloc, schema, &mut self.answer)?;
        let came_to = first_of(self.answer.as_str());
        Ok(write!(&mut self.entry, " -> {came_to}\n")?)
    }

    /// Makes the entry of a line that says this, and the command that a frame has more.
    fn tell(&mut self, schema: &Schema, line: &str, played: Played) -> Result<(), AllocError> {
        let Played {
            sort,
            answer,
            session,
            ends_setup,
        } = played;
        match (sort, &answer) {
            (LineSort::Begin, _) => {
                self.frame.clear();
                return Ok(());
            }
            (LineSort::Command(place), LineAnswer::Queued) => return self.frame.add(place, line),
            (LineSort::Untold, _) => return Ok(()),
            (LineSort::Aside, _) if !ends_setup => return Ok(()),
            _ => {}
        }
        self.begin_entry(session)?;
        match sort {
            LineSort::Commit | LineSort::DropFrame => write!(&mut self.entry, "{}", self.frame)?,
            LineSort::Load(length) => write!(&mut self.entry, "load of {length} bytes")?,
            _ => self.entry.push_str(line)?,
        }
        match sort {
            LineSort::DropFrame => self.entry.push_str(" -> dropped\n"),
            LineSort::Aside => self.entry.push_str(" -> ok\n"),
            LineSort::Bad => self.entry.push_str(" -> bad line\n"),
            _ => self.end_entry(schema, answer),
        }
    }

    /// Plays a line, and says what it came to, where a log does.
    fn line(&mut self, interpreter: &mut Interpreter<LoneOwner>, line: &[u8]) -> Result<(), Halt> {
        self.entry.clear();
        if let Some(moment) = Moment::said_by(line) {
            self.moment = moment;
            return Ok(());
        }
        let played = play_line(self.alloc, interpreter, line)?;
        self.counts.count(&played.answer);
        let said = match str::from_utf8(line) {
            Ok(said) => said,
            Err(_) => "",
        };
        match self.tell(interpreter.schema(), said, played) {
            Ok(()) => Ok(()),
            Err(AllocError) => Err(Halt::After),
        }
    }

    /// Plays a line of this number, and writes what it came to.
    fn write_line<W: Write>(
        &mut self,
        interpreter: &mut Interpreter<LoneOwner>,
        number: u64,
        line: &[u8],
        writer: &mut W,
    ) -> Result<(), KeptLineFault> {
        if let Err(halt) = self.line(interpreter, line) {
            return Err(KeptLineFault::Halted(number, halt));
        }
        match writer.write_all(self.entry.as_bytes()) {
            Ok(()) => Ok(()),
            Err(_) => Err(KeptLineFault::Unwritten),
        }
    }
}

/// Plays the lines of a text, and writes what they came to. It gives how many calls came to what.
fn write_lines<W: Write>(
    alloc: Global,
    interpreter: &mut Interpreter<LoneOwner>,
    text: &[u8],
    writer: &mut W,
) -> Result<LogCounts, KeptLineFault> {
    let mut log = Log::new(alloc);
    let mut rest = text;
    let mut number = 0u64;
    'lines: while !rest.is_empty() {
        let (line, more) = first_line(rest);
        rest = more;
        number += 1;
        match log.write_line(interpreter, number, line, writer) {
            Ok(()) => {}
            Err(fault) => return Err(fault),
        }
    }
    Ok(log.counts)
}

/// Plays the lines of a text up to the one that an entry of this number tells, and gives how many bytes they have, and
/// how many entries there are then: fewer where all lines were played.
pub(crate) fn length_to_entry(
    alloc: Global,
    interpreter: &mut Interpreter<LoneOwner>,
    text: &[u8],
    entry: u64,
) -> Result<(usize, u64), KeptLineFault> {
    let mut log = Log::new(alloc);
    let mut rest = text;
    let mut number = 0u64;
    'lines: while !rest.is_empty() {
        let (line, more) = first_line(rest);
        rest = more;
        number += 1;
        if let Err(halt) = log.line(interpreter, line) {
            return Err(KeptLineFault::Halted(number, halt));
        }
        if log.entries >= entry {
            break 'lines;
        }
    }
    Ok((text.len().saturating_sub(rest.len()), log.entries))
}

/// Plays the lines of a text from a new interpreter with these settings on, which has no lock, and writes an entry for
/// each frame and each further line that did something (docs/SHELL.md, "The log"): its number, when it was kept, whose
/// call it is, what it says, and the first line of its answer. It gives how many calls came to what. It costs what the
/// lines cost in a script.
///
/// Refused: `Halted` for want of memory, and `Unwritten`. The entries of the lines before are written then.
pub fn write_log<W: Write>(
    alloc: Global,
    settings: InterpreterSettings,
    text: &[u8],
    writer: &mut W,
) -> Result<LogCounts, KeptLineFault> {
    let mut interpreter = Interpreter::alone(alloc, settings);
    write_lines(alloc, &mut interpreter, text, writer)
}
