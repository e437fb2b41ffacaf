//! What a line is answered with.
ghost use Rattle.std.specs.Prelude.{◌≡◌, ◌≢◌, OnOk, IfOk};
ghost use Rattle.scene_json.specs.Texts.{Adds};
ghost use Rattle.scene_json_forms.specs.declared.fault.FileFault.TheVariants.{NoMemory as FileWantsMemory};
ghost use Rattle.scene_kinds.specs.Answers.{refusal_of};
ghost use Rattle.scene_kinds.specs.declared.fault.Fault.TheVariants.{NoMemory};
ghost use Rattle.scene_session.specs.Calls.{told};
ghost use Rattle.scene_session.specs.declared.call.Reply.TheVariants.{Refused};
ghost use Rattle.scene_interpreter.specs.Answer.{said_of};
ghost use Rattle.scene_interpreter.specs.Said.{answer_text, bad_in, made_text, refused_text, said_text};
ghost use Rattle.scene_interpreter.specs.declared.answer.LineAnswer.TheVariants.{Fault as SaysFault, Replied};

use crate::file_fault_text::write_file_fault;
use scene_file::FileFault;
use scene_kinds::{Entity, Fault, Refusal, Schema};
use scene_pass::CellName;
use scene_print::{write_entities, write_listed, write_refusal};
use scene_script::BadLine;
use scene_session::Reply;
use scene_undo::Cursor;
use std::alloc::{AllocError, Global};

/// What a line is answered with (docs/SCRIPTS.md, "Lines"). `write_text` says it as a script does. Contracts see what
/// it means: `said_of` in `specs/Answer.antt`.
#[derive(Drop)]
pub enum LineAnswer {
    /// Nothing: the line is empty or a comment.
    Nothing,
    /// The setup, the open frame, the turn or the systems are now as the line says.
    Taken,
    /// The command stands last in the open frame.
    Queued,
    /// A call came to this, or something was refused before a call was made.
    Replied(Reply),
    /// A scene text wasn't loaded or saved.
    Fault(FileFault),
    /// The cursor of now.
    Marked(Cursor),
    /// How many calls there were.
    Counted(u64),
    /// A text of the world, or of all that the editor keeps, by whole lines.
    Text(String),
    /// The cells that were changed since the mark.
    Changed(Vec<CellName>),
    /// The cells that were added since the mark.
    Added(Vec<CellName>),
    /// Nothing was done: the line is bad, and this is why.
    Bad(BadLine),
}

/// The answer of a refusal; want of memory is none.
pub(crate) fn refused(refusal: Refusal) -> Result<LineAnswer, AllocError>
    ensures answer { IfOk result (λ answer. answer ≡ Replied (Refused refusal)) }
    ensures memory { OnOk result (refusal ≢ refusal_of NoMemory) }
{
    match refusal.fault {
        Fault::NoMemory => Err(AllocError),
        _ => Ok(LineAnswer::Replied(Reply::Refused(refusal))),
    }
}

/// The answer of a fault of a scene text; want of memory is none.
pub(crate) fn faulty(fault: FileFault) -> Result<LineAnswer, AllocError>
    ensures answer { IfOk result (λ answer. answer ≡ SaysFault fault) }
    ensures memory { OnOk result (fault ≢ FileWantsMemory) }
{
    match fault {
        FileFault::NoMemory => Err(AllocError),
        _ => Ok(LineAnswer::Fault(fault)),
    }
}

/// Adds a refusal.
pub(crate) fn write_refused(out: &mut String, refusal: Refusal) -> Result<(), AllocError>
    ensures { OnOk result (Adds out.old out.new (refused_text refusal)) }
{
    out.push_str("refused ")?;
    write_refusal(out, refusal)?;
    out.push('\n')
}

/// Adds what a frame made: the entities that it spawned.
#[inline(always)]
fn write_made(out: &mut String, entities: &[Entity]) -> Result<(), AllocError>
    ensures { OnOk result (Adds out.old out.new (made_text entities.now)) }
{
    out.push_str("done")?;
    write_entities(out, entities)?;
    out.push_str("\n")
}

/// Adds what a call came to.
#[inline(always)]
pub(crate) fn write_reply(out: &mut String, reply: &Reply) -> Result<(), AllocError>
    ensures { OnOk result (Adds out.old out.new (answer_text (told reply.now))) }
{
    match reply {
        Reply::Done(entities) => write_made(out, entities.as_slice()),
        Reply::Undone => out.push_str("undone\n"),
        Reply::Redone => out.push_str("redone\n"),
        Reply::Refused(refusal) => write_refused(out, *refusal),
    }
}

impl LineAnswer {
    /// Adds the answer as a script prints it, where these are the kinds. It costs the text. An error only where no
    /// memory was found; a part may be added then.
    pub fn write_text(
        &self,
        alloc: Global,
        schema: &Schema,
        out: &mut String,
    ) -> Result<(), AllocError>
        ensures { OnOk result (Adds out.old out.new (said_text schema.now (said_of self.now))) }
    {
        match self {
            LineAnswer::Nothing => Ok(()),
            LineAnswer::Taken => out.push_str("ok\n"),
            LineAnswer::Queued => out.push_str("queued\n"),
            LineAnswer::Replied(reply) => write_reply(out, reply),
            LineAnswer::Fault(fault) => write_file_fault(alloc, out, fault),
            LineAnswer::Marked(cursor) => {
                Ok(write!(out, "mark {} {}\n", cursor.rewinds, cursor.tick)?)
            }
            LineAnswer::Counted(count) => Ok(write!(out, "history {count}\n")?),
            LineAnswer::Text(text) => out.push_str(text.as_str()),
            LineAnswer::Changed(cells) => write_listed(out, "changed", schema, cells.as_slice()),
            LineAnswer::Added(cells) => write_listed(out, "added", schema, cells.as_slice()),
            LineAnswer::Bad(_) => out.push_str("bad line\n"),
        }
    }

    /// Adds the answer as `write_text` does, and gives why the line is bad, where it is. Where nothing stands there
    /// yet, a text is handed on and not copied. An error only where no memory was found; a part may be added then.
    pub fn tell(
        self,
        alloc: Global,
        schema: &Schema,
        out: &mut String,
    ) -> Result<Option<BadLine>, AllocError>
        ensures text { OnOk result (Adds out.old out.new (said_text schema.now (said_of self))) }
        ensures bad { IfOk result (λ bad. bad ≡ bad_in (said_of self)) }
    {
        match self {
            // Most lines are answered so, and then nothing is handed on.
            LineAnswer::Replied(reply) => {
                write_reply(out, &reply)?;
                Ok(None)
            }
            LineAnswer::Queued => {
                out.push_str("queued\n")?;
                Ok(None)
            }
            LineAnswer::Text(text) if out.is_empty() => {
                *out = text;
                Ok(None)
            }
            other => {
                other.write_text(alloc, schema, out)?;
                Ok(other.into_bad_line())
            }
        }
    }

    /// Why the line is bad, where it is.
    pub fn into_bad_line(self) -> Option<BadLine>
        ensures { result ≡ bad_in (said_of self) }
    {
        match self {
            LineAnswer::Bad(reason) => Some(reason),
            _ => None,
        }
    }
}
