//! The answers to questions.
ghost use Rattle.std.specs.Prelude.{OnOk, codes};
ghost use Rattle.serde_json.specs.Written.{compact_text};
ghost use Rattle.scene_json.specs.Texts.{Adds};
ghost use Rattle.scene_pass.specs.Pass.{added_since, changed_since};
ghost use Rattle.scene_undo.specs.Cursor.{since};
ghost use Rattle.scene_undo.specs.Editor.{machine_of};
ghost use Rattle.scene_questions.specs.Printing.{cursor_text, frames_text, slots_text};
ghost use Rattle.scene_questions.specs.Questions.{kinds_answer, question_json, since_answer, status_answer};

use crate::records::{last_of, record_at};
use crate::steps::{write_deltas_answer, write_step, write_steps};
use scene_file::write_kinds;
use scene_kinds::Schema;
use scene_pass::{Filter, added_since, changed_since};
use scene_print::{
    write_json_children, write_json_listed, write_json_parent, write_json_refused,
    write_json_resources, write_json_rows, write_json_tables,
};
use scene_requests::Question;
use scene_undo::{Cursor, Editor};
use std::alloc::{AllocError, Global};

/// Adds the beginning of a status: the cursor of now.
fn write_cursor(out: &mut String, cursor: Cursor) -> Result<(), AllocError>
    ensures { OnOk result (Adds out.old out.new (cursor_text cursor)) }
{
    Ok(write!(
        out,
        "{{\"answer\":\"status\",\"tick\":{},\"rewinds\":{}",
        cursor.tick, cursor.rewinds
    )?)
}

/// Adds how many frames can be undone and redone, and of how many a record is kept.
fn write_frames(out: &mut String, past: usize, future: usize, depth: u32) -> Result<(), AllocError>
    ensures { OnOk result (Adds out.old out.new (frames_text past future depth)) }
{
    Ok(write!(
        out,
        ",\"past\":{past},\"future\":{future},\"depth\":{depth}"
    )?)
}

/// Adds how many slots there are, and how many there may be.
fn write_slots(out: &mut String, slots: usize, limit: u32) -> Result<(), AllocError>
    ensures { OnOk result (Adds out.old out.new (slots_text slots limit)) }
{
    Ok(write!(out, ",\"slots\":{slots},\"limit\":{limit}}}")?)
}

/// Adds the cursor of now, and how much there is of what.
fn write_status(out: &mut String, editor: &Editor) -> Result<(), AllocError>
    ensures { OnOk result (Adds out.old out.new (compact_text (status_answer editor.now))) }
{
    write_cursor(out, editor.cursor())?;
    write_frames(out, editor.undo_len(), editor.redo_len(), editor.depth())?;
    let slots = editor.world().slots();
    write_slots(out, slots.len(), slots.limit())
}

/// Adds the kinds.
fn write_kinds_answer(alloc: Global, out: &mut String, schema: &Schema) -> Result<(), AllocError>
    ensures { OnOk result (Adds out.old out.new (compact_text (kinds_answer schema.now))) }
{
    out.push_str("{\"answer\":\"kinds\",\"kinds\":")?;
    write_kinds(alloc, out, schema)?;
    out.push_str("}")
}

/// Adds the cells that were changed since a cursor.
fn write_changed(
    alloc: Global,
    out: &mut String,
    editor: &Editor,
    filter: Filter,
    cursor: Cursor,
) -> Result<(), AllocError>
    ensures { OnOk result (Adds out.old out.new (compact_text (since_answer (codes "changed") editor.now.world.schema
        (changed_since editor.now.world filter) (since cursor (machine_of editor.now))))) }
{
    match editor.since(cursor) {
        Ok(tick) => {
            let world = editor.world();
            let cells = changed_since(alloc, world, filter, tick)?;
            write_json_listed(alloc, out, "changed", world.schema(), cells.as_slice())
        }
        Err(refusal) => write_json_refused(out, refusal),
    }
}

/// Adds those that were added.
fn write_added(
    alloc: Global,
    out: &mut String,
    editor: &Editor,
    filter: Filter,
    cursor: Cursor,
) -> Result<(), AllocError>
    ensures { OnOk result (Adds out.old out.new (compact_text (since_answer (codes "added") editor.now.world.schema
        (added_since editor.now.world filter) (since cursor (machine_of editor.now))))) }
{
    match editor.since(cursor) {
        Ok(tick) => {
            let world = editor.world();
            let cells = added_since(alloc, world, filter, tick)?;
            write_json_listed(alloc, out, "added", world.schema(), cells.as_slice())
        }
        Err(refusal) => write_json_refused(out, refusal),
    }
}

/// Adds what an editor answers to a question, as JSON on one line without its line break (docs/SHELL.md, "Questions").
/// A refusal, as of an entity that isn't alive, is an answer. It costs what it lists, and for kind sets their number
/// times its logarithm; the record of a part of a list is found at once.
///
/// An error only where no memory was found; a part may be added then.
pub fn write_json_answer(
    alloc: Global,
    out: &mut String,
    editor: &Editor,
    question: Question,
) -> Result<(), AllocError>
    ensures { OnOk result (Adds out.old out.new (compact_text (question_json question editor.now))) }
{
    let world = editor.world();
    match question {
        Question::Status => write_status(out, editor),
        Question::Kinds => write_kinds_answer(alloc, out, world.schema()),
        Question::Tables(filter) => write_json_tables(alloc, out, world, filter),
        Question::Rows(filter, page) => write_json_rows(
            alloc,
            out,
            world,
            filter,
            page.from as usize,
            page.count as usize,
        ),
        Question::Children(entity) => write_json_children(out, world, entity),
        Question::ParentOf(entity) => write_json_parent(out, world, entity),
        Question::Resources => write_json_resources(alloc, out, world.resources()),
        Question::Steps(side, page) => write_steps(out, editor, side, page),
        Question::Deltas(side, place) => {
            write_deltas_answer(alloc, out, record_at(editor, side, place as usize))
        }
        Question::Step(way) => write_step(alloc, out, way, last_of(editor, way)),
        Question::ChangedSince {
            filter,
            rewinds,
            tick,
        } => write_changed(alloc, out, editor, filter, Cursor { rewinds, tick }),
        Question::AddedSince {
            filter,
            rewinds,
            tick,
        } => write_added(alloc, out, editor, filter, Cursor { rewinds, tick }),
    }
}
