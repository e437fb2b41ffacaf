//! Records as JSON.
ghost use Rattle.std.specs.Prelude.{OnOk, drop, option_map, take};
ghost use Rattle.serde_json.specs.Written.{compact_text};
ghost use Rattle.scene_json.specs.Texts.{Adds};
ghost use Rattle.scene_json_forms.specs.Text.{list_text};
ghost use Rattle.scene_file_records.specs.Text.{delta_text, maybe_text, record_text};
ghost use Rattle.scene_print.specs.JsonAsked.{page as part};
ghost use Rattle.scene_questions.specs.Steps.{deltas_along, deltas_answer, records_of, step_answer, step_head, steps_answer};
ghost use Rattle.scene_questions.specs.Printing.{step_lead};

use crate::records::{record_at, record_count};
use scene_file_records::{write_delta_list, write_delta_list_back, write_record};
use scene_journal::FrameRecord;
use scene_json::write_count;
use scene_json_forms::write_comma;
use scene_requests::{Page, Side, Way};
use scene_undo::Editor;
use std::alloc::{AllocError, Global};

/// Adds a record without its deltas.
fn write_step_head(out: &mut String, frame: &FrameRecord) -> Result<(), AllocError>
    ensures { OnOk result (Adds out.old out.new (compact_text (step_head frame.now))) }
{
    Ok(write!(
        out,
        "{{\"tick\":{},\"deltas\":{}}}",
        frame.tick_before(),
        frame.deltas().len()
    )?)
}

/// Adds the list of the records of a side from a place on and before another.
fn write_step_heads(
    out: &mut String,
    editor: &Editor,
    side: Side,
    from: usize,
    to: usize,
) -> Result<(), AllocError>
    ensures { OnOk result (Adds out.old out.new (compact_text (list_text step_head (drop from (take to (records_of side editor.now)))))) }
{
    let mut later = false;
    let mut place = from;
    out.push_str("[")?;
    'steps: while place < to {
        let Some(record) = record_at(editor, side, place) else {
            break 'steps;
        };
        write_comma(out, later)?;
        write_step_head(out, record)?;
        later = true;
        place += 1;
    }
    out.push_str("]")
}

/// Adds a part of the list of the records of a side.
fn write_step_page(
    out: &mut String,
    editor: &Editor,
    side: Side,
    page: Page,
) -> Result<(), AllocError>
    ensures { OnOk result (Adds out.old out.new
        (compact_text (list_text step_head (part page.from page.count (records_of side editor.now))))) }
{
    let from = page.from as usize;
    let to = from + page.count as usize;
    write_step_heads(out, editor, side, from, to)
}

/// Adds a part of the list of the records of a side, and how many there are in all.
pub(crate) fn write_steps(
    out: &mut String,
    editor: &Editor,
    side: Side,
    page: Page,
) -> Result<(), AllocError>
    ensures { OnOk result (Adds out.old out.new (compact_text (steps_answer (records_of side editor.now) page))) }
{
    out.push_str("{\"answer\":\"steps\",\"length\":")?;
    write_count(out, record_count(editor, side) as u64)?;
    out.push_str(",\"steps\":")?;
    write_step_page(out, editor, side, page)?;
    out.push_str("}")
}

/// Adds a record, or `null`.
fn write_maybe_record(
    alloc: Global,
    out: &mut String,
    frame: Option<&FrameRecord>,
) -> Result<(), AllocError>
    ensures { OnOk result (Adds out.old out.new (compact_text (maybe_text record_text (option_map (λ r. r.now) frame.entry)))) }
{
    match frame {
        Some(frame) => write_record(alloc, out, frame),
        None => out.push_str("null"),
    }
}

/// Adds a record with its deltas.
pub(crate) fn write_deltas_answer(
    alloc: Global,
    out: &mut String,
    frame: Option<&FrameRecord>,
) -> Result<(), AllocError>
    ensures { OnOk result (Adds out.old out.new (compact_text (deltas_answer (option_map (λ r. r.now) frame.entry)))) }
{
    out.push_str("{\"answer\":\"deltas\",\"record\":")?;
    write_maybe_record(alloc, out, frame)?;
    out.push_str("}")
}

/// Adds the deltas of a record in the order in which they went a way.
fn write_along(
    alloc: Global,
    out: &mut String,
    way: Way,
    frame: &FrameRecord,
) -> Result<(), AllocError>
    ensures { OnOk result (Adds out.old out.new (compact_text (list_text delta_text (deltas_along way frame.now)))) }
{
    match way {
        Way::Forth => write_delta_list(alloc, out, frame.deltas()),
        Way::Back => write_delta_list_back(alloc, out, frame.deltas()),
    }
}

/// Adds them, or `null` where there is no record.
fn write_maybe_along(
    alloc: Global,
    out: &mut String,
    way: Way,
    frame: Option<&FrameRecord>,
) -> Result<(), AllocError>
    ensures { OnOk result (Adds out.old out.new
        (compact_text (maybe_text (λ r. list_text delta_text (deltas_along way r)) (option_map (λ r. r.now) frame.entry)))) }
{
    match frame {
        Some(frame) => write_along(alloc, out, way, frame),
        None => out.push_str("null"),
    }
}

/// Adds the beginning of a step.
fn write_way(out: &mut String, way: Way) -> Result<(), AllocError>
    ensures { OnOk result (Adds out.old out.new (step_lead way)) }
{
    match way {
        Way::Forth => out.push_str("{\"answer\":\"step\",\"way\":\"forth\",\"deltas\":"),
        Way::Back => out.push_str("{\"answer\":\"step\",\"way\":\"back\",\"deltas\":"),
    }
}

/// Adds what a record did along a way.
pub(crate) fn write_step(
    alloc: Global,
    out: &mut String,
    way: Way,
    frame: Option<&FrameRecord>,
) -> Result<(), AllocError>
    ensures { OnOk result (Adds out.old out.new (compact_text (step_answer way (option_map (λ r. r.now) frame.entry)))) }
{
    write_way(out, way)?;
    write_maybe_along(alloc, out, way, frame)?;
    out.push_str("}")
}
