//! Records as JSON.
ghost use Rattle.std.specs.Prelude.{OnOk, reverse};
ghost use Rattle.serde_json.specs.Written.{compact_text};
ghost use Rattle.scene_json.specs.Texts.{Adds};
ghost use Rattle.scene_json_forms.specs.Text.{list_text};
ghost use Rattle.scene_file_records.specs.Text.{delta_text, record_text, records_text};

use crate::write_deltas::write_delta;
use scene_deltas::Deltas;
use scene_journal::FrameRecord;
use scene_json::write_count;
use scene_json_forms::write_comma;
use std::alloc::{AllocError, Global};

/// Adds the list of deltas in the order in which they were made (docs/SCENE_FILES.md, "Version 2"). An error only where
/// no memory was found; a part may be added then.
pub fn write_delta_list(alloc: Global, out: &mut String, deltas: &Deltas) -> Result<(), AllocError>
    ensures { OnOk result (Adds out.old out.new (compact_text (list_text delta_text deltas.now.items))) }
{
    let mut later = false;
    out.push_str("[")?;
    let mut left = deltas.forward();
    'deltas: while let Some(delta) = left.next() {
        write_comma(out, later)?;
        write_delta(alloc, out, delta.get())?;
        later = true;
    }
    out.push_str("]")
}

/// Adds the list of deltas in the order in which an undo takes them back, the last first. An error only where no memory
/// was found; a part may be added then.
pub fn write_delta_list_back(
    alloc: Global,
    out: &mut String,
    deltas: &Deltas,
) -> Result<(), AllocError>
    ensures { OnOk result (Adds out.old out.new (compact_text (list_text delta_text (reverse deltas.now.items)))) }
{
    let mut later = false;
    out.push_str("[")?;
    let mut left = deltas.backward();
    'deltas: while let Some(delta) = left.next() {
        write_comma(out, later)?;
        write_delta(alloc, out, delta.get())?;
        later = true;
    }
    out.push_str("]")
}

/// Adds a record: its deltas and its tick (docs/SCENE_FILES.md, "Version 2"). An error only where no memory was found; a
/// part may be added then.
pub fn write_record(alloc: Global, out: &mut String, frame: &FrameRecord) -> Result<(), AllocError>
    ensures { OnOk result (Adds out.old out.new (compact_text (record_text frame.now))) }
{
    out.push_str("{\"deltas\":")?;
    write_delta_list(alloc, out, frame.deltas())?;
    out.push_str(",\"tick\":")?;
    write_count(out, frame.tick_before())?;
    out.push_str("}")
}

/// Adds to a text the list of records in this order, as the past or the future of a scene text has them
/// (docs/SCENE_FILES.md, "Version 2"). Only want of memory is an error, and then a part may have been added. It costs a
/// walk over the records.
pub fn write_records(
    alloc: Global,
    out: &mut String,
    records: &[FrameRecord],
) -> Result<(), AllocError>
    ensures { OnOk result (Adds out.old out.new (compact_text (records_text records.now))) }
{
    let mut later = false;
    out.push_str("[")?;
    'records: for frame in records {
        write_comma(out, later)?;
        write_record(alloc, out, frame)?;
        later = true;
    }
    out.push_str("]")
}
