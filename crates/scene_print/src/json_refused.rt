//! Refusals, and the faults of scene texts, as JSON.
ghost use Rattle.std.specs.Prelude.{OnOk, codes};
ghost use Rattle.serde_json.specs.Written.{compact_text};
ghost use Rattle.scene_json.specs.Texts.{Adds};
ghost use Rattle.scene_kinds.specs.Fault.{fault_name, fault_number};
ghost use Rattle.scene_json_forms.specs.Fault.{file_name, file_number};
ghost use Rattle.scene_print.specs.JsonSteps.{fields_text, file_fields, head_text, place_text};
ghost use Rattle.scene_print.specs.JsonTold.{file_fault_json, refused_json};

use scene_json::write_json_text;
use scene_json_forms::{FileFault, write_entity};
use scene_kinds::{Fault, Place, Refusal};
use std::alloc::{AllocError, Global};

/// Adds the beginning of a refusal: the number and the name of its fault.
fn write_head(out: &mut String, fault: Fault) -> Result<(), AllocError>
    ensures { OnOk result (Adds out.old out.new (head_text (codes "refused") (fault_number fault) (fault_name fault))) }
{
    Ok(write!(
        out,
        "{{\"answer\":\"refused\",\"number\":{},\"name\":\"{}\"",
        fault.number(),
        fault.name()
    )?)
}

/// Adds the fields of a fault, each after a comma.
fn write_fields(out: &mut String, fault: Fault) -> Result<(), AllocError>
    ensures { OnOk result (Adds out.old out.new (fields_text fault)) }
{
    match fault {
        Fault::Overflow(entity) => {
            out.push_str(",\"entity\":")?;
            write_entity(out, entity)
        }
        Fault::HistoryFull(length) => Ok(write!(out, ",\"length\":{length}")?),
        Fault::Rewound(count) => Ok(write!(out, ",\"rewinds\":{count}")?),
        Fault::Conflict {
            phase,
            first,
            second,
        } => Ok(write!(
            out,
            ",\"phase\":{phase},\"first\":{first},\"second\":{second}"
        )?),
        Fault::BadRule { phase, system } => {
            Ok(write!(out, ",\"phase\":{phase},\"system\":{system}")?)
        }
        Fault::BadWorld(rule) => Ok(write!(out, ",\"rule\":{rule}")?),
        Fault::BadRecord { frame, delta } => {
            Ok(write!(out, ",\"frame\":{frame},\"delta\":{delta}")?)
        }
        _ => Ok(()),
    }
}

/// Adds a place after a comma, where there is one.
fn write_place(out: &mut String, place: Option<Place>) -> Result<(), AllocError>
    ensures { OnOk result (Adds out.old out.new (place_text place)) }
{
    match place {
        Some(
            Place {
                phase,
                queue,
                command,
            },
        ) => Ok(write!(
            out,
            ",\"place\":{{\"phase\":{phase},\"queue\":{queue},\"command\":{command}}}"
        )?),
        None => Ok(()),
    }
}

/// Adds a refusal as an answer: its fault by number and name with its fields, and its place where it has one
/// (docs/SHELL.md, "JSON"). An error only where no memory was found; a part may be added then.
pub fn write_json_refused(out: &mut String, refusal: Refusal) -> Result<(), AllocError>
    ensures { OnOk result (Adds out.old out.new (compact_text (refused_json refusal))) }
{
    let Refusal { fault, place } = refusal;
    write_head(out, fault)?;
    write_fields(out, fault)?;
    write_place(out, place)?;
    out.push_str("}")
}

/// Adds the beginning of the fault of a scene text: its number and its name.
fn write_file_head(out: &mut String, fault: &FileFault) -> Result<(), AllocError>
    ensures { OnOk result (Adds out.old out.new (head_text (codes "fault") (file_number fault.now) (file_name fault.now))) }
{
    Ok(write!(
        out,
        "{{\"answer\":\"fault\",\"number\":{},\"name\":\"{}\"",
        fault.number(),
        fault.name()
    )?)
}

/// Adds the fields of the fault of a scene text, each after a comma.
fn write_file_fields(alloc: Global, out: &mut String, fault: &FileFault) -> Result<(), AllocError>
    ensures { OnOk result (Adds out.old out.new (file_fields fault.now)) }
{
    match fault {
        FileFault::UnknownKey(path) | FileFault::BadField(path) => {
            out.push_str(",\"path\":")?;
            write_json_text(alloc, out, path.as_str())
        }
        FileFault::BadVersion(version) => Ok(write!(out, ",\"version\":{version}")?),
        FileFault::BadWorld(rule) => Ok(write!(out, ",\"rule\":{rule}")?),
        FileFault::BadRecord { frame, delta } => {
            Ok(write!(out, ",\"frame\":{frame},\"delta\":{delta}")?)
        }
        _ => Ok(()),
    }
}

/// Adds the fault of a scene text as an answer, by its number and name with its fields (docs/SHELL.md, "JSON"). An
/// error only where no memory was found; a part may be added then.
pub fn write_json_fault(
    alloc: Global,
    out: &mut String,
    fault: &FileFault,
) -> Result<(), AllocError>
    ensures { OnOk result (Adds out.old out.new (compact_text (file_fault_json fault.now))) }
{
    write_file_head(out, fault)?;
    write_file_fields(alloc, out, fault)?;
    out.push_str("}")
}
