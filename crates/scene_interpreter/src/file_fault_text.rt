//! The line of a fault of a scene text.
ghost use Rattle.std.specs.Prelude.{◌≢◌, OnOk};
ghost use Rattle.scene_json.specs.Texts.{Adds};
ghost use Rattle.scene_json_forms.specs.declared.fault.FileFault.TheVariants.{NoMemory};
ghost use Rattle.scene_interpreter.specs.FileFaultText.{file_fault_fields, file_fault_text};

use scene_file::FileFault;
use scene_json::write_json_text;
use std::alloc::{AllocError, Global};

/// Adds the fields of a fault, each after a space.
fn write_fields(alloc: Global, out: &mut String, fault: &FileFault) -> Result<(), AllocError>
    ensures { OnOk result (Adds out.old out.new (file_fault_fields fault.now)) }
{
    match fault {
        FileFault::UnknownKey(path) | FileFault::BadField(path) => {
            out.push(' ')?;
            write_json_text(alloc, out, path.as_str())
        }
        FileFault::BadVersion(version) => Ok(write!(out, " {version}")?),
        FileFault::BadWorld(rule) => Ok(write!(out, " {rule}")?),
        FileFault::BadRecord { frame, delta } => Ok(write!(out, " {frame} {delta}")?),
        _ => Ok(()),
    }
}

/// Adds the line of a fault: `fault NUMBER NAME` and its fields, a path as a JSON string (docs/SCRIPTS.md, "Output").
pub(crate) fn write_file_fault(
    alloc: Global,
    out: &mut String,
    fault: &FileFault,
) -> Result<(), AllocError>
    ensures { OnOk result (Adds out.old out.new (file_fault_text fault.now)) }
{
    write!(out, "fault {} {}", fault.number(), fault.name())?;
    write_fields(alloc, out, fault)?;
    out.push_str("\n")
}

/// Adds the line of a fault of a load or a save; want of memory is no answer, and ends the run.
pub fn answer_file_fault(
    alloc: Global,
    out: &mut String,
    fault: FileFault,
) -> Result<(), AllocError>
    ensures text { OnOk result (Adds out.old out.new (file_fault_text fault)) }
    ensures memory { OnOk result (fault ≢ NoMemory) }
{
    match fault {
        FileFault::NoMemory => Err(AllocError),
        _ => write_file_fault(alloc, out, &fault),
    }
}
