//! What deltas do, by the key `op`.
ghost use Rattle.std.specs.Prelude.{◌≡◌};
ghost use Rattle.scene_file_records.specs.Op.{op_named as named_op};

use scene_json::Part;
use scene_json_forms::{FileResult, Form, Path, field};
use std::alloc::Global;

/// What a delta does, as its key `op` says it (docs/SCENE_FILES.md, "Version 2").
#[derive(Clone, Copy)]
pub(crate) enum Op {
    Spawned,
    Despawned,
    Shifted,
    CellSet,
    Linked,
    ResourceSet,
}

/// What deltas of a name do.
fn op_named(name: &str) -> Option<Op>
    ensures { result ≡ named_op name.now }
{
    match name {
        "spawned" => Some(Op::Spawned),
        "despawned" => Some(Op::Despawned),
        "shifted" => Some(Op::Shifted),
        "cellset" => Some(Op::CellSet),
        "linked" => Some(Op::Linked),
        "resourceset" => Some(Op::ResourceSet),
        _ => None,
    }
}

/// The form of the values of `op`.
#[derive(Drop)]
pub(crate) struct OpForm;

impl Form for OpForm {
    ghost use Rattle.std.specs.Prelude.{true};
    ghost use Rattle.scene_file_records.specs.declared.op.Op.{Op};
    ghost use Rattle.scene_file_records.specs.Walk.{op_at};

    type Item = Op;

    ghost Meant = { Op };

    ghost meant = { λ op. op };

    ghost word = { λ _. op_at };

    ghost follows = { λ _ _. true };

    fn read(&self, alloc: Global, path: &Path<'_>, value: &Part<'_, '_>) -> FileResult<Self::Item> {
        let op = value.as_str().and_then(op_named);
        field(alloc, path, op)
    }
}
