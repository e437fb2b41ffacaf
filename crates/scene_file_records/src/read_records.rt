//! Records.

use crate::read_deltas::DeltaForm;
use scene_deltas::Deltas;
use scene_journal::FrameRecord;
use scene_json::Part;
use scene_json_forms::{FileResult, Form, ListOf, Path, TickForm, key_of, object_at};
use scene_kinds::Schema;
use std::alloc::Global;

/// The form of a record.
#[derive(Drop)]
struct RecordForm<'a> {
    schema: &'a Schema,
}

impl Form for RecordForm<'_> {
    ghost use Rattle.std.specs.Prelude.{true};
    ghost use Rattle.scene_journal.specs.Records.{Record};
    ghost use Rattle.scene_file_records.specs.Walk.{record_at};

    type Item = FrameRecord;

    ghost Meant = { Record };

    ghost meant = { λ frame. frame };

    ghost word = { λ form. record_at form.schema.now };

    ghost follows = { λ _ _. true };

    #[tactic(auto, using(scene_json_forms::proofs::Walking::walking, crate::proofs::SameLists::kept))]
    fn read(&self, alloc: Global, path: &Path<'_>, value: &Part<'_, '_>) -> FileResult<Self::Item> {
        object_at(alloc, path, value, &["deltas", "tick"])?;
        let form = ListOf(DeltaForm {
            schema: self.schema,
        });
        let deltas = key_of(alloc, &form, path, value, "deltas")?;
        let tick = key_of(alloc, &TickForm, path, value, "tick")?;
        Ok(FrameRecord::new(tick, Deltas::from_list(alloc, deltas)?))
    }
}

/// The form of a list of records, as those of the past or of the future, over a schema (docs/SCENE_FILES.md, "Version
/// 2"). They are read in the order in which they stand; whether they fit a world isn't asked. It costs a walk over the
/// value, with a look for each key, and for the keys of an object their number times that of the keys known.
///
/// Refused: the first `UnknownKey` or `BadField` that the walk meets, with its path (docs/SCENE_FILES.md, "The walk");
/// or `NoMemory`.
#[derive(Drop)]
pub struct RecordsForm<'a> {
    /// The kinds of the world, whose numbers and shapes the cells have.
    pub schema: &'a Schema,
}

impl Form for RecordsForm<'_> {
    ghost use Rattle.std.specs.Prelude.{List, true};
    ghost use Rattle.scene_journal.specs.Records.{Record};
    ghost use Rattle.scene_file_records.specs.Walk.{records_at};

    type Item = Vec<FrameRecord>;

    ghost Meant = { List Record };

    ghost meant = { λ records. records.items };

    ghost word = { λ form. records_at form.schema.now };

    ghost follows = { λ _ _. true };

    #[tactic(auto, using(crate::proofs::SameLists::kept))]
    fn read(&self, alloc: Global, path: &Path<'_>, value: &Part<'_, '_>) -> FileResult<Self::Item> {
        let form = ListOf(RecordForm {
            schema: self.schema,
        });
        form.read(alloc, path, value)
    }
}
