//! The law of lists since a cursor.
ghost use Rattle.std.specs.Prelude.{◌≡◌, ◌≢◌, ◌↔◌, List, Ok};
ghost use Rattle.std.specs.List.{Contains};
ghost use Rattle.std.specs.Global.{Vec};
ghost use Rattle.scene_model.specs.World.{component_of};
ghost use Rattle.scene_systems.specs.declared.filter.Filter.{Filter};
ghost use Rattle.scene_pass.specs.declared.cell_name.CellName.{CellName};
ghost use Rattle.scene_pass.specs.Listed.{IsCellWhere};
ghost use Rattle.scene_pass.specs.Pass.{changed_since, added_since};
ghost use Rattle.scene_undo.specs.declared.cursor.Cursor.{Cursor};
ghost use Rattle.scene_session.specs.declared.entry.Entry.{Entry};
ghost use Rattle.scene_session.specs.State.{StateView};
ghost use Rattle.scene_session.specs.Queries.{ListsSince, machine_at};
ghost use Rattle.scene_editor.specs.Since.{IsNew, IsMoment, world_now, world_after, HasNoneAdded};

/// A law: where a state answers a list since a cursor, and `before` is any beginning of its history whose machine has
/// the cursor's count of undos and its tick, the list tells the world of then and that of now apart (docs/SESSIONS.md,
/// "What it has seen").
///
/// `ChangedSince` lists exactly the cells of matching rows of now that the world of then doesn't hold equal, ticks
/// included; `AddedSince` exactly those of which it holds none that was added at the same tick.
pub fn lists_tell_two_worlds_apart()
    ensures changed { (s : StateView) (before : List Entry) (cursor : Cursor) (f : Filter) (names : Vec CellName) (n : CellName)
        → IsNew s.opening.editor → IsMoment s before cursor → ListsSince changed_since cursor f (machine_at s) (Ok names)
        → Contains names.items n ↔ IsCellWhere (λ cell. component_of (world_after s before) n.entity n.kind ≢ Ok cell) (world_now s) f n }
    ensures added { (s : StateView) (before : List Entry) (cursor : Cursor) (f : Filter) (names : Vec CellName) (n : CellName)
        → IsNew s.opening.editor → IsMoment s before cursor → ListsSince added_since cursor f (machine_at s) (Ok names)
        → Contains names.items n ↔ IsCellWhere (λ cell. HasNoneAdded (world_after s before) n.entity n.kind cell.added) (world_now s) f n }
{}
