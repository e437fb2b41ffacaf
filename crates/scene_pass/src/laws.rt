//! What users of passes rely on, as contracts of functions without a body.
ghost use Rattle.std.specs.Prelude.{◌≡◌, ◌↔◌, ℕ, ◌<◌, [], ◌∷◌, pos, negsuc, Some, None};
ghost use Rattle.std.specs.List.{Contains};
ghost use Rattle.scene_kinds.specs.declared.entity.Entity.{Entity};
ghost use Rattle.scene_model.specs.World.{World};
ghost use Rattle.scene_model.specs.Valid.{IsValid};
ghost use Rattle.scene_pass.specs.declared.cell_name.CellName.{CellName};
ghost use Rattle.scene_systems.specs.declared.filter.Filter.{Filter};
ghost use Rattle.scene_pass.specs.Listed.{Matches, IsCellWhere};
ghost use Rattle.scene_pass.specs.Pass.{matching, changed_since, added_since};
ghost use Rattle.scene_pass.specs.Changes.{change_of, changes, first_fault};
ghost use Rattle.scene_pass.specs.Examples.{three_tables, ent, name, filter, row_of_four, int, vector, add_vector, add_int, greatest, up_from_7, changed, overflow};

/// A law: in a valid world the passes list just what they are for. An entity is listed where it is alive and its kind
/// set matches, and a cell where its entity is listed and the cell's tick is above the given one.
pub fn passes_list_just_what_matches()
    ensures matching { (w : World) (f : Filter) (e : Entity) → IsValid w
        → Contains (matching w f) e ↔ Matches w f e }
    ensures changed { (w : World) (f : Filter) (tick : ℕ) (n : CellName) → IsValid w
        → Contains (changed_since w f tick) n ↔ IsCellWhere (λ cell. tick < cell.changed) w f n }
    ensures added { (w : World) (f : Filter) (tick : ℕ) (n : CellName) → IsValid w
        → Contains (added_since w f tick) n ↔ IsCellWhere (λ cell. tick < cell.added) w f n }
{}

/// Worked examples. In `three_tables` the entity 2 has kind 0 alone, added at tick 3 and changed at 6; the entity 3 has
/// kind 1 alone, of tick 4; and the entities 1 and 0, in this order, have both: all of tick 2, and kind 0 of tick 1
/// with kind 1 of tick 5.
pub fn worked_passes()
    ensures all { matching three_tables (filter 0 0) ≡ ent 2 ∷ ent 3 ∷ ent 1 ∷ ent 0 ∷ [] }
    ensures need { matching three_tables (filter 1 0) ≡ ent 2 ∷ ent 1 ∷ ent 0 ∷ [] }
    ensures need_both { matching three_tables (filter 3 0) ≡ ent 1 ∷ ent 0 ∷ [] }
    ensures without { matching three_tables (filter 0 1) ≡ ent 3 ∷ [] }
    ensures need_without { matching three_tables (filter 1 2) ≡ ent 2 ∷ [] }
    ensures never { matching three_tables (filter 2 2) ≡ [] }
    ensures kind_without_rows { matching three_tables (filter 4 0) ≡ [] }
    ensures changed_last { changed_since three_tables (filter 0 0) 5 ≡ name 2 0 ∷ [] }
    ensures changed { changed_since three_tables (filter 0 0) 3 ≡ name 2 0 ∷ name 3 1 ∷ name 0 1 ∷ [] }
    ensures changed_filtered { changed_since three_tables (filter 3 0) 1 ≡ name 1 0 ∷ name 1 1 ∷ name 0 1 ∷ [] }
    ensures changed_now { changed_since three_tables (filter 0 0) 6 ≡ [] }
    ensures added { added_since three_tables (filter 0 0) 3 ≡ name 3 1 ∷ name 0 1 ∷ [] }
    ensures added_at_all { added_since three_tables (filter 0 0) 0 ≡ name 2 0 ∷ name 3 1 ∷ name 1 0 ∷ name 1 1 ∷ name 0 0 ∷ name 0 1 ∷ [] }
{}

/// Worked examples of row steps. In `row_of_four` the entity 4 has the vectors 1 2 3 and 10 -2 0 of the kinds 0 and 1,
/// the number 7 of kind 2 and a tag of kind 3. In `three_tables` the rows of the entities 2, 1 and 0, in this order,
/// have kind 0, which is the number 0 in each.
pub fn worked_changes()
    ensures vector { change_of (add_vector 0 1 ∷ []) row_of_four ≡ changed 4 ((0, vector (pos 11) (pos 0) (pos 3)) ∷ []) }
    ensures twice { change_of (add_vector 0 1 ∷ add_vector 0 1 ∷ []) row_of_four ≡ changed 4 ((0, vector (pos 21) (negsuc 1) (pos 3)) ∷ []) }
    ensures sees_the_last { change_of (add_vector 1 0 ∷ add_vector 0 1 ∷ []) row_of_four
        ≡ changed 4 ((0, vector (pos 12) (pos 2) (pos 6)) ∷ (1, vector (pos 11) (pos 0) (pos 3)) ∷ []) }
    ensures itself { change_of (add_vector 0 0 ∷ []) row_of_four ≡ changed 4 ((0, vector (pos 2) (pos 4) (pos 6)) ∷ []) }
    ensures by_kind { change_of (add_int 2 (negsuc 7) ∷ add_vector 0 1 ∷ []) row_of_four
        ≡ changed 4 ((0, vector (pos 11) (pos 0) (pos 3)) ∷ (2, int (negsuc 0)) ∷ []) }
    ensures same_value { change_of (add_int 2 (pos 0) ∷ []) row_of_four ≡ changed 4 ((2, int (pos 7)) ∷ []) }
    ensures missing { change_of (add_int 5 (pos 1) ∷ add_vector 0 6 ∷ []) row_of_four ≡ changed 4 ((0, vector (pos 1) (pos 2) (pos 3)) ∷ []) }
    ensures no_steps { change_of [] row_of_four ≡ changed 4 [] }
    ensures fits { change_of (add_int 2 up_from_7 ∷ []) row_of_four ≡ changed 4 ((2, int greatest) ∷ []) }
    ensures overflow { change_of (add_vector 0 1 ∷ add_int 2 up_from_7 ∷ add_int 2 (pos 1) ∷ add_int 2 (pos 1) ∷ []) row_of_four ≡ overflow 4 2 }
    ensures rows { changes three_tables (filter 1 0) (add_int 0 (pos 5) ∷ [])
        ≡ changed 2 ((0, int (pos 5)) ∷ []) ∷ changed 1 ((0, int (pos 5)) ∷ []) ∷ changed 0 ((0, int (pos 5)) ∷ []) ∷ [] }
    ensures rows_of_both { changes three_tables (filter 3 0) (add_int 0 (negsuc 0) ∷ [])
        ≡ changed 1 ((0, int (negsuc 0)) ∷ []) ∷ changed 0 ((0, int (negsuc 0)) ∷ []) ∷ [] }
    ensures no_rows { changes three_tables (filter 4 0) (add_int 0 (pos 5) ∷ []) ≡ [] }
    ensures no_fault { first_fault (changed 2 [] ∷ changed 1 [] ∷ []) ≡ None }
    ensures fault { first_fault (changed 2 [] ∷ overflow 1 3 ∷ overflow 0 2 ∷ []) ≡ Some (ent 1, 3) }
{}
