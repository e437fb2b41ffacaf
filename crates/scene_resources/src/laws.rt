//! What users of resources rely on, as contracts of functions without a body.
ghost use Rattle.std.specs.Ordering.{eq_by_cmp};
ghost use Rattle.std.specs.List.Sorted.{IsStrictlySortedBy};
ghost use Rattle.std.specs.Prelude.{◌≡◌, ◌↔◌, ℕ, Option, Some, None, Ok, List, [], ◌∷◌, Contains, IsSome, codes, cond, map as each};
ghost use Rattle.scene_kinds.specs.Answers.{refuse};
ghost use Rattle.scene_kinds.specs.declared.fault.Fault.TheVariants.{NoSuchResource};
ghost use Rattle.scene_kinds.specs.Map as map;
ghost use Rattle.scene_resources.specs.Examples.{number, cell, one, two};
ghost use Rattle.scene_kinds.specs.declared.cell.Cell.{Cell};
ghost use Rattle.scene_kinds.specs.declared.value.Value.{Value};
ghost use Rattle.scene_resources.specs.Resources.{NamedCells, IsWider, Holds, name_cmp, cell_of, names_of, put_of, take_of, restore_of};

/// Worked examples. In `one` `left` is 7 since tick 1; in `two` `gold` is 3 since tick 2 as well.
pub fn worked_resources()
    ensures added { put_of one (codes "gold") (number 3) 2 ≡ two }
    ensures changed { put_of one (codes "left") (number 8) 2 ≡ map.of ((codes "left", cell 8 1 2) ∷ []) tt }
    ensures found { cell_of two (codes "left") ≡ Some (cell 7 1 1) }
    ensures missing { cell_of one (codes "gold") ≡ None }
    ensures taken { take_of two (codes "gold") ≡ Ok (cell 3 2 2, one) }
    ensures refused { take_of one (codes "gold") ≡ refuse NoSuchResource }
    ensures restored { restore_of one (codes "gold") (Some (cell 3 2 2)) ≡ two }
    ensures dropped { restore_of two (codes "gold") None ≡ one }
    ensures ascending { names_of two ≡ codes "gold" ∷ codes "left" ∷ [] }
{}

/// Restoring: a name has the cell that it was given, and the other names what they had; the cell that stood
/// there, given back, brings back the resources from before, after a put and after a take as well.
pub fn restored_comes_back()
    ensures cells { (r : NamedCells) (name : List ℕ) (cell : Option Cell) (q : List ℕ)
        → cell_of (restore_of r name cell) q ≡ cond (eq_by_cmp name_cmp q name) cell (cell_of r q) }
    ensures restored { (r : NamedCells) (name : List ℕ) (cell : Option Cell)
        → restore_of (restore_of r name cell) name (cell_of r name) ≡ r }
    ensures put { (r : NamedCells) (name : List ℕ) (value : Value) (tick : ℕ)
        → restore_of (put_of r name value tick) name (cell_of r name) ≡ r }
    ensures taken { (r s : NamedCells) (name : List ℕ) (cell : Cell)
        → take_of r name ≡ Ok (cell, s) → restore_of s name (Some cell) ≡ r }
{}

/// The names: each is below those after it, by their bytes; a name is among them just where it has a cell; and
/// the cells of the names, one after another, are all cells.
pub fn names_are_whole()
    ensures ascending { (r : NamedCells) → IsStrictlySortedBy name_cmp (names_of r) }
    ensures whole { (r : NamedCells) (name : List ℕ) → Contains (names_of r) name ↔ IsSome (cell_of r name) }
    ensures cells { (r : NamedCells) → each (λ name. cell_of r name) (names_of r) ≡ each (λ e. Some e.1) r.entries }
{}

/// The names that are kept: where they hold the cells of some resources, more names do too; and more than more are
/// more.
pub fn room_is_never_lost()
    ensures holds { (old new : List (List ℕ)) (r : NamedCells) → IsWider old new → Holds old r → Holds new r }
    ensures wider { (a b c : List (List ℕ)) → IsWider a b → IsWider b c → IsWider a c }
{}
