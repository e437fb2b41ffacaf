//! What sets of kinds say of the cells of a row, and of one another.
ghost use Rattle.scene_kinds.specs.KindLaws.{KindSetsHaveTheirKinds, CellsBringTheirKinds, CellsTakeTheirKinds, SubsetsShareTheirKinds, DisjointSetsShareNoKind};

/// A law: the kind set of a row's cells has just the kinds of its cells; a cell that is put in brings its kind, and one
/// that is taken out takes it along.
pub fn kind_sets_follow_cells()
    ensures has { KindSetsHaveTheirKinds }
    ensures with { CellsBringTheirKinds }
    ensures without { CellsTakeTheirKinds }
{}

/// A law: a kind set is a subset of another one just where each of the 64 kinds that it has is in the other, and
/// disjoint from it where none is.
pub fn kind_sets_compare_by_kinds()
    ensures subset { SubsetsShareTheirKinds }
    ensures disjoint { DisjointSetsShareNoKind }
{}
