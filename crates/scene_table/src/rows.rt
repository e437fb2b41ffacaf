//! The laws of a row that leaves a list and comes back (docs/MODEL.md, "The rule of rows").
ghost use Rattle.scene_kinds.specs.declared.cells.Row.{Row};
ghost use Rattle.scene_table.specs.Rows.{SwapOutLeavesAPlace, SwapOutComesBack, PutBackStands, PutBackComesBack};

/// A law: where a row left by a swap, one may be put back; and that row put back at its place leaves all rows as they
/// were, also where it was the last.
#[tactic(auto, using(crate::proofs::Swaps::swap_out_laws))]
pub fn swap_out_comes_back()
    ensures place { SwapOutLeavesAPlace Row }
    ensures back { SwapOutComesBack Row }
{}

/// A law: a row that is put back at a place, also behind the last, stands there; and where it leaves again, all
/// rows are as they were.
#[tactic(auto, using(crate::proofs::Swaps::put_back_laws))]
pub fn put_back_comes_back()
    ensures stands { PutBackStands Row }
    ensures back { PutBackComesBack Row }
{}
