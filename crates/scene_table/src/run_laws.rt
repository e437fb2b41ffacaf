//! The laws of runs: what a turn writes at once is what its cells write one after another (docs/JOURNAL.md, "Runs").
ghost use Rattle.scene_table.specs.CellWrites.{CellsAreRows, RunGoesOn, TurnComesBack, TurnIsCells, TurnIsTakenBack, TurnWasCells, TurnWritesSteps};
ghost use Rattle.scene_table.specs.LiveRuns.{OthersStayLive, TurnLeavesLive};

/// A law: cells that are written one after another, place by place, make the rows that are written at once.
#[tactic(auto, using(crate::proofs::CellWrites::cells_are_rows))]
pub fn cells_are_rows()
    ensures { CellsAreRows }
{}

/// A law: the cells of a turn, each written into the row of its entity, make what the turn writes at once, and those
/// that were there before it what was there, also the last of them first; and these take the turn back.
#[tactic(auto, using(crate::proofs::CellWrites::turn_is_cells, crate::proofs::CellWrites::turn_was_cells, crate::proofs::CellWrites::turn_is_taken_back, crate::proofs::CellWrites::turn_comes_back))]
pub fn turn_is_cells()
    ensures after { TurnIsCells }
    ensures before { TurnWasCells }
    ensures last_first { TurnIsTakenBack }
    ensures back { TurnComesBack }
{}

/// A law: where a table stands so that so many turns of a run were before, the next turn writes what the steps make of
/// its rows, at its tick.
pub fn run_goes_on()
    ensures goes { RunGoesOn }
    ensures writes { TurnWritesSteps }
{}

/// A law: a turn leaves its run where it may go on at once, and others over the same table whose kinds it spares.
pub fn runs_stay_live()
    ensures own { TurnLeavesLive }
    ensures others { OthersStayLive }
{}
