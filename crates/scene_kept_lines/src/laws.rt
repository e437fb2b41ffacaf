//! What users of kept lines rely on, as contracts of functions without a body.
ghost use Rattle.std.specs.Prelude.{◌≡◌, ◌++◌, List, [], ℕ, Some};
ghost use Rattle.std.specs.List.{AllByRecursion};
ghost use Rattle.scene_interpreter.specs.Apart.{SameApart};
ghost use Rattle.scene_interpreter.specs.Interpreter.{Interpreter};
ghost use Rattle.scene_interpreter.specs.Progress.{Resumes, progress_in};
ghost use Rattle.scene_interpreter.specs.declared.progress.Progress.{Progress};
ghost use Rattle.scene_kept_lines.specs.Apart.{LinesApart};
ghost use Rattle.scene_kept_lines.specs.Checkpoints.{AllHonest, EndsNone, IsCheckpointOf, Starts};
ghost use Rattle.scene_kept_lines.specs.Compacted.{Agrees};
ghost use Rattle.scene_shell.specs.Shell.{interpreter_after};

/// A law: two interpreters that are the same in all but which calls there were answer all lines of a shell alike, and are
/// so again behind them.
#[tactic(auto, using(crate::proofs::Apart::lines_apart))]
pub fn history_apart_changes_no_line()
    ensures { (p : Interpreter) → (q : Interpreter) → (ls : List (List ℕ)) → SameApart p q → LinesApart p q ls }
{}

/// A law: an interpreter that agrees with another one, and goes on from where that one has come, is the same in all but
/// which calls there were.
#[tactic(auto, using(crate::proofs::Apart::resumed_apart))]
pub fn an_interpreter_that_goes_on_is_the_same()
    ensures { (p : Interpreter) → (q : Interpreter) → (r : Interpreter) → (x : Progress) → Agrees p q
        → progress_in p ≡ Some x → Resumes x q r → SameApart p r }
{}

/// A law: what the lines behind an honest checkpoint lead to from there is, which calls there were apart, what all lines
/// lead to. So an opening that begins at a checkpoint changes no answer (docs/SHELL.md, "Checkpoints").
#[tactic(auto, using(crate::proofs::Honest::honest_alike))]
pub fn honest_checkpoints_change_no_answer()
    ensures { (first : Interpreter) → (all : List (List ℕ)) → (start : Interpreter) → (rest : List (List ℕ)) → (skipped : ℕ)
        → Starts first all start skipped rest → AllHonest first all
        → SameApart (interpreter_after first all) (interpreter_after start rest) }
{}

/// A law: where all checkpoints among lines are honest, they are so with more lines behind them, none of which ends a
/// checkpoint. No line at all has any.
pub fn lines_without_checkpoints_stay_honest()
    ensures none { (first : Interpreter) → AllHonest first [] }
    ensures more { (first : Interpreter) → (all : List (List ℕ)) → (more : List (List ℕ)) → AllHonest first all
        → AllByRecursion EndsNone more → AllHonest first (all ++ more) }
{}

/// A law: where all checkpoints among lines are honest, so is a new one behind them, where it is that of an interpreter
/// which is the same, which calls there were apart, as the one that all lines lead to: that of a shell, which may have
/// begun at a checkpoint.
pub fn a_new_checkpoint_stays_honest()
    ensures { (first : Interpreter) → (all : List (List ℕ)) → (p : Interpreter) → (text : List (List ℕ)) → AllHonest first all
        → IsCheckpointOf first p text → SameApart p (interpreter_after first all) → AllHonest first (all ++ text) }
{}
