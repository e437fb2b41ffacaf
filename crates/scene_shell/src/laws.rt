//! What users of a shell rely on, as contracts of functions without a body.
ghost use Rattle.std.specs.Prelude.{◌≡◌, List, ℕ, false};
ghost use Rattle.std.specs.Str.Lines.{lines};
ghost use Rattle.scene_interpreter.specs.Changes.{frame_is_open};
ghost use Rattle.scene_interpreter.specs.Interpreter.{Interpreter};
ghost use Rattle.scene_shell.specs.Kept.{kept_of};
ghost use Rattle.scene_shell.specs.Shell.{interpreter_after};

/// A law: where no frame is open behind the lines of a script, those of them that a shell keeps, played again, lead to
/// the same interpreter.
#[tactic(auto, using(crate::proofs::KeptLead::kept_lines_lead))]
pub fn kept_lines_lead_to_the_interpreter()
    ensures { (p : Interpreter) → (script : List ℕ) → frame_is_open (interpreter_after p (lines script)) ≡ false
        → interpreter_after p (lines (kept_of p (lines script))) ≡ interpreter_after p (lines script) }
{}
