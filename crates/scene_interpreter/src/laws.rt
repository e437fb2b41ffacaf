//! What users of an interpreter rely on, as contracts of functions without a body.
ghost use Rattle.std.specs.Prelude.{◌≡◌, ℕ, List, false};
ghost use Rattle.scene_interpreter.specs.Apart.{AnswersApart, SameApart};
ghost use Rattle.scene_interpreter.specs.Changes.{changes};
ghost use Rattle.scene_interpreter.specs.Interpreter.{Interpreter, first_interpreter, reached, interpreter_reply, lone_interpreter};
ghost use Rattle.scene_interpreter.specs.LockAlike.{AnswersAlike};
ghost use Rattle.scene_interpreter.specs.declared.interpreter.Interpreter.{Interpreter as Code};

use crate::script_owner::ScriptOwner;

/// A law: a line of which `Interpreter::changes` is false leaves the interpreter as it was. So the other lines, played
/// again in their order, come to the same interpreter.
#[tactic(auto, using(crate::proofs::ChangeLaws::unchanged))]
pub fn a_line_that_changes_nothing_leaves_the_interpreter()
    ensures { (p : Interpreter) → (bytes : List ℕ) → changes p bytes ≡ false → (interpreter_reply p bytes).interpreter ≡ p }
{}

/// A law: two interpreters of which contracts see the same, whichever owner each is over, answer a line with the same,
/// and contracts see the same of them behind it. Such are those before the first line of a run, with a lock and without
/// one, also where the latter is made by the settings `InterpreterSettings::of_a_run`.
#[tactic(auto, using(crate::proofs::LockLaws::answers_alike))]
pub fn a_lock_changes_no_answer<O: ScriptOwner, L: ScriptOwner>()
    ensures alike { (p : Code O O.CallLimit) (q : Code L L.CallLimit) (bytes : List ℕ)
        → reached O.state O.most p ≡ reached L.state L.most q
        → AnswersAlike (reached O.state O.most p) (reached L.state L.most q) bytes }
    ensures first { lone_interpreter 1048576 1048576 ≡ first_interpreter }
{}

/// A law: two interpreters that are the same in all but which calls there were answer a line with the same, and are so
/// again behind it. Such are an interpreter and one that was brought to the same scene, systems, kinds, turn and limits,
/// and went on from where the first one was (`Interpreter::resume`).
#[tactic(auto, using(crate::proofs::Apart::answers_apart, crate::proofs::Apart::apart_refl))]
pub fn history_apart_changes_no_answer()
    ensures answers { (p : Interpreter) → (q : Interpreter) → (bytes : List ℕ) → SameApart p q → AnswersApart p q bytes }
    ensures same { (p : Interpreter) → SameApart p p }
{}
