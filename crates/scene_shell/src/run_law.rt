//! What users of a run rely on, as the contract of a function without a body.
ghost use Rattle.std.specs.Prelude.{◌≡◌, ℕ, List, length};
ghost use Rattle.std.specs.Str.Lines.{lines};
ghost use Rattle.scene_interpreter.specs.Printed.{bad_lines, output};
ghost use Rattle.scene_interpreter.specs.Interpreter.{lone_interpreter};
ghost use Rattle.scene_shell.specs.Shell.{IsSaid, NoRequests, bad_count, plain_style};

/// A law: with the settings of a run (`InterpreterSettings::of_a_run`) the answers to the lines of a script, one after
/// another, neither JSON nor framed, are what `scene run` prints of it, and as many lines are bad, where none of the
/// lines is a request.
#[tactic(auto, using(crate::proofs::RunLaws::said_is_output, crate::proofs::RunLaws::counted_bad))]
pub fn a_shell_says_what_a_run_says()
    ensures said { (script : List ℕ) → (text : List ℕ) → NoRequests (lines script)
        → IsSaid plain_style (lone_interpreter 1048576 1048576) (lines script) text → text ≡ output script }
    ensures bad { (script : List ℕ) → NoRequests (lines script)
        → bad_count (lone_interpreter 1048576 1048576) (lines script) ≡ length (bad_lines script) }
{}
