//! What users of requests rely on, as contracts of functions without a body.
ghost use Rattle.std.specs.Prelude.{ℕ, List};
ghost use Rattle.scene_requests.specs.declared.request.Request.{Request};
ghost use Rattle.scene_interpreter.specs.Apart.{RepliesApart, SameApart};
ghost use Rattle.scene_interpreter.specs.Interpreter.{Interpreter};
ghost use Rattle.scene_answers.specs.Asked.{AddsAsked, asked_reply};

/// A law: two interpreters that are the same in all but which calls there were answer a request with the same, as JSON
/// too, and are so again behind it.
#[tactic(auto, using(crate::proofs::Apart::asked_apart, crate::proofs::Apart::adds_apart))]
pub fn history_apart_changes_no_request()
    ensures reply { (p : Interpreter) → (q : Interpreter) → (asked : Request) → SameApart p q
        → RepliesApart (asked_reply p asked) (asked_reply q asked) }
    ensures answer { (p : Interpreter) → (q : Interpreter) → (asked : Request) → (old : List ℕ) → (new : List ℕ) → SameApart p q
        → AddsAsked old new p (asked_reply p asked).interpreter asked → AddsAsked old new q (asked_reply q asked).interpreter asked }
{}
