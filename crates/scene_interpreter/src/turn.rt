//! Several undos, or several redos, by one call.
ghost use Rattle.std.specs.Prelude.{◌≡◌, ◌≢◌, IfErr, IfOk, MatchResult, OnErr, None, max};
ghost use Rattle.scene_session.specs.Calls.{told};
ghost use Rattle.scene_session.specs.Turns.{answer_along};
ghost use Rattle.scene_interpreter.specs.Answer.{Says};
ghost use Rattle.scene_interpreter.specs.Interpreter.{HaltsSetup, Interpreter as Reached, Tells, halted, interpreter_of};
ghost use Rattle.scene_interpreter.specs.Play.{first_state, state_by};
ghost use Rattle.scene_interpreter.specs.Setup.{setup_by};
ghost use Rattle.scene_interpreter.specs.Turns.{turn_reply, turn_said};
ghost use Rattle.scene_interpreter.specs.declared.halt.Halt.TheVariants.{After};

use crate::answer::{LineAnswer, refused};
use crate::halt::Halt;
use crate::interpreter::{Interpreter, Mode, after_begin};
use crate::play_state::PlayState;
use crate::setup::Setup;
use scene_script::BadLine;
use scene_session::{LoneOwner, Reply, Way};
use std::alloc::{AllocError, Global};

/// The reply of a call that went one frame along a way.
fn reply_along(way: Way) -> Reply
    ensures { told result ≡ answer_along way }
{
    match way {
        Way::Back => Reply::Undone,
        Way::On => Reply::Redone,
    }
}

/// Answers so many frames along a way behind the setup.
fn answer_turn(
    state: &mut PlayState<LoneOwner>,
    way: Way,
    count: usize,
) -> Result<LineAnswer, AllocError>
    ensures answer { IfOk result (λ answer. Says answer (state_by (λ owner. owner) state.new)
        (turn_reply (state_by (λ owner. owner) state.old) way count state.old.frame)) }
    ensures same { OnErr result (state_by (λ owner. owner) state.new ≡ state_by (λ owner. owner) state.old) }
{
    if state.frame.is_some() {
        return Ok(LineAnswer::Bad(BadLine::FrameOpen));
    }
    match state.owner.turn_by(way, count) {
        Ok(()) => Ok(LineAnswer::Replied(reply_along(way))),
        Err(refusal) => refused(refusal),
    }
}

/// Ends the setup by so many frames along a way, and answers them in the state that follows. The state is there also
/// where no memory is found for them.
fn begin_turn(
    alloc: Global,
    setup: &mut Setup<LoneOwner>,
    way: Way,
    count: usize,
) -> Result<(PlayState<LoneOwner>, Result<LineAnswer, AllocError>), Halt>
    ensures begun { IfOk result (λ p. MatchResult p.1
        (λ answer. Says answer (state_by (λ owner. owner) p.0)
        (turn_reply (first_state (setup_by (λ limit. max limit 1) setup.old)) way count None))
        (λ _. state_by (λ owner. owner) p.0 ≡ first_state (setup_by (λ limit. max limit 1) setup.old))) }
    ensures halted { IfErr result (λ h. HaltsSetup h (setup_by (λ limit. max limit 1) setup.old) (setup_by (λ limit. max limit 1) setup.new)) }
{
    let mut state = setup.begin(alloc)?;
    let answered = answer_turn(&mut state, way, count);
    Ok((state, answered))
}

impl Interpreter<LoneOwner> {
    /// Goes so many frames along a way, all or none: what that many lines `undo` or `redo` come to where each is done
    /// (docs/MODEL.md, "The rule of undo"). The answer is that of one of them, `Undone` or `Redone`, also where the count
    /// is 0. Where one of them would be refused, the first such refusal is the answer, and no call is made. In an open
    /// frame it is bad, as a line `undo` is there: `FrameOpen`. It ends the setup. It costs what the calls cost.
    ///
    /// Halted only for want of memory, and then no frame is gone: `Before`, `Begun`; `Lost`, where it would have ended the
    /// setup, whose kinds or scene are lost.
    pub fn turn_by(&mut self, way: Way, count: usize) -> Result<LineAnswer, Halt>
        ensures answer { IfOk result (λ answer. Tells answer (interpreter_of self.new) (turn_said (interpreter_of self.old) way count)) }
        ensures halted { IfErr result (λ h. (next : Reached) → interpreter_of self.new ≡ halted h (interpreter_of self.old) next) }
        ensures undone { IfErr result (λ h. h ≢ After) }
    {
        match &mut self.mode {
            Mode::Playing(state) => match answer_turn(state, way, count) {
                Ok(answer) => Ok(answer),
                Err(AllocError) => Err(Halt::Before),
            },
            Mode::Setting(setup) => match begin_turn(self.alloc, setup, way, count) {
                Err(halt) => Err(halt),
                Ok((state, answered)) => {
                    self.go_to(state);
                    after_begin(answered)
                }
            },
        }
    }
}
