//! The answers to the lines of systems.
ghost use Rattle.std.specs.Prelude.{◌≡◌, IfOk, OnErr};
ghost use Rattle.scene_script.specs.declared.script_line.Line.TheVariants.{Phase, System, Clear};
ghost use Rattle.scene_interpreter.specs.Answer.{Says};
ghost use Rattle.scene_interpreter.specs.Play.{advance_reply, lone_reply, state_by};

use crate::answer::{LineAnswer, refused};
use crate::play_state::PlayState;
use crate::state_line::answer_call;
use scene_session::{Call, Performer, SessionOwner};
use scene_systems::SystemRule;
use std::alloc::{AllocError, Global};

/// `phase`.
pub(crate) fn answer_phase<O: SessionOwner>(
    state: &mut PlayState<O>,
) -> Result<LineAnswer, AllocError>
    ensures answer { IfOk result (λ answer. Says answer (state_by O.state state.new) (lone_reply (state_by O.state state.old) Phase)) }
    ensures same { OnErr result (state_by O.state state.new ≡ state_by O.state state.old) }
{
    state.phases.add_phase()?;
    Ok(LineAnswer::Taken)
}

/// `system`.
pub(crate) fn answer_system<O: SessionOwner>(
    state: &mut PlayState<O>,
    rule: SystemRule,
) -> Result<LineAnswer, AllocError>
    ensures answer { IfOk result (λ answer. Says answer (state_by O.state state.new) (lone_reply (state_by O.state state.old) (System rule))) }
    ensures same { OnErr result (state_by O.state state.new ≡ state_by O.state state.old) }
{
    state.phases.add_system(rule)?;
    Ok(LineAnswer::Taken)
}

/// `clear`.
pub(crate) fn answer_clear<O: SessionOwner>(state: &mut PlayState<O>) -> LineAnswer
    ensures { Says result (state_by O.state state.new) (lone_reply (state_by O.state state.old) Clear) }
{
    state.phases.clear();
    LineAnswer::Taken
}

/// `advance`.
pub(crate) fn answer_advance<O: SessionOwner, P: Performer<O>>(
    performer: &P,
    alloc: Global,
    state: &mut PlayState<O>,
) -> Result<LineAnswer, AllocError>
    ensures answer { IfOk result (λ answer. Says answer (state_by O.state state.new) (advance_reply (state_by O.state state.old))) }
    ensures same { OnErr result (state_by O.state state.new ≡ state_by O.state state.old) }
{
    match state.phases.schedule(&state.schema) {
        Ok(schedule) => answer_call(performer, alloc, state, Call::Advance(schedule)),
        Err(refusal) => refused(refusal),
    }
}
