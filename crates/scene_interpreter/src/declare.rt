//! Declaring a kind, in the setup or behind it.
ghost use Rattle.std.specs.Prelude.{string_bytes};
ghost use Rattle.scene_kinds.specs.Answers.{Answers};
ghost use Rattle.scene_interpreter.specs.FurtherKind.{declare_base, declare_in, declare_state};
ghost use Rattle.scene_interpreter.specs.Interpreter.{interpreter_of};
ghost use Rattle.scene_interpreter.specs.Play.{state_by};
ghost use Rattle.scene_interpreter.specs.Setup.{base_of};

use crate::interpreter::{Interpreter, Mode};
use crate::play_state::PlayState;
use crate::setup::Base;
use scene_kinds::{Refusal, Shape};
use scene_session::LoneOwner;
use std::alloc::Global;

/// Declares a kind in what a run begins with: the kinds so far, or the scene that was loaded last.
#[tactic(auto, using(crate::proofs::FurtherKind::kinds_answer, crate::proofs::FurtherKind::loaded_answer))]
fn declare_in_base(base: &mut Base, name: String, shape: Shape) -> Result<u8, Refusal>
    ensures { Answers result (base_of base.old) (base_of base.new) (declare_base (string_bytes name) shape (base_of base.old)) }
{
    match base {
        Base::Declared(schema, _) => schema.add(name, shape),
        Base::Loaded(editor) => editor.declare(name, shape),
    }
}

/// Declares a kind behind the setup. The kinds by which further lines are read are copied first, so that after a refusal
/// nothing has changed.
fn declare_in_state(
    alloc: Global,
    state: &mut PlayState<LoneOwner>,
    name: String,
    shape: Shape,
) -> Result<u8, Refusal>
    ensures { Answers result (state_by (λ owner. owner) state.old) (state_by (λ owner. owner) state.new)
        (declare_state (string_bytes name) shape (state_by (λ owner. owner) state.old)) }
{
    let mut schema = state.owner.editor().world().schema().try_clone()?;
    let copy = String::from_str(alloc, name.as_str())?;
    schema.add(copy, shape)?;
    let number = state.owner.declare(name, shape)?;
    state.schema = schema;
    Ok(number)
}

impl Interpreter<LoneOwner> {
    /// Declares a kind, and gives its number: the next one, which it has in each world that an undo or a redo leads to
    /// (docs/MODEL.md, "The rule of declarations"). In the setup it does what the line `kind` does, and goes to the kinds
    /// of a loaded scene too. Behind it the calls begin anew, counted from 0; an open frame, the cursor and the systems
    /// stay, and further lines may name the kind. It costs the names of all kinds.
    ///
    /// Refused, in this order, and then all is as it was, and the name is dropped: `BadName` where the name isn't good;
    /// `KindTaken` where a kind has it; `KindsFull` where there are 64 kinds; `NoMemory`.
    pub fn declare(&mut self, name: String, shape: Shape) -> Result<u8, Refusal>
        ensures { Answers result (interpreter_of self.old) (interpreter_of self.new)
            (declare_in (string_bytes name) shape (interpreter_of self.old)) }
    {
        match &mut self.mode {
            Mode::Setting(setup) => declare_in_base(&mut setup.base, name, shape),
            Mode::Playing(state) => declare_in_state(self.alloc, state, name, shape),
        }
    }
}
