//! The state that a run leaves.
ghost use Rattle.scene_session.specs.Owner.{OwnerState};
ghost use Rattle.scene_session.specs.Passes.{AreOf};

use scene_app::RunEnd;
use scene_session::State;

/// The state behind the lock of a run, by the pass of session 0.
pub fn state_left(end: RunEnd) -> Option<State>
    requires { (owner : OwnerState) × AreOf end.lock end.passes.items owner }
{
    let RunEnd {
        lock,
        mut passes,
        ..
    } = end;
    let pass = passes.swap_remove(0);
    lock.finish(pass)
}
