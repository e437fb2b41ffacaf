//! What an open scene tells of itself as a scene text, and whether its systems go together.
ghost use Rattle.std.specs.Prelude.{◌≡◌, List, Result, Some, ℕ};
ghost use Rattle.scene_json_forms.specs.declared.fault.FileFault.{FileFault as Expected};
ghost use Rattle.scene_c.specs.Reads.{OrNoMemory, Tells, whole_now};
ghost use Rattle.scene_c.specs.Saved.{IsSavedAs, TellsFault, TellsSaved, fault_now, saved_by};

use crate::open_scene::OpenScene;
use crate::texts::copy_bytes;
use crate::value::{SceneRefusal, shown_refusal};
use crate::{BAD, DONE, NO_MEMORY, REFUSED};
use scene_file::{save_editor_text, save_text};
use scene_json_forms::FileFault;
use scene_kinds::Fault;
use scene_schedule::{Schedule, clone_phases};
use std::alloc::Global;

/// Tells a text from a byte on, or that it is too long.
fn tell_saved(
    saved: Result<String, FileFault>,
    from: usize,
    at: &mut [u8],
    total: &mut usize,
) -> u32
    ensures { (expected : Result (List ℕ) Expected) → IsSavedAs saved expected
        → OrNoMemory ((at.new ≡ at.old) × (total.new ≡ total.old))
        (TellsSaved (Some expected) from at.old at.new total.old total.new) result }
{
    match saved {
        Ok(text) => {
            *total = text.as_str().len();
            copy_bytes(text.as_str().as_bytes(), from, at);
            DONE
        }
        Err(FileFault::NoMemory) => NO_MEMORY,
        Err(_) => REFUSED,
    }
}

impl OpenScene {
    /// Tells the scene text of a version: 1, the world alone, or 2, with all that can be undone and redone.
    pub(crate) fn save_into(
        &self,
        alloc: Global,
        version: u32,
        from: usize,
        at: &mut [u8],
        total: &mut usize,
    ) -> u32
        ensures { Tells ((at.new ≡ at.old) × (total.new ≡ total.old))
            (OrNoMemory ((at.new ≡ at.old) × (total.new ≡ total.old))
            (TellsSaved (saved_by version (whole_now self.now)) from at.old at.new total.old total.new)) self.now result }
    {
        let Some(editor) = self.interpreter.editor() else {
            return BAD;
        };
        match version {
            1 => tell_saved(save_text(alloc, editor.world()), from, at, total),
            2 => tell_saved(save_editor_text(alloc, editor), from, at, total),
            _ => BAD,
        }
    }

    /// Tells the first fault of the systems, in the setup too, where there are none.
    pub(crate) fn check_systems(&self, alloc: Global, out: &mut SceneRefusal) -> u32
        ensures { OrNoMemory (out.new ≡ out.old) (TellsFault (fault_now self.now) out.old out.new) result }
    {
        let Ok(phases) = clone_phases(alloc, self.interpreter.systems()) else {
            return NO_MEMORY;
        };
        match Schedule::new(alloc, self.interpreter.schema(), phases) {
            Ok(_) => DONE,
            Err(refusal) => match refusal.fault {
                Fault::NoMemory => NO_MEMORY,
                _ => {
                    *out = shown_refusal(refusal);
                    REFUSED
                }
            },
        }
    }
}
