//! The text of a world, or of an editor: what a scene file says, and which fault it has first (docs/SCENE_FILES.md).
//!
//! `specs/Text.antt` has the JSON value of a world and the bytes that a save writes, `specs/Walk.antt` the walk through
//! a value, which gives the parts that it says or the first fault with its path, and `specs/Scene.antt` the world that
//! bytes say; `specs/EditorText.antt`, `specs/EditorWalk.antt` and `specs/EditorScene.antt` have the same of an editor.
//! All of them compute: `worked_texts`, `worked_editors` and `worked_readings` have them read and write texts byte by
//! byte. `laws` says that the value of each valid world is read as that world, and that nothing but the values of
//! worlds and editors is read; `saved_laws` that the bytes of a save are loaded as what was saved.
//!
//! `save` writes the text of a world, by printers of its parts, and `save_text` answers it. `load_text` and `load` read
//! one, by a `Form` for each word of the walk. `save_editor`, `save_editor_text`, `load_editor_text` and `load_editor`
//! do the same of an editor; of a usual text, as a save writes it, what is said is taken straight from its tokens
//! (`usual_scene.rt`), and the walk reads only what isn't usual.
#![tactic(auto)]

mod editor_examples;
mod editor_readings;
mod examples;
mod laws;
mod loading;
mod loading_editor;
mod read_editor;
mod read_kinds;
mod read_rows;
mod read_scene;
mod saved_laws;
mod saving;
mod saving_editor;
mod usual_rows;
mod usual_scene;
mod write_editor;
mod write_rows;
mod write_world;

pub use editor_examples::worked_editors;
pub use editor_readings::worked_readings;
pub use examples::worked_texts;
pub use laws::{
    only_texts_of_editors_are_read, only_texts_of_worlds_are_read, written_worlds_are_read_again,
};
pub use loading::{load, load_text};
pub use loading_editor::{load_editor, load_editor_text};
pub use saved_laws::{editors_are_read_again, saved_editors_are_loaded, saved_worlds_are_loaded};
pub use saving::{save, save_text};
pub use saving_editor::{save_editor, save_editor_text};
pub use scene_json_forms::FileFault;
pub use write_world::write_kinds;
