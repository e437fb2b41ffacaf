//! Where a value stands in a text.
ghost use Rattle.std.specs.Prelude.{◌≡◌, IfOk, string_bytes};
ghost use Rattle.scene_json_forms.specs.Outcome.{Means};
ghost use Rattle.scene_json_forms.specs.Paths.{path_bytes};
ghost use Rattle.scene_json_forms.specs.declared.fault.FileFault.TheVariants.{BadField, UnknownKey};

use crate::fault::FileFault;
use scene_kinds::Text;
use std::alloc::{AllocError, Global};
use std::fmt::Write;

/// A path to a value, as a list of steps from it up to the whole. It takes no memory, so a walk makes one for each
/// value, and writes it as a text only where there is a fault (docs/SCENE_FILES.md, "The walk").
#[derive(Clone, Copy)]
pub enum Path<'a> {
    /// The whole.
    Root,
    /// The value of a key.
    Key(&'a Path<'a>, &'a str),
    /// An element of a list, by its place.
    Item(&'a Path<'a>, usize),
}

impl Path<'_> {
    /// The text of the path.
    fn text(&self, alloc: Global) -> Result<String, AllocError>
        ensures { IfOk result (λ text. string_bytes text ≡ path_bytes self.now) }
    {
        match self {
            Path::Root => Ok(String::new(alloc)),
            Path::Key(above, key) => {
                let mut text = above.text(alloc)?;
                if !text.is_empty() {
                    text.push_str(".")?;
                }
                text.push_str(key)?;
                Ok(text)
            }
            Path::Item(above, place) => {
                let mut text = above.text(alloc)?;
                write!(text, "[{place}]")?;
                Ok(text)
            }
        }
    }
}

/// The fault that the value at a path is missing or isn't of its form: `BadField`, or `NoMemory` in its place.
pub fn bad_field(alloc: Global, path: &Path<'_>) -> FileFault
    ensures { Means result (BadField (path_bytes path.now)) }
{
    match path.text(alloc) {
        Ok(text) => FileFault::BadField(Text::from(text)),
        Err(_) => FileFault::NoMemory,
    }
}

/// The fault that an object has a key that it may not have, where the path ends in the key: `UnknownKey`, or `NoMemory`
/// in its place.
pub fn unknown_key(alloc: Global, path: &Path<'_>) -> FileFault
    ensures { Means result (UnknownKey (path_bytes path.now)) }
{
    match path.text(alloc) {
        Ok(text) => FileFault::UnknownKey(Text::from(text)),
        Err(_) => FileFault::NoMemory,
    }
}
