//! Marks of indices, by which it is told at once whether an index stands in a list.
ghost use Rattle.std.specs.Prelude.{◌≡◌, ◌&&◌, true, not, if◌then◌else◌, IfOk, IfSome, is_some, length, nat_lt, slice_set};
ghost use Rattle.std.specs.List.{list_any, list_all};
ghost use Rattle.scene_validate.specs.Marks.{AreMarks, are_places, is_marked};

use std::alloc::{AllocError, Global};

/// Whether an index is marked; one behind the last isn't.
pub(crate) fn is_marked(marks: &[bool], index: u32) -> bool
    ensures { result ≡ is_marked marks.now index }
{
    match marks.get(index as usize) {
        Some(mark) => *mark,
        None => false,
    }
}

/// Marks an index that has no mark yet. Where it has one, or is out of range, nothing changes.
pub(crate) fn mark(marks: &mut Vec<bool>, index: u32) -> bool
    ensures done { result ≡ (nat_lt index (length marks.old.items) && not (is_marked marks.old.items index)) }
    ensures after { marks.new.items ≡ (if result then slice_set marks.old.items index true else marks.old.items) }
{
    let at = index as usize;
    if at >= marks.len() || marks[at] {
        return false;
    }
    marks[at] = true;
    true
}

/// The marks of indices, or `None` where one isn't below `count` or stands twice. It costs `count`, and a walk over the
/// indices.
#[tactic(auto, using(crate::proofs::Marking::steps))]
pub(crate) fn marks_of(
    alloc: Global,
    count: usize,
    indices: &[u32],
) -> Result<Option<Vec<bool>>, AllocError>
    ensures some { IfOk result (λ marks. is_some marks ≡ are_places count indices.now) }
    ensures marks { IfOk result (λ marks. IfSome marks (λ m. AreMarks count indices.now m.items)) }
{
    let mut marks = vec![in alloc; false; count]?;
    for index in indices {
        if !mark(&mut marks, *index) {
            return Ok(None);
        }
    }
    Ok(Some(marks))
}

/// Whether one of the indices is marked.
pub(crate) fn any_marked(marks: &[bool], indices: &[u32]) -> bool
    ensures { result ≡ list_any (is_marked marks.now) indices.now }
{
    indices.iter().any(|index| is_marked(marks, *index))
}

/// Whether indices are below `count` and none stands twice, at the same cost.
pub(crate) fn are_places(alloc: Global, count: usize, indices: &[u32]) -> Result<bool, AllocError>
    ensures { IfOk result (λ places. places ≡ are_places count indices.now) }
{
    let marks = marks_of(alloc, count, indices)?;
    Ok(marks.is_some())
}
