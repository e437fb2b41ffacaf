//! Components that C gives in lists: each is a cell, and the bytes of their texts stand beside them.
ghost use Rattle.std.specs.Prelude.{◌≡◌, IfOk, IfSome, length, option_map};
ghost use Rattle.scene_c.specs.Given.{component_in, components_in, count_of, part_by, write_of, writes_in, writes_of};
ghost use Rattle.scene_queue.specs.Queue.{usual_limit};

use crate::value::{SceneCell, SceneEntity, component_of_cell, target_of, text_component};
use scene_commands::Command;
use scene_kinds::Value;
use scene_queue::Queue;
use std::alloc::{AllocError, Global};

/// The shape of a text (`SCENE_TEXT`).
const TEXT: u32 = 3;

/// As many commands a queue has at most.
const MOST_WRITES: usize = 67_108_864;

/// A number that counts.
fn count_of(number: i64) -> Option<usize>
    ensures { result ≡ count_of number }
{
    if number < 0 {
        None
    } else {
        Some(number as usize)
    }
}

/// So many bytes from one on, where there are so many.
fn part_of(bytes: &[u8], from: i64, count: i64) -> Option<&[u8]>
    ensures { option_map (λ part. part.now) result ≡ part_by bytes.now (count_of from) (count_of count) }
{
    let from = count_of(from)?;
    let count = count_of(count)?;
    bytes.get(from..)?.get(..count)
}

/// The component that a cell names, of which a text is copied.
fn component_in(
    alloc: Global,
    cell: SceneCell,
    bytes: &[u8],
) -> Result<Option<(u8, Value)>, AllocError>
    ensures { IfOk result (λ found. found ≡ component_in bytes.now cell) }
{
    if cell.shape != TEXT {
        return Ok(component_of_cell(cell));
    }
    match part_of(bytes, cell.x, cell.y) {
        Some(text) => text_component(alloc, cell.kind, text),
        None => Ok(None),
    }
}

/// The components that cells name, where each names one.
pub(crate) fn components_in(
    alloc: Global,
    cells: &[SceneCell],
    bytes: &[u8],
) -> Result<Option<Vec<(u8, Value)>>, AllocError>
    ensures { IfOk result (λ found. option_map (λ given. given.items) found ≡ components_in bytes.now cells.now) }
{
    let mut given = Vec::with_capacity(alloc, cells.len())?;
    'cells: for at in 0..cells.len() {
        match component_in(alloc, cells[at], bytes)? {
            Some(component) => given.push(component)?,
            None => return Ok(None),
        }
    }
    Ok(Some(given))
}

/// The command that writes a component of an entity.
fn write_of(entity: SceneEntity, component: (u8, Value)) -> Command
    ensures { result ≡ write_of entity component }
{
    let (kind, value) = component;
    Command::Insert(target_of(entity), kind, value)
}

/// The commands that write to each entity the component at its place, in a queue.
fn writes_in(
    alloc: Global,
    entities: &[SceneEntity],
    cells: &[SceneCell],
    bytes: &[u8],
) -> Result<Option<Queue>, AllocError>
    requires { length entities.now ≡ length cells.now }
    ensures commands { IfOk result (λ found. option_map (λ queue. queue.commands) found ≡ writes_in bytes.now entities.now cells.now) }
    ensures limit { IfOk result (λ found. IfSome found (λ queue. queue.limit ≡ usual_limit)) }
{
    let mut queue = Queue::new(alloc);
    'writes: for at in 0..cells.len() {
        let entity = entities[at];
        let Some(component) = component_in(alloc, cells[at], bytes)? else {
            return Ok(None);
        };
        if queue.push(write_of(entity, component)).is_err() {
            return Err(AllocError);
        }
    }
    Ok(Some(queue))
}

/// The same, where both lists are as long, and no longer than a queue.
#[tactic(auto, using(crate::proofs::GivenLaws::unlike))]
pub(crate) fn writes_of(
    alloc: Global,
    entities: &[SceneEntity],
    cells: &[SceneCell],
    bytes: &[u8],
) -> Result<Option<Queue>, AllocError>
    ensures commands { IfOk result (λ found. option_map (λ queue. queue.commands) found ≡ writes_of bytes.now entities.now cells.now) }
    ensures limit { IfOk result (λ found. IfSome found (λ queue. queue.limit ≡ usual_limit)) }
{
    if cells.len() > MOST_WRITES || entities.len() != cells.len() {
        return Ok(None);
    }
    writes_in(alloc, entities, cells, bytes)
}
