//! What a tool does with an `Editor`: things are placed and dragged, a cycle and a thing that is gone are refused, and
//! changes are taken back and made again. docs/LIBRARY.md says how such a crate comes about.
#![tactic(auto)]

mod error;
mod level;

use crate::error::LevelError;
use crate::level::Level;
use anyhow::Result;
use scene_editor::{Cursor, Entity};
use std::io;

/// Prints where a thing is.
fn show(rt: &impl Print, level: &Level, name: &str) -> Result<()> {
    let entity = level.find(name)?;
    let [x, y, z] = level.position(entity)?;
    println!(rt; "  {name} {entity} at {x},{y},{z}")?;
    Ok(())
}

/// Prints what was done, or why it was refused.
fn tell(rt: &impl Print, what: &str, outcome: Result<(), LevelError>) -> io::Result<()> {
    match outcome {
        Ok(()) => println!(rt; "{what}: done"),
        Err(error) => println!(rt; "{what}: {error}"),
    }
}

/// Prints which cells were written since a cursor.
fn show_changed(rt: &impl Print, level: &Level, since: Cursor) -> Result<()> {
    for cell in &level.changed(since)? {
        println!(rt; "  {} {}", cell.entity, level.kind_name(cell.kind))?;
    }
    Ok(())
}

/// Drags things three steps to the right, each step a frame.
fn drag(rt: &impl Print, level: &mut Level, selected: &[Entity]) -> Result<()> {
    let start = level.cursor();
    let drag = level.begin_drag(selected)?;
    for step in 1..=3 {
        level.drag_to(&drag, [step, 0, 0])?;
    }
    println!(rt; "dragged, and since then were written:")?;
    show_changed(rt, level, start)?;
    show(rt, level, "door")
}

/// What is refused leaves the level as it was.
fn refusals(rt: &impl Print, level: &mut Level, selected: &[Entity]) -> Result<()> {
    let house = level.find("house")?;
    let lamp = level.find("lamp")?;
    tell(rt, "house below lamp", level.put_below(house, lamp))?;
    let drag = level.begin_drag(selected)?;
    tell(rt, "delete lamp", level.delete(lamp))?;
    tell(rt, "drag with lamp", level.drag_to(&drag, [9, 9, 9]))?;
    show(rt, level, "house")
}

/// Takes changes back and makes them again.
fn back_and_again(rt: &impl Print, level: &mut Level) -> Result<()> {
    let before = level.cursor();
    tell(rt, "undo the delete", level.undo())?;
    show(rt, level, "lamp")?;
    for _ in 0..3 {
        level.undo()?;
    }
    println!(rt; "the drag undone, {} frame left:", level.undo_len())?;
    show(rt, level, "lamp")?;
    tell(
        rt,
        "changes since before",
        level.changed(before).map(|_| ()),
    )?;
    tell(rt, "redo", level.redo())?;
    show(rt, level, "lamp")
}

/// Plays the level for three steps of time, and takes one back.
fn play(rt: &impl Print, level: &mut Level) -> Result<()> {
    let lamp = level.find("lamp")?;
    level.push(lamp, [0, 0, 5])?;
    for _ in 0..3 {
        level.step()?;
    }
    println!(rt; "played for three steps:")?;
    show(rt, level, "lamp")?;
    tell(rt, "undo a step", level.undo())?;
    show(rt, level, "lamp")?;
    show(rt, level, "door")
}

/// Takes work of the day before back.
fn take_back(rt: &impl Print, level: &mut Level) -> Result<()> {
    println!(rt; "the day after, {} frames can be undone:", level.undo_len())?;
    tell(rt, "redo the step", level.redo())?;
    show(rt, level, "lamp")?;
    for _ in 0..level.undo_len() {
        level.undo()?;
    }
    tell(rt, "find the house", level.find("house").map(|_| ()))?;
    Ok(())
}

/// Closes the level and opens it on the day after.
fn day_after(rt: &HostRuntime, level: &Level) -> Result<()> {
    let text = level.close()?;
    let mut level = Level::reopen(rt.alloc(), text.as_str())?;
    take_back(rt, &mut level)
}

/// Drags things, and shows what is refused and what can be taken back.
fn work_with(rt: &impl Print, level: &mut Level, things: &[Entity]) -> Result<()> {
    println!(rt; "placed {} things in one frame", things.len())?;
    drag(rt, level, things)?;
    refusals(rt, level, things)?;
    back_and_again(rt, level)?;
    play(rt, level)
}

/// Places things, and works with them.
fn use_level(rt: &impl Print, level: &mut Level) -> Result<()> {
    let things = level.place("house", &["door", "lamp"])?;
    work_with(rt, level, things.as_slice())
}

fn main(rt: HostRuntime) -> Result<()> {
    let mut level = Level::open(rt.alloc())?;
    use_level(&rt, &mut level)?;
    day_after(&rt, &level)
}
