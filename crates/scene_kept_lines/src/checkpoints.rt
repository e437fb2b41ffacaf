//! Checkpoints among kept lines: where they stand (docs/SHELL.md, "Checkpoints").
ghost use Rattle.std.specs.Prelude.{◌≡◌, ◌≢◌, ◌≤◌, ◌<◌, ◌+◌, ◌^◌, ◌++◌, ℕ, List, All, IfOk, IfSome, MatchOption, OnOk, length, map};
ghost use Rattle.std.specs.Str.Lines.{lines};
ghost use Rattle.scene_kept_lines.specs.Checkpoints.{marked};
ghost use Rattle.scene_kept_lines.specs.Scans.{IsFound, IsScanned, TakesLine};

use crate::checkpoint_end::progress_behind;
use scene_interpreter::Progress;
use scene_script::first_line;
use scene_shell::push_kept_line;
use std::alloc::{AllocError, Global};

/// With which each line of a checkpoint begins, as a comment.
pub(crate) const MARK: &[u8] = b"# checkpoint: ";

/// A checkpoint among the lines of a text.
#[derive(Clone, Copy)]
pub(crate) struct Checkpoint<'a> {
    /// The text from its first line on.
    pub(crate) block: &'a [u8],
    /// How many lines it has, before the one that ends it.
    pub(crate) count: u64,
    /// How far the interpreter had come that they lead to.
    pub(crate) progress: Progress,
    /// How many lines the text has with it and before it.
    pub(crate) skipped: u64,
    /// The text behind it.
    pub(crate) rest: &'a [u8],
}

/// How far the lines of a text were looked through.
#[derive(Drop)]
struct Scan<'a> {
    /// The text from the first of the lines on that stand marked before `rest`.
    run: &'a [u8],
    /// How many these are.
    count: u64,
    /// How many lines were looked at.
    number: u64,
    /// The text behind them.
    rest: &'a [u8],
}

/// The line of a checkpoint that a comment is, if it is one.
fn unmarked(line: &[u8]) -> Option<&[u8]>
    ensures { MatchOption result ((said : List ℕ) → line.now ≢ marked said) (λ said. line.now ≡ marked said.now) }
{
    line.strip_prefix(MARK)
}

impl<'a> Scan<'a> {
    /// Looks at one line more, and gives the checkpoint that it ends, if it ends one.
    fn step(&mut self, alloc: Global) -> Result<Option<Checkpoint<'a>>, AllocError>
        requires some { 0 < length self.old.rest.now }
        requires few { self.old.number + length self.old.rest.now < 2 ^ 64 }
        requires fewer { self.old.count ≤ self.old.number }
        ensures scanned { OnOk result ((all : List (List ℕ)) → IsScanned all self.old → IsScanned all self.new) }
        ensures found { IfOk result (λ found. IfSome found (λ c. (all : List (List ℕ)) → IsScanned all self.old → IsFound all c)) }
        ensures shorter { length self.new.rest.now < length self.old.rest.now }
        ensures number { self.new.number ≡ self.old.number + 1 }
        ensures count { self.new.count ≤ self.old.count + 1 }
    {
        let (line, more) = first_line(self.rest);
        self.number += 1;
        self.rest = more;
        if unmarked(line).is_some() {
            self.count += 1;
            return Ok(None);
        }
        let (block, count) = (self.run, self.count);
        self.run = more;
        self.count = 0;
        match progress_behind(alloc, line, count)? {
            Some(progress) => Ok(Some(Checkpoint {
                block,
                count,
                progress,
                skipped: self.number,
                rest: more,
            })),
            None => Ok(None),
        }
    }
}

/// The checkpoints among the lines of a text, the oldest first. It costs a look at the beginning of each line.
pub(crate) fn checkpoints_in<'a>(
    alloc: Global,
    text: &'a [u8],
) -> Result<Vec<Checkpoint<'a>>, AllocError>
    ensures { IfOk result (λ found. All (IsFound (lines text.now)) found.items) }
{
    let mut found = Vec::new(alloc);
    let mut scan = Scan {
        run: text,
        count: 0,
        number: 0,
        rest: text,
    };
    'lines: while !scan.rest.is_empty() {
        if let Some(checkpoint) = scan.step(alloc)? {
            found.push(checkpoint)?;
        }
    }
    Ok(found)
}

/// Adds the line of a checkpoint that a comment is, with its line break, if it is one.
fn push_unmarked(text: &mut Vec<u8>, line: &[u8]) -> Result<(), AllocError>
    ensures { OnOk result (TakesLine line.now text.old.items text.new.items) }
{
    match unmarked(line) {
        Some(said) => push_kept_line(text, said),
        None => Ok(()),
    }
}

/// The lines of a checkpoint, each with its line break, which stand marked at the beginning of a text, so many.
pub(crate) fn checkpoint_lines(
    alloc: Global,
    block: &[u8],
    count: u64,
) -> Result<Vec<u8>, AllocError>
    ensures { IfOk result (λ text. (ls more : List (List ℕ)) → lines block.now ≡ map marked ls ++ more → count ≡ length ls
        → lines text.items ≡ ls) }
{
    let mut text = Vec::new(alloc);
    let mut rest = block;
    let mut left = count;
    'lines: while left > 0 && !rest.is_empty() {
        let (line, more) = first_line(rest);
        push_unmarked(&mut text, line)?;
        rest = more;
        left -= 1;
    }
    Ok(text)
}
