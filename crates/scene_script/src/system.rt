//! What the words of a system say.
ghost use Rattle.std.specs.Prelude.{◌≡◌, IfOk, map};
ghost use Rattle.scene_script.specs.Reading.{Reads};
ghost use Rattle.scene_script.specs.Systems.{is_part, with_name, with_names, names_said, part_said, count_said, child_cell, child_cells, child_said, addvec_said, addint_said, zero_said, no_step, step_named, step_said, steps_said, system_with, system_needing, system_said};

use crate::bad_line::{BadLine, LineError, text_of};
use crate::cell::{cell_word, kind_word};
use crate::number::number_word;
use crate::word::parts;
use crate::words::Words;
use scene_commands::Components;
use scene_kinds::{KindSet, Schema, Value, cut, set_with};
use scene_systems::{Filter, RowStep, Step, Steps, SystemRule};
use std::alloc::{AllocError, Global};

/// Whether a word is this part of a filter, `need` or `without`: the name and then `=`.
fn is_part(part: &str, word: &str) -> bool
    ensures { result ≡ is_part part.now word.now }
{
    match cut(word, '=') {
        Some((name, _)) => name == part,
        None => false,
    }
}

/// A set with the kind of a name.
#[tactic(auto, using(crate::proofs::KindLaws::kind_below))]
fn with_name(alloc: Global, schema: &Schema, set: KindSet, name: &str) -> Result<KindSet, LineError>
    ensures { Reads result (with_name schema.now set name.now) }
{
    // A schema has at most 64 kinds, so each has its bit.
    let _count = schema.len();
    let kind = kind_word(alloc, schema, name)?;
    Ok(set_with(set, kind))
}

/// The kinds of names.
fn names_set(alloc: Global, schema: &Schema, names: &[&str]) -> Result<KindSet, LineError>
    ensures { Reads result (with_names schema.now 0 (map (λ n. n.now) names.now)) }
{
    let mut set = 0;
    for name in names {
        set = with_name(alloc, schema, set, name)?;
    }
    Ok(set)
}

/// The kinds of a part's names, which commas join.
fn joined_names(
    alloc: Global,
    schema: &Schema,
    word: &str,
    names: &str,
) -> Result<KindSet, LineError>
    ensures { Reads result (names_said schema.now word.now names.now) }
{
    if names.is_empty() {
        return Err(LineError::Bad(BadLine::MissingName(text_of(alloc, word)?)));
    }
    let names = parts(alloc, names, ',')?;
    names_set(alloc, schema, names.as_slice())
}

/// The kinds of a part of a filter.
fn part_word(alloc: Global, schema: &Schema, word: &str) -> Result<KindSet, LineError>
    ensures { Reads result (part_said schema.now word.now) }
{
    match cut(word, '=') {
        Some((_, names)) => joined_names(alloc, schema, word, names),
        None => joined_names(alloc, schema, word, ""),
    }
}

/// A step that counts rows into a resource.
fn count_step(alloc: Global, word: &str, name: &str) -> Result<Step, LineError>
    ensures { Reads result (count_said word.now name.now) }
{
    if name.is_empty() {
        return Err(LineError::Bad(BadLine::MissingName(text_of(alloc, word)?)));
    }
    let name = text_of(alloc, name)?;
    Ok(Step::CountInto { name })
}

/// A cell of a child, which stands between two marks.
fn child_cell(
    alloc: Global,
    schema: &Schema,
    word: &str,
    cell: &str,
) -> Result<(u8, Value), LineError>
    ensures { Reads result (child_cell schema.now word.now cell.now) }
{
    if cell.is_empty() {
        return Err(LineError::Bad(BadLine::MissingCell(text_of(alloc, word)?)));
    }
    cell_word(alloc, schema, cell)
}

/// The cells of a child.
fn child_cells(
    alloc: Global,
    schema: &Schema,
    word: &str,
    cells: &[&str],
) -> Result<Components, LineError>
    ensures { Reads result (child_cells schema.now word.now (map (λ c. c.now) cells.now)) }
{
    let mut read = Vec::new(alloc);
    for cell in cells {
        let (kind, value) = child_cell(alloc, schema, word, cell)?;
        read.push((kind, value))?;
    }
    Ok(Components::from(read))
}

/// A step that spawns a child.
fn child_step(alloc: Global, schema: &Schema, word: &str, cells: &str) -> Result<Step, LineError>
    ensures { Reads result (child_said schema.now word.now cells.now) }
{
    let cells = parts(alloc, cells, ';')?;
    let cells = child_cells(alloc, schema, word, cells.as_slice())?;
    Ok(Step::SpawnChild { cells })
}

/// A step that adds vectors.
fn addvec_step(alloc: Global, schema: &Schema, word: &str, kinds: &str) -> Result<Step, LineError>
    ensures { Reads result (addvec_said schema.now word.now kinds.now) }
{
    let Some((to, by)) = cut(kinds, ':') else {
        return Err(LineError::Bad(BadLine::NoStep(text_of(alloc, word)?)));
    };
    let to = kind_word(alloc, schema, to)?;
    let by = kind_word(alloc, schema, by)?;
    Ok(Step::Row(RowStep::AddVec { to, by }))
}

/// A step that adds a number.
fn addint_step(alloc: Global, schema: &Schema, word: &str, text: &str) -> Result<Step, LineError>
    ensures { Reads result (addint_said schema.now word.now text.now) }
{
    let Some((to, by)) = cut(text, ':') else {
        return Err(LineError::Bad(BadLine::NoStep(text_of(alloc, word)?)));
    };
    let to = kind_word(alloc, schema, to)?;
    let by = number_word(alloc, by)?;
    Ok(Step::Row(RowStep::AddInt { to, by }))
}

/// A step that despawns at zero.
fn zero_step(alloc: Global, schema: &Schema, name: &str) -> Result<Step, LineError>
    ensures { Reads result (zero_said schema.now name.now) }
{
    let kind = kind_word(alloc, schema, name)?;
    Ok(Step::DespawnAtZero { kind })
}

/// Why a word is no step. A part of a filter is one that comes too late.
fn no_step(alloc: Global, word: &str) -> Result<BadLine, AllocError>
    ensures { IfOk result (λ reason. reason ≡ no_step word.now) }
{
    let text = text_of(alloc, word)?;
    if is_part("need", word) || is_part("without", word) {
        Ok(BadLine::MisplacedPart(text))
    } else {
        Ok(BadLine::NoStep(text))
    }
}

/// The step of a name, with what stands behind it.
fn named_step(
    alloc: Global,
    schema: &Schema,
    word: &str,
    name: &str,
    rest: &str,
) -> Result<Step, LineError>
    ensures { Reads result (step_named schema.now word.now name.now rest.now) }
{
    match name {
        "addvec" => addvec_step(alloc, schema, word, rest),
        "addint" => addint_step(alloc, schema, word, rest),
        "zero" => zero_step(alloc, schema, rest),
        "child" => child_step(alloc, schema, word, rest),
        "count" => count_step(alloc, word, rest),
        _ => Err(LineError::Bad(no_step(alloc, word)?)),
    }
}

/// The step that a word is (docs/SCRIPTS.md, "Systems").
fn step_word(alloc: Global, schema: &Schema, word: &str) -> Result<Step, LineError>
    ensures { Reads result (step_said schema.now word.now) }
{
    match cut(word, ':') {
        Some((name, rest)) => named_step(alloc, schema, word, name, rest),
        None => Err(LineError::Bad(no_step(alloc, word)?)),
    }
}

/// The steps that words are.
fn step_words(alloc: Global, schema: &Schema, words: Words) -> Result<Steps, LineError>
    ensures { Reads result (steps_said schema.now words.entry) }
{
    let mut steps = Vec::new(alloc);
    let mut words = words;
    'words: while let Some((word, rest)) = words.split_first() {
        let step = step_word(alloc, schema, word)?;
        steps.push(step)?;
        words = rest;
    }
    Ok(Steps::from(steps))
}

/// A system of this name and this filter, with the steps that words are.
fn system_with(
    alloc: Global,
    schema: &Schema,
    name: &str,
    filter: Filter,
    words: Words,
) -> Result<SystemRule, LineError>
    ensures { Reads result (system_with schema.now name.now filter words.entry) }
{
    let steps = step_words(alloc, schema, words)?;
    let name = text_of(alloc, name)?;
    Ok(SystemRule {
        name,
        filter,
        steps,
    })
}

/// A system whose rows have these kinds, with what words say of it: `without=`, which may be left out, and the steps.
fn system_needing(
    alloc: Global,
    schema: &Schema,
    name: &str,
    need: KindSet,
    words: Words,
) -> Result<SystemRule, LineError>
    ensures { Reads result (system_needing schema.now name.now need words.entry) }
{
    match words.split_first() {
        Some((word, rest)) if is_part("without", word) => {
            let without = part_word(alloc, schema, word)?;
            system_with(alloc, schema, name, Filter { need, without }, rest)
        }
        _ => system_with(alloc, schema, name, Filter { need, without: 0 }, words),
    }
}

/// A system of this name, with what the words behind it say: `need=` and `without=`, each of which may be left out, and
/// the steps (docs/SCRIPTS.md, "Systems").
pub(crate) fn system_rule(
    alloc: Global,
    schema: &Schema,
    name: &str,
    words: Words,
) -> Result<SystemRule, LineError>
    ensures { Reads result (system_said schema.now name.now words.entry) }
{
    match words.split_first() {
        Some((word, rest)) if is_part("need", word) => {
            let need = part_word(alloc, schema, word)?;
            system_needing(alloc, schema, name, need, rest)
        }
        _ => system_needing(alloc, schema, name, 0, words),
    }
}
