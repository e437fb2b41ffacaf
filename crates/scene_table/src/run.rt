//! What row steps make of all rows of a table, turn by turn.
ghost use Rattle.std.specs.Prelude.{◌≡◌, ◌&&◌, ◌||◌, ℕ, List, slice_get, true, false, map, length, ◌*◌, ◌^◌, ◌<◌, ◌≤◌, ℤ, unsigned_abs, Some, nat_eq, nat_lt, All, IsTrue, ◌↔◌, IfOk, IfSome, IfNone, IsSome, pos};
ghost use Rattle.std.specs.List.{position_from};
ghost use Rattle.scene_kinds.specs.KindSet.{has_kind};
ghost use Rattle.scene_kinds.specs.declared.value.Value.TheVariants.{Vec3};
ghost use Rattle.scene_table.specs.RowStep.{is_written, target};
ghost use Rattle.scene_table.specs.Columns.{cells_of};
ghost use Rattle.scene_table.specs.Runs.{AddsAs, AreApart, AreColumnsFor, AreInRange, AreKindsOf, AreLongFor, CanStep, HaveAddends, HoldsAt, IsColumnOf, IsFirstColumn, IsRun, OneOverflows, Overflows, Stands, StandsColumn, added_kind, grown, is_read, read_kinds, values_in, written_values};

use crate::changed::copied_ticks;
use crate::reach::Reach;
use crate::row_step::RowStep;
use crate::series::{Series, is_vec};
use crate::sums::{int_series, vec_series};
use crate::table::Table;
use scene_kinds::{Cell, Entity, KindSet, Value, set_with};
use std::alloc::{AllocError, Global};
use std::marker::Model;

/// A column that a run writes.
#[derive(Drop, Debug)]
pub(crate) struct RunColumn {
    pub(crate) kind: u8,
    /// The kind whose vectors are added, where it isn't a number.
    by: Option<u8>,
    /// At which tick each cell was added.
    pub(crate) added: Vec<u64>,
    pub(crate) series: Series,
    reach: Reach,
}

/// The same row steps over all rows of a table, turn after turn: the cells that they write, before the first turn, and
/// what each turn adds to them (docs/JOURNAL.md, "Runs"). Many frames may share it.
#[derive(Drop, Debug)]
pub struct Run {
    mask: KindSet,
    steps: Vec<RowStep>,
    entities: Vec<Entity>,
    columns: Vec<RunColumn>,
}

impl Model for Run {
    ghost use Rattle.scene_table.specs.Runs.{RunState, IsRun};

    ghost Value = { RunState };

    ghost view = { λ r. record { mask = r.mask; steps = r.steps.items; entities = r.entities.items; columns = r.columns.items } };

    // The columns are those of the steps, as long as the entities, and within their bounds.
    ghost invariant = { λ r. IsRun r.mask r.steps.items r.entities.items r.columns.items };
}

/// The set with a kind, if it is below 64.
fn with_kind(kinds: KindSet, kind: u8) -> KindSet
    ensures { (k : ℕ) → has_kind result k ≡ (has_kind kinds k || (nat_eq kind k && nat_lt k 64)) }
{
    if kind < 64 {
        set_with(kinds, kind)
    } else {
        kinds
    }
}

/// The kinds that steps write.
fn written_by(steps: &[RowStep]) -> KindSet
    ensures { (k : ℕ) → has_kind result k ≡ (is_written steps.now k && nat_lt k 64) }
{
    let mut kinds: KindSet = 0;
    for step in steps {
        kinds = with_kind(kinds, step.target());
    }
    kinds
}

/// The kinds that steps add to others.
fn read_by(steps: &[RowStep]) -> KindSet
    ensures { (k : ℕ) → has_kind result k ≡ (is_read steps.now k && nat_lt k 64) }
{
    let mut kinds: KindSet = 0;
    for step in steps {
        match step {
            RowStep::AddVec { by, .. } => kinds = with_kind(kinds, *by),
            RowStep::AddInt { .. } => (),
        }
    }
    kinds
}

/// Whether one of the steps writes a kind.
fn writes(steps: &[RowStep], kind: u8) -> bool
    ensures { result ≡ is_written steps.now kind }
{
    steps.iter().any(|step| step.target() == kind)
}

/// Whether a step adds a kind that one of these steps writes.
fn adds_written(step: RowStep, steps: &[RowStep]) -> bool
    ensures { result ≡ false → All (λ kind. is_written steps.now kind ≡ false) (read_kinds step) }
{
    match step {
        RowStep::AddVec { by, .. } => writes(steps, by),
        RowStep::AddInt { .. } => false,
    }
}

/// Whether steps write each its own kind, and add none that is written: so each of them adds the same, turn after turn,
/// and they may be done in any order.
pub fn are_apart(steps: &[RowStep]) -> bool
    ensures { result ≡ true → AreApart steps.now }
{
    for at in 0..steps.len() {
        let step = steps[at];
        if writes(&steps[..at], step.target()) {
            return false;
        }
        if adds_written(step, steps) {
            return false;
        }
    }
    true
}

/// The kind whose vectors a step adds, where it doesn't add a number.
fn added_kind(step: RowStep) -> Option<u8>
    ensures { result ≡ added_kind step }
{
    match step {
        RowStep::AddVec { by, .. } => Some(by),
        RowStep::AddInt { .. } => None,
    }
}

/// What a step makes of values; `None` where a first sum doesn't fit.
fn series_of(
    alloc: Global,
    table: &Table,
    values: &[Value],
    step: RowStep,
) -> Result<Option<Series>, AllocError>
    requires can { CanStep table.now step }
    requires values { values_in table.now.rows (target step) ≡ map Some values.now }
    ensures before { IfOk result (λ made. IfSome made (λ series. grown series (pos 0) ≡ values.now)) }
    ensures addends { IfOk result (λ made. IfSome made (HaveAddends table.now.rows (added_kind step))) }
    ensures adds { IfOk result (λ made. IfSome made (AddsAs step)) }
    ensures fits { IfOk result (λ made. IfSome made (λ series. AreInRange (grown series (pos 1)))) }
    ensures unfit { IfOk result (λ made. IfNone made (Overflows table.now.rows step)) }
{
    match step {
        RowStep::AddInt { by, .. } => int_series(alloc, values, by),
        RowStep::AddVec { by, .. } => match table.column(by) {
            Some(lent) => vec_series(alloc, values, lent.values),
            None => Ok(None),
        },
    }
}

/// The column that a step writes; `None` where a first sum doesn't fit.
fn column_of(alloc: Global, table: &Table, step: RowStep) -> Result<Option<RunColumn>, AllocError>
    requires { CanStep table.now step }
    ensures is { IfOk result (λ made. IfSome made (IsFirstColumn table.now)) }
    ensures of { IfOk result (λ made. IfSome made (IsColumnOf step)) }
    ensures unfit { IfOk result (λ made. IfNone made (Overflows table.now.rows step)) }
{
    let kind = step.target();
    let Some(lent) = table.column(kind) else {
        return Ok(None);
    };
    let Some(series) = series_of(alloc, table, lent.values, step)? else {
        return Ok(None);
    };
    let reach = Reach::of(&series);
    Ok(Some(RunColumn {
        kind,
        by: added_kind(step),
        added: copied_ticks(alloc, lent.added)?,
        series,
        reach,
    }))
}

/// The place of the step that writes a kind.
fn step_of(steps: &[RowStep], kind: u8) -> Option<usize>
    ensures is { result ≡ position_from (λ s. nat_eq (target s) kind) 0 steps.now }
    ensures within { IfSome result (λ at. at < length steps.now) }
{
    steps.iter().position(|step| step.target() == kind)
}

/// The columns that steps write, ascending by kind; `None` where a first sum doesn't fit.
fn columns_of(
    alloc: Global,
    table: &Table,
    steps: &[RowStep],
) -> Result<Option<Vec<RunColumn>>, AllocError>
    requires kinds { table.now.mask < 2 ^ 64 }
    requires apart { AreApart steps.now }
    requires can { All (CanStep table.now) steps.now }
    ensures of { IfOk result (λ made. IfSome made (λ columns. AreColumnsFor steps.now columns.items)) }
    ensures are { IfOk result (λ made. IfSome made (λ columns. All (IsFirstColumn table.now) columns.items)) }
    ensures unfit { IfOk result (λ made. IfNone made (OneOverflows table.now.rows steps.now)) }
{
    let mut columns = Vec::new(alloc);
    for kind in 0..64u8 {
        if let Some(at) = step_of(steps, kind) {
            let Some(column) = column_of(alloc, table, steps[at])? else {
                return Ok(None);
            };
            columns.push(column)?;
        }
    }
    Ok(Some(columns))
}

/// Whether lists have the same ticks.
fn same_ticks(a: &[u64], b: &[u64]) -> bool
    ensures { IsTrue result ↔ (a.now ≡ b.now) }
{
    a == b
}

/// Whether lists have the same entities.
fn same_entities(a: &[Entity], b: &[Entity]) -> bool
    ensures { IsTrue result ↔ (a.now ≡ b.now) }
{
    a == b
}

/// Equal entities in a list of their own, or an error where no memory was found.
fn copied_entities(alloc: Global, entities: &[Entity]) -> Result<Vec<Entity>, AllocError>
    ensures { IfOk result (λ copy. copy.items ≡ entities.now) }
{
    entities.iter().copied().collect(alloc)
}

/// Equal steps in a list of their own, or an error where no memory was found.
fn copied_steps(alloc: Global, steps: &[RowStep]) -> Result<Vec<RowStep>, AllocError>
    ensures { IfOk result (λ copy. copy.items ≡ steps.now) }
{
    steps.iter().copied().collect(alloc)
}

/// Whether values are these vectors.
fn are_vecs(values: &[Value], vectors: &[[i64; 3]]) -> bool
    ensures { result ≡ true → values.now ≡ map Vec3 vectors.now }
{
    if values.len() != vectors.len() {
        return false;
    }
    for at in 0..values.len() {
        if !is_vec(&values[at], vectors[at]) {
            return false;
        }
    }
    true
}

impl RunColumn {
    /// The cell at a place after so many turns, with this changed tick.
    pub(crate) fn cell_at(&self, place: usize, turns: i64, changed: u64) -> Cell
        requires range { AreInRange (grown self.now.series turns) }
        requires value { place < length (grown self.now.series turns) }
        requires added { place < length self.now.added.items }
        ensures { (ticks : List ℕ) → slice_get ticks place ≡ Some changed
            → slice_get (cells_of (grown self.now.series turns) self.now.added.items ticks) place ≡ Some result }
    {
        Cell {
            value: self.series.value_at(place, turns),
            added: self.added[place],
            changed,
        }
    }

    /// Whether a table has what each turn adds. A number that is added stands in the step.
    fn has_addends(&self, table: &Table) -> bool
        ensures { result ≡ true → HaveAddends table.now.rows self.now.by self.now.series }
    {
        let Some(kind) = self.by else {
            return true;
        };
        match &self.series {
            Series::Vecs { by, .. } => match table.column(kind) {
                Some(lent) => are_vecs(lent.values, by.as_slice()),
                None => false,
            },
            Series::Ints { .. } => true,
        }
    }

    /// Whether a table stands so that so many turns of the run may have been before: it has the values, and what each
    /// turn adds.
    fn is_at(&self, table: &Table, turns: i64) -> bool
        requires { AreInRange (grown self.now.series turns) }
        ensures { result ≡ true → StandsColumn table.now.rows turns self.now }
    {
        let Some(lent) = table.column(self.kind) else {
            return false;
        };
        if !same_ticks(self.added.as_slice(), lent.added) {
            return false;
        }
        if !self.series.is_at(lent.values, turns) {
            return false;
        }
        self.has_addends(table)
    }
}

impl Run {
    /// What steps make of the rows of a table, of which each has the kinds that the steps name; `None` where a sum is
    /// outside of the 64-bit numbers with sign. The table stays as it is.
    ///
    /// An error only where no memory was found, or there are 2^64 cells or more. It holds the entities, and of each cell
    /// that is written its value, the tick at which it was added, and what is added to it.
    pub fn new(alloc: Global, table: &Table, steps: &[RowStep]) -> Result<Option<Run>, AllocError>
        requires apart { AreApart steps.now }
        requires can { All (CanStep table.now) steps.now }
        ensures is { IfOk result (λ made. IfSome made (λ run. (run.mask ≡ table.now.mask) × (run.steps ≡ steps.now))) }
        ensures stands { IfOk result (λ made. IfSome made (λ run. Stands table.now.rows run (pos 0))) }
        ensures fits { IfOk result (λ made. IfSome made (λ run. HoldsAt run (pos 1))) }
        ensures unfit { IfOk result (λ made. IfNone made (All (λ row. IsSome (written_values steps.now row)) table.now.rows → ⊥)) }
        ensures small { IfOk result (λ made. IfSome made (λ run. length run.entities * length run.columns < 2 ^ 64)) }
    {
        let mask = table.mask();
        let Some(columns) = columns_of(alloc, table, steps)? else {
            return Ok(None);
        };
        let entities = copied_entities(alloc, table.entities())?;
        if entities.len().checked_mul(columns.len()).is_none() {
            return Err(AllocError);
        }
        Ok(Some(Run {
            mask,
            steps: copied_steps(alloc, steps)?,
            entities,
            columns,
        }))
    }

    /// The kind set of the table.
    pub fn mask(&self) -> KindSet
        ensures { result ≡ self.now.mask }
    {
        self.mask
    }

    /// The entities of the rows, in order.
    pub fn entities(&self) -> &[Entity]
        ensures { result.now ≡ self.now.entities }
    {
        self.entities.as_slice()
    }

    /// The columns that are written, ascending by kind.
    pub(crate) fn columns(&self) -> &[RunColumn]
        ensures columns { result.now ≡ self.now.columns }
        ensures kinds { AreKindsOf self.now.mask result.now }
        ensures long { AreLongFor self.now.entities result.now }
    {
        self.columns.as_slice()
    }

    /// How many kinds are written.
    pub fn width(&self) -> usize
        ensures count { result ≡ length self.now.columns }
        ensures long { AreLongFor self.now.entities self.now.columns }
    {
        self.columns.len()
    }

    /// The kinds that are written, or added to others.
    pub fn touched(&self) -> KindSet
        ensures { (k : ℕ) → has_kind result k ≡ ((is_written self.now.steps k || is_read self.now.steps k) && nat_lt k 64) }
    {
        let steps = self.steps.as_slice();
        written_by(steps) | read_by(steps)
    }

    /// The kinds that are written.
    pub fn written(&self) -> KindSet
        ensures { (k : ℕ) → has_kind result k ≡ (is_written self.now.steps k && nat_lt k 64) }
    {
        written_by(self.steps.as_slice())
    }

    /// Whether these are the steps over the table of a kind set.
    pub fn is_of(&self, mask: KindSet, steps: &[RowStep]) -> bool
        ensures { IsTrue result ↔ ((self.now.mask ≡ mask) × (self.now.steps ≡ steps.now)) }
    {
        self.mask == mask && self.steps.as_slice() == steps
    }

    /// Whether no sum is outside of the 64-bit numbers with sign after so many turns, by a bound for each column, and the
    /// cells can be counted. A `false` says nothing.
    pub fn fits(&self, turns: i64) -> bool
        ensures holds { result ≡ true → HoldsAt self.now turns }
        ensures before { result ≡ true → (t : ℤ) → unsigned_abs t ≤ unsigned_abs turns → HoldsAt self.now t }
        ensures of { AreColumnsFor self.now.steps self.now.columns }
        ensures small { result ≡ true → length self.now.entities * length self.now.columns < 2 ^ 64 }
    {
        if self
            .entities
            .len()
            .checked_mul(self.columns.len())
            .is_none()
        {
            return false;
        }
        for column in &self.columns {
            if !column.reach.fits(turns) {
                return false;
            }
        }
        true
    }

    /// Whether a table stands so that so many turns of the run may have been before.
    pub fn is_at(&self, table: &Table, turns: i64) -> bool
        requires { HoldsAt self.now turns }
        ensures { result ≡ true → Stands table.now.rows self.now turns }
    {
        if !self.stands_in(table) {
            return false;
        }
        for column in &self.columns {
            if !column.is_at(table, turns) {
                return false;
            }
        }
        true
    }

    /// Whether the rows of a table are those of the run, and it has the columns.
    pub fn stands_in(&self, table: &Table) -> bool
        ensures is { IsTrue result ↔ ((self.now.mask ≡ table.now.mask) × (self.now.entities ≡ map (λ row. row.entity) table.now.rows)) }
        ensures run { IsRun self.now.mask self.now.steps self.now.entities self.now.columns }
    {
        self.mask == table.mask() && same_entities(self.entities.as_slice(), table.entities())
    }
}
