//! How many cells the systems of a phase have to write, and how many commands they queued.
ghost use Rattle.std.specs.Prelude.{◌≡◌, ◌^◌, ◌-◌, length, min};
ghost use Rattle.std.specs.List.{flat_map};
ghost use Rattle.scene_schedule.specs.Systems.{writes_of, writes_of_row};

use crate::output::RowChanges;
use scene_pass::{Outcome, RowChange};
use scene_queue::Queue;

/// How many cells a row has to write.
fn count_row(row: &RowChange) -> usize
    ensures { result ≡ length (writes_of_row row.now) }
{
    match &row.outcome {
        Outcome::Changed(cells) => cells.as_slice().len(),
        Outcome::Overflow(_) => 0,
    }
}

/// How many cells the rows of a system have to write; the highest number where there are more.
fn count_rows(rows: &[RowChange]) -> usize
    ensures { result ≡ min (length (writes_of rows.now)) (2 ^ 64 - 1) }
{
    let mut count: usize = 0;
    for row in rows {
        count = count.saturating_add(count_row(row));
    }
    count
}

/// How many cells the rows of the systems of a phase have to write; the highest number where there are more.
pub(crate) fn count_cells(rows: &[RowChanges]) -> usize
    ensures { result ≡ min (length (flat_map writes_of rows.now)) (2 ^ 64 - 1) }
{
    let mut count: usize = 0;
    for changes in rows {
        count = count.saturating_add(count_rows(changes.as_slice()));
    }
    count
}

/// How many commands the queues of the systems of a phase have; the highest number where there are more.
pub(crate) fn count_commands(queues: &[Queue]) -> usize
    ensures { result ≡ min (length (flat_map (λ queue. queue.commands) queues.now)) (2 ^ 64 - 1) }
{
    let mut count: usize = 0;
    for queue in queues {
        count = count.saturating_add(queue.commands().len());
    }
    count
}
