//! Sessions over a state, alone and on threads, and their lock: what contracts can't say.
//!
//! `frames` has what sessions submit; `threads` has sessions that work at once, each on a thread of its own; `inside`
//! has queries and changes that wait within the lock. `scenes` has small states and schedules, `replays` reads a history,
//! and performs it again, and `workers` sees the threads of an advance.
//!
//! Below sessions: row steps over parted tables (`row_tests`), which schemas a schedule is for (`schedule_tests`), and
//! that phases on several threads make what they make on one (`thread_tests`). They stand here so that the crates which
//! they try aren't proved a second time for their tests.
#![tactic(auto)]

#[cfg(test)]
mod frames;
#[cfg(test)]
mod inside;
#[cfg(test)]
mod lock_tests;
#[cfg(test)]
mod replays;
#[cfg(test)]
mod row_tests;
#[cfg(test)]
mod scenes;
#[cfg(test)]
mod schedule_tests;
#[cfg(test)]
mod tests;
#[cfg(test)]
mod thread_tests;
#[cfg(test)]
mod threads;
#[cfg(test)]
mod workers;
