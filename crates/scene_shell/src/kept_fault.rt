//! Why a shell that keeps its lines ended.
use scene_streams::AppFault;

/// Why a shell that keeps its lines ended before its input did.
#[derive(Drop)]
pub enum KeptFault<F: Drop> {
    /// A stream or the memory.
    Ended(AppFault),
    /// The lines weren't kept.
    Keep(F),
}
