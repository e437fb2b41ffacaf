//! Where a row stands.
use scene_kinds::KindSet;

/// Where the row of a live entity stands: the kind set of its table, and the row's place there, from 0.
#[derive(Clone, Copy, Debug, PartialEq, Eq)]
pub struct Home {
    pub mask: KindSet,
    pub place: usize,
}
