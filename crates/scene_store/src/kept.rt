//! A store keeps the lines of a shell, and gives them to the next one.
use crate::fault::StoreFault;
use crate::rows::StoredLines;
use crate::store::Store;
use scene_streams::{Keep, KeptLines, KeptText};
use sqlite::Alter;
use std::alloc::Global;

impl<S: Alter + Drop> Keep for Store<S> {
    type Fault = StoreFault;

    ghost use Rattle.scene_store.specs.Store.{Keeps};

    ghost keeps = { Keeps S.Store };

    fn keep(&mut self, lines: &[u8]) -> Result<(), StoreFault> {
        Store::keep(self, lines)
    }
}

impl<S: Alter + Drop> KeptLines for Store<S> {
    ghost use Rattle.scene_store.specs.Head.{TakesCalls};
    ghost use Rattle.scene_store.specs.Store.{IsStore};

    ghost is_store = { IsStore S.Store };

    ghost plays = { TakesCalls };

    fn lines(&mut self, alloc: Global) -> Result<KeptText, StoreFault> {
        match Store::lines(self, alloc) {
            Ok(StoredLines { version, text }) => Ok(KeptText {
                calls: version.call_limit(),
                text,
            }),
            Err(fault) => Err(fault),
        }
    }
}
