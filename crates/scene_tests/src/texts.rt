//! Scene texts that were worked out by hand, and what is said of a text that is loaded.
use scene_file::{FileFault, load, load_text};
use scene_lower_tests::Pieces;
use scene_streams::Source;
use scene_world::World;
use std::alloc::Global;

/// A world with one kind and one entity, whose index is retired when it dies.
pub const SMALL: &str = concat!(
    r#"{"children":[],"free":[],"generations":[4294967295],"kinds":[["A","Int"]],"limit":2,"#,
    r#""resources":[],"scene":1,"tables":[{"kinds":[0],"rows":[{"cells":[[5,1,1]],"#,
    r#""entity":"0v4294967295"}]}],"tick":1}"#
);

/// What a save writes of a world in which the second of three rows left its table and came back, with the newline.
pub const MOVED: &str = concat!(
    r#"{"children":[],"free":[],"generations":[1,1,1],"kinds":[["A","Int"],["T","Tag"]],"limit":4,"#,
    r#""resources":[],"scene":1,"tables":[{"kinds":[0],"rows":[{"cells":[[0,1,1]],"entity":"0v1"},"#,
    r#"{"cells":[[2,3,3]],"entity":"2v1"},{"cells":[[1,2,2]],"entity":"1v1"}]}],"tick":5}"#,
    "\n"
);

/// The name of the fault of a load, or `good`.
pub fn fault_name(loaded: Result<World, FileFault>) -> &'static str {
    match loaded {
        Ok(_) => "good",
        Err(fault) => fault.name(),
    }
}

/// That of a load of a text.
pub fn load_text_name(alloc: Global, text: &[u8]) -> &'static str {
    fault_name(load_text(alloc, text))
}

/// That of a load of what a reader gives.
pub fn load_name(alloc: Global, reader: Pieces<'_>) -> &'static str {
    let mut source = Source::new(reader);
    fault_name(load(alloc, &mut source))
}
