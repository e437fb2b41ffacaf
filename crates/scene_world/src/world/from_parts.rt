//! A world made of its parts.
ghost use Rattle.std.specs.Prelude.{◌≡◌, ◌≢◌, None, Ok, Err, IfOk, MatchResult};
ghost use Rattle.scene_kinds.specs.Answers.{refusal_of};
ghost use Rattle.scene_kinds.specs.declared.fault.Fault.TheVariants.{NoMemory};
ghost use Rattle.scene_validate.specs.Parts.{world_of};
ghost use Rattle.scene_validate.specs.Rules.{first_broken};
ghost use Rattle.scene_validate.specs.Seen.{seen};
ghost use Rattle.scene_world.specs.Built.{made};

use crate::built::{build_links, build_resources, build_tables};
use crate::world::World;
use scene_alloc::Slots;
use scene_kinds::{Fault, Refusal};
use scene_validate::{WorldParts, unbroken_parts_are_those_of_valid_worlds};
use std::alloc::{AllocError, Global};

/// The world of parts that break no rule.
fn build(alloc: Global, parts: WorldParts) -> Result<World, AllocError>
    requires { first_broken (seen parts) ≡ None }
    ensures { IfOk result (λ w. w.world ≡ world_of (seen parts)) }
{
    unbroken_parts_are_those_of_valid_worlds();
    parts.are_in_range();
    let WorldParts {
        schema,
        limit,
        tick,
        generations,
        free,
        tables,
        children,
        resources,
    } = parts;
    let count = generations.as_slice().len();
    // One way out drops all that was built: four would be dear to check.
    match (
        build_tables(alloc, tables, count),
        build_links(alloc, children),
        build_resources(alloc, resources),
        Slots::from_lists(limit, generations, free),
    ) {
        (Ok(tables), Ok(links), Ok(resources), Ok(slots)) => Ok(World {
            alloc,
            schema,
            slots,
            tick,
            tables,
            links,
            resources,
        }),
        _ => Err(AllocError),
    }
}

impl World {
    /// The world of these parts, in whatever order their lists stand (docs/MODEL.md, "A valid world"). The parts are
    /// used up.
    ///
    /// Refused: `BadWorld` with the first rule that the parts break, 1 to 10; then `NoMemory`. It costs a few walks
    /// over the parts and the slots, and for kind sets and names of resources their number times its logarithm.
    pub fn from_parts(alloc: Global, parts: WorldParts) -> Result<World, Refusal>
        ensures { MatchResult result (λ w. made (seen parts) ≡ Ok w.world) (λ r. r ≢ refusal_of NoMemory → made (seen parts) ≡ Err r) }
    {
        if let Some(rule) = parts.first_broken(alloc)? {
            return Err(Refusal::from(Fault::BadWorld(rule)));
        }
        let world = build(alloc, parts)?;
        Ok(world)
    }
}
