//! Links among the first entities of their indices.
ghost use Rattle.std.specs.Prelude.{◌≡◌, IsTrue, IfOk, MatchBool};
ghost use Rattle.scene_kinds.specs.Answers.{Answers, Gives};
ghost use Rattle.scene_kinds.specs.Map as map;
ghost use Rattle.scene_links.specs.Examples as examples;
ghost use Rattle.scene_links.specs.Forest.{cut, joined, joined_at, link_of, unlink_of};
ghost use Rattle.scene_links.specs.Room.{CanRelink};

use scene_kinds::{Entity, Refusal};
use scene_links::Links;
use std::alloc::{AllocError, Global};
use std::marker::Model;

/// The first entity of an index.
pub const fn first(index: u32) -> Entity
    ensures { result ≡ examples.first index }
{
    Entity {
        index,
        generation: 1,
    }
}

/// Links among the first entities of their indices. No two of them share an index, which links ask for.
#[derive(Drop, Debug)]
pub struct Firsts {
    links: Links,
}

impl Model for Firsts {
    ghost use Rattle.std.specs.Prelude.{◌≡◌};
    ghost use Rattle.scene_links.specs.Forest.{AllLinked};
    ghost use Rattle.scene_links.specs.Room.{LinksState};

    ghost Value = { LinksState };

    ghost view = { λ f. f.links };

    ghost invariant = { λ f. AllLinked (λ e. e.generation ≡ 1) f.links.forest };
}

impl Firsts {
    /// No links.
    pub fn new(alloc: Global) -> Self
        ensures { result.forest ≡ map.empty }
    {
        Firsts {
            links: Links::new(alloc),
        }
    }

    /// The links themselves, to look at.
    pub fn links(&self) -> &Links
        ensures { result.now ≡ self.now }
    {
        &self.links
    }

    /// `Links::link` of the first entities of two indices.
    pub fn link(&mut self, child: u32, parent: u32) -> Result<(), Refusal>
        ensures { Answers result self.old.forest self.new.forest (link_of self.old.forest (examples.first child) (examples.first parent)) }
    {
        self.links.link(first(child), first(parent))
    }

    /// `Links::unlink` of the first entity of an index.
    pub fn unlink(&mut self, child: u32) -> Result<(Entity, usize), Refusal>
        ensures answer { Gives result self.old.forest self.new.forest (unlink_of self.old.forest (examples.first child)) }
        ensures room { self.new.room ≡ self.old.room }
    {
        self.links.unlink(first(child))
    }

    /// Whether a child has no parent and no children, and may go to a place of a parent's list.
    fn may_come(&self, child: Entity, parent: Entity, place: usize) -> bool
        requires child { child.generation ≡ 1 }
        requires parent { parent.generation ≡ 1 }
        ensures { IsTrue result → CanRelink self.now.forest child parent place }
    {
        if child == parent {
            return false;
        }
        if self.links.parent_of(child).is_some() {
            return false;
        }
        if !self.links.children_of(child).is_empty() {
            return false;
        }
        place <= self.links.children_of(parent).len()
    }

    /// `Links::relink`, or false where the child has a parent or children, or may not go there.
    pub fn relink(&mut self, child: u32, parent: u32, place: usize) -> Result<bool, AllocError>
        ensures { IfOk result (λ put. MatchBool put
            (self.new.forest ≡ joined_at self.old.forest (examples.first child) (examples.first parent) place)
            (self.new ≡ self.old)) }
    {
        let (child, parent) = (first(child), first(parent));
        if !self.may_come(child, parent, place) {
            return Ok(false);
        }
        self.links.relink(child, parent, place)?;
        Ok(true)
    }

    /// `Links::reserve` and `link_reserved`, or false where the child has a parent or children, or may not go there.
    pub fn link_in_steps(&mut self, child: u32, parent: u32) -> Result<bool, AllocError>
        ensures { IfOk result (λ put. MatchBool put
            (self.new.forest ≡ joined (cut self.old.forest (examples.first child)) (examples.first child) (examples.first parent))
            (self.new ≡ self.old)) }
    {
        let (child, parent) = (first(child), first(parent));
        if !self.may_come(child, parent, 0) {
            return Ok(false);
        }
        self.links.reserve(child, parent)?;
        self.links.link_reserved(child, parent);
        Ok(true)
    }

    /// `Links::unlink`, and at once `relink_reserved` with its answer, so that all is as it was, the room too; or
    /// `None` where the child has no parent.
    pub fn take_out_and_put_back(&mut self, child: u32) -> Option<(Entity, usize)>
        ensures { self.new ≡ self.old }
    {
        let child = first(child);
        let _parent = self.links.parent_of(child)?;
        let Ok((parent, place)) = self.links.unlink(child) else {
            return None;
        };
        self.links.relink_reserved(child, parent, place);
        Some((parent, place))
    }
}
