//! The values of components and resources.
ghost use Rattle.std.specs.Prelude.{◌≡◌, true, IfOk};
ghost use Rattle.scene_kinds.specs.Ranges.{is_i64, are_three, is_entity, is_in_range};
ghost use Rattle.scene_kinds.specs.Shape.{shape_of_value};

use crate::entity::Entity;
use crate::shape::Shape;
use crate::text::Text;
use std::alloc::AllocError;

/// The value of a component or a resource (docs/MODEL.md, "The rule of kinds").
#[derive(Drop, Clone, Debug)]
pub enum Value {
    Tag,
    Int(i64),
    Vec3([i64; 3]),
    Text(Text),
    Link(Entity),
}

impl Value {
    /// The one shape that this value has. Its parts are in the ranges of their types.
    pub fn shape(&self) -> Shape
        ensures shape { result ≡ shape_of_value self.now }
        ensures in_range { is_in_range self.now ≡ true }
    {
        self.read();
        match self {
            Value::Tag => Shape::Tag,
            Value::Int(_) => Shape::Int,
            Value::Vec3(_) => Shape::Vec3,
            Value::Text(_) => Shape::Text,
            Value::Link(_) => Shape::Link,
        }
    }

    /// An equal value, or an error where no memory was found. Only a text takes memory.
    pub fn try_clone(&self) -> Result<Value, AllocError>
        ensures { IfOk result (λ copy. copy ≡ self.now) }
    {
        self.clone()
    }

    /// Reads every part: a number or a text that was read is known to be one of its type.
    #[tactic(auto, using(crate::proofs::Ranges::int_in_range, crate::proofs::Ranges::text_in_range))]
    fn read(&self)
        ensures { is_in_range self.now ≡ true }
    {
        match self {
            Value::Tag => (),
            Value::Int(number) => {
                let _number = *number;
            }
            Value::Vec3(parts) => read_three(parts),
            Value::Text(text) => {
                let _text = text.as_str();
            }
            Value::Link(entity) => read_index_and_generation(entity),
        }
    }
}

/// Reads three numbers.
#[tactic(auto, using(crate::proofs::Ranges::three_in_range))]
fn read_three(parts: &[i64; 3])
    ensures { are_three parts.now ≡ true }
{
    let [_x, _y, _z] = *parts;
}

/// Reads the two numbers of an entity.
#[tactic(auto, using(crate::proofs::Ranges::entity_in_range))]
fn read_index_and_generation(entity: &Entity)
    ensures { is_entity entity.now ≡ true }
{
    let _index = entity.index;
    let _generation = entity.generation;
}
