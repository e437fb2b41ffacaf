//! The value of a component by its numbers.
ghost use Rattle.std.specs.Prelude.{◌≡◌, IfOk, string_bytes};
ghost use Rattle.scene_c.specs.OpenScene.{numbers_of, text_in};

use scene_kinds::{Shape, Value};
use std::alloc::{AllocError, Global};

/// A value by its shape and three numbers: an integer is the first, the parts of a vector are all three, and of a link
/// the first is the index and the second the generation; what the shape hasn't is 0.
#[derive(Clone, Copy, Debug, PartialEq, Eq)]
pub struct Reading {
    pub shape: Shape,
    pub numbers: [i64; 3],
}

impl Reading {
    /// The numbers of a value. It takes no memory.
    pub(crate) fn numbers_of(value: &Value) -> Reading
        ensures { result ≡ numbers_of value.now }
    {
        let numbers = match value {
            Value::Tag | Value::Text(_) => [0, 0, 0],
            Value::Int(number) => [*number, 0, 0],
            Value::Vec3(numbers) => *numbers,
            Value::Link(entity) => [entity.index as i64, entity.generation as i64, 0],
        };
        Reading {
            shape: value.shape(),
            numbers,
        }
    }

    /// The numbers of a value, and its text where it is one.
    pub(crate) fn of(alloc: Global, value: &Value) -> Result<(Reading, String), AllocError>
        ensures numbers { IfOk result (λ p. p.0 ≡ numbers_of value.now) }
        ensures text { IfOk result (λ p. string_bytes p.1 ≡ text_in value.now) }
    {
        let mut text = String::new(alloc);
        if let Value::Text(words) = value {
            text.push_str(words.as_str())?;
        }
        Ok((Reading::numbers_of(value), text))
    }
}
