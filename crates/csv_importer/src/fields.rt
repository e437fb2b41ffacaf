//! What a field says, by the shape of its column's kind.
use scene_editor::{Shape, Text, Value};
use std::alloc::{AllocError, Global};

/// Three whole numbers with a space between them.
fn three(field: &str) -> Option<[i64; 3]> {
    let (x, rest) = field.split_once(' ')?;
    let (y, z) = rest.split_once(' ')?;
    Some([x.parse().ok()?, y.parse().ok()?, z.parse().ok()?])
}

/// The value of this shape that a field says, or `None` where it says none.
pub fn value_of(alloc: Global, shape: Shape, field: &str) -> Result<Option<Value>, AllocError> {
    match shape {
        Shape::Tag => Ok(Some(Value::Tag)),
        Shape::Int => Ok(field.parse().ok().map(Value::Int)),
        Shape::Vec3 => Ok(three(field).map(Value::Vec3)),
        Shape::Text => {
            let text = String::from_str(alloc, field)?;
            Ok(Some(Value::Text(Text::from(text))))
        }
        Shape::Link => Ok(field.parse().ok().map(Value::Link)),
    }
}
