//! What form the values of a kind have.
ghost use Rattle.std.specs.Prelude.{◌≡◌};
ghost use Rattle.std.specs.Result.{result_ok};
ghost use Rattle.scene_kinds.specs.Shape.{shape_name, shape_named};

use std::error::Error;
use std::fmt;
use std::str::FromStr;

/// The form of a kind's values.
#[derive(Clone, Copy, Debug, PartialEq, Eq)]
pub enum Shape {
    /// No value: that the component is there says all.
    Tag,
    /// A whole number of 64 bits.
    Int,
    /// Three whole numbers of 64 bits.
    Vec3,
    /// A UTF-8 text.
    Text,
    /// An entity, which need not be alive.
    Link,
}

impl Shape {
    /// The shape's name, as scripts and scene files write it (docs/SCRIPTS.md, "Words").
    pub fn name(self) -> &'static str
        ensures { result.now ≡ shape_name self }
    {
        match self {
            Shape::Tag => "Tag",
            Shape::Int => "Int",
            Shape::Vec3 => "Vec3",
            Shape::Text => "Text",
            Shape::Link => "Link",
        }
    }
}

/// A text that is no shape's name.
#[derive(Clone, Copy, Debug, PartialEq, Eq)]
pub struct ParseShapeError;

impl fmt::Display for ParseShapeError {
    fn fmt<W: fmt::Write>(&self, f: &mut fmt::Formatter<W>) -> fmt::Result {
        write!(f, "no shape has this name")
    }
}

impl Error for ParseShapeError {}

/// Reads a shape's name as `name` gives it.
impl FromStr for Shape {
    type Err = ParseShapeError;

    ghost from_str_gives = { λ text r. result_ok r ≡ shape_named text };

    fn from_str(text: &str) -> Result<Shape, ParseShapeError> {
        match text {
            "Tag" => Ok(Shape::Tag),
            "Int" => Ok(Shape::Int),
            "Vec3" => Ok(Shape::Vec3),
            "Text" => Ok(Shape::Text),
            "Link" => Ok(Shape::Link),
            _ => Err(ParseShapeError),
        }
    }
}
