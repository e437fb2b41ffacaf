//! A node of a text.

/// What a value of a text begins with. A key is a string, before its value.
#[derive(Clone, Copy, Debug, Drop)]
pub(crate) enum Node<'a> {
    /// Null.
    Null,
    /// A truth value.
    Bool(bool),
    /// A whole number of 64 bits without a sign.
    Count(u64),
    /// A whole number of 64 bits below zero.
    Below(i64),
    /// The text of another number.
    Number(&'a str),
    /// A string or a key.
    String(&'a str),
    /// A list: how many nodes stand in it, and how many elements.
    List(usize, usize),
    /// An object: how many nodes stand in it, and how many members.
    Object(usize, usize),
}
