//! From the tokens of a text to its nodes, in one pass.
ghost use Rattle.std.specs.Prelude.{◌≡◌, ◌≢◌, ◌<◌, [], ◌∷◌, ◌++◌, ℕ, List, length, option_map, Err, None, Some, IfOk, OnOk};
ghost use Rattle.json.specs.Json.{items, members, number, read_key, value};
ghost use Rattle.json.specs.Token.{begin_array, begin_object};
ghost use Rattle.serde_json.specs.Data.{Data, no_items, no_members};
ghost use Rattle.serde_json.specs.Read.{of_json, of_items, of_members, converted, read as read_text};
ghost use Rattle.scene_json.specs.NodeData.{Grows, first, items_before, listed, put_all, seen};
ghost use Rattle.scene_json.specs.declared.node.Node.{Node};
ghost use Rattle.scene_json.specs.declared.node.Node.TheVariants.{List as Listed, Object, Null};

use crate::document::DocumentError;
use crate::node::Node;
use crate::number::number_node;
use json::{Reader, Scratch, Token};
use std::alloc::Global;

/// How many arrays and objects may be open at once.
const MOST_LEVELS: usize = 127;

/// The nodes of a text.
pub(crate) fn nodes_of<'a>(
    alloc: Global,
    text: &'a str,
    scratch: &'a mut Scratch,
) -> Result<Vec<Node<'a>>, DocumentError>
    ensures found { IfOk result (λ nodes. read_text text.now ≡ Some (first (seen 0 nodes.items))) }
    ensures refused { result ≡ Err DocumentError.NotJson → read_text text.now ≡ None }
    ensures long { result ≢ Err DocumentError.TooLong }
{
    let Ok(mut reader) = Reader::new(text, scratch) else {
        return Err(DocumentError::NoMemory);
    };
    let mut nodes = Vec::new(alloc);
    read_value(&mut reader, &mut nodes, MOST_LEVELS)?;
    if reader.next().is_some() {
        return Err(DocumentError::NotJson);
    }
    Ok(nodes)
}

/// Adds a node where there is no room for it yet.
#[cold]
fn add_growing<'a>(nodes: &mut Vec<Node<'a>>, node: Node<'a>) -> Result<(), DocumentError>
    ensures added { OnOk result (nodes.new.items ≡ nodes.old.items ++ node.entry ∷ []) }
    ensures full { (result ≢ Err DocumentError.NotJson) × (result ≢ Err DocumentError.TooLong) }
{
    match nodes.push(node) {
        Ok(()) => Ok(()),
        Err(_) => Err(DocumentError::NoMemory),
    }
}

/// Adds a node. Where there is room, as mostly, nothing is handed back.
#[inline(always)]
fn add<'a>(nodes: &mut Vec<Node<'a>>, node: Node<'a>) -> Result<(), DocumentError>
    ensures added { OnOk result (nodes.new.items ≡ nodes.old.items ++ node.entry ∷ []) }
    ensures full { (result ≢ Err DocumentError.NotJson) × (result ≢ Err DocumentError.TooLong) }
{
    if nodes.len() < nodes.capacity() {
        nodes.push_reserved(node);
        return Ok(());
    }
    add_growing(nodes, node)
}

/// Adds a number.
#[inline(always)]
fn add_number<'a>(nodes: &mut Vec<Node<'a>>, text: &'a str) -> Result<(), DocumentError>
    ensures added { OnOk result ((d : Data) × (of_json (number text.now) ≡ Some d) × Grows nodes.old.items nodes.new.items (d ∷ [])) }
    ensures refused { result ≡ Err DocumentError.NotJson → of_json (number text.now) ≡ None }
    ensures long { result ≢ Err DocumentError.TooLong }
{
    match number_node(text) {
        Some(node) => add(nodes, node),
        None => Err(DocumentError::NotJson),
    }
}

/// Writes the node of a list, at a place that was left for it before the list's elements.
#[inline(always)]
fn close_list(nodes: &mut Vec<Node<'_>>, at: usize, count: usize)
    requires { at < length nodes.old.items }
    ensures { (old more : List Node) → nodes.old.items ≡ old ++ Null ∷ more → at ≡ length old
        → nodes.new.items ≡ old ++ Listed (length more) count ∷ more }
{
    let inside = nodes.len() - at - 1;
    nodes[at] = Node::List(inside, count);
}

/// Writes the node of an object in the same way.
#[inline(always)]
fn close_object(nodes: &mut Vec<Node<'_>>, at: usize, count: usize)
    requires { at < length nodes.old.items }
    ensures { (old more : List Node) → nodes.old.items ≡ old ++ Null ∷ more → at ≡ length old
        → nodes.new.items ≡ old ++ Object (length more) count ∷ more }
{
    let inside = nodes.len() - at - 1;
    nodes[at] = Node::Object(inside, count);
}

/// Adds the next value of a reader. Lists and objects may nest so deep. It is made part of the loops over elements and
/// members, so that a value with none inside, as most are, costs no call.
#[cycle(read)]
#[inline(always)]
pub(crate) fn read_value<'a>(
    reader: &mut Reader<'a>,
    nodes: &mut Vec<Node<'a>>,
    depth: usize,
) -> Result<(), DocumentError>
    ensures added { OnOk result ((d : Data) × Grows nodes.old.items nodes.new.items (d ∷ [])
        × (converted of_json (value depth reader.old) ≡ Some (d, reader.new))) }
    ensures shorter { OnOk result (length reader.new < length reader.old) }
    ensures refused { result ≡ Err DocumentError.NotJson → converted of_json (value depth reader.old) ≡ None }
    ensures long { result ≢ Err DocumentError.TooLong }
{
    let token = reader.next().ok_or(DocumentError::NotJson)?;
    match token {
        Token::String(text) => add(nodes, Node::String(text)),
        Token::Number(text) => add_number(nodes, text),
        Token::Bool(truth) => add(nodes, Node::Bool(truth)),
        Token::Null => add(nodes, Node::Null),
        Token::BeginArray => read_list(reader, nodes, depth),
        Token::BeginObject => read_object(reader, nodes, depth),
        Token::EndObject | Token::EndArray | Token::Key(_) | Token::Bad => {
            Err(DocumentError::NotJson)
        }
    }
}

/// Adds a list, behind its opening bracket.
#[cycle(read)]
#[inline(always)]
fn read_list<'a>(
    reader: &mut Reader<'a>,
    nodes: &mut Vec<Node<'a>>,
    depth: usize,
) -> Result<(), DocumentError>
    ensures added { OnOk result ((d : Data) × Grows nodes.old.items nodes.new.items (d ∷ [])
        × (converted of_json (value depth (begin_array ∷ reader.old)) ≡ Some (d, reader.new))) }
    ensures shorter { OnOk result (length reader.new < length reader.old) }
    ensures refused { result ≡ Err DocumentError.NotJson
        → converted of_json (value depth (begin_array ∷ reader.old)) ≡ None }
    ensures long { result ≢ Err DocumentError.TooLong }
{
    if depth == 0 {
        return Err(DocumentError::NotJson);
    }
    let at = nodes.len();
    add(nodes, Node::Null)?;
    let count = read_elements(reader, nodes, depth - 1)?;
    close_list(nodes, at, count);
    Ok(())
}

/// Adds an object, behind its opening brace.
#[cycle(read)]
#[inline(always)]
fn read_object<'a>(
    reader: &mut Reader<'a>,
    nodes: &mut Vec<Node<'a>>,
    depth: usize,
) -> Result<(), DocumentError>
    ensures added { OnOk result ((d : Data) × Grows nodes.old.items nodes.new.items (d ∷ [])
        × (converted of_json (value depth (begin_object ∷ reader.old)) ≡ Some (d, reader.new))) }
    ensures shorter { OnOk result (length reader.new < length reader.old) }
    ensures refused { result ≡ Err DocumentError.NotJson
        → converted of_json (value depth (begin_object ∷ reader.old)) ≡ None }
    ensures long { result ≢ Err DocumentError.TooLong }
{
    if depth == 0 {
        return Err(DocumentError::NotJson);
    }
    let at = nodes.len();
    add(nodes, Node::Null)?;
    let count = read_members(reader, nodes, depth - 1)?;
    close_object(nodes, at, count);
    Ok(())
}

/// Adds the elements of a list, and passes its closing bracket.
#[cycle(read)]
#[inline(never)]
fn read_elements<'a>(
    reader: &mut Reader<'a>,
    nodes: &mut Vec<Node<'a>>,
    depth: usize,
) -> Result<usize, DocumentError>
    ensures added { IfOk result (λ count. (ds : List Data) × (count ≡ length ds) × Grows nodes.old.items nodes.new.items ds
        × (converted of_items (items (value depth) (length reader.old) reader.old) ≡ Some (items_before ds no_items, reader.new))) }
    ensures shorter { OnOk result (length reader.new < length reader.old) }
    ensures refused { result ≡ Err DocumentError.NotJson
        → converted of_items (items (value depth) (length reader.old) reader.old) ≡ None }
    ensures long { result ≢ Err DocumentError.TooLong }
{
    let mut count = 0;
    'elements: while !reader.take_end_array() {
        read_value(reader, nodes, depth)?;
        count += 1;
    }
    Ok(count)
}

/// Adds the members of an object, each a key and a value, and passes its closing brace.
#[cycle(read)]
#[inline(never)]
fn read_members<'a>(
    reader: &mut Reader<'a>,
    nodes: &mut Vec<Node<'a>>,
    depth: usize,
) -> Result<usize, DocumentError>
    ensures added { IfOk result (λ count. (ms : List (List ℕ × Data)) × (count ≡ length ms)
        × Grows nodes.old.items nodes.new.items (listed ms)
        × (converted (λ js. of_members js no_members) (members (value depth) (length reader.old) reader.old)
        ≡ Some (put_all ms no_members, reader.new))) }
    ensures shorter { OnOk result (length reader.new < length reader.old) }
    ensures refused { result ≡ Err DocumentError.NotJson
        → converted (λ js. of_members js no_members) (members (value depth) (length reader.old) reader.old) ≡ None }
    ensures long { result ≢ Err DocumentError.TooLong }
{
    let mut count = 0;
    'members: while let Some(key) = next_key(reader)? {
        add(nodes, Node::String(key))?;
        read_value(reader, nodes, depth)?;
        count += 1;
    }
    Ok(count)
}

/// The next key of an object, or nothing at its closing brace.
fn next_key<'a>(reader: &mut Reader<'a>) -> Result<Option<&'a str>, DocumentError>
    ensures key { IfOk result (λ key. read_key reader.old ≡ Some (option_map (λ text. text.now) key, reader.new)) }
    ensures refused { result ≡ Err DocumentError.NotJson → read_key reader.old ≡ None }
    ensures other { (result ≢ Err DocumentError.TooLong) × (result ≢ Err DocumentError.NoMemory) }
{
    match reader.next_key() {
        Ok(key) => Ok(key),
        Err(_) => Err(DocumentError::NotJson),
    }
}
