//! The importer: a scene whose kinds are known, into which tables are read.
ghost use Rattle.std.specs.Prelude.{◌≡◌, OnErr};

use crate::error::ImportError;
use crate::fields::value_of;
use csv::{Error, ErrorKind, Reader, StringRecord};
use scene_editor::{Components, Editor, Filter, Queue, Schema, Shape, World, matching};
use std::alloc::Global;
use std::io::Read;

/// The kinds of a scene, with the shapes of their values.
const KINDS: [(&str, Shape); 3] = [
    ("Name", Shape::Text),
    ("Health", Shape::Int),
    ("Position", Shape::Vec3),
];

/// How many slots a scene has.
const SLOTS: u32 = 65_536;

/// A column: the number of its kind, and the shape of the kind's values.
type Column = (u8, Shape);

/// A scene of things with names, health and positions. Each import is one frame of its editor.
#[derive(Drop)]
pub struct Importer {
    alloc: Global,
    editor: Editor,
}

/// What a fault of the table itself is.
fn table_error(error: Error) -> ImportError {
    match error.kind() {
        ErrorKind::UnequalLengths { pos: Some(pos), .. } => ImportError::FieldCount(pos.line()),
        _ => ImportError::Unreadable,
    }
}

/// The column of the kind of this name.
fn column_named(schema: &Schema, name: &str) -> Option<Column> {
    let kind = schema.number_of(name)?;
    Some((kind, schema.shape_of(kind)?))
}

/// The columns that a header row names.
fn columns(
    alloc: Global,
    schema: &Schema,
    header: &StringRecord,
) -> Result<Vec<Column>, ImportError> {
    let mut columns = Vec::new(alloc);
    for (column, name) in header.into_iter().enumerate() {
        let unknown = ImportError::NoSuchKind(column.saturating_add(1));
        columns.push(column_named(schema, name).ok_or(unknown)?)?;
    }
    Ok(columns)
}

/// The components that a row gives an entity. An empty field gives none.
fn components(
    alloc: Global,
    columns: &[Column],
    row: &StringRecord,
) -> Result<Components, ImportError> {
    let line = row.position().map_or(0, |pos| pos.line());
    let mut cells = Vec::new(alloc);
    for (column, ((kind, shape), field)) in columns.iter().zip(row).enumerate() {
        if !field.is_empty() {
            let column = column.saturating_add(1);
            let bad = ImportError::BadValue { line, column };
            let value = value_of(alloc, *shape, field)?.ok_or(bad)?;
            cells.push((*kind, value))?;
        }
    }
    Ok(Components::from(cells))
}

/// Adds the spawns of all rows below the header row to a queue.
fn push_rows<R: Read>(
    alloc: Global,
    schema: &Schema,
    reader: &mut Reader<R>,
    queue: &mut Queue,
) -> Result<(), ImportError> {
    let header = reader.headers().map_err(table_error)?;
    let columns = columns(alloc, schema, header)?;
    for row in reader.records() {
        let row = row.map_err(table_error)?;
        let _new = queue.spawn(components(alloc, columns.as_slice(), &row)?)?;
    }
    Ok(())
}

/// A queue that spawns an entity for each row of a table. The reader is large, so it is dropped here alone.
fn spawns<R: Read + Drop>(alloc: Global, schema: &Schema, table: R) -> Result<Queue, ImportError> {
    let mut reader = Reader::from_reader(alloc, table);
    let mut queue = Queue::new(alloc);
    push_rows(alloc, schema, &mut reader, &mut queue)?;
    Ok(queue)
}

/// The schema of a scene.
fn kinds(alloc: Global) -> Result<Schema, ImportError> {
    let mut schema = Schema::new(alloc);
    for (name, shape) in KINDS {
        let _kind = schema.add(String::from_str(alloc, name)?, shape)?;
    }
    Ok(schema)
}

impl Importer {
    /// A scene without things.
    pub fn open(alloc: Global) -> Result<Importer, ImportError> {
        let editor = Editor::new(alloc, World::new(alloc, kinds(alloc)?, SLOTS));
        Ok(Importer { alloc, editor })
    }

    /// Spawns an entity for each row of a table below its header row, in one frame, and gives their number. Where one
    /// row is bad, none is spawned.
    pub fn import<R: Read + Drop>(&mut self, table: R) -> Result<usize, ImportError>
        ensures same { OnErr result (self.new.editor ≡ self.old.editor) }
    {
        let queue = spawns(self.alloc, self.editor.world().schema(), table)?;
        let queues = vec![in self.alloc; queue]?;
        let made = self.editor.submit(queues.as_slice())?;
        Ok(made.entities.len())
    }

    /// How many entities there are.
    pub fn count(&self) -> Result<usize, ImportError> {
        let things = matching(self.alloc, self.editor.world(), Filter::all())?;
        Ok(things.len())
    }

    /// Takes the newest import back.
    pub fn undo(&mut self) -> Result<(), ImportError> {
        Ok(self.editor.undo()?)
    }

    /// Makes the newest import that was taken back again.
    pub fn redo(&mut self) -> Result<(), ImportError> {
        Ok(self.editor.redo()?)
    }
}
