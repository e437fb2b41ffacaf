//! Whether a file is a store as a close leaves it, by some of its pages.
use crate::fault::StoreFault;
use crate::look::{beside, found, stands};
use crate::rows::version_of;
use std::fs::{self, File};
use std::io::{Read, Seek, SeekFrom};

/// How many bytes a page of a store has.
const PAGE: usize = 4096;

/// What a database begins with, and the page's length.
const MAGIC: &[u8] = b"SQLite format 3\0\x10\0";

/// The last bytes of the list of tables, where it has just that of a store: its kind and names, the page where its tree
/// begins, which is the second, and its text.
const LISTED: &[u8] =
    b"tablebatchbatch\x02CREATE TABLE batch (number INTEGER PRIMARY KEY, lines BLOB NOT NULL) STRICT";

/// The bytes of a row before its 16 ones, where it is the first: its length, its number, and the kinds of its columns.
const FIRST_ROW: &[u8] = &[19, 1, 3, 0, 44];

/// With which a page of a tree begins that has rows, and one that has pages below.
const LEAF: u8 = 13;

const INNER: u8 = 5;

/// How many pages stand one below another at most.
const MOST_BELOW: usize = 20;

/// The bytes of a page of this number, the first of which is 1.
fn page_at(file: &mut File, number: u64) -> Option<[u8; PAGE]> {
    let mut page = [0; PAGE];
    let place = number.checked_sub(1)?.checked_mul(PAGE as u64)?;
    file.seek(SeekFrom::Start(place)).ok()?;
    file.read_exact(&mut page).ok()?;
    Some(page)
}

/// The bytes of a page from the place on that stands at another one.
fn pointed(page: &[u8; PAGE], at: usize) -> Option<&[u8]> {
    let high = *page.get(at)?;
    let low = *page.get(at + 1)?;
    page.get(usize::from(u16::from_be_bytes([high, low]))..)
}

/// Whether a page is the first of a store.
fn is_first_page(page: &[u8; PAGE]) -> bool {
    let unused = usize::from(page[20]);
    page.starts_with(MAGIC)
        && page[100] == LEAF
        && page[103] == 0
        && page[104] == 1
        && page[..PAGE - unused].ends_with(LISTED)
}

/// The number of the first page below one of a tree.
fn first_below(page: &[u8; PAGE]) -> Option<u64> {
    match pointed(page, 12)? {
        [a, b, c, d, ..] => Some(u64::from(u32::from_be_bytes([*a, *b, *c, *d]))),
        _ => None,
    }
}

/// The first page of a tree that has rows.
fn first_leaf(file: &mut File) -> Option<[u8; PAGE]> {
    let mut page = page_at(file, 2)?;
    for _ in 0..MOST_BELOW {
        match page[0] {
            LEAF => return Some(page),
            INNER => page = page_at(file, first_below(&page)?)?,
            _ => return None,
        }
    }
    None
}

/// Whether the first row of a tree says a version that is known.
fn says_version(file: &mut File) -> Option<bool> {
    let page = first_leaf(file)?;
    let head = pointed(&page, 8)?.strip_prefix(FIRST_ROW)?;
    Some(version_of(head).is_ok())
}

/// Whether a file begins as that of a store, of a version that is known.
fn is_store_file(file: &mut File) -> bool {
    match page_at(file, 1) {
        Some(page) => is_first_page(&page) && says_version(file).unwrap_or(false),
        None => false,
    }
}

/// Whether the file at a path begins as that of a store, of a version that is known, by some of its pages. What is no
/// store by all its pages may be one by these.
pub(crate) fn begins_as_store(rt: &HostRuntime, path: &str) -> bool {
    match fs::open(rt, path) {
        Ok(mut file) => is_store_file(&mut file),
        Err(_) => false,
    }
}

/// Whether nothing stands beside the file at a path that belongs to it.
fn is_alone(rt: &HostRuntime, path: &str) -> Result<bool, StoreFault> {
    let real = found(rt, path)?;
    let log = beside(rt, real.as_str(), "-wal")?;
    Ok(!stands(rt, log.as_str())?)
}

/// Whether the file at a path is a store as a close leaves it, with no log: `begins_as_store` of a file alone.
pub(crate) fn is_closed(rt: &HostRuntime, path: &str) -> bool {
    is_alone(rt, path).unwrap_or(false) && begins_as_store(rt, path)
}
