//! The rows of a layer, each once.

ghost use Rattle.std.specs.Prelude.{◌≡◌, ◌<◌, [], ◌∷◌, ◌++◌, Some, length, slice_get, slice_index_or, is_some, map, IfOk, IfSome, OnOk, OnErr, nat_eq};
ghost use Rattle.std.specs.Cmp.Lexicographic.{pointwise};
ghost use Rattle.std.specs.List.{list_any};
ghost use Rattle.pc_store.specs.Rows.{with_row};

use crate::places::number;
use indexmap::IndexSet;
use pc_base::NoMemory;
use smallvec::SmallVec;
use std::alloc::Global;
use std::marker::Model;

/// A row of numbers. A short one lies in the value itself.
pub(crate) type Row = SmallVec<u32, SHORT>;

/// The most numbers of a row that takes no memory of its own.
const SHORT: usize = 8;

/// Rows of numbers in order, none twice. The place of a row is found by its hash.
#[derive(Debug, Drop)]
pub(crate) struct Table {
    rows: Rows,
}

/// Rows of two numbers each, or any rows.
#[derive(Debug, Drop)]
enum Rows {
    Two(IndexSet<[u32; 2]>),
    Any(IndexSet<Row>),
}

impl Model for Table {
    ghost use Rattle.std.specs.Prelude.{List, ℕ};

    ghost Value = { List (List ℕ) };

    ghost use Rattle.pc_store.specs.TableRows.{rows_of};

    ghost view = { λ t. rows_of t.rows };
}

impl Table {
    /// No rows. It takes no memory until it grows.
    pub(crate) fn new(alloc: Global) -> Table
        ensures { result ≡ [] }
    {
        Table {
            rows: Rows::Two(IndexSet::new(alloc)),
        }
    }

    /// How many there are.
    pub(crate) fn len(&self) -> usize
        ensures { result ≡ length self.now }
    {
        match &self.rows {
            Rows::Two(rows) => rows.len(),
            Rows::Any(rows) => rows.len(),
        }
    }

    /// The row at a place.
    pub(crate) fn row(&self, place: usize) -> &[u32]
        requires { place < length self.now }
        ensures { result.now ≡ slice_index_or self.now place [] }
    {
        match &self.rows {
            Rows::Two(rows) => &rows.as_slice()[place],
            Rows::Any(rows) => rows.as_slice()[place].as_slice(),
        }
    }

    /// The place of a row, which goes to the end if it isn't there. A row that is there takes no memory. Want of memory
    /// leaves the rows as they were; it is also the answer where 2^32 rows are there.
    pub(crate) fn intern(&mut self, row: &Row) -> Result<u32, NoMemory>
        ensures stands { IfOk result (λ place. slice_get self.new place ≡ Some row.now.items) }
        ensures rows { IfOk result (λ _. self.new ≡ with_row self.old row.now.items) }
        ensures err { OnErr result (self.new ≡ self.old) }
    {
        match &mut self.rows {
            Rows::Two(rows) => {
                if let [a, b] = row.as_slice() {
                    return put_two(rows, [*a, *b]);
                }
                let mut any = widened(rows)?;
                let place = intern_any(&mut any, row)?;
                self.rows = Rows::Any(any);
                Ok(place)
            }
            Rows::Any(rows) => intern_any(rows, row),
        }
    }
}

/// The place of a row of two, which goes to the end if it isn't there.
fn put_two(rows: &mut IndexSet<[u32; 2]>, row: [u32; 2]) -> Result<u32, NoMemory>
    ensures stands { IfOk result (λ place. slice_get rows.new.keys place ≡ Some row) }
    ensures rows { IfOk result (λ _. rows.new.keys ≡ with_row rows.old.keys row) }
    ensures err { OnErr result (rows.new.keys ≡ rows.old.keys) }
{
    number(rows.len())?;
    let (place, _) = rows.insert_full(row)?;
    Ok(place as u32)
}

/// Rows of two among those that may have any width.
fn widened(rows: &IndexSet<[u32; 2]>) -> Result<IndexSet<Row>, NoMemory>
    ensures { IfOk result (λ any. map (λ row. row.items) any.keys ≡ rows.now.keys) }
{
    let alloc = *rows.allocator();
    let mut any = IndexSet::with_capacity(alloc, rows.len())?;
    for row in rows.as_slice() {
        any.insert(SmallVec::from_slice(alloc, row)?)?;
    }
    Ok(any)
}

/// The place of a row, which goes to the end if it isn't there.
fn intern_any(rows: &mut IndexSet<Row>, row: &Row) -> Result<u32, NoMemory>
    ensures stands { IfOk result (λ place. slice_get (map (λ row. row.items) rows.new.keys) place ≡ Some row.now.items) }
    ensures rows { IfOk result (λ _. map (λ row. row.items) rows.new.keys ≡ with_row (map (λ row. row.items) rows.old.keys) row.now.items) }
    ensures err { OnErr result (rows.new.keys ≡ rows.old.keys) }
{
    if row.len() <= SHORT {
        return put_any(rows, row);
    }
    match find(rows, row) {
        Some(place) => number(place),
        None => put_any(rows, row),
    }
}

/// The place of a row, if it is there.
fn find(rows: &IndexSet<Row>, row: &Row) -> Option<usize>
    ensures place { IfSome result (λ place. slice_get (map (λ row. row.items) rows.now.keys) place ≡ Some row.now.items) }
    ensures there { is_some result ≡ list_any (pointwise nat_eq row.now.items) (map (λ row. row.items) rows.now.keys) }
{
    rows.get_index_of(row)
}

/// The same for a row that isn't there, or that takes no memory of its own.
fn put_any(rows: &mut IndexSet<Row>, row: &Row) -> Result<u32, NoMemory>
    ensures stands { IfOk result (λ place. slice_get (map (λ row. row.items) rows.new.keys) place ≡ Some row.now.items) }
    ensures rows { IfOk result (λ _. map (λ row. row.items) rows.new.keys ≡ with_row (map (λ row. row.items) rows.old.keys) row.now.items) }
    ensures err { OnErr result (rows.new.keys ≡ rows.old.keys) }
{
    number(rows.len())?;
    let alloc = *rows.allocator();
    let copy = SmallVec::from_slice(alloc, row.as_slice())?;
    let (place, _) = rows.insert_full(copy)?;
    Ok(place as u32)
}
