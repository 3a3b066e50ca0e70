//! Orders of steps.

ghost use Rattle.std.specs.Prelude.{◌≡◌, ◌-◌, ◌≤◌, [], ◌∷◌, ◌++◌, length, replicate, slice_get, true, Some, option_map, OnOk, OnErr};
ghost use Rattle.machine_state.specs.declared.order.Row.{Row as Kept};
ghost use Rattle.machine_state.specs.OrderRows.{spelled, end_of_rows, IsRising};

use crate::state::Choice;
use jvm_base::{List, NoMemory};
use std::alloc::Global;
use std::marker::Model;

/// Choices that follow each other and are alike, up to this number. A row begins where the one
/// before it ends.
#[derive(Clone, Copy, Debug)]
pub(crate) struct Row {
    pub(crate) choice: Choice,
    pub(crate) until: u64,
}

/// An order of steps, seen as the list of its choices. A machine can take it step by step. Most steps
/// of a thread's turn have the same choice, so it is kept in rows.
#[derive(Debug, Drop)]
pub struct Order {
    rows: List<Row>,
}

impl Model for Order {
    ghost use Rattle.std.specs.Prelude.{List};
    ghost use Rattle.machine_state.specs.declared.state.Choice.{Choice};
    ghost use Rattle.machine_state.specs.OrderRows.{spelled, IsRising};

    ghost Value = { List Choice };

    ghost view = { λ a. spelled 0 a.rows };

    ghost invariant = { λ a. IsRising 0 a.rows };
}

/// Where the last row ends.
fn end(rows: &[Row]) -> u64
    ensures { result ≡ end_of_rows 0 rows.now }
{
    match rows.last() {
        Some(row) => row.until,
        None => 0,
    }
}

/// Whether the last row is of this choice.
fn is_last(rows: &[Row], choice: Choice) -> bool
    ensures { result ≡ true → (last : Kept)
        × (slice_get rows.now (length rows.now - 1) ≡ Some last) × (last.choice ≡ choice) }
{
    match rows.last() {
        Some(row) => row.choice == choice,
        None => false,
    }
}

/// Adds choices up to a number: to the last row, where they are like it.
fn add(rows: &mut List<Row>, choice: Choice, until: u64) -> Result<(), NoMemory>
    requires rising { IsRising 0 rows.old }
    requires above { end_of_rows 0 rows.old ≤ until }
    ensures rising { IsRising 0 rows.new }
    ensures ok { OnOk result (spelled 0 rows.new
        ≡ spelled 0 rows.old ++ replicate (until - end_of_rows 0 rows.old) choice) }
    ensures err { OnErr result (rows.new ≡ rows.old) }
{
    if is_last(rows.as_slice(), choice) {
        rows.set(rows.len() - 1, Row { choice, until });
        return Ok(());
    }
    rows.push(Row { choice, until })
}

/// Whether the choice of a number is in the row of a place: it ends behind the choice, and the one
/// before it doesn't.
fn is_within(rows: &[Row], at: u64, place: usize) -> bool
    requires { IsRising 0 rows.now }
    ensures { result ≡ true → option_map (λ r. r.choice) (slice_get rows.now place)
        ≡ slice_get (spelled 0 rows.now) at }
{
    match rows.get(place) {
        Some(row) => at < row.until && (place == 0 || rows[place - 1].until <= at),
        None => false,
    }
}

/// The place of a choice's row, where the row of this place and the next one are tried before a
/// search.
fn place_near(rows: &[Row], at: u64, near: usize) -> usize
    requires { IsRising 0 rows.now }
    ensures { option_map (λ r. r.choice) (slice_get rows.now result)
        ≡ slice_get (spelled 0 rows.now) at }
{
    let next = near.wrapping_add(1);
    if is_within(rows, at, near) {
        near
    } else if is_within(rows, at, next) {
        next
    } else {
        place_of(rows, at)
    }
}

/// The place behind all rows that end before the choice of a number.
fn place_of(rows: &[Row], at: u64) -> usize
    requires { IsRising 0 rows.now }
    ensures { option_map (λ r. r.choice) (slice_get rows.now result)
        ≡ slice_get (spelled 0 rows.now) at }
{
    rows.partition_point(|row| row.until <= at)
}

impl Order {
    /// The empty order. It takes no memory.
    pub fn new(alloc: Global) -> Order
        ensures { result ≡ [] }
    {
        Order {
            rows: List::new(alloc),
        }
    }

    /// Adds a choice at the end so many times.
    pub fn push_many(&mut self, choice: Choice, count: u64) -> Result<(), NoMemory>
        ensures ok { OnOk result (self.new ≡ self.old ++ replicate count choice) }
        ensures err { OnErr result (self.new ≡ self.old) }
    {
        if count == 0 {
            return Ok(());
        }
        let Some(until) = self.len().checked_add(count) else {
            return Err(NoMemory);
        };
        add(&mut self.rows, choice, until)
    }

    /// Adds a choice at the end.
    pub fn push(&mut self, choice: Choice) -> Result<(), NoMemory>
        ensures ok { OnOk result (self.new ≡ self.old ++ choice ∷ []) }
        ensures err { OnErr result (self.new ≡ self.old) }
    {
        self.push_many(choice, 1)
    }

    /// How many choices there are.
    pub fn len(&self) -> u64
        ensures { result ≡ length self.now }
    {
        end(self.rows.as_slice())
    }

    /// The choice at a place, from 0; `None` exactly past the end.
    pub fn get(&self, at: u64) -> Option<Choice>
        ensures { result ≡ slice_get self.now at }
    {
        let row = self.rows.get(place_of(self.rows.as_slice(), at))?;
        Some(row.choice)
    }

    /// The choice at a place, from 0; `None` exactly past the end. `row` is where it is looked for first,
    /// and is then where it was found: whoever takes the choices one by one needs no search.
    pub fn get_near(&self, at: u64, row: &mut usize) -> Option<Choice>
        ensures { result ≡ slice_get self.now at }
    {
        *row = place_near(self.rows.as_slice(), at, *row);
        let found = self.rows.get(*row)?;
        Some(found.choice)
    }
}
