//! A table of distinct things, in which each has a number.
ghost use Rattle.std.specs.Prelude.{◌≡◌, ◌↔◌, [], IsTrue, IfOk, IfSome, IfNone};
ghost use Rattle.jc_snapshot.specs.Numbers.{IsNumberOf, AreNumbers, Continues, IsAbsent, IsDistinctTable};

use std::alloc::{AllocError, Global};
use std::marker::Model;

/// A type of things that a table can have.
pub trait Comparable: Copy {
    /// Whether the two are the same.
    fn is_same(&self, other: &Self) -> bool
        ensures { IsTrue result ↔ (self.now ≡ other.now) };
}

/// Distinct things, each with its place as its number, from 0.
#[derive(Drop)]
pub struct Table<T: Comparable> {
    things: Vec<T>,
}

impl<T: Comparable> Model for Table<T> {
    ghost use Rattle.std.specs.Prelude.{List};
    ghost use Rattle.jc_snapshot.specs.Numbers.{IsDistinctTable};

    ghost Value = { List T };

    ghost view = { λ t. t.things.items };

    ghost invariant = { λ t. IsDistinctTable t.things.items };
}

impl<T: Comparable> Table<T> {
    /// A table with nothing in it. It takes no memory.
    pub fn new(alloc: Global) -> Self
        ensures { result ≡ [] }
    {
        Table {
            things: Vec::new(alloc),
        }
    }

    /// A law: nothing is at two places. It does nothing.
    pub fn is_distinct(&self)
        ensures { IsDistinctTable self.now }
    {
        let _ = &self.things;
    }

    /// The number of a thing. A new one gets the next number. An `Err` says that an allocation failed.
    pub fn number_of(&mut self, thing: &T) -> Result<u64, AllocError>
        ensures number { IfOk result (λ number. IsNumberOf self.new thing.now number) }
        ensures grows { Continues self.old self.new }
    {
        if let Some(place) = place_of(&self.things, thing) {
            return Ok(place as u64);
        }
        let place = self.things.len();
        self.things.push(*thing)?;
        Ok(place as u64)
    }
}

/// The place of a thing in a list.
fn place_of<T: Comparable>(things: &[T], thing: &T) -> Option<usize>
    ensures some { IfSome result (λ place. IsNumberOf things.now thing.now place) }
    ensures none { IfNone result (IsAbsent things.now thing.now) }
{
    for place in 0..things.len() {
        if things[place].is_same(thing) {
            return Some(place);
        }
    }
    None
}

/// The numbers of things in a table, where each new one gets the next number. An `Err` says that an allocation failed.
pub fn numbers_of<T: Comparable>(
    alloc: Global,
    table: &mut Table<T>,
    things: &[T],
) -> Result<Vec<u64>, AllocError>
    ensures numbers { IfOk result (λ numbers. AreNumbers table.new things.now numbers.items) }
    ensures grows { Continues table.old table.new }
{
    let mut numbers = Vec::new(alloc);
    for thing in things {
        numbers.push(table.number_of(thing)?)?;
    }
    Ok(numbers)
}
