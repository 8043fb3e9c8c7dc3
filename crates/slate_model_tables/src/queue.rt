//! Values in order, taken and given at both ends.
ghost use Rattle.std.specs.Prelude.{◌≡◌, ◌++◌, ◌∷◌, [], OnOk, OnErr};

use slate_ids::{OutOfMemory, Plain, are_same, copies};
use std::alloc::Global;
use std::collections::VecDeque;
use std::marker::Model;

/// Values in order, which contracts see as the list of them.
#[derive(Debug, Drop)]
pub struct Queue<T> {
    items: VecDeque<T>,
}

impl<T> Model for Queue<T> {
    ghost use Rattle.std.specs.Prelude.{List};

    ghost Value = { List T };

    ghost view = { λ a. a.items.items };
}

impl<T> Queue<T> {
    /// No values. Takes no memory.
    pub fn new(alloc: Global) -> Queue<T>
        ensures { result ≡ [] }
    {
        Queue {
            items: VecDeque::new(alloc),
        }
    }

    /// These values. Takes no memory.
    pub fn from_deque(items: VecDeque<T>) -> Queue<T>
        ensures { result ≡ items.items }
    {
        Queue { items }
    }

    /// These values. Takes no memory.
    pub fn from_vec(items: Vec<T>) -> Queue<T>
        ensures { result ≡ items.items }
    {
        Queue {
            items: VecDeque::from_vec(items),
        }
    }

    /// The values.
    pub fn as_deque(&self) -> &VecDeque<T>
        ensures { result.now.items ≡ self.now }
    {
        &self.items
    }

    /// The values, as two slices, the first before the second.
    pub fn as_slices(&self) -> (&[T], &[T])
        ensures { result.0.now ++ result.1.now ≡ self.now }
    {
        self.items.as_slices()
    }

    /// The values as a deque. Takes no memory.
    pub fn into_deque(self) -> VecDeque<T>
        ensures { result.items ≡ self }
    {
        self.items
    }

    /// Adds a value at the end. Running out of memory changes nothing.
    pub fn push_back(&mut self, item: T) -> Result<(), OutOfMemory>
    where
        T: Drop,
        ensures ok { OnOk result (self.new ≡ self.old ++ item ∷ []) }
        ensures err { OnErr result (self.new ≡ self.old) }
    {
        self.items.push_back(item)?;
        Ok(())
    }

    /// Adds a value at the front. Running out of memory changes nothing.
    pub fn push_front(&mut self, item: T) -> Result<(), OutOfMemory>
    where
        T: Drop,
        ensures ok { OnOk result (self.new ≡ item ∷ self.old) }
        ensures err { OnErr result (self.new ≡ self.old) }
    {
        self.items.push_front(item)?;
        Ok(())
    }

    /// Gives back the room that the values don't need.
    pub fn shrink_to_fit(&mut self)
        ensures { self.new ≡ self.old }
    {
        self.items.shrink_to_fit();
    }
}

impl<T: Plain + Drop> Plain for Queue<T> {
    fn clone(&self, alloc: Global) -> Result<Queue<T>, OutOfMemory> {
        Ok(Queue::from_vec(copies(alloc, self.items.iter())?))
    }

    fn is(&self, other: &Queue<T>) -> bool {
        are_same(self.items.iter(), other.items.iter())
    }
}
