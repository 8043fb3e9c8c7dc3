//! A queue of listed objects.
ghost use Rattle.std.specs.Prelude.{◌≡◌, ◌++◌, ◌∷◌, [], drop, length, not, option_copied, OnOk, OnErr};
ghost use Rattle.slate_gc_picks.specs.Queue.{first_object, has_object};

use slate_ids::OutOfMemory;
use slate_store::ObjectMetadata;
use std::alloc::Global;
use std::collections::VecDeque;
use std::marker::Model;

/// Listed objects in order, which contracts see as the list of them. No call takes longer the more objects there are.
#[derive(Debug, Drop)]
pub struct Objects {
    objects: VecDeque<ObjectMetadata>,
}

impl Model for Objects {
    ghost use Rattle.std.specs.Prelude.{List};
    ghost use Rattle.slate_store.specs.declared.object.ObjectMetadata.{ObjectMetadata as Metadata};

    ghost Value = { List Metadata };

    ghost view = { λ a. a.objects.items };
}

impl Objects {
    /// No objects. Takes no memory.
    pub fn new(alloc: Global) -> Objects
        ensures { result ≡ [] }
    {
        Objects {
            objects: VecDeque::new(alloc),
        }
    }

    /// Adds an object at the end. Running out of memory changes nothing.
    pub fn push(&mut self, object: ObjectMetadata) -> Result<(), OutOfMemory>
        ensures ok { OnOk result (self.new ≡ self.old ++ object ∷ []) }
        ensures err { OnErr result (self.new ≡ self.old) }
    {
        self.objects.push_back(object)?;
        Ok(())
    }

    /// The first object, where there is one. Takes no memory.
    pub fn first(&self) -> Option<&ObjectMetadata>
        ensures { option_copied result ≡ first_object self.now }
    {
        self.objects.front()
    }

    /// Drops the first object, where there is one. Takes no memory.
    pub fn drop_first(&mut self)
        ensures { self.new ≡ drop 1 self.old }
    {
        drop(self.objects.pop_front());
    }

    /// How many objects there are.
    pub fn len(&self) -> u64
        ensures { result ≡ length self.now }
    {
        self.objects.len() as u64
    }

    /// Whether there is no object.
    pub fn is_empty(&self) -> bool
        ensures { result ≡ not (has_object self.now) }
    {
        self.objects.is_empty()
    }
}
