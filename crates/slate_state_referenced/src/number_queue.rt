//! A queue of numbers.
ghost use Rattle.std.specs.Prelude.{◌≡◌, drop, IfOk, OnOk};
ghost use Rattle.slate_state_referenced.specs.Named.{named_from, named_numbers, with_name};
ghost use Rattle.slate_state_referenced.specs.Seen.{IsSeen};
ghost use Rattle.slate_state_referenced.specs.Referenced.{first_number};

use slate_ids::OutOfMemory;
use slate_model::Checkpoint;
use std::alloc::Global;
use std::collections::{BTreeSet, VecDeque};
use std::marker::Model;

/// Numbers in order, which contracts see as the list of them.
#[derive(Debug, Drop)]
pub struct NumberQueue {
    numbers: VecDeque<u64>,
}

impl Model for NumberQueue {
    ghost use Rattle.std.specs.Prelude.{List, ℕ};

    ghost Value = { List ℕ };

    ghost view = { λ a. a.numbers.items };
}

impl NumberQueue {
    // Adds a number that is named, unless it is the own one or is there: the set has those that are there.
    fn name(&mut self, seen: &mut BTreeSet<u64>, own: u64, number: u64) -> Result<(), OutOfMemory>
        requires { IsSeen seen.old self.old }
        ensures named { OnOk result (self.new ≡ with_name own self.old number) }
        ensures seen { OnOk result (IsSeen seen.new self.new) }
    {
        if number == own || !seen.insert(number)? {
            return Ok(());
        }
        self.numbers.push_back(number)?;
        Ok(())
    }

    // Adds the numbers that checkpoints name, other than this one, each once, in the checkpoints' order.
    fn name_all(
        &mut self,
        seen: &mut BTreeSet<u64>,
        own: u64,
        checkpoints: &[Checkpoint],
    ) -> Result<(), OutOfMemory>
        requires { IsSeen seen.old self.old }
        ensures { OnOk result (self.new ≡ named_from own self.old checkpoints.now) }
    {
        for checkpoint in checkpoints {
            self.name(seen, own, checkpoint.manifest_id)?;
        }
        Ok(())
    }

    // The numbers that checkpoints name, other than this one, each once, in the checkpoints' order.
    pub(crate) fn named(
        alloc: Global,
        own: u64,
        checkpoints: &[Checkpoint],
    ) -> Result<NumberQueue, OutOfMemory>
        ensures { IfOk result (λ queue. queue ≡ named_numbers own checkpoints.now) }
    {
        let mut seen = BTreeSet::new(alloc);
        let mut queue = NumberQueue {
            numbers: VecDeque::new(alloc),
        };
        let named = queue.name_all(&mut seen, own, checkpoints);
        drop(seen);
        match named {
            Ok(()) => Ok(queue),
            Err(e) => {
                drop(queue);
                Err(e)
            }
        }
    }

    /// The first number, where there is one. Takes no memory.
    pub fn first(&self) -> Option<u64>
        ensures { result ≡ first_number self.now }
    {
        self.numbers.front().copied()
    }

    // Drops the first number, where there is one. Takes no memory.
    pub(crate) fn drop_first(&mut self)
        ensures { self.new ≡ drop 1 self.old }
    {
        self.numbers.pop_front();
    }
}
