//! Sources of ticks.
ghost use Rattle.std.specs.Prelude.{◌≡◌, false};
ghost use Rattle.slate_gc.specs.Ticks.{source_of, stopped, Source, Takes};

use crate::tick::Tick;
use std::marker::Model;

/// A source of ticks. A collector is handed one, since it measures no time.
pub trait Ticks {
    /// Whether it was stopped, and, where it tells them, the ticks that are left.
    ghost told: { Self → Source };

    /// Takes the first tick that is left, and answers it; `Stop` where none is left. Once it was stopped it takes none and answers
    /// `Stop`. Takes no memory.
    fn next(&mut self) -> Tick
        ensures { Takes (told self.old) (told self.new) result };

    /// Stops it: from then on each answer is `Stop`. Takes no memory.
    fn stop(&mut self)
        ensures { told self.new ≡ stopped (told self.old) };
}

/// Ticks in a list, of which it tells those that are left.
#[derive(Debug, Drop)]
pub struct ListTicks {
    ticks: Vec<Tick>,
    // How many were taken.
    taken: usize,
    is_stopped: bool,
}

impl Model for ListTicks {
    ghost use Rattle.std.specs.Prelude.{drop};
    ghost use Rattle.slate_gc.specs.Ticks.{source_of as model_of, Source as SourceModel};

    ghost Value = { SourceModel };

    ghost view = { λ a. model_of a.is_stopped (drop a.taken a.ticks.items) };
}

impl ListTicks {
    /// These ticks, none of which was taken. Takes no memory.
    pub fn new(ticks: Vec<Tick>) -> ListTicks
        ensures { result ≡ source_of false ticks.items }
    {
        ListTicks {
            ticks,
            taken: 0,
            is_stopped: false,
        }
    }
}

impl Ticks for ListTicks {
    ghost told = { λ ticks. ticks };

    fn next(&mut self) -> Tick {
        if self.is_stopped {
            return Tick::Stop;
        }
        match self.ticks.get(self.taken) {
            Some(tick) => {
                let tick = *tick;
                self.taken += 1;
                tick
            }
            None => Tick::Stop,
        }
    }

    fn stop(&mut self) {
        self.is_stopped = true;
    }
}
