// The scheduler takes turns.
use crate::scheduler::Scheduler;
use hs_base::NoMemory;
use hs_entries::Item;
use hs_run::{Gathered, Turns};
use hs_seams::Engine;
use std::alloc::AllocError;

impl<E: Engine> Turns for Scheduler<E> {
    ghost use Rattle.hs_scheduler.specs.Standing.{HasAhead, IsResting, weight_in};
    ghost use Rattle.hs_scheduler.specs.Resting.{none_rests};

    ghost has_ahead = { λ s f. HasAhead E.Engine s f };

    ghost rests = { λ s. IsResting s };

    ghost weight = { λ s. weight_in s };

    fn commits(&self) -> u64 {
        self.engine.commits()
    }

    fn step(&mut self, gathered: &mut Gathered) -> Result<bool, AllocError> {
        match self.stir(gathered) {
            Ok(more) => Ok(more),
            Err(NoMemory) => Err(AllocError),
        }
    }

    fn take(&mut self, item: Item, gathered: &mut Gathered) -> Result<(), AllocError> {
        match self.take_item(item, gathered) {
            Ok(()) => Ok(()),
            Err(NoMemory) => Err(AllocError),
        }
    }

    fn close(&mut self, gathered: &mut Gathered) -> Result<bool, AllocError> {
        match self.close_next(gathered) {
            Ok(more) => Ok(more),
            Err(NoMemory) => Err(AllocError),
        }
    }

    ghost resting = { λ s f rests ahead. none_rests E.Engine s f rests ahead };
}
