//! The stretches of a download, timed one by one.

use anyhow::Result;
use std::alloc::Global;
use std::time::Duration;

/// The least time of each stretch over all runs. Each run plays the same calls, so a stretch is the same work in each; on a machine that
/// others use too, the least time that it took is nearest to its own.
#[derive(Drop)]
pub struct Stretches {
    least: Vec<Duration>,
    /// The stretch that the run is at.
    next: usize,
}

impl Stretches {
    pub fn new(alloc: Global) -> Stretches {
        Stretches {
            least: Vec::new(alloc),
            next: 0,
        }
    }

    /// A run begins.
    pub fn restart(&mut self) {
        self.next = 0;
    }

    /// The next stretch of the run took so long.
    pub fn note(&mut self, took: Duration) -> Result<()> {
        match self.least.get_mut(self.next) {
            Some(least) => *least = (*least).min(took),
            None => self.least.push(took)?,
        }
        self.next = self.next.saturating_add(1);
        Ok(())
    }

    /// All stretches, by their least times.
    pub fn sum(&self) -> Duration {
        let mut sum = Duration::ZERO;
        for least in &self.least {
            sum = sum.saturating_add(*least);
        }
        sum
    }
}
