use crate::shareable::Shareable;
use crate::{RunSort, StdSort};
use keybytes::{Fault, Pair};
use rayon::slice::par_sort_unstable;
use std::thread::Threads;

/// The length from which threads pay. Of 4,096 pairs, the longest run that a maker makes, threads take seven times as long as one.
pub const LEAST_IN_THREADS: usize = 65_536;

/// The sort of several threads. Fewer than [`LEAST_IN_THREADS`] pairs are sorted as [`StdSort`] does, since that is faster.
#[derive(Drop)]
pub struct ParSort<'r, R: Shareable> {
    rt: &'r R,
    ghost shared: { ∥ R.shared ∥₁ },
}

impl<'r, R: Shareable> ParSort<'r, R> {
    /// A sort whose threads share the runtime.
    pub fn new(rt: &'r R) -> Self
        requires { R.shared }
    {
        ParSort { rt }
    }

    /// The runtime, which threads may share.
    fn runtime(&self) -> &R
        ensures { R.shared }
    {
        self.rt
    }
}

impl<R: Threads + Sync + Shareable> RunSort for ParSort<'_, R> {
    fn sort(&mut self, run: &mut Vec<Pair>) -> Result<(), Fault> {
        if run.len() < LEAST_IN_THREADS {
            return StdSort.sort(run);
        }
        par_sort_unstable(self.runtime(), run.as_mut_slice());
        Ok(())
    }
}
