use crate::RunSort;
use crate::sorting::bring_near;
use keybytes::{Fault, Pair};

/// The sort of one thread. It needs no memory, and is faster where there is some.
#[derive(Clone, Copy)]
pub struct StdSort;

impl RunSort for StdSort {
    fn sort(&mut self, run: &mut Vec<Pair>) -> Result<(), Fault> {
        bring_near(run);
        run.sort_unstable();
        Ok(())
    }
}
