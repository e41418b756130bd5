use heap_log::Verdicts;
use replay::SharedLine;

/// What became of the indexes of a build that decided.
#[derive(Drop)]
pub struct Outcome {
    pub verdicts: Verdicts,
    /// A line for each index that was refused; none where there was no memory for them.
    pub shared: Vec<SharedLine>,
}
