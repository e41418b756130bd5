use heap_log::{LogRec, Verdicts};

/// What a switch that decided answers: the number of its log record, what became of each index, and the record itself.
#[derive(Drop)]
pub struct Switched {
    pub number: usize,
    pub verdicts: Verdicts,
    pub record: LogRec,
}
