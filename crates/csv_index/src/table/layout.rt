use crate::table::source::Source;

/// How the records of a file are laid out.
pub struct Layout {
    /// Of each column.
    pub sources: Vec<Source>,
    /// How many fields a record has.
    pub width: usize,
}

impl Drop for Layout {
    fn drop(self) {
        let Layout {
            sources: _,
            width: _,
        } = self;
    }
}
