use keybytes::Fault;

/// What the steps of a case are done on.
pub trait Desk {
    /// A call, with what it is to answer.
    type Step;

    /// Whether the call answers what it is to.
    fn does(&mut self, step: &Self::Step) -> Result<bool, Fault>;
}

/// The place of the first step that is answered otherwise.
pub fn first_other<D: Desk>(desk: &mut D, steps: &[D::Step]) -> Result<Option<usize>, Fault> {
    for place in 0..steps.len() {
        if !desk.does(&steps[place])? {
            return Ok(Some(place));
        }
    }
    Ok(None)
}
