/// A script, with what a run of it prints and what a check says.
pub struct Case {
    pub name: &'static str,
    pub script: &'static [u8],
    /// What a run prints as answers.
    pub out: &'static str,
    /// What a run says of a script that can't be run.
    pub err: &'static str,
    pub status: u8,
    /// What a check says, beside the answers where the script is good.
    pub check: &'static str,
}

impl Case {
    /// The two streams and the status of a run.
    pub fn replayed(&self) -> (&str, &str, u8) {
        (self.out, self.err, self.status)
    }

    /// The two streams and the status of a check.
    pub fn checked(&self) -> (&str, &str, u8) {
        if self.err.is_empty() {
            (self.check, "", 0)
        } else {
            ("", self.check, 2)
        }
    }
}
