//! How often memory may be refused.

/// How often memory may be refused in a run: once. A library that is refused memory once, and answers that it was
/// refused twice, has given up without a cause.
#[derive(Drop)]
pub struct Tolerance {
    used: bool,
}

impl Tolerance {
    /// Returns the tolerance of a run in which memory wasn't refused yet.
    pub fn new() -> Tolerance {
        Tolerance { used: false }
    }

    /// Returns whether this refusal for want of memory is the first one.
    pub fn takes(&mut self) -> bool {
        let is_first = !self.used;
        self.used = true;
        is_first
    }

    /// Returns the line that says whether memory was refused.
    pub fn word(&self) -> &'static str {
        if self.used {
            "memory was refused\n"
        } else {
            "memory wasn't refused\n"
        }
    }
}
