//! Why a line of a case file can't be played.

/// What is wrong with the line that is played: the first thing, where there is any.
#[derive(Clone, Copy, Drop)]
pub(crate) struct Wrong {
    pub why: Option<&'static str>,
}

impl Wrong {
    /// Nothing.
    pub fn none() -> Wrong {
        Wrong { why: None }
    }

    /// This is wrong, where nothing else was before.
    pub fn set(&mut self, why: &'static str) {
        self.why = Some(self.why.unwrap_or(why));
    }

    /// There was no memory, where that isn't so.
    pub fn check(&mut self, is_done: bool) {
        if !is_done {
            self.set("no memory");
        }
    }
}
