//! The path at which the last look showed nothing.

use std::alloc::Global;

/// It is kept up to the next put, or a look that shows something there. What there is no memory for is left out.
#[derive(Drop)]
pub(crate) struct Vacant {
    path: String,
    is_known: bool,
}

impl Vacant {
    /// No look was made yet.
    pub(crate) fn new(alloc: Global) -> Vacant {
        Vacant {
            path: String::new(alloc),
            is_known: false,
        }
    }

    /// A look at a path showed nothing, or something else came of it.
    pub(crate) fn note(&mut self, path: &str, is_vacant: bool) {
        if is_vacant {
            self.path.clear();
            self.is_known = self.path.push_str(path).is_ok();
        } else if self.is(path) {
            self.is_known = false;
        }
    }

    /// Whether nothing was seen at the path.
    pub(crate) fn is(&self, path: &str) -> bool {
        self.is_known && self.path.as_str() == path
    }

    pub(crate) fn forget(&mut self) {
        self.is_known = false;
    }
}
