//! The way from the root of a working copy down to a folder: what a process remembers that stands there.

ghost use Rattle.std.specs.Prelude.{◌≡◌, ◌&&◌, ◌++◌, ◌∷◌, ℕ, List, [], IsTrue, OnOk, IfSome, not};
ghost use Rattle.hg_disk.specs.Way.{GoesBack, IsBelow, IsLeft, IsSeen, Kept, spot_of};
ghost use Rattle.std.specs.Str.{bytes_eq};

use crate::spot::{Spot, Step};
use hg_base::OutOfMemory;
use std::alloc::Global;

/// The folders that were gone through, the highest first, and whether the process is known to stand in the last one.
///
/// Each change of folder begins with `enter`, `leave` or `restart`, after which the way is lost; `arrive` says where one came to.
#[derive(Drop)]
pub(crate) struct Way {
    text: Vec<u8>,
    root: Spot,
    steps: Vec<Step>,
    lost: bool,
}

// The two parts of a text, where one ends at that byte.
fn cut_at(text: &str, length: usize) -> Option<(&str, &str)>
    ensures { IfSome result (λ parts. text.now ≡ parts.0.now ++ parts.1.now) }
{
    text.split_at_checked(length)
}

// What stands behind a slash that the text begins with.
fn behind_slash(text: &str) -> Option<&str>
    ensures { IfSome result (λ rest. text.now ≡ 47 ∷ rest.now) }
{
    let (front, rest) = text.split_once('/')?;
    if front.is_empty() { Some(rest) } else { None }
}

impl Way {
    /// At the root, as far as is known: the way is lost.
    pub(crate) fn new(alloc: Global, root: Spot) -> Way
        ensures lost { IsTrue result.lost }
        ensures root { result.root ≡ root }
    {
        Way {
            text: Vec::new(alloc),
            root,
            steps: Vec::new(alloc),
            lost: true,
        }
    }

    /// Whether it isn't known where the process stands.
    pub(crate) fn is_lost(&self) -> bool
        ensures { result ≡ self.now.lost }
    {
        self.lost
    }

    /// Whether the process is known to stand in this folder; the empty text is the root.
    pub(crate) fn is_at(&self, dir: &str) -> bool
        ensures { result ≡ (not self.now.lost && bytes_eq self.now.text.items dir.now) }
    {
        !self.lost && self.text.as_slice() == dir.as_bytes()
    }

    /// The folder's path, empty for the root.
    pub(crate) fn text(&self) -> &[u8]
        ensures { result.now ≡ self.now.text.items }
    {
        self.text.as_slice()
    }

    /// How many folders were gone through below the root.
    pub(crate) fn depth(&self) -> usize {
        self.steps.len()
    }

    /// What is left to go down from here to a folder, where it stands here or below.
    #[tactic(auto, using(crate::proofs::Ways::left_here, crate::proofs::Ways::left_below))]
    pub(crate) fn rest_of<'a>(&self, dir: &'a str) -> Option<&'a str>
        ensures { IfSome result (λ rest. IsLeft self.now.text.items dir.now rest.now) }
    {
        let length = self.text.len();
        if length == 0 {
            return Some(dir);
        }
        let (front, rest) = cut_at(dir, length)?;
        if front.as_bytes() != self.text.as_slice() {
            return None;
        }
        if rest.is_empty() {
            return Some(rest);
        }
        behind_slash(rest)
    }

    /// Which folder the way ends in.
    #[tactic(auto, using(crate::proofs::Ways::last_spot_of))]
    pub(crate) fn spot(&self) -> Spot
        ensures { result ≡ spot_of self.now }
    {
        match self.steps.last() {
            Some(step) => step.spot,
            None => self.root,
        }
    }

    /// Goes down by a name at which this folder was seen.
    pub(crate) fn enter(&mut self, name: &str, spot: Spot) -> Result<(), OutOfMemory>
        ensures below { OnOk result (IsBelow self.old name.now spot self.new) }
        ensures lost { IsTrue self.new.lost }
        ensures root { self.new.root ≡ self.old.root }
    {
        self.lost = true;
        let before = self.text.len();
        self.steps.push(Step { before, spot })?;
        if before > 0 {
            self.text.push(b'/')?;
        }
        self.text.extend_from_slice(name.as_bytes())?;
        Ok(())
    }

    /// Goes up by one folder: back to where the last one was entered.
    pub(crate) fn leave(&mut self)
        ensures back { GoesBack self.old self.new }
        ensures lost { IsTrue self.new.lost }
        ensures root { self.new.root ≡ self.old.root }
    {
        self.lost = true;
        if let Some(step) = self.steps.pop() {
            self.text.truncate(step.before);
        }
    }

    /// Goes to the root, wherever the process stands.
    pub(crate) fn restart(&mut self)
        ensures text { self.new.text.items ≡ [] }
        ensures steps { self.new.steps.items ≡ [] }
        ensures lost { IsTrue self.new.lost }
        ensures root { self.new.root ≡ self.old.root }
    {
        self.lost = true;
        self.text.clear();
        self.steps.clear();
    }

    /// Others moved the process: it isn't known where it stands.
    pub(crate) fn lose(&mut self)
        ensures kept { Kept self.old self.new }
        ensures lost { IsTrue self.new.lost }
    {
        self.lost = true;
    }

    /// The process stands here now: the way isn't lost exactly where that is the folder that it ends in.
    pub(crate) fn arrive(&mut self, here: Spot)
        ensures kept { Kept self.old self.new }
        ensures lost { IsSeen self.old here self.new }
    {
        self.lost = here != self.spot();
    }
}
