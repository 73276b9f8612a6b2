//! Paths: borrowed and owned texts that keep the rules of `specs/PathText.antt`.

ghost use Rattle.std.specs.Prelude.{◌≡◌, ℕ, IsTrue, IfOk, IfSome, List, option_map};
ghost use Rattle.std.specs.Result.{result_err};
ghost use Rattle.hg_base.specs.PathText.{is_path, joined, base_of, parent_of, is_component};
ghost use Rattle.hg_base.specs.PathRefusal.{refusal, Makes};
ghost use Rattle.hg_base.specs.declared.path.PathFault.TheVariants as a_fault;
ghost use Rattle.std.specs.String.{string_bytes};

use crate::fault::OutOfMemory;
use crate::rules::{cut_last, refused};
use std::alloc::{AllocError, AllocFailed, Global};
use std::marker::Model;
use thiserror::Error;

/// Why a text is no path: the first rule that it breaks, in this order.
#[derive(Clone, Copy, Debug, PartialEq, Eq, Error)]
pub enum PathFault {
    /// No memory for a copy.
    #[error("out of memory")]
    OutOfMemory,
    /// The text is empty.
    #[error("empty path")]
    Empty,
    /// Over 65,535 bytes.
    #[error("path of {len} bytes")]
    TooLong { len: u64 },
    /// The component that begins at this byte is empty, `.` or `..`, or has a NUL.
    #[error("bad component at byte {at}")]
    Component { at: u32 },
    /// The first component is `.hg`.
    #[error("path below .hg")]
    Reserved,
    /// Over 2,048 components.
    #[error("path of {n} components")]
    TooDeep { n: u32 },
}

impl From<OutOfMemory> for PathFault {
    ghost from_gives = { λ _ e. e ≡ a_fault.OutOfMemory };

    fn from(_: OutOfMemory) -> PathFault {
        PathFault::OutOfMemory
    }
}

impl From<AllocError> for PathFault {
    ghost from_gives = { λ _ e. e ≡ a_fault.OutOfMemory };

    fn from(_: AllocError) -> PathFault {
        PathFault::OutOfMemory
    }
}

impl<T: Drop> From<AllocFailed<T>> for PathFault {
    ghost from_gives = { λ _ e. e ≡ a_fault.OutOfMemory };

    fn from(_: AllocFailed<T>) -> PathFault {
        PathFault::OutOfMemory
    }
}

/// A borrowed path.
#[derive(Clone, Copy, Debug)]
pub struct PathRef<'a> {
    pub text: &'a str,
    pub ghost is_path: { IsTrue (is_path text.now) },
}

/// An owned path; contracts see its bytes.
#[derive(Debug, Drop)]
pub struct Path {
    text: String,
}

impl Model for Path {
    ghost use Rattle.std.specs.Prelude.{List, ℕ, IsTrue};
    ghost use Rattle.std.specs.String.{string_bytes};
    ghost use Rattle.hg_base.specs.PathText.{is_path};

    ghost Value = { List ℕ };

    ghost view = { λ p. string_bytes p.text };

    ghost invariant = { λ p. IsTrue (is_path (string_bytes p.text)) };
}

impl<'a> PathRef<'a> {
    /// The text as a path, or the first rule that it breaks. It takes no memory, so `OutOfMemory` never comes.
    #[tactic(auto, using(crate::proofs::Paths::path_of))]
    pub fn read(text: &'a str) -> Result<PathRef<'a>, PathFault>
        ensures path { IfOk result (λ p. p.text.now ≡ text.now) }
        ensures refused { result_err result ≡ refusal text.now }
    {
        match refused(text) {
            Some(fault) => Err(fault),
            None => Ok(PathRef { text }),
        }
    }

    pub fn as_str(self) -> &'a str
        ensures { result.now ≡ self.entry.text.now }
    {
        self.text
    }

    /// The name in the directory: the last component.
    #[tactic(auto, using(crate::proofs::Cuts::base_cut, crate::proofs::Cuts::base_plain, crate::proofs::Paths::path_base))]
    pub fn base(self) -> &'a str
        ensures base { result.now ≡ base_of self.entry.text.now }
        ensures component { IsTrue (is_component result.now) }
    {
        match cut_last(self.text) {
            Some((_, name)) => name,
            None => self.text,
        }
    }

    /// The directory in which the path stands, none for the root: it is `None` exactly for one component.
    #[tactic(auto, using(crate::proofs::Cuts::base_cut, crate::proofs::Cuts::base_plain, crate::proofs::Cuts::parent_cut, crate::proofs::Cuts::parent_plain, crate::proofs::Paths::path_cut))]
    pub fn parent(self) -> Option<PathRef<'a>>
        ensures parent { option_map (λ p. p.text.now) result ≡ parent_of self.entry.text.now }
        ensures joined { joined (option_map (λ p. p.text.now) result) (base_of self.entry.text.now) ≡ self.entry.text.now }
    {
        match cut_last(self.text) {
            Some((dir, _)) => Some(PathRef { text: dir }),
            None => None,
        }
    }
}

/// The text of a name in a directory, where no directory is the root.
fn joined_text(alloc: Global, dir: Option<PathRef<'_>>, name: &str) -> Result<String, OutOfMemory>
    ensures { IfOk result (λ t. string_bytes t ≡ joined (option_map (λ d. d.text.now) dir.entry) name.now) }
{
    match dir {
        None => Ok(String::from_str(alloc, name)?),
        Some(dir) => {
            // (the room is taken once: a listing makes a path of each name)
            let room = dir.text.len().saturating_add(name.len()).saturating_add(1);
            let mut text = String::with_capacity(alloc, room)?;
            text.push_str(dir.text)?;
            text.push('/')?;
            text.push_str(name)?;
            Ok(text)
        }
    }
}

impl Path {
    /// A copy of the text as a path, or the first rule that it breaks.
    #[tactic(auto, using(crate::proofs::Paths::path_of))]
    pub fn read(alloc: Global, text: &str) -> Result<Path, PathFault>
        ensures { Makes text.now result }
    {
        let _ = PathRef::read(text)?;
        let text = String::from_str(alloc, text)?;
        Ok(Path { text })
    }

    /// A copy of the path.
    pub fn of(alloc: Global, path: PathRef<'_>) -> Result<Path, OutOfMemory>
        ensures { IfOk result (λ p. p ≡ path.entry.text.now) }
    {
        let text = String::from_str(alloc, path.text)?;
        Ok(Path { text })
    }

    /// The path of a name in a directory, where no directory is the root: a copy of `dir/name` or of `name`, or the first rule
    /// that this text breaks.
    #[tactic(auto, using(crate::proofs::Paths::path_of))]
    pub fn join(alloc: Global, dir: Option<PathRef<'_>>, name: &str) -> Result<Path, PathFault>
        ensures { Makes (joined (option_map (λ d. d.text.now) dir.entry) name.now) result }
    {
        let text = joined_text(alloc, dir, name)?;
        match refused(text.as_str()) {
            Some(fault) => Err(fault),
            None => Ok(Path { text }),
        }
    }

    /// The path of a name in a directory that is known to be one.
    pub fn within(alloc: Global, dir: Option<PathRef<'_>>, name: &str) -> Result<Path, OutOfMemory>
        requires { IsTrue (is_path (joined (option_map (λ d. d.text.now) dir) name.now)) }
        ensures { IfOk result (λ p. p ≡ joined (option_map (λ d. d.text.now) dir.entry) name.now) }
    {
        let text = joined_text(alloc, dir, name)?;
        Ok(Path { text })
    }

    pub fn as_ref(&self) -> PathRef<'_>
        ensures { result.text.now ≡ self.now }
    {
        PathRef {
            text: self.text.as_str(),
        }
    }

    pub fn as_str(&self) -> &str
        ensures { result.now ≡ self.now }
    {
        self.text.as_str()
    }
}
