//! The working copy in the file system.

ghost use Rattle.std.specs.Prelude.{◌≡◌, ◌⊎◌, IfErr, IfOk, IfSome, length, option_map};
ghost use Rattle.hg_tree.specs.Moment.{AreFit, IsPlain};
ghost use Rattle.hg_tree.specs.declared.fault.TreeFault.TheVariants as a_fault;
ghost use Rattle.hg_base.specs.Fault.{HasCause};
ghost use Rattle.hg_base.specs.Reads.{IsWithin};

use crate::ancestors::Staying;
use crate::below::below_hg;
use crate::disk::counted;
use crate::entries::{list_from_root, list_there};
use crate::failure::{FirstFailure, Reason};
use crate::place::Place;
use crate::probe::lowest;
use crate::putting::Wanted;
use crate::root::Root;
use crate::vacant::Vacant;
use crate::writing::look;
use hg_base::{Failed, Got, Kind, PathRef, Stat, Time, risen};
use hg_tree::{Name, Tree, TreeFault};
use std::alloc::Global;
use std::rt::{Env, Files};

/// The working copy below a root folder.
///
/// It stands in the folder that it looks at: each call may change the current folder of the process, and leaves it changed. Where the root
/// has no name that serves it stays in the root and asks each ancestor of a path first; then a path that is too long for the system is
/// absent.
///
/// It tells nothing of its history, and counts each call that the file system failed. A name that the system can't hold (a component
/// over 255 bytes) is absent, as is what stands behind a link. A name that isn't text fails the listing of its directory.
///
/// What is put or taken away stands in the folder where the process stands by then, so that no link leads elsewhere; from a root without
/// a name that serves, only what stands right in it is. The bytes aren't made sure on the disk. Where a look showed nothing, and something was put there
/// since, putting fails, and this stays.
///
/// Its clock is the file system's: the time of modification of `.hg/probe` once that was made and a byte was written to it. It is the lowest time there is where
/// that can't be made: where no folder `.hg` stands in the root, there is no right or no room to write there, something else than a regular
/// file stands there, or the root has no name that serves. What stands on another file system shows the lowest time, too.
///
/// While the lock is held, a look at a name with a line feed or a carriage return fails in a repository of Mercurial's, one with `.hg/requires`: its manifests
/// can't hold such a name.
#[derive(Drop)]
pub struct RealTree<'a, R: Files + Env> {
    looks: Looks<'a, R>,
    root: &'a Root,
    vacant: Vacant,
    faults: u64,
}

// How the tree looks at a path.
#[derive(Drop)]
enum Looks<'a, R: Files + Env> {
    From(Place<'a, R>),
    Staying(Staying<'a, R>),
}

impl<'a, R: Files + Env + AllocGlobal> RealTree<'a, R> {
    /// The working copy with this root. No call has failed yet.
    pub fn new(rt: &'a R, root: &'a Root) -> RealTree<'a, R>
        ensures { result.faults ≡ 0 }
    {
        let looks = match &root.named {
            Some(named) => Looks::From(Place::new(rt, named)),
            None => Looks::Staying(Staying::new(rt)),
        };
        RealTree {
            looks,
            root,
            vacant: Vacant::new(rt.alloc()),
            faults: 0,
        }
    }

    /// The name and the reason of the first failure, as one text: `NAME: REASON`. The name is a path from the root; bytes of it that aren't
    /// text are written `\xHH`. There is none where nothing failed, or where there was no memory for the text.
    pub fn failure(&self) -> Option<&str> {
        match &self.looks {
            Looks::From(place) => place.failure.as_str(),
            Looks::Staying(staying) => staying.failure.as_str(),
        }
    }
}

impl<'a, R: Files + Env + AllocGlobal> Tree for RealTree<'a, R> {
    ghost use Rattle.hg_tree.specs.History.{untold};

    ghost history = { λ _. untold };

    ghost faults = { λ t. t.faults };

    fn stat(&mut self, path: PathRef<'_>) -> Result<Option<Stat>, Failed> {
        let answer = stat_held(&mut self.looks, self.root, path.text);
        self.vacant.note(path.text, matches!(answer, Ok(None)));
        counted(&mut self.faults, answer)
    }

    fn list(
        &mut self,
        alloc: Global,
        dir: Option<PathRef<'_>>,
    ) -> Result<Option<Vec<Name>>, TreeFault> {
        let answer = list_at(&mut self.looks, alloc, dir);
        counted_listing(&mut self.faults, answer)
    }

    fn read(&mut self, path: PathRef<'_>, place: u64, buf: &mut [u8]) -> Result<Got, Failed> {
        let answer = read_at(&mut self.looks, path.text, place, buf);
        counted(&mut self.faults, answer)
    }

    fn now(&mut self) -> Result<Time, Failed> {
        let answer = now_at(&mut self.looks);
        counted(&mut self.faults, answer)
    }

    fn unlink(&mut self, path: PathRef<'_>) -> Result<bool, Failed> {
        let answer = unlink_at(&mut self.looks, path.text);
        counted(&mut self.faults, answer)
    }

    fn put(
        &mut self,
        path: PathRef<'_>,
        kind: Kind,
        exec: bool,
        place: u64,
        bytes: &[u8],
    ) -> Result<bool, Failed> {
        let vacant = self.vacant.is(path.text);
        let wanted = Wanted {
            kind,
            exec,
            place,
            vacant,
        };
        let answer = put_at(&mut self.looks, path.text, wanted, bytes);
        self.vacant.forget();
        counted(&mut self.faults, answer)
    }
}

// What is wrong with a name that Mercurial can't keep.
const LINE_BREAK: Reason = Reason::Words(
    "the manifests of Mercurial can't hold such a name: rename the file",
);

// What stands at the path; while the lock is held, the path has to be a name that a manifest of Mercurial's can hold, where its repository is one.
fn stat_held<R: Files + Env + AllocGlobal>(
    looks: &mut Looks<'_, R>,
    root: &Root,
    path: &str,
) -> Result<Option<Stat>, Failed>
    ensures { IfOk result (λ found. IfSome found IsPlain) }
{
    if root.locked.get() && has_break(path) {
        refuse_break(looks, root, path)?;
    }
    stat_at(looks, path)
}

fn has_break(path: &str) -> bool {
    path.as_bytes().contains(&b'\n') || path.as_bytes().contains(&b'\r')
}

fn refuse_break<R: Files + Env + AllocGlobal>(
    looks: &mut Looks<'_, R>,
    root: &Root,
    path: &str,
) -> Result<(), Failed> {
    match looks {
        Looks::From(from) => refused_break(from.rt, &mut from.failure, root, path),
        Looks::Staying(staying) => refused_break(staying.rt, &mut staying.failure, root, path),
    }
}

// The failure of a name with a line break, where the repository says what it requires.
fn refused_break<R: Files + Env + AllocGlobal>(
    rt: &R,
    failure: &mut FirstFailure,
    root: &Root,
    path: &str,
) -> Result<(), Failed> {
    let reason = match is_mercurials(rt, root) {
        Ok(false) => return Ok(()),
        Ok(true) => LINE_BREAK,
        Err(reason) => reason,
    };
    failure.keep(rt.alloc(), b"", path.as_bytes(), reason);
    Err(Failed)
}

// Whether the repository says what it requires, as each of Mercurial's does.
fn is_mercurials<R: Files + Env + AllocGlobal>(rt: &R, root: &Root) -> Result<bool, Reason> {
    let path = below_hg(rt, root, "requires")?;
    Ok(look(rt, path.as_str())?.is_some())
}

// What stands at the path, no link followed. It has a frame of its own, so that what it reads takes no room in the frames of a caller that
// goes from directory to directory.
#[inline(never)]
fn stat_at<R: Files + Env + AllocGlobal>(
    looks: &mut Looks<'_, R>,
    path: &str,
) -> Result<Option<Stat>, Failed>
    ensures { IfOk result (λ found. IfSome found IsPlain) }
{
    match looks {
        Looks::From(place) => place.stat(path),
        Looks::Staying(staying) => staying.stat(path),
    }
}

// What stands at the path past a place.
fn read_at<R: Files + Env + AllocGlobal>(
    looks: &mut Looks<'_, R>,
    path: &str,
    place: u64,
    buf: &mut [u8],
) -> Result<Got, Failed>
    ensures { IfOk result (λ got. IsWithin (length buf.old) got) }
{
    match looks {
        Looks::From(from) => from.read(path, place, buf),
        Looks::Staying(staying) => staying.read(path, place, buf),
    }
}

// The clock of the file system. From a root without a name that serves nothing is written: a link that is put at `.hg` in between would be
// followed. It has a frame of its own, as the look has.
#[inline(never)]
fn now_at<R: Files + Env + AllocGlobal>(looks: &mut Looks<'_, R>) -> Result<Time, Failed> {
    match looks {
        Looks::From(place) => place.now(),
        Looks::Staying(_) => Ok(lowest()),
    }
}

// Takes away what stands at the path. It has a frame of its own, as the look has.
#[inline(never)]
fn unlink_at<R: Files + Env + AllocGlobal>(
    looks: &mut Looks<'_, R>,
    path: &str,
) -> Result<bool, Failed> {
    match looks {
        Looks::From(place) => place.unlink(path),
        Looks::Staying(staying) => staying.unlink(path),
    }
}

// Puts something at the path.
#[inline(never)]
fn put_at<R: Files + Env + AllocGlobal>(
    looks: &mut Looks<'_, R>,
    path: &str,
    wanted: Wanted,
    bytes: &[u8],
) -> Result<bool, Failed> {
    match looks {
        Looks::From(from) => from.put(path, wanted, bytes),
        Looks::Staying(staying) => staying.put(path, wanted, bytes),
    }
}

// The names in the directory, where one stands there. It has a frame of its own, as the look has.
#[inline(never)]
fn list_at<R: Files + Env + AllocGlobal>(
    looks: &mut Looks<'_, R>,
    alloc: Global,
    dir: Option<PathRef<'_>>,
) -> Result<Option<Vec<Name>>, TreeFault>
    ensures { IfOk result (λ found. IfSome found (λ names. AreFit (option_map (λ d. d.text.now) dir.entry) names.items)) }
{
    match looks {
        Looks::From(place) => list_there(place, alloc, dir),
        Looks::Staying(staying) => list_from_root(staying, alloc, dir),
    }
}

// Counts a failure, and hands the answer on. Want of memory is none.
fn counted_listing<T: Drop>(faults: &mut u64, answer: Result<T, TreeFault>) -> Result<T, TreeFault>
    ensures same { result ≡ answer }
    ensures cause { HasCause faults.old faults.new result (λ e. e ≡ a_fault.Failed) }
    ensures still { IfErr result (λ e. (e ≡ a_fault.Failed) ⊎ (faults.new ≡ faults.old)) }
{
    match answer {
        Ok(thing) => Ok(thing),
        Err(TreeFault::OutOfMemory) => Err(TreeFault::OutOfMemory),
        Err(TreeFault::Failed) => {
            *faults = risen(*faults);
            Err(TreeFault::Failed)
        }
    }
}
