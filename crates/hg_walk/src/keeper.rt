//! What a walk keeps of the nodes that it looked at.

ghost use Rattle.std.proofs.Props.{props};
ghost use Rattle.std.specs.Prelude.{◌≡◌, ◌++◌, ◌∷◌, IfSome, IsTrue, option_map};
ghost use Rattle.hg_base.specs.PathText.{joined};
ghost use Rattle.std.specs.List.{IsDistinct};
ghost use Rattle.std.specs.Str.{bytes_eq};
ghost use Rattle.hg_mixed.specs.Gathered.{paths_of};
ghost use Rattle.hg_walk.specs.Passing.{AreInOrder};

use crate::mark::Mark;
use hg_base::{PathRef, is_below};
use hg_flat::{Entries, Span};
use hg_mixed::Line;
use std::cmp::Ordering;

/// The nodes of a record in order, and of each what a look showed there.
#[derive(Drop)]
pub(crate) struct Keeper<'t> {
    children: Vec<Line<'t>>,
    marks: Vec<Mark>,
    ghost ascending: { AreInOrder children.items } by { Prim.hlevel props },
    ghost own: { IsDistinct bytes_eq (paths_of children.items) } by { Prim.hlevel props },
}

// Whether the path is before all paths below the directory, in the order of their bytes.
fn is_before_below(path: &str, dir: &str) -> bool {
    let (path, dir) = (path.as_bytes(), dir.as_bytes());
    if path.len() <= dir.len() {
        return path <= dir;
    }
    match path[..dir.len()].cmp(dir) {
        Ordering::Less => true,
        Ordering::Equal => path[dir.len()] < b'/',
        Ordering::Greater => false,
    }
}

// What a text says behind a directory's and a slash, where it begins with these.
fn rest_below<'a>(text: &'a [u8], dir: &[u8]) -> Option<&'a [u8]>
    ensures { IfSome result (λ rest. text.now ≡ dir.now ++ 47 ∷ rest.now) }
{
    if dir.len() >= text.len() {
        return None;
    }
    let (front, rest) = text.split_at(dir.len());
    if rest[0] != b'/' {
        return None;
    }
    if front != dir {
        return None;
    }
    Some(rest.split_at(1).1)
}

// Whether a text is the path of a name in a directory.
fn is_joined(text: &str, dir: Option<PathRef<'_>>, name: &str) -> bool
    ensures { IsTrue result → text.now ≡ joined (option_map (λ d. d.text.now) dir.entry) name.now }
{
    match dir {
        None => text == name,
        Some(dir) => match rest_below(text.as_bytes(), dir.text.as_bytes()) {
            None => false,
            Some(rest) => rest == name.as_bytes(),
        },
    }
}

// Whether a text is before the path of a name in a directory, in the order of their bytes.
fn is_before(text: &str, dir: Option<PathRef<'_>>, name: &str) -> bool {
    let Some(dir) = dir else {
        return text < name;
    };
    match rest_below(text.as_bytes(), dir.text.as_bytes()) {
        Some(rest) => rest < name.as_bytes(),
        None => is_before_below(text, dir.text),
    }
}

impl<'t> Keeper<'t> {
    ghost use Rattle.std.specs.Prelude.{◌≡◌, None, ℕ, IfSome, IsTrue, option_map};
    ghost use Rattle.std.specs.List.{Contains, IsDistinct};
    ghost use Rattle.std.specs.Str.{bytes_eq};
    ghost use Rattle.hg_base.specs.PathText.{joined};
    ghost use Rattle.hg_mixed.specs.Gathered.{path_of, paths_of};
    ghost use Rattle.hg_mixed.specs.declared.line.Line.{Line};
    ghost use Rattle.hg_walk.specs.Passing.{AreInOrder, IsPlaceBelow, IsPlaceOf};

    // These nodes, with a mark for each.
    pub(crate) fn of(children: Vec<Line<'t>>, marks: Vec<Mark>) -> Keeper<'t>
        requires ascending { AreInOrder children.items }
        requires own { IsDistinct bytes_eq (paths_of children.items) }
        ensures children { result.children.items ≡ children.entry.items }
        ensures marks { result.marks.items ≡ marks.items }
    {
        Keeper { children, marks }
    }

    // Whether the node at this place is of the path.
    fn is_at(&self, at: usize, path: &str) -> bool
        ensures { IsTrue result → IsPlaceOf self.now.children.items path.now at }
    {
        if at >= self.children.len() {
            return false;
        }
        self.children[at].path.text == path
    }

    // The place of the node of a path; the one at `next` is looked at first, which is made that place, or where the node would stand.
    fn find(&self, path: &str, next: &mut usize) -> Option<usize>
        ensures found { IfSome result (λ at. IsPlaceOf self.now.children.items path.now at) }
        ensures none { result ≡ None → (child : Line) → Contains self.now.children.items child → path_of child ≡ path.now → ⊥ }
    {
        if self.is_at(*next, path) {
            return Some(*next);
        }
        match self
            .children
            .binary_search_by(|child| child.path.text.cmp(path))
        {
            Ok(at) => {
                *next = at;
                Some(at)
            },
            Err(at) => {
                *next = at;
                None
            },
        }
    }

    // Whether the node at this place is of the path of a name in a directory.
    fn is_joined_at(&self, at: usize, dir: Option<PathRef<'_>>, name: &str) -> bool
        ensures { IsTrue result → IsPlaceOf self.now.children.items (joined (option_map (λ d. d.text.now) dir.entry) name.now) at }
    {
        if at >= self.children.len() {
            return false;
        }
        is_joined(self.children[at].path.text, dir, name)
    }

    // The place of the node of the path of a name in a directory, as `find` looks for it, without a text made of it.
    fn find_joined(&self, dir: Option<PathRef<'_>>, name: &str, next: &mut usize) -> Option<usize>
        ensures { IfSome result (IsPlaceOf self.now.children.items (joined (option_map (λ d. d.text.now) dir.entry) name.now)) }
    {
        if self.is_joined_at(*next, dir, name) {
            return Some(*next);
        }
        let at = self
            .children
            .partition_point(|child| is_before(child.path.text, dir, name));
        *next = at;
        if self.is_joined_at(at, dir, name) {
            Some(at)
        } else {
            None
        }
    }

    // Whether the node at this place is of a path below the directory.
    fn is_below_at(&self, at: usize, dir: &str) -> bool
        ensures { IsTrue result → IsPlaceBelow self.now.children.items dir.now at }
    {
        if at >= self.children.len() {
            return false;
        }
        is_below(dir, self.children[at].path.text)
    }

    // Where the nodes below a directory begin, if there are any: mostly at `next`, or right behind it where that is the place of the directory itself.
    // Paths as `dir-a` and `dir.a` stand between `dir` and those below it.
    fn place_below(&self, dir: &str, next: usize) -> usize {
        let next = if self.is_at(next, dir) {
            next.saturating_add(1)
        } else {
            next
        };
        if self.is_below_at(next, dir) {
            return next;
        }
        self.children
            .partition_point(|child| is_before_below(child.path.text, dir))
    }
}

impl Entries for Keeper<'_> {
    ghost use Rattle.hg_walk.specs.Passing.{has_entry, known_of};

    ghost kept = { λ keeper. has_entry keeper.children.items };

    ghost known = { λ keeper. known_of keeper.children.items keeper.marks.items };

    fn has(&self, path: &str, next: &mut usize) -> bool {
        let Some(at) = self.find(path, next) else {
            return false;
        };
        *next = at.saturating_add(1);
        self.children[at].entry.is_some()
    }

    // Where it may not be passed the place is kept for the next question.
    fn was_passed(&self, dir: Option<PathRef<'_>>, name: &str, next: &mut usize) -> bool {
        let Some(at) = self.find_joined(dir, name, next) else {
            return false;
        };
        if self.children[at].entry.is_none() {
            return false;
        }
        if at >= self.marks.len() || !self.marks[at].is_no_dir() {
            return false;
        }
        *next = at.saturating_add(1);
        true
    }

    // A thing below the directory was seen. The first node below it with an entry decides, whose place is kept for the next question; nodes of
    // directories are stepped over.
    fn was_entered(&self, path: &str, next: &mut usize) -> bool {
        let first = self.place_below(path, *next);
        *next = first;
        for at in first..self.children.len() {
            if at >= self.marks.len() || !self.is_below_at(at, path) {
                return false;
            }
            if self.marks[at].stands() {
                return true;
            }
            if self.children[at].entry.is_some() {
                return false;
            }
        }
        false
    }

    fn served(&self, _path: &str, _next: &mut usize) -> Option<Span> {
        None
    }

    fn node_at(&self, at: usize) -> Option<PathRef<'_>> {
        if at >= self.children.len() {
            return None;
        }
        Some(self.children[at].path)
    }
}
