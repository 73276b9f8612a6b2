//! Whether a glob stands in a path, by the marks over the path's ends, the shortest first.

ghost use Rattle.std.specs.Prelude.{◌≡◌, ◌+◌, ◌<◌, nat_le, ◌≤◌, ◌==◌, ◌&&◌, not, ◌↔◌, length, reverse, IsTrue, chars};
ghost use Rattle.hg_glob.specs.Row.{first};
ghost use Rattle.hg_glob.specs.Part.{reading};
ghost use Rattle.hg_glob.specs.Refusal.{closers};
ghost use Rattle.hg_glob.specs.Line.{Stands};

use crate::mark::{Going, Mark};
use crate::part::Part;
use crate::short::Short;
use crate::sweep::stands_short;
use crate::turn::turn;

/// Whether a match may begin behind the character, and one does.
fn begins_behind(c: char, rooted: bool, marks: &[Mark]) -> bool
    requires { 0 < length marks.now }
    ensures { result ≡ (c == 47 && not rooted && (first marks.now).here) }
{
    c == '/' && !rooted && marks[0].here
}

/// Whether no match can come any more: nothing is marked in front of `low`, and there are so many marks.
fn is_over(inner: bool, low: usize, count: usize) -> bool
    ensures { result ≡ (not inner && nat_le count low) }
{
    !inner && count <= low
}

/// Whether the path is directories, a text in the glob of the parts, and what is below it: no directories in front where the
/// glob is rooted, and nothing below but where `inner` is set. The marks are room for the work, one more than parts.
fn stands(parts: &[Part], inner: bool, rooted: bool, path: &str, marks: &mut [Mark]) -> bool
    requires marks { length marks.old ≡ length parts.now + 1 }
    requires few { length parts.now ≤ 4095 }
    requires closed { closers parts.now ≡ 0 }
    ensures { IsTrue result ↔ Stands inner rooted (reading parts.now).pattern (chars path.now) }
{
    let mut going = Going::new();
    let mut low = turn(parts, inner, None, 0, marks, &mut going);
    for c in path.chars().rev() {
        if begins_behind(c, rooted, marks) {
            return true;
        }
        low = turn(parts, inner, Some(c), low, marks, &mut going);
        if is_over(inner, low, marks.len()) {
            return false;
        }
    }
    marks[0].here
}

/// The same for a path of any length, with room of its own.
#[inline(never)]
pub fn stands_long(parts: &[Part], inner: bool, rooted: bool, path: &str) -> bool
    requires few { length parts.now ≤ 4095 }
    requires closed { closers parts.now ≡ 0 }
    ensures { IsTrue result ↔ Stands inner rooted (reading parts.now).pattern (chars path.now) }
{
    let none = Mark {
        here: false,
        behind: false,
    };
    let mut marks = [none; 4096];
    let room: &mut [Mark] = &mut marks;
    let (row, _) = room.split_at_mut(parts.len() + 1);
    stands(parts, inner, rooted, path, row)
}

/// The same, a short path over all its ends at once. Apart from its caller, which mostly needs no marks.
#[inline(never)]
pub fn stands_marked(parts: &[Part], inner: bool, rooted: bool, path: &str) -> bool
    requires few { length parts.now ≤ 4095 }
    requires closed { closers parts.now ≡ 0 }
    ensures { IsTrue result ↔ Stands inner rooted (reading parts.now).pattern (chars path.now) }
{
    let mut short = Short::new();
    if short.read(path) {
        // (which takes about as long as one range does without it)
        if parts.len() >= 16 {
            short.prepare();
        }
        return stands_short(parts, inner, rooted, &short);
    }
    stands_long(parts, inner, rooted, path)
}

/// The same for a short path that was read.
#[inline(always)]
pub fn stands_read(parts: &[Part], inner: bool, rooted: bool, path: &str, short: &Short) -> bool
    requires few { length parts.now ≤ 4095 }
    requires closed { closers parts.now ≡ 0 }
    requires read { chars path.now ≡ reverse short.now }
    ensures { IsTrue result ↔ Stands inner rooted (reading parts.now).pattern (chars path.now) }
{
    let _ = path;
    stands_short(parts, inner, rooted, short)
}
