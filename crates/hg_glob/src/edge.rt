//! Whether a glob's literal beginning and end leave a match possible: what passes a line over before any marks.

ghost use Rattle.std.specs.Prelude.{◌≡◌, ◌++◌, List, ℕ, IsTrue, true, false, nat_eq};
ghost use Rattle.std.specs.List.{starts_with, ends_with};
ghost use Rattle.hg_base.specs.Cut.{IsCut, IsLastCut};
ghost use Rattle.hg_glob.specs.Line.{IsFront, IsBack};

/// What is before and behind the first slash.
fn cut(text: &str) -> Option<(&str, &str)>
    ensures { IsCut text.now result }
{
    text.split_once('/')
}

/// What is before and behind the last slash.
fn cut_last(text: &str) -> Option<(&str, &str)>
    ensures { IsLastCut text.now result }
{
    text.rsplit_once('/')
}

fn begins(text: &str, head: &str) -> bool
    ensures { result ≡ starts_with nat_eq text.now head.now }
{
    text.as_bytes().starts_with(head.as_bytes())
}

fn ends(text: &str, tail: &str) -> bool
    ensures { result ≡ ends_with nat_eq text.now tail.now }
{
    text.as_bytes().ends_with(tail.as_bytes())
}

/// Whether the beginning stands at the front of the path or behind a slash.
fn begins_inside(path: &str, head: &str) -> bool
    ensures { (a rest : List ℕ) → path.now ≡ a ++ (head.now ++ rest) → IsFront false a → IsTrue result }
{
    let mut left = path;
    while !begins(left, head) {
        match cut(left) {
            None => return false,
            Some((_, behind)) => left = behind,
        }
    }
    true
}

/// Whether the end stands at the end of the path or in front of a slash.
fn ends_inside(path: &str, tail: &str) -> bool
    ensures { (front c : List ℕ) → path.now ≡ (front ++ tail.now) ++ c → IsBack true c → IsTrue result }
{
    let mut left = path;
    while !ends(left, tail) {
        match cut_last(left) {
            None => return false,
            Some((before, _)) => left = before,
        }
    }
    true
}

/// Whether a match that begins so can stand in the path.
pub fn may_begin(rooted: bool, path: &str, head: &str) -> bool
    ensures { (a rest : List ℕ) → path.now ≡ a ++ (head.now ++ rest) → IsFront rooted a → IsTrue result }
{
    if rooted {
        return begins(path, head);
    }
    begins_inside(path, head)
}

/// Whether a match that ends so can stand in the path.
pub fn may_end(inner: bool, path: &str, tail: &str) -> bool
    ensures { (front c : List ℕ) → path.now ≡ (front ++ tail.now) ++ c → IsBack inner c → IsTrue result }
{
    if inner {
        return ends_inside(path, tail);
    }
    ends(path, tail)
}
