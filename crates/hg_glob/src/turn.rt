//! One pass over the parts of a glob, from the last to the first: the marks over a text with one character more in front.

ghost use Rattle.std.specs.Prelude.{◌≡◌, ◌+◌, ◌<◌, ◌≤◌, ◌||◌, ◌&&◌, nat_lt, nat_le, if◌then◌else◌, length, is_some};
ghost use Rattle.hg_glob.specs.Row.{is_char, is_inside, is_between, is_end, step, stepped, open_step, comma_step, turned, plain, OffBelow, is_marked};

use crate::mark::{Brace, Braces, Going, Mark};
use crate::part::Part;

/// No part behind is reached by a slash.
fn plain(here: bool) -> Mark
    ensures { result ≡ plain here }
{
    Mark {
        here,
        behind: false,
    }
}

fn is_char(c: Option<char>, x: char) -> bool
    ensures { result ≡ is_char x c }
{
    match c {
        None => false,
        Some(c) => c == x,
    }
}

fn is_inside(c: Option<char>) -> bool
    ensures { result ≡ is_inside c }
{
    match c {
        None => false,
        Some(c) => c != '/',
    }
}

fn is_between(c: Option<char>, low: char, high: char) -> bool
    ensures { result ≡ is_between low high c }
{
    match c {
        None => false,
        Some(c) => low <= c && c <= high,
    }
}

/// Whether a match may end in front of the character: at the end of the text, and where `inner` is set also at a slash.
fn is_end(inner: bool, c: Option<char>) -> bool
    ensures { result ≡ is_end inner c }
{
    match c {
        None => true,
        Some(c) => inner && c == '/',
    }
}

fn open_step(now: bool, going: &mut Going) -> Mark
    ensures mark { result ≡ (open_step now going.old.hit going.old.braces).mark }
    ensures going { going.new ≡ (open_step now going.old.hit going.old.braces).going }
{
    match going.braces.pop() {
        None => plain(now),
        Some(brace) => plain(now || brace.found),
    }
}

fn comma_step(now: bool, going: &mut Going) -> Mark
    requires { length going.old.braces ≤ 4095 }
    ensures mark { result ≡ (comma_step now going.old.hit going.old.braces).mark }
    ensures going { going.new ≡ (comma_step now going.old.hit going.old.braces).going }
{
    match going.braces.pop() {
        None => plain(now),
        Some(brace) => {
            going.braces.push(Brace {
                after: brace.after,
                found: brace.found || now,
            });
            plain(brace.after)
        }
    }
}

/// The mark of a part over a text: `was` is its mark, and `next` that of the part behind it, over the text without its first
/// character `c`; `now` says whether the part behind it accepts the text. Over no text there is no character.
fn step(part: Part, c: Option<char>, was: Mark, next: Mark, now: bool, going: &mut Going) -> Mark
    requires { length going.old.braces < 4095 }
    ensures mark { result ≡ (step c part was next now going.old).mark }
    ensures going { going.new ≡ (step c part was next now going.old).going }
{
    match part {
        Part::Literal(x) => plain(is_char(c, x) && next.here),
        Part::One => plain(c.is_some() && next.here),
        Part::Class { negated } => {
            let hit = going.hit;
            going.hit = false;
            plain(c.is_some() && (hit != negated) && next.here)
        }
        Part::Range { at: _, low, high } => {
            going.hit = is_between(c, low, high) || going.hit;
            plain(now)
        }
        Part::Star => plain(now || is_inside(c) && was.here),
        Part::Any => plain(now || c.is_some() && was.here),
        Part::Slashes => {
            let behind = (is_char(c, '/') && next.here) || (c.is_some() && was.behind);
            Mark {
                here: now || behind,
                behind,
            }
        }
        Part::Open { at: _ } => open_step(now, going),
        Part::Comma => comma_step(now, going),
        Part::Close => {
            going.braces.push(Brace {
                after: now,
                found: false,
            });
            plain(now)
        }
    }
}

/// Whether the pass goes on to the part in front of place `k`. In front of `low` nothing was marked, so a mark comes there only
/// from the part behind it, or from braces that are lit.
fn goes_on(k: usize, low: usize, now: bool, lit: bool) -> bool
    ensures { result ≡ (nat_lt 0 k && (nat_le low k || now || lit)) }
{
    k > 0 && (low <= k || now || lit)
}

/// The first place that something reaches, where the place `k` is in front of the others.
fn first_on(mark: Mark, k: usize, on: usize) -> usize
    ensures { result ≡ (if is_marked mark then k else on) }
{
    if mark.here || mark.behind { k } else { on }
}

/// Whether something may be known of the braces around.
fn is_lit(lit: bool, now: bool, braces: &Braces) -> bool
    ensures { result ≡ ((lit || now) && nat_lt 0 (length braces.now)) }
{
    (lit || now) && !braces.is_empty()
}

/// The marks over a text from those over the text without its first character `c`, in place. Over no text there is no
/// character, and the marks before don't count. Nothing was marked in front of `low`, and nothing is in front of the answer.
pub fn turn(
    parts: &[Part],
    inner: bool,
    c: Option<char>,
    low: usize,
    marks: &mut [Mark],
    going: &mut Going,
) -> usize
    requires marks { length marks.old ≡ length parts.now + 1 }
    requires few { length parts.now ≤ 4095 }
    requires low { OffBelow low marks.old }
    ensures marks { marks.new ≡ (turned inner c parts.now marks.old).marks }
    ensures low { OffBelow result marks.new }
{
    going.hit = false;
    going.braces.clear();
    let mut k = parts.len();
    let mut next = marks[k];
    let mut now = is_end(inner, c);
    let end = plain(now);
    marks[k] = end;
    let mut on = first_on(end, k, k + 1);
    let mut lit = false;
    'pass: while goes_on(k, low, now, lit) {
        k -= 1;
        let was = marks[k];
        let mark = step(parts[k], c, was, next, now, going);
        marks[k] = mark;
        on = first_on(mark, k, on);
        lit = is_lit(lit, now, &going.braces);
        next = was;
        now = mark.here;
    }
    on
}
