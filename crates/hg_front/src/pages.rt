//! What the help says of each command.

ghost use Rattle.std.specs.Prelude.{◌≡◌};
ghost use Rattle.std.specs.Option.{option_map};
ghost use Rattle.hg_front.specs.Pages as pages;

#[tactic(auto, unfolding(crate::specs::Pages::status_page))]
fn status() -> &'static str
    ensures { result.now ≡ pages.status_page }
{
    "
M is changed, A added, R removed, ! missing, ? not tracked, I ignored, C unchanged. Where no letter is asked for, M A R ! ? are.

Flags, in any order, joined or apart; they end at a word `--`:
  -m --modified   M: changed              -A --all         all letters, and copies
  -a --added      A: added                -n --no-status   names without letters
  -r --removed    R: removed              -0 --print0      NUL at the end of each line
  -d --deleted    !: missing              -C --copies      what was copied, and from where
  -c --clean      C: unchanged
  -u --unknown    ?: not tracked
  -i --ignored    I: ignored

Example:
  hgtrack status -m -a -C  list what is changed or added, and what it was copied from

Exit status: 0, or 255 after a line `abort: ...`.
"
}

#[tactic(auto, unfolding(crate::specs::Pages::add_page))]
fn add() -> &'static str
    ensures { result.now ≡ pages.add_page }
{
    "
A FILE is a file or a link; one that is tracked already stays so. There are no flags; behind a word `--` each word is a FILE.

Example:
  hgtrack add parse.c src/scan.c  track these two

Exit status: 0, 1 where a FILE was refused, in a line of its own (the others are done), or 255 after a line `abort: ...`.
"
}

#[tactic(auto, unfolding(crate::specs::Pages::forget_page))]
fn forget() -> &'static str
    ensures { result.now ≡ pages.forget_page }
{
    "
A FILE is tracked, whatever stands there. There are no flags; behind a word `--` each word is a FILE.

Example:
  hgtrack forget main.o  track it no longer, and leave it in its place

Exit status: 0, 1 where a FILE was refused, in a line of its own (the others are done), or 255 after a line `abort: ...`.
"
}

#[tactic(auto, unfolding(crate::specs::Pages::remove_page))]
fn remove() -> &'static str
    ensures { result.now ≡ pages.remove_page }
{
    "
A FILE is tracked and in a parent, and isn't changed; one that is gone already is tracked no longer.

Flags; they end at a word `--`:
  -A --after      take no file away: each FILE has to be gone already

Example:
  hgtrack remove src/old.c  take it away, and track it no longer

Exit status: 0, 1 where a FILE was refused, in a line of its own (the others are done), or 255 after a line `abort: ...`.
"
}

#[tactic(auto, unfolding(crate::specs::Pages::copy_page))]
fn copy() -> &'static str
    ensures { result.now ≡ pages.copy_page }
{
    "
SOURCE is a tracked file or link. At TARGET nothing stands, and nothing is tracked; folders above it are made. There are no flags;
behind a word `--` each word is a path.

Example:
  hgtrack copy main.c src/other.c  copy it, track the copy, and record where it comes from

Exit status: 0, 1 where a word was refused, in a line of its own, or 255 after a line `abort: ...`.
"
}

#[tactic(auto, unfolding(crate::specs::Pages::debugsetparents_page))]
fn debugsetparents() -> &'static str
    ensures { result.now ≡ pages.debugsetparents_page }
{
    "
A NODE is a commit by its 40 hexadecimal digits; the second is the null one where it isn't given. What the commits have is read in
`.hg/plain`, where hgtrack-parents brings it. There are no flags.

Example:
  hgtrack debugsetparents 0000000000000000000000000000000000000000  set no parent

Exit status: 0, or 255 after a line `abort: ...`.
"
}

#[tactic(auto, unfolding(crate::specs::Pages::debugdirstate_page))]
fn debugdirstate() -> &'static str
    ensures { result.now ≡ pages.debugdirstate_page }
{
    "
It prints the parents; a line for each path with its state, kind, size in bytes and time in seconds since 1970, UTC; and a line for
each copy. The working copy isn't looked at. There are no flags.

Example:
  hgtrack debugdirstate  print the record

Exit status: 0, or 255 after a line `abort: ...`.
"
}

#[tactic(auto, unfolding(crate::specs::Pages::debugscript_page))]
fn debugscript() -> &'static str
    ensures { result.now ≡ pages.debugscript_page }
{
    "
Each line is a command and its words, parted by single spaces, with paths from the root. It ends at its first fault; what the lines
before did stays. There are no flags.

Example:
  hgtrack debugscript < commands  run the lines of a file

Exit status: 0, 1 where a word of a line was refused, or 255 after a line `abort: ...`.
"
}

#[tactic(auto, unfolding(crate::specs::Pages::debugload_page))]
fn debugload() -> &'static str
    ensures { result.now ≡ pages.debugload_page }
{
    "
N is from 1 to 2000, and a folder has 16 paths. `status -A` runs twice; it prints how many lines each letter has, and how many files
were read. There are no flags.

Example:
  hgtrack debugload 100  count over 1600 paths

Exit status: 0, or 255 after a line `abort: ...`.
"
}

/// What is said behind a command's line: what its words and flags are, an example, and what it ends with.
pub(crate) fn page_of(name: &str) -> Option<&'static str>
    ensures { option_map (λ text. text.now) result ≡ pages.page_of name.now }
{
    match name {
        "status" => Some(status()),
        "add" => Some(add()),
        "forget" => Some(forget()),
        "remove" => Some(remove()),
        "copy" => Some(copy()),
        "debugsetparents" => Some(debugsetparents()),
        "debugdirstate" => Some(debugdirstate()),
        "debugscript" => Some(debugscript()),
        "debugload" => Some(debugload()),
        _ => None,
    }
}
