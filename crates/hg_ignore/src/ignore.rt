//! The ignore state of a working copy, compiled.

ghost use Rattle.std.specs.Prelude.{ℕ, ◌≡◌, ◌⊎◌, ◌↔◌, ◌≤◌, ◌<◌, ◌++◌, [], Some, None, IsTrue, IfOk, IfErr, OnOk, length};
ghost use Rattle.std.specs.Str.{IsUtf8};
ghost use Rattle.hg_base.specs.Fault.{HasCause};
ghost use Rattle.hg_glob.specs.Many.{SomeStands};
ghost use Rattle.hg_tree.specs.History.{IsOurs, Passes, now};
ghost use Rattle.hg_ignore.specs.declared.fault.IgnoreFault.TheVariants as a_fault;
ghost use Rattle.hg_ignore.specs.Asked.{state_asked};
ghost use Rattle.hg_ignore.specs.Line.{lines_of};
ghost use Rattle.hg_ignore.specs.Source.{AreTexts, AsksOnce, AsksRight, HasBytesCause, HasTextCause, ReadDuring, reads_of};
ghost use Rattle.hg_ignore.specs.State as states;
ghost use Rattle.hg_ignore.specs.State.{Hash, Ignored, Matches, Texts, items_of, state_of};
ghost use Rattle.hg_ignore.specs.Taking.{Counted, HasLineCause, first_fault, globs_of, warnings_of};
ghost use Rattle.sha1.specs.Sha1.{sha1};

use crate::distinct::distinct;
use crate::fault::IgnoreFault;
use crate::matcher::Matcher;
use crate::reading::read_lines;
use crate::regexps::Regexps;
use crate::sets::{matchers_of, sets_of};
use crate::source::read_bytes;
use crate::warnings::Warnings;
use hg_base::{OutOfMemory, PathRef, Text};
use hg_glob::Globs;
use hg_tree::Tree;
use regex::RegexSet;
use sha1::Sha1;
use std::alloc::Global;
use std::marker::Model;

/// The most bytes of a text.
const MOST: usize = 1_048_576;

/// What a working copy ignores; contracts see the files that were read, with their texts.
#[derive(Drop)]
pub struct Ignore {
    text: Option<Text>,
    globs: Globs,
    regexps: Vec<RegexSet>,
    hash: [u8; 20],
    warnings: Warnings,
}

impl Model for Ignore {
    ghost use Rattle.std.specs.Prelude.{List};
    ghost use Rattle.hg_ignore.specs.State.{Piece, state_of};
    ghost use Rattle.hg_ignore.specs.Kept.{IsKept};

    ghost Value = { List Piece };

    ghost view = { λ i. state_of i.text };

    ghost invariant = { λ i. IsKept (state_of i.text) i.globs i.regexps.items i.hash i.warnings };
}

/// The hash of the state of that text.
fn hash_of(text: &[u8]) -> [u8; 20]
    ensures { result ≡ Hash (state_of (Some text.now)) }
{
    let mut hasher = Sha1::new();
    hasher.update(b".hgignore ");
    hasher.update(&Sha1::digest(text));
    hasher.update(b"\n");
    hasher.finalize()
}

impl Ignore {
    /// The state without a file: it ignores nothing.
    pub(crate) fn absent(alloc: Global) -> Ignore
        ensures { result ≡ [] }
    {
        Ignore {
            text: None,
            globs: Globs::new(alloc),
            regexps: Vec::new(alloc),
            hash: Sha1::digest(&[]),
            warnings: Warnings::new(alloc),
        }
    }

    /// The state of the file's text, or the first line at which it is refused.
    pub(crate) fn of_text<G: Regexps>(
        alloc: Global,
        regexps: &mut G,
        text: &str,
    ) -> Result<Ignore, IgnoreFault>
        requires { length text.now ≤ 1048576 }
        ensures state { IfOk result (λ i. i ≡ state_of (Some text.now)) }
        ensures faultless { IfOk result (λ _. first_fault (lines_of text.now) ≡ None) }
        ensures cause { IfErr result (HasLineCause (lines_of text.now)) }
        ensures counted { Counted (G.oversize regexps.old) (G.oversize regexps.new) result }
    {
        let reading = read_lines(alloc, regexps, text)?;
        let hash = hash_of(text.as_bytes());
        let text = Text::of(alloc, text)?;
        let distinct = distinct(alloc, reading.globs)?;
        let globs = Globs::of(alloc, distinct)?;
        let regexps = sets_of(alloc, reading.regexes)?;
        Ok(Ignore {
            text: Some(text),
            globs,
            regexps,
            hash,
            warnings: reading.warnings,
        })
    }

    /// The state of the file's bytes, where they are text.
    fn of_bytes<G: Regexps>(
        alloc: Global,
        regexps: &mut G,
        bytes: &[u8],
    ) -> Result<Ignore, IgnoreFault>
        requires { length bytes.now ≤ 1048576 }
        ensures state { IfOk result (λ i. i ≡ state_of (Some bytes.now)) }
        ensures faultless { IfOk result (λ _. first_fault (lines_of bytes.now) ≡ None) }
        ensures utf8 { IfOk result (λ _. IsUtf8 bytes.now) }
        ensures cause { IfErr result (HasBytesCause bytes.now) }
        ensures counted { Counted (G.oversize regexps.old) (G.oversize regexps.new) result }
    {
        match str::from_utf8(bytes) {
            Err(error) => Err(IgnoreFault::IgnoreText {
                at: error.valid_up_to() as u32,
            }),
            Ok(text) => Ignore::of_text(alloc, regexps, text),
        }
    }

    /// Whether some glob stands in the path.
    pub(crate) fn some_stands(&self, path: &str) -> bool
        ensures { IsTrue result ↔ SomeStands (globs_of (items_of self.now)) path.now }
    {
        self.globs.some_stands(path)
    }

    /// The state of the working copy: the text of the file `.hgignore` at its root, taken by one read behind a stat. Anything else
    /// than a file there counts as absent.
    pub fn read<T: Tree, G: Regexps>(
        alloc: Global,
        tree: &mut T,
        regexps: &mut G,
    ) -> Result<Ignore, IgnoreFault>
        ensures passes { Passes (T.history tree.old) (T.history tree.new) }

        // what is asked: at most one read, and that only where a file was seen
        ensures asked { IsTrue (T.history tree.old).told → AsksOnce (T.history tree.old) (T.history tree.new) }
        ensures asks { IsTrue (T.history tree.old).told → OnOk result (AsksRight (T.history tree.old) (T.history tree.new)) }
        ensures asked_still { IsOurs (T.history tree.old) (T.history tree.new)
            → OnOk result ((T.history tree.new).asked ≡ (T.history tree.old).asked ++ reads_of (now (T.history tree.old))) }

        // what is read
        ensures state { IsTrue (T.history tree.old).told → IfOk result (λ i. ReadDuring (T.history tree.old) (T.history tree.new) i) }
        ensures still { IsOurs (T.history tree.old) (T.history tree.new) → IfOk result (λ i. i ≡ states.Ignore (now (T.history tree.old))) }
        ensures among { IsTrue (T.history tree.old).told → IfOk result (λ i. Texts (T.history tree.new) i) }
        ensures faultless { IfOk result (λ i. first_fault (items_of i) ≡ None) }
        ensures texts { IfOk result AreTexts }

        // why nothing is
        ensures cause { IsTrue (T.history tree.old).told → IfErr result (HasTextCause 1048576 (T.history tree.old) (T.history tree.new)) }
        ensures over { IfErr result (λ e. (size : ℕ) → e ≡ a_fault.IgnoreTooLarge size → 1048576 < size) }
        ensures faults { HasCause (T.faults tree.old) (T.faults tree.new) result (λ e. e ≡ a_fault.Failed) }
        ensures stayed { IfErr result (λ e. (e ≡ a_fault.Failed) ⊎ (T.faults tree.new ≡ T.faults tree.old)) }
        ensures oversize { Counted (G.oversize regexps.old) (G.oversize regexps.new) result }
    {
        match read_bytes(alloc, tree, MOST) {
            Err(fault) => Err(fault),
            Ok(None) => Ok(Ignore::absent(alloc)),
            Ok(Some(bytes)) => Ignore::of_bytes(alloc, regexps, bytes.as_slice()),
        }
    }

    /// What asks the state many paths.
    pub fn matcher(&self, alloc: Global) -> Result<Matcher<'_>, OutOfMemory>
        ensures { IfOk result (λ m. state_asked m ≡ self.now) }
    {
        let sets = matchers_of(alloc, self.regexps.as_slice())?;
        Ok(Matcher { ignore: self, sets })
    }

    /// Whether a line matches the path itself; the directories above it aren't asked.
    pub fn matches(&self, alloc: Global, path: PathRef<'_>) -> Result<bool, OutOfMemory>
        ensures { IfOk result (λ b. IsTrue b ↔ Matches self.now path.entry.text.now) }
    {
        let mut matcher = self.matcher(alloc)?;
        Ok(matcher.matches(path))
    }

    /// Whether a line matches the path or a directory above it.
    pub fn ignored(&self, alloc: Global, path: PathRef<'_>) -> Result<bool, OutOfMemory>
        ensures { IfOk result (λ b. IsTrue b ↔ Ignored self.now path.entry.text.now) }
    {
        let mut matcher = self.matcher(alloc)?;
        Ok(matcher.ignored(path))
    }

    /// The hash of the state, as a docket keeps it: the SHA-1 over the path of each file, a space, the 20 bytes of the SHA-1 of its
    /// text and a line feed. This rule is this project's profile.
    pub fn hash(&self) -> [u8; 20]
        ensures { result ≡ Hash self.now }
    {
        self.hash
    }

    /// A warning for each line that names a syntax that isn't known, in the order of the lines.
    pub fn warnings(&self) -> &Warnings
        ensures { result.now ≡ warnings_of (items_of self.now) }
    {
        &self.warnings
    }

    /// The same warnings, without the state.
    pub fn into_warnings(self) -> Warnings
        ensures { result ≡ warnings_of (items_of self) }
    {
        self.warnings
    }
}
