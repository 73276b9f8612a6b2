//! The lines of an ignore text, one after another.

ghost use Rattle.std.specs.Prelude.{◌≡◌, ◌≤◌, ◌+◌, length, IfOk, IfErr, OnOk, [], ◌∷◌};
ghost use Rattle.hg_ignore.specs.Line as lines;
ghost use Rattle.hg_ignore.specs.Line.{pattern_said, pattern_line, glob_line, normalized, lines_of, said, cut_said, regexp};
ghost use Rattle.hg_syntax.specs.Syntax.{syntax_named};
ghost use Rattle.hg_syntax.specs.Text as texts;
ghost use Rattle.hg_syntax.specs.Text.{trimmed};
ghost use Rattle.hg_ignore.specs.Taking.{Counted, HasLineCause, Reaches, Taken};
ghost use Rattle.hg_syntax.specs.declared.syntax.Syntax.TheVariants as a_syntax;

use crate::fault::IgnoreFault;
use crate::normal::normalized;
use crate::regexps::{RegexpFault, Regexps};
use crate::warnings::{Warning, Warnings};
use hg_base::Text;
use hg_glob::{Glob, GlobFault, GlobLine};
use hg_syntax::{Form, Syntax, cut, form_of, syntax_named, text_of, trimmed};
use regex::Regex;
use std::alloc::Global;

/// What the lines so far say, and the syntax of those that follow.
#[derive(Drop)]
pub struct Reading {
    pub syntax: Syntax,
    pub globs: Vec<GlobLine>,
    pub regexes: Vec<Regex>,
    pub warnings: Warnings,
}

impl Reading {
    /// No line was read; the first syntax is that of regexps.
    pub fn new(alloc: Global) -> Reading
        ensures syntax { result.syntax ≡ a_syntax.Regexp }
        ensures globs { result.globs.items ≡ [] }
        ensures regexes { result.regexes.items ≡ [] }
        ensures warnings { result.warnings ≡ [] }
    {
        Reading {
            syntax: Syntax::Regexp,
            globs: Vec::new(alloc),
            regexes: Vec::new(alloc),
            warnings: Warnings::new(alloc),
        }
    }

    /// Takes in a glob that isn't empty.
    fn add_glob(
        &mut self,
        alloc: Global,
        n: u32,
        rooted: bool,
        text: &str,
    ) -> Result<(), IgnoreFault>
        ensures taken { OnOk result (Taken (record { items = lines.glob n rooted text.now ∷ []; syntax = self.old.syntax }) self.old self.new) }
        ensures cause { IfErr result (HasLineCause (lines.glob n rooted text.now ∷ [])) }
    {
        match Glob::read(alloc, text) {
            Ok(glob) => {
                self.globs.push(GlobLine { rooted, glob })?;
                Ok(())
            }
            Err(GlobFault::OutOfMemory) => Err(IgnoreFault::OutOfMemory),
            Err(_) => Err(IgnoreFault::BadGlob { line: n }),
        }
    }

    /// Takes in the line of a glob.
    fn take_glob(
        &mut self,
        alloc: Global,
        n: u32,
        rooted: bool,
        text: &str,
    ) -> Result<(), IgnoreFault>
        ensures taken { OnOk result (Taken (record { items = glob_line n rooted (normalized text.now); syntax = self.old.syntax }) self.old self.new) }
        ensures cause { IfErr result (HasLineCause (glob_line n rooted (normalized text.now))) }
    {
        let glob = normalized(alloc, text)?;
        if glob.is_empty() {
            return Ok(());
        }
        self.add_glob(alloc, n, rooted, glob.as_str())
    }

    /// Takes in the line of a regexp.
    fn take_regexp<G: Regexps>(
        &mut self,
        alloc: Global,
        regexps: &mut G,
        n: u32,
        text: &str,
    ) -> Result<(), IgnoreFault>
        ensures taken { OnOk result (Taken (record { items = regexp n text.now ∷ []; syntax = self.old.syntax }) self.old self.new) }
        ensures cause { IfErr result (HasLineCause (regexp n text.now ∷ [])) }
        ensures counted { Counted (G.oversize regexps.old) (G.oversize regexps.new) result }
    {
        match regexps.build(alloc, text) {
            Ok(regex) => {
                self.regexes.push(regex)?;
                Ok(())
            }
            Err(RegexpFault::OutOfMemory) => Err(IgnoreFault::OutOfMemory),
            Err(RegexpFault::Syntax) => Err(IgnoreFault::BadRegexp { line: n }),
            Err(RegexpFault::TooBig) => Err(IgnoreFault::RegexpTooBig { line: n }),
        }
    }

    /// Takes in the line of a pattern of that syntax.
    fn take_pattern<G: Regexps>(
        &mut self,
        alloc: Global,
        regexps: &mut G,
        n: u32,
        syntax: Syntax,
        text: &str,
    ) -> Result<(), IgnoreFault>
        ensures taken { OnOk result (Taken (pattern_said n self.old.syntax syntax text.now) self.old self.new) }
        ensures cause { IfErr result (HasLineCause (pattern_line n syntax text.now)) }
        ensures counted { Counted (G.oversize regexps.old) (G.oversize regexps.new) result }
    {
        match syntax {
            Syntax::Regexp => self.take_regexp(alloc, regexps, n, text),
            Syntax::Glob => self.take_glob(alloc, n, false, text),
            Syntax::RootGlob => self.take_glob(alloc, n, true, text),
        }
    }

    /// Takes in a line that names a syntax.
    fn take_syntax(&mut self, alloc: Global, n: u32, name: &str) -> Result<(), IgnoreFault>
        ensures taken { OnOk result (Taken (lines.syntax_said n self.old.syntax name.now (syntax_named name.now)) self.old self.new) }
        ensures cause { IfErr result (HasLineCause (lines.syntax_said n self.old.syntax name.now (syntax_named name.now)).items) }
    {
        match syntax_named(name) {
            Some(syntax) => self.syntax = syntax,
            None => {
                let name = Text::of(alloc, name)?;
                self.warnings.push(Warning { line: n, name })?;
            }
        }
        Ok(())
    }

    /// Takes in a line with a colon, by what the word in front of it makes of the line.
    fn take_form<G: Regexps>(
        &mut self,
        alloc: Global,
        regexps: &mut G,
        n: u32,
        form: Form,
        text: &str,
        rest: &str,
    ) -> Result<(), IgnoreFault>
        ensures taken { OnOk result (Taken (lines.form_said n self.old.syntax text.now rest.now form) self.old self.new) }
        ensures cause { IfErr result (HasLineCause (lines.form_said n self.old.syntax text.now rest.now form).items) }
        ensures counted { Counted (G.oversize regexps.old) (G.oversize regexps.new) result }
    {
        match form {
            Form::Naming => self.take_syntax(alloc, n, trimmed(rest)),
            Form::Include | Form::SubInclude => Err(IgnoreFault::BadInclude { line: n }),
            Form::Own(own) => self.take_pattern(alloc, regexps, n, own, rest),
            Form::Plain => self.take_pattern(alloc, regexps, n, self.syntax, text),
        }
    }

    /// Takes in a line of which text is left.
    fn take_text<G: Regexps>(
        &mut self,
        alloc: Global,
        regexps: &mut G,
        n: u32,
        text: &str,
    ) -> Result<(), IgnoreFault>
        ensures taken { OnOk result (Taken (cut_said n self.old.syntax text.now (texts.cut_at 58 text.now)) self.old self.new) }
        ensures cause { IfErr result (HasLineCause (cut_said n self.old.syntax text.now (texts.cut_at 58 text.now)).items) }
        ensures counted { Counted (G.oversize regexps.old) (G.oversize regexps.new) result }
    {
        match cut(text, ':') {
            None => self.take_pattern(alloc, regexps, n, self.syntax, text),
            Some((word, rest)) => self.take_form(alloc, regexps, n, form_of(word), text, rest),
        }
    }

    /// Takes in a line.
    fn take<G: Regexps>(
        &mut self,
        alloc: Global,
        regexps: &mut G,
        n: u32,
        line: &str,
    ) -> Result<(), IgnoreFault>
        ensures taken { OnOk result (Taken (said n self.old.syntax (texts.text_of line.now)) self.old self.new) }
        ensures cause { IfErr result (HasLineCause (said n self.old.syntax (texts.text_of line.now)).items) }
        ensures counted { Counted (G.oversize regexps.old) (G.oversize regexps.new) result }
    {
        let text = text_of(alloc, line)?;
        if text.is_empty() {
            return Ok(());
        }
        self.take_text(alloc, regexps, n, text.as_str())
    }
}

/// What the lines of a text say.
pub fn read_lines<G: Regexps>(
    alloc: Global,
    regexps: &mut G,
    text: &str,
) -> Result<Reading, IgnoreFault>
    requires { length text.now ≤ 1048576 }
    ensures read { IfOk result (Reaches (lines_of text.now) []) }
    ensures cause { IfErr result (HasLineCause (lines_of text.now)) }
    ensures counted { Counted (G.oversize regexps.old) (G.oversize regexps.new) result }
{
    let mut reading = Reading::new(alloc);
    let mut left = text;
    let mut n = 1;
    while let Some((line, behind)) = cut(left, '\n') {
        reading.take(alloc, regexps, n, line)?;
        n += 1;
        left = behind;
    }
    reading.take(alloc, regexps, n, left)?;
    Ok(reading)
}
