//! The syntaxes of lines, and the words that name them.

ghost use Rattle.std.specs.Prelude.{◌≡◌};
ghost use Rattle.hg_syntax.specs.Syntax.{form_of, syntax_named};

/// How a line is read: as a regexp, as a glob in each directory, or as a glob from the root on.
#[derive(Clone, Copy, Debug, PartialEq, Eq)]
pub enum Syntax {
    Regexp,
    Glob,
    RootGlob,
}

/// What the word in front of a line's first colon makes of the line.
#[derive(Clone, Copy, Debug, PartialEq, Eq)]
pub enum Form {
    /// It names the syntax of the lines that follow.
    Naming,
    /// It names another file, by its path from the root.
    Include,
    /// It names another file, by its path from the directory of the file that holds the line.
    SubInclude,
    /// It is the line's own syntax.
    Own(Syntax),
    /// It is part of a pattern.
    Plain,
}

/// The syntax of that name.
pub fn syntax_named(name: &str) -> Option<Syntax>
    ensures { result ≡ syntax_named name.now }
{
    if name == "glob" {
        return Some(Syntax::Glob);
    }
    if name == "rootglob" {
        return Some(Syntax::RootGlob);
    }
    if name == "regexp" || name == "re" {
        return Some(Syntax::Regexp);
    }
    None
}

/// What the word in front of a line's first colon makes of the line.
pub fn form_of(word: &str) -> Form
    ensures { result ≡ form_of word.now }
{
    if word == "syntax" {
        return Form::Naming;
    }
    if word == "include" {
        return Form::Include;
    }
    if word == "subinclude" {
        return Form::SubInclude;
    }
    if word == "glob" || word == "relglob" {
        return Form::Own(Syntax::Glob);
    }
    if word == "rootglob" {
        return Form::Own(Syntax::RootGlob);
    }
    if word == "re" || word == "regexp" || word == "relre" {
        return Form::Own(Syntax::Regexp);
    }
    Form::Plain
}
