//! Globs, normalized as paths.

ghost use Rattle.std.specs.Prelude.{◌≡◌, ◌++◌, ◌∷◌, [], drop, IfOk, OnOk, string_bytes, if◌then◌else◌};
ghost use Rattle.hg_ignore.specs.Line as lines;
ghost use Rattle.hg_ignore.specs.Line.{is_absolute, is_step, slashed};
ghost use Rattle.hg_syntax.specs.Text.{pieces};
ghost use Rattle.hg_ignore.specs.Normal.{steps_of, IsSlashed};

use hg_base::OutOfMemory;
use hg_syntax::cut;
use std::alloc::Global;

/// Whether a component of a glob says where to look: it isn't empty, and isn't `.`.
fn is_step(piece: &str) -> bool
    ensures { result ≡ is_step piece.now }
{
    !(piece.is_empty() || piece == ".")
}

/// Puts a component behind a slash, where it says where to look.
fn put_step(steps: &mut String, piece: &str) -> Result<(), OutOfMemory>
    ensures { OnOk result (string_bytes steps.new ≡ string_bytes steps.old ++ (if is_step piece.now then 47 ∷ piece.now else [])) }
{
    if is_step(piece) {
        steps.push('/')?;
        steps.push_str(piece)?;
    }
    Ok(())
}

/// The components of a glob that say where to look, with a slash before each.
fn steps_of(alloc: Global, text: &str) -> Result<String, OutOfMemory>
    ensures { IfOk result (λ steps. string_bytes steps ≡ steps_of text.now) }
{
    let mut steps = String::new(alloc);
    let mut left = text;
    while let Some((piece, behind)) = cut(left, '/') {
        put_step(&mut steps, piece)?;
        left = behind;
    }
    put_step(&mut steps, left)?;
    Ok(steps)
}

/// The text without a slash at its beginning.
fn without_slash(text: &str) -> &str
    requires { IsSlashed text.now }
    ensures { result.now ≡ drop 1 text.now }
{
    match text.strip_prefix('/') {
        None => text,
        Some(rest) => rest,
    }
}

/// A glob normalized as a path.
pub fn normalized(alloc: Global, text: &str) -> Result<String, OutOfMemory>
    ensures { IfOk result (λ glob. string_bytes glob ≡ lines.normalized text.now) }
{
    let steps = steps_of(alloc, text)?;
    if text.starts_with('/') {
        return Ok(steps);
    }
    Ok(String::from_str(alloc, without_slash(steps.as_str()))?)
}
