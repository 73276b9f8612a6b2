//! The files that were read, in the order of reading.

ghost use Rattle.std.specs.Prelude.{◌≡◌, ◌<◌, ◌++◌, ◌∷◌, [], Some, length, OnOk, IfOk};
ghost use Rattle.std.specs.List.{slice_get};
ghost use Rattle.hg_include.specs.Name.{is_of, was_read};

use crate::name::Target;
use crate::piece::Piece;
use crate::warnings::{Warning, Warnings};
use hg_base::OutOfMemory;
use std::alloc::Global;
use std::marker::Model;

/// The files that were read, and of what one is warned; contracts see both as lists.
#[derive(Debug, Drop)]
pub struct Pieces {
    pieces: Vec<Piece>,
    warnings: Warnings,
}

impl Model for Pieces {
    ghost use Rattle.hg_include.specs.Answer.{Read};

    ghost Value = { Read };

    ghost view = { λ p. record { pieces = p.pieces.items; warnings = p.warnings } };
}

/// Whether the piece is of that file with that base.
fn is_of(target: &Target, piece: &Piece) -> bool
    ensures { result ≡ is_of target.now piece.now }
{
    if piece.file.as_str() != target.file.as_str() {
        return false;
    }
    match &piece.base {
        None => match &target.base {
            None => true,
            Some(_) => false,
        },
        Some(dir) => match &target.base {
            None => false,
            Some(other) => dir.as_str() == other.as_str(),
        },
    }
}

/// Whether one of the pieces is of that file with that base.
fn some_is_of(target: &Target, pieces: &[Piece]) -> bool
    ensures { result ≡ was_read target.now pieces.now }
{
    pieces.iter().any(|piece| is_of(target, piece))
}

impl Pieces {
    /// Nothing was read.
    pub(crate) fn new(alloc: Global) -> Pieces
        ensures { result ≡ record { pieces = []; warnings = [] } }
    {
        Pieces {
            pieces: Vec::new(alloc),
            warnings: Warnings::new(alloc),
        }
    }

    /// Puts a file last.
    pub(crate) fn push(&mut self, piece: Piece) -> Result<(), OutOfMemory>
        ensures { OnOk result (self.new ≡ record self.old { pieces = self.old.pieces ++ piece ∷ [] }) }
    {
        self.pieces.push(piece)?;
        Ok(())
    }

    /// Puts a warning last.
    pub(crate) fn warn(&mut self, warning: Warning) -> Result<(), OutOfMemory>
        ensures { OnOk result (self.new ≡ record self.old { warnings = self.old.warnings ++ warning ∷ [] }) }
    {
        self.warnings.push(warning)
    }

    /// Whether the file was read with that base.
    pub(crate) fn has(&self, target: &Target) -> bool
        ensures { result ≡ was_read target.now self.now.pieces }
    {
        some_is_of(target, self.pieces.as_slice())
    }

    pub fn len(&self) -> usize
        ensures { result ≡ length self.now.pieces }
    {
        self.pieces.len()
    }

    /// The file at a place below the length.
    pub fn at(&self, i: usize) -> &Piece
        requires { i < length self.now.pieces }
        ensures { slice_get self.now.pieces i ≡ Some result.now }
    {
        &self.pieces[i]
    }

    /// What one is warned of: lines that name a syntax that isn't known, or a file that isn't there.
    pub fn warnings(&self) -> &Warnings
        ensures { result.now ≡ self.now.warnings }
    {
        &self.warnings
    }
}
