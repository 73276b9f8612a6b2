//! Honest times and faces: the laws that rest on them, and what a face tells.

ghost use Rattle.hg_tree.specs.Honest.{LawOfFaces, HonestPast, StaysPast};
ghost use Rattle.hg_tree.specs.Telling.{FaceIsListed, FaceIsTold, FaceTells, FaceWithExec};

/// The law of faces. Where times are honest, a path that showed a time below the clock and shows it again later had one face all
/// the while: the same kind, bytes, time and names.
pub fn faces_stay()
    ensures { LawOfFaces }
{}

/// Times that are honest over a history were so over each earlier state of it.
pub fn honest_past()
    ensures { HonestPast }
{}

/// A time below the clock of a moment is below that of each later one, where times are honest.
pub fn stays_past()
    ensures { StaysPast }
{}

/// A path has one face at two moments exactly where it shows the same at both but for the executable bit, and where that is the same too
/// it shows the same stat.
pub fn faces_tell()
    ensures tells { FaceTells }
    ensures told { FaceIsTold }
    ensures exec { FaceWithExec }
{}

/// The names of a directory's face are those that a listing gives.
pub fn faces_are_listed()
    ensures { FaceIsListed }
{}
