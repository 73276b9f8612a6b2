//! What the tests of times tell, as laws.

ghost use Rattle.hg_mtime.specs.Laws.{MatchIsGiven, MatchTells, NotedMatches, NotedVouches, StampIsGiven, StampTells, VouchIsGiven, VouchTells};

/// What is recorded of a time says that it was before the boundary, in 31 bits; and each such time is recorded.
pub fn stamps_tell()
    ensures tells { StampTells }
    ensures given { StampIsGiven }
{}

/// A time matches a record exactly where it is the recorded one.
pub fn matches_tell()
    ensures tells { MatchTells }
    ensures given { MatchIsGiven }
{}

/// An entry vouches exactly where its marks let it, and size, mode and time are those recorded.
pub fn vouching_tells()
    ensures tells { VouchTells }
    ensures given { VouchIsGiven }
{}

/// What is noted of a file vouches for the look by which it was noted.
pub fn noted_vouches()
    ensures matches { NotedMatches }
    ensures vouches { NotedVouches }
{}
