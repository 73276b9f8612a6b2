//! The laws of good records.

ghost use Rattle.hg_session.specs.GoodLaws.{MadeIsGood, NotedIsGood, AnsweredKeepsGood};

use hg_shelf::Shelf;

/// What a command makes of a good record is good.
pub fn good_is_made()
    ensures made { MadeIsGood }
    ensures noted { NotedIsGood }
{}

/// Whatever a command did, from a shelf of which whatever a crash leaves is good it leads to such a one, at each of its moments, where it has what it needs
/// of others; and there the recorded times of a record that was read before its first step are right.
pub fn good_is_kept<S: Shelf>()
    ensures { AnsweredKeepsGood S.history S.images }
{}
