//! The printed texts: the laws that there is one.

ghost use Rattle.hg_session.specs.Status.{OneText};
ghost use Rattle.hg_session.specs.Debug.{OneRecord};

/// What a status prints is one text: from the same files and the same moment there is one text of the full listing.
pub fn one_text()
    ensures { OneText }
{}

/// What `debugdirstate` prints is one text: there is one text of the record in the same files.
pub fn one_record()
    ensures { OneRecord }
{}
