//! What holds of readings, whatever they read.

ghost use Rattle.hg_include.specs.Moments.{SomeWayAgrees};

/// For all that a tree was asked there is a way to know that agrees with it, so that what is said of every such way is said of some.
pub fn some_way_agrees()
    ensures { SomeWayAgrees }
{}
