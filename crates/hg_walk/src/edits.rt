//! The laws of edits: what keeps a record trusted.

ghost use Rattle.hg_walk.specs.EditLaws.{CopyIsEdit, DropKeepsTimes, EditKeepsTimes, ForgetKeepsTimes, KeepsThrough, KeptIsTrusted, OthersAreTrusted, SameKeepsTimes, SetIsEdit, UncachedKeepsTimes};

/// A record stays trusted through edits that bring no time.
pub fn times_are_kept()
    ensures kept { KeptIsTrusted }
    ensures others { OthersAreTrusted }
    ensures through { KeepsThrough }
    ensures same { SameKeepsTimes }
    ensures edit { EditKeepsTimes }
    ensures set { SetIsEdit }
    ensures copy { CopyIsEdit }
    ensures drop { DropKeepsTimes }
{}

/// So it does where a cache goes.
pub fn caches_are_kept()
    ensures one { ForgetKeepsTimes }
    ensures all { UncachedKeepsTimes }
{}
