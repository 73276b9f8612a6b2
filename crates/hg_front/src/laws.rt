//! What follows from how a command is begun.

ghost use Rattle.std.specs.Prelude.{ℕ, List, Option};
ghost use Rattle.hg_front.specs.Carried.{HasNoFolder, IsStoppedAs};
ghost use Rattle.hg_front.specs.Placed.{IsPlaced};
ghost use Rattle.hg_front.specs.Start.{BeginsAt};
ghost use Rattle.hg_front.specs.declared.placing.Placed.{Placed};
ghost use Rattle.hg_front.specs.declared.start.Here.{Here};

/// No command may both begin and not begin where it is started: what `carry` answers of one is decided by where that is and by its words, but for want of memory.
pub fn begins_or_not()
    ensures { (folder : Option (List ℕ)) (here : Here) (words : List (List ℕ)) (placed : Placed) (old new : Option (List ℕ)) (before after : ℕ) → IsPlaced folder words placed → BeginsAt here placed old new before after
        → (old new : Option (List ℕ)) (before after : ℕ) → (¬ IsStoppedAs folder here words old new before after) × (¬ HasNoFolder folder words old new before after) }
{}
