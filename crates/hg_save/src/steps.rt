//! The parts of a publication: each makes sure what it does.

ghost use Rattle.std.specs.Prelude.{◌≡◌, [], IsTrue, IsSome, IfOk, IfErr, OnOk, OnErr, length, None, true, codes};
ghost use Rattle.hg_base.specs.Fault.{HasCause};
ghost use Rattle.hg_docket.specs.Docket.{docket_of, docket_refusal};
ghost use Rattle.hg_shelf.specs.Asks.{AsksNothing};
ghost use Rattle.hg_shelf.specs.Images.{Goes, course, last_scene};
ghost use Rattle.hg_shelf.specs.Polite.{Undisturbed};
ghost use Rattle.hg_shelf.specs.Rules.{Perhaps, TornAt, content, moved, overwritten, without};
ghost use Rattle.hg_save.specs.Leads.{IsDone, IsHeld, IsSure, IsWhole, Leads, OnceBy, OwnSteps, ShowsEither, StepBy};
ghost use Rattle.hg_save.specs.Record.{data_name};

use hg_base::Failed;
use hg_shelf::Shelf;

/// Writes bytes at a place of a file, and makes the file sure.
pub fn put<S: Shelf>(shelf: &mut S, name: &str, place: u64, bytes: &[u8]) -> Result<(), Failed>
    requires { (S.history shelf.old).ours ≡ true }
    // The file is as it was, or changed at most where it is written and past its old end.
    ensures torn { Undisturbed (course (S.history shelf.old) (S.images shelf.old)) (course (S.history shelf.new) (S.images shelf.new))
        → Leads
        (TornAt name.now place (length bytes.now))
        (course (S.history shelf.old) (S.images shelf.old))
        (course (S.history shelf.new) (S.images shelf.new)) }
    ensures sure { Undisturbed (course (S.history shelf.old) (S.images shelf.old)) (course (S.history shelf.new) (S.images shelf.new))
        → OnOk
        result
        (IsSure
        name.now
        (overwritten (content ((last_scene (course (S.history shelf.old) (S.images shelf.old))).files name.now)) place bytes.now)
        (course (S.history shelf.new) (S.images shelf.new))) }
    // So each of its steps does.
    ensures tears { Undisturbed (course (S.history shelf.old) (S.images shelf.old)) (course (S.history shelf.new) (S.images shelf.new))
        → OwnSteps
        (StepBy (TornAt name.now place (length bytes.now)))
        (course (S.history shelf.old) (S.images shelf.old))
        (course (S.history shelf.new) (S.images shelf.new)) }
    // At each moment reads show what they showed at the start, or what they show at the end.
    ensures either { Undisturbed (course (S.history shelf.old) (S.images shelf.old)) (course (S.history shelf.new) (S.images shelf.new))
        → ShowsEither (course (S.history shelf.old) (S.images shelf.old)) (course (S.history shelf.new) (S.images shelf.new)) }
    ensures lock { IsTrue (S.history shelf.old).told → IsHeld (S.history shelf.old) (S.history shelf.new) }
    ensures kept { Goes (course (S.history shelf.old) (S.images shelf.old)) (course (S.history shelf.new) (S.images shelf.new)) }
    ensures ours { (S.history shelf.new).ours ≡ (S.history shelf.old).ours }
    ensures unasked { AsksNothing (S.history shelf.old) (S.history shelf.new) }
    ensures held { S.held shelf.new ≡ S.held shelf.old }
    ensures cause { HasCause (S.faults shelf.old) (S.faults shelf.new) result (λ e. Unit {0}) }
{
    shelf.write_at(name, place, bytes)?;
    shelf.sync(name)?;
    Ok(())
}

/// Gives a file another name, in place of a file of that name, and makes that sure.
pub fn swap<S: Shelf>(shelf: &mut S, from: &str, to: &str) -> Result<(), Failed>
    requires { (S.history shelf.old).ours ≡ true }
    ensures leads { Undisturbed (course (S.history shelf.old) (S.images shelf.old)) (course (S.history shelf.new) (S.images shelf.new))
        → IsSome ((last_scene (course (S.history shelf.old) (S.images shelf.old))).files from.now)
        → Leads (Perhaps (moved from.now to.now)) (course (S.history shelf.old) (S.images shelf.old)) (course (S.history shelf.new) (S.images shelf.new)) }
    ensures done { Undisturbed (course (S.history shelf.old) (S.images shelf.old)) (course (S.history shelf.new) (S.images shelf.new))
        → IsSome ((last_scene (course (S.history shelf.old) (S.images shelf.old))).files from.now)
        → OnOk
        result
        (IsDone (moved from.now to.now) (course (S.history shelf.old) (S.images shelf.old)) (course (S.history shelf.new) (S.images shelf.new))) }
    ensures whole { Undisturbed (course (S.history shelf.old) (S.images shelf.old)) (course (S.history shelf.new) (S.images shelf.new))
        → IsSome ((last_scene (course (S.history shelf.old) (S.images shelf.old))).files from.now)
        → IsWhole (moved from.now to.now) (course (S.history shelf.old) (S.images shelf.old)) (course (S.history shelf.new) (S.images shelf.new)) }
    // Each of its steps moves the file, as the first of them, or shows and leaves nothing new.
    ensures steps { Undisturbed (course (S.history shelf.old) (S.images shelf.old)) (course (S.history shelf.new) (S.images shelf.new))
        → IsSome ((last_scene (course (S.history shelf.old) (S.images shelf.old))).files from.now)
        → OwnSteps
        (OnceBy (last_scene (course (S.history shelf.old) (S.images shelf.old))) (moved from.now to.now))
        (course (S.history shelf.old) (S.images shelf.old))
        (course (S.history shelf.new) (S.images shelf.new)) }
    // At each moment reads show what they showed at the start, or what they show at the end.
    ensures either { Undisturbed (course (S.history shelf.old) (S.images shelf.old)) (course (S.history shelf.new) (S.images shelf.new))
        → ShowsEither (course (S.history shelf.old) (S.images shelf.old)) (course (S.history shelf.new) (S.images shelf.new)) }
    ensures lock { IsTrue (S.history shelf.old).told → IsHeld (S.history shelf.old) (S.history shelf.new) }
    ensures kept { Goes (course (S.history shelf.old) (S.images shelf.old)) (course (S.history shelf.new) (S.images shelf.new)) }
    ensures ours { (S.history shelf.new).ours ≡ (S.history shelf.old).ours }
    ensures unasked { AsksNothing (S.history shelf.old) (S.history shelf.new) }
    ensures held { S.held shelf.new ≡ S.held shelf.old }
    ensures cause { HasCause (S.faults shelf.old) (S.faults shelf.new) result (λ e. Unit {0}) }
{
    shelf.rename(from, to)?;
    shelf.sync_names()?;
    Ok(())
}
