//! What holds over every list of events, whoever makes them.

ghost use Rattle.hg_race.specs.Safe.{IsAlwaysSafe, NoneIsLost, RowsStay, LoadsWhatStood, GoesOn};
ghost use Rattle.hg_race.specs.Orders.{OneSchedule, OneRefusal};
ghost use Rattle.hg_race.specs.Publishes.{AppendIsPublished, NewFileIsPublished, DropShowsTheSame, DifferenceMakesTheNew};

/// Whatever readers and writers do, and wherever they die: no publication is lost, each is its change on the one before, what the docket names
/// is there whole, and who loads gets what stood when it read the docket.
pub fn machine_is_safe()
    ensures safe { IsAlwaysSafe }
    ensures none_is_lost { NoneIsLost }
    ensures rows_stay { RowsStay }
    ensures loads { LoadsWhatStood }
    ensures goes_on { GoesOn }
{}

/// Who holds the lock and has loaded under it publishes its change by two events, and after a new file removes the old one by a third.
pub fn change_is_published()
    ensures appends { AppendIsPublished }
    ensures renews { NewFileIsPublished }
    ensures drops { DropShowsTheSame }
    ensures differs { DifferenceMakesTheNew }
{}

/// In which order a new file's rows stand decides nothing: one list of events leads to worlds that show the same, or it is refused at one place.
pub fn one_answer()
    ensures schedule { OneSchedule }
    ensures refusal { OneRefusal }
{}
