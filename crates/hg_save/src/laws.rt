//! Laws of the definitions.

ghost use Rattle.std.specs.Prelude.{Err, IsTrue, List, None, Ok, Result, Some, length, ℕ, ◌+◌, ◌<◌, ◌≡◌, ◌≤◌};
ghost use Rattle.hg_append.specs.Encoded.{IsWritten, ReadsAs};
ghost use Rattle.hg_append.specs.declared.encoding.Encoded.{Encoded};
ghost use Rattle.hg_docket.specs.Docket.{docket_of, docket_refusal};
ghost use Rattle.hg_docket.specs.declared.fault.DocketFault.{DocketFault};
ghost use Rattle.hg_entry.specs.Table.{Table};
ghost use Rattle.hg_image.specs.Reading.{RecordFault, reading_of};
ghost use Rattle.hg_mixed.specs.Held.{Held, table};
ghost use Rattle.hg_save.specs.Loads.{IsTry, Loads, Tries, Try, files_at, found_by};
ghost use Rattle.hg_save.specs.Others.{HasData, IsFrontOf, KeepData, KeepsStood, UsesData, WasLoaded, WasRecorded, named_file};
ghost use Rattle.hg_save.specs.Record.{shown_in};
ghost use Rattle.hg_save.specs.Saved.{IsOver};
ghost use Rattle.hg_save.specs.declared.loaded.Loaded.{Loaded};
ghost use Rattle.hg_shelf.specs.History.{Extends, Files, History, Who};
ghost use Rattle.hg_save.specs.Behind.{IsKeepingUsed, IsNotBeyond, KeepsUsed};
ghost use Rattle.hg_append.specs.Appended.{IsAppended, IsOverImage};
ghost use Rattle.hg_append.specs.Loss.{plan_of};
ghost use Rattle.hg_image.specs.Reading as a_record_fault;
ghost use Rattle.hg_save.specs.declared.load_fault.LoadFault.TheVariants as a_fault;
ghost use Rattle.hg_append.specs.declared.way.Way.TheVariants as a_way;

/// What a table is encoded as can be published over the record that the table was opened from.
pub fn encoded_over()
    ensures { (loaded nodes : List ℕ) (held : Held) (new : Encoded) (file : List ℕ) → held.docket.id ≡ (docket_of loaded).id → IsWritten held new
        → ReadsAs (table held) (reading_of new.docket.items file) → IsOver loaded nodes new }
{}

/// Where others keep the data that dockets name, a load found the record of one moment.
pub fn one_moment()
    ensures found { (old new : History) (tries : List Try) (loaded : Loaded) → KeepData new old.last → Loads old new tries (Ok loaded)
        → WasRecorded old new (reading_of loaded.shown.items loaded.nodes.items) }
    // So did each try that found a record, and the last of several.
    ensures tried { (old new : History) (tried : Try) (recorded : Result Table RecordFault) → KeepData new old.last → IsTry old new tried
        → found_by new tried ≡ Some recorded → WasRecorded old new recorded }
    ensures last { (old new : History) (tries : List Try) (recorded : Result Table RecordFault) → KeepData new old.last
        → (t : Tries old new tries) → found_by new t.last ≡ Some recorded → WasRecorded old new recorded }
    // The bytes that it loaded stood so at one moment, too.
    ensures bytes { (old new : History) (tries : List Try) (loaded : Loaded) → KeepData new old.last → Loads old new tries (Ok loaded)
        → docket_refusal loaded.shown.items ≡ None → WasLoaded old new loaded }
    // A fault of the docket that it told stood at one moment, whatever others do.
    ensures fault { (old new : History) (tries : List Try) (fault : DocketFault) → Loads old new tries (Err (a_fault.Docket fault))
        → WasRecorded old new (Err (a_record_fault.Docket fault)) }
{}

/// Where each step keeps the bytes that dockets use, whoever made it, and the standing docket's are there at first, the data that dockets name is
/// kept throughout: so publications beside each other keep to what is asked of others.
pub fn data_kept()
    ensures all { (h : History) (from : ℕ) → IsTrue h.told → HasData (files_at h from) → ((by : Who) → KeepsUsed by h from) → KeepData h from }
    // It is enough that each keeps the data of the dockets which have stood.
    ensures stood { (h : History) (from : ℕ) → IsTrue h.told → HasData (files_at h from)
        → ((k : ℕ) → from ≤ k → k < h.last → KeepsStood h from k) → KeepData h from }
    // So does a step of this program where none of these is beyond the one that stands.
    ensures own { (h : History) (from k : ℕ) → IsKeepingUsed (files_at h k) (files_at h (k + 1))
        → ((j : ℕ) → from ≤ j → j ≤ k → IsNotBeyond (files_at h k) (shown_in (files_at h j))) → KeepsStood h from k }
{}

/// Where others keep the data that dockets name, what a load found is all that its docket uses, and it stands at the front of the data file at each
/// later moment at which the docket stands as it was loaded.
pub fn nodes_stay()
    ensures nodes { (old new h : History) (loaded : Loaded) → Extends new h → KeepData h old.last → UsesData loaded.shown.items → WasLoaded old new loaded
        → (k : ℕ) → new.last ≤ k → k ≤ h.last → shown_in (files_at h k) ≡ loaded.shown.items
        → IsFrontOf (named_file loaded.shown.items (files_at h k)) (docket_of loaded.shown.items).used loaded.nodes.items }
    ensures long { (old new h : History) (loaded : Loaded) → Extends new h → KeepData h old.last → UsesData loaded.shown.items → WasLoaded old new loaded
        → length loaded.nodes.items ≡ (docket_of loaded.shown.items).used }
{}

/// What a table is encoded as behind its data file can be published over the record that the table was opened from.
pub fn encoded_behind()
    ensures { (loaded nodes : List ℕ) (held : Held) (new : Encoded) (file : List ℕ) → held.docket ≡ docket_of loaded → held.bytes ≡ nodes → IsOverImage held
        → plan_of held ≡ a_way.Append → IsAppended held new → ReadsAs (table held) (reading_of new.docket.items file) → IsOver loaded nodes new }
{}
