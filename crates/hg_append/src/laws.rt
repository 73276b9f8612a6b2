//! Laws of the definitions.

ghost use Rattle.std.specs.Prelude.{◌≡◌, ◌+◌, ℕ, List, Option, None, false, true};
ghost use Rattle.std.specs.List.{sum_by};
ghost use Rattle.hg_image.specs.Rows.{rows_of};
ghost use Rattle.hg_mixed.specs.Held.{Held, is_lent, source_at, text_at, table};
ghost use Rattle.hg_append.specs.Layout.{node_size, size_of};
ghost use Rattle.hg_append.specs.Lost.{lost, reached, waste};
ghost use Rattle.hg_append.specs.Tree.{IsTreeOf, Tree, nodes};
ghost use Rattle.hg_docket.specs.Docket.{docket_of};
ghost use Rattle.hg_image.specs.Counts.{is_counted};
ghost use Rattle.hg_image.specs.Reading.{reading_of};
ghost use Rattle.hg_append.specs.declared.encoding.Encoded.{Encoded};
ghost use Rattle.hg_append.specs.Encoded.{ReadsAs};
ghost use Rattle.hg_append.specs.Keeps.{keeps_lent};
ghost use Rattle.hg_append.specs.Put.{AreFew};
ghost use Rattle.hg_append.specs.Appended.{IsExact, IsOverImage, IsSoundlyAppended, StaysAt, file_with};

/// A table has one tree: what is said of the tree of its nodes, its layout and its size among it, is said of the table.
pub fn one_tree()
    ensures { (held : Held) (dir : Option (List ℕ)) (a b : Tree) → IsTreeOf held dir a → IsTreeOf held dir b → a ≡ b }
{}

/// The size of a tree is the sum of what its nodes take: each the 44 bytes of its record, its path and its copy source.
pub fn plain_size()
    ensures { (tree : Tree) → size_of tree ≡ sum_by node_size (nodes tree) }
{}

/// Where nothing is lent any more, all that the image reaches is lost, and what was unreachable already.
pub fn all_lost()
    ensures { (held : Held) → ((dir : Option (List ℕ)) → is_lent held dir ≡ false) → ((at : List ℕ) → text_at held at ≡ None)
        → ((at : List ℕ) → source_at held at ≡ None) → lost held ≡ held.docket.unreachable + sum_by reached (rows_of held.docket held.bytes) }
{}

/// What was appended reads back as the table, and each count is the one from scratch.
pub fn reads_back()
    ensures reads { (held : Held) (e : Encoded) → IsOverImage held → IsSoundlyAppended held e → ReadsAs (table held) (reading_of e.docket.items (file_with held e)) }
    ensures counted { (held : Held) (e : Encoded) → IsOverImage held → IsSoundlyAppended held e
        → is_counted (docket_of e.docket.items) (rows_of (docket_of e.docket.items) (file_with held e)) ≡ true }
{}

/// Each list that was lent stands where it stood, that of the root among them.
pub fn lent_lists_stay()
    ensures { (held : Held) (e : Encoded) → IsOverImage held → IsSoundlyAppended held e → (dir : Option (List ℕ)) → is_lent held dir ≡ true → StaysAt held e dir }
{}

/// Where the image told its waste, and no two of its texts or records shared bytes, the new docket tells the waste, and none share any there.
pub fn waste_is_told()
    ensures exact { (held : Held) (e : Encoded) → IsOverImage held → IsSoundlyAppended held e → IsExact held
        → (docket_of e.docket.items).unreachable + sum_by reached (rows_of (docket_of e.docket.items) (file_with held e)) ≡ (docket_of e.docket.items).used }
    ensures waste { (held : Held) (e : Encoded) → IsOverImage held → IsSoundlyAppended held e → IsExact held
        → (docket_of e.docket.items).unreachable ≡ waste (docket_of e.docket.items) (rows_of (docket_of e.docket.items) (file_with held e)) }
{}

/// What is put behind an image has few entries: each takes a record there or in the image. So its numbers fit where its end does.
pub fn few_entries()
    ensures { (held : Held) → IsOverImage held → AreFew held (keeps_lent held) held.docket.used }
{}
