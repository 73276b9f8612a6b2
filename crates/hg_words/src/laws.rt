//! Laws of the definitions.

ghost use Rattle.std.specs.Prelude.{◌≡◌, ◌≤◌, ◌+◌, ◌++◌, ◌∷◌, ◌<◌, ◌&&◌, [], IsTrue, ℕ, List, Ok, Some, length, map};
ghost use Rattle.hg_base.specs.PathText.{components, is_path};
ghost use Rattle.std.specs.List.{list_any};
ghost use Rattle.std.specs.Str.{bytes_eq};
ghost use Rattle.hg_words.specs.Command.{Form, command_of, forms};
ghost use Rattle.hg_words.specs.Help.{Help, help_table};
ghost use Rattle.hg_words.specs.Given.{changes, files_of, is_built, located, name_of, spelled};
ghost use Rattle.hg_words.specs.declared.given.Command.{Command};
ghost use Rattle.hg_words.specs.Told.{from_folder, led};

/// At the root a path is told by itself.
pub fn path_at_root()
    ensures { (word : List ℕ) → IsTrue (is_path word) → from_folder [] word ≡ word }
{}

/// In a folder below the root a path is told with the folder's path before it.
pub fn path_in_folder()
    ensures { (folder word : List ℕ) → IsTrue (is_path folder) → IsTrue (is_path word) → from_folder folder word ≡ folder ++ 47 ∷ word }
{}

/// And that is a path, where it is within the limits.
pub fn path_below()
    ensures { (folder word : List ℕ) → IsTrue (is_path folder) → IsTrue (is_path word) → length folder + length word + 1 ≤ 65535
        → length (components folder) + length (components word) ≤ 2048 → IsTrue (is_path (from_folder folder word)) }
{}

/// What is answered and is a path is where the word leads from the folder: a word that leads nowhere never becomes one.
pub fn path_leads()
    ensures { (folder word : List ℕ) → IsTrue (is_path (from_folder folder word)) → led folder (components word) ≡ Some (from_folder folder word) }
{}

/// A command that has file words and is spelled again reads as itself.
pub fn spelled_reads()
    ensures { (c : Command) → 0 < length (files_of c) → command_of (spelled c) ≡ Ok c }
{}

/// A command in a folder is the same command, with each file word told from there.
pub fn located_keeps()
    ensures { (folder : List ℕ) (c : Command)
        → (files_of (located folder c) ≡ map (from_folder folder) (files_of c)) × (changes (located folder c) ≡ changes c) × (is_built (located folder c) ≡ is_built c) }
{}

/// A command without file words stays as it is, whatever the folder.
pub fn located_without_files()
    ensures { (folder : List ℕ) (c : Command) → length (files_of c) ≡ 0 → located folder c ≡ c }
{}

/// The commands of the help are those of the table, in its order.
pub fn help_names_all()
    ensures { map (λ (help : Help). help.name) help_table ≡ map (λ (form : Form). form.name) forms }
{}

/// The help tells as built exactly the commands that are.
pub fn help_tells_built()
    ensures { (c : Command) → list_any (λ (help : Help). bytes_eq help.name (name_of c) && help.is_built) help_table ≡ is_built c }
{}
