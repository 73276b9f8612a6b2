//! Laws of the definitions.

ghost use Rattle.std.specs.Prelude.{◌≡◌, ◌≤◌, ℕ, List, None, chars, length};
ghost use Rattle.hg_glob.specs.Part.{glob_of};
ghost use Rattle.hg_glob.specs.Pattern.{Pattern};
ghost use Rattle.hg_glob.specs.Refusal.{refusal};
ghost use Rattle.hg_glob.specs.Syntax.{IsSpelled};

/// A text that isn't refused spells its glob, by the rules of the constructs.
pub fn is_spelled()
    ensures { (text : List ℕ) → refusal text ≡ None → IsSpelled (chars text) (glob_of (chars text)) }
{}

/// By these rules a text spells one glob at most.
pub fn one_glob()
    ensures { (text : List ℕ) (a b : Pattern) → IsSpelled text a → IsSpelled text b → a ≡ b }
{}

/// And a text that spells one is refused for its length alone.
pub fn refused_for_length()
    ensures { (text : List ℕ) (g : Pattern) → IsSpelled (chars text) g → length text ≤ 4095 → refusal text ≡ None }
{}
