//! What a crash leaves of a few files, by each pick. Bytes that were never sure are told as 0xAA by the first pick, and as 0xFF by the third.
use crate::shelves::Shelves;
use hg_case_tests::agree;
use std::test::Fail;

// Of two files one is written, replaces the other and is removed.
const EACH_CALL: &str =
    "place one abc; place two old; mute write one 3 de; mute sync one; mute write one 0 XY; mute rename one two; mute sync two; mute remove two; mute sync_names; ";

const LEAVES: &str = r"
crash 0 0; show one; show two => abc old
crash 0 1; show one; show two => abc old
crash 0 2; show one; show two => abc old
crash 1 0; show one; show two => abc\xaa\xaa old
crash 1 1; show one; show two => abcde old
crash 1 2; show one; show two => abc\xff\xff old
crash 2 0; show one; show two => abcde old
crash 2 2; show one; show two => abcde old
crash 3 0; show one; show two => \xaa\xaacde old
crash 3 1; show one; show two => XYcde old
crash 3 255; show one; show two => \xff\xffcde old
crash 4 0; show one; show two => \xaa\xaacde old
crash 4 1; show one; show two => - XYcde
crash 4 2; show one; show two => - \xff\xffcde
crash 5 0; show one; show two => - XYcde
crash 5 2; show one; show two => - XYcde
crash 6 0; show one; show two => - XYcde
crash 6 1; show one; show two => - -
crash 6 2; show one; show two => - -
crash 7 0; show one; show two => - -
crash 7 1; show one; show two => - -
";

#[test]
fn leaves_each_moment(rt: HostRuntime) -> Result<(), Fail> {
    agree::<Shelves>(rt.alloc(), EACH_CALL, LEAVES)
}

// A file is made, gets another name and isn't made sure.
const MADE: &str = "mute write one 0 abc; mute rename one two; mute sync_names; ";

const LOSES: &str = r"
crash 1 0; show one; show two => - -
crash 1 1; show one; show two => abc -
crash 1 2; show one; show two => \xff\xff\xff -
crash 3 0; show one; show two => - -
crash 3 1; show one; show two => - abc
crash 3 2; show one; show two => - \xff\xff\xff
";

#[test]
fn loses_a_file_that_was_made(rt: HostRuntime) -> Result<(), Fail> {
    agree::<Shelves>(rt.alloc(), MADE, LOSES)
}

// A rename is sure with a new file of the old name, a removal isn't sure with an absent one, and of two renames to one name only the second is sure with
// that file.
const APART: &str =
    "place one abc; place three cba; mute rename one two; mute write one 0 new; mute sync one; mute remove one; mute sync one; mute rename two four; mute rename three four; mute sync four; ";

const NAMES: &str = r"
crash 1 0; show one => abc
crash 1 0; show two => -
crash 2 0; show one => \xaa\xaa\xaa
crash 2 0; show two => -
crash 3 0; show one => new
crash 3 0; show two => abc
crash 5 0; show one => new
crash 8 0; show one => new
crash 8 0; show two => abc
crash 8 0; show three => -
crash 8 0; show four => cba
";

#[test]
fn loses_the_names_that_are_not_sure(rt: HostRuntime) -> Result<(), Fail> {
    agree::<Shelves>(rt.alloc(), APART, NAMES)
}

// The lock is held, the first call fails, and another puts a file just before the second.
const OTHERS: &str =
    "due 1 place two ab; hold true; fail 0; mute write one 0 abc; mute write one 0 abc; ";

const ANEW: &str = r"
crash 1 1; lock; size one; size two; calls => Ok(true) Ok(None) Ok(Some(2)) 3 calls
crash 1 1; mute lock; mute size one; mute size two; crash 3 0; size two; calls => Ok(Some(2)) 1 calls
";

#[test]
fn starts_anew(rt: HostRuntime) -> Result<(), Fail> {
    agree::<Shelves>(rt.alloc(), OTHERS, ANEW)
}
