// What is put into real files and taken away, and what stands there then: no clause says it.
use crate::steps::agree;
use hg_disk::Root;
use std::test::Fail;

// `home` brings the process back into the root, where std looks.
const LAID: &str =
    r"folder real_test/folder; file real_test/folder/inner 1; file real_test/file old; file real_test/program #!; mode real_test/program 755; link real_test/link file; link real_test/dangling nowhere; link real_test/way folder; ";

const TAKES: &str = "
take real_test/file; stat real_test/file; take real_test/file; list real_test => Ok(true) nothing Ok(false) dangling folder link program way
take real_test/link; take real_test/dangling; take real_test/way; home; text real_test/file; list real_test/folder => Ok(true) Ok(true) Ok(true) old inner
take real_test/folder; take real_test/absent; take real_test/file/a; take real_test/way/inner; take real_test/absent/a; list real_test/folder => Ok(false) Ok(false) Ok(false) Ok(false) Ok(false) inner
take real_test/folder/inner; list real_test/folder; told => Ok(true) none
";

#[test]
fn takes_files_and_links_away(rt: HostRuntime) -> Result<(), Fail> {
    agree(&rt, &Root::current(&rt), LAID, TAKES)
}

// What is put anew can be used as the user's mask says, whatever stood there; what stands behind a link is never touched.
const ANEW: &str = r"
put real_test/new file 0 hi; stat real_test/new; home; text real_test/new; alike real_test/new real_test/file 777 => Ok(true) File false 2 hi true
put real_test/new program 0 \e; stat real_test/new; home; alike real_test/new real_test/folder 777 => Ok(true) File true 0 true
put real_test/new link 0 file; stat real_test/new; home; target real_test/new; text real_test/new => Ok(true) Link false 4 file old
mode real_test/file 600; put real_test/file program 0 new; stat real_test/file; home; text real_test/file; alike real_test/file real_test/folder 777 => Ok(true) File true 3 new true
put real_test/program file 0 new; stat real_test/program; home; alike real_test/program real_test/file 777 => Ok(true) File false 3 true
put real_test/link file 0 new; stat real_test/link; home; text real_test/link; text real_test/file => Ok(true) File false 3 new old
put real_test/dangling file 0 new; stat real_test/dangling; home; is real_test/nowhere => Ok(true) File false 3 false
put real_test/way file 0 new; list real_test/folder; stat real_test/way => Ok(true) inner File false 3
put real_test/file link 0 folder; stat real_test/file; home; target real_test/file => Ok(true) Link false 6 folder
put real_test/link link 0 program; home; target real_test/link; text real_test/file => Ok(true) program old
put real_test/folder file 0 x; put real_test/folder link 0 x; list real_test/folder => Ok(false) Ok(false) inner
put real_test/x/y/z file 0 v; stat real_test/x; list real_test/x/y; home; text real_test/x/y/z => Ok(true) Dir false 0 z v
put real_test/x/link link 0 ../file; put real_test/x/a file 0 x; list real_test/x; home; text real_test/x/link => Ok(true) Ok(true) a link old
put real_test/file/a file 0 x; put real_test/link/a file 0 x; put real_test/way/a file 0 x; put real_test/dangling/a/b file 0 x; list real_test/folder; list real_test => Ok(false) Ok(false) Ok(false) Ok(false) inner dangling file folder link program way
put real_test/new file 0 hi; put real_test/file file 0 hi; list real_test; told => Ok(true) Ok(true) dangling file folder link new program way none
";

#[test]
fn puts_files_and_links(rt: HostRuntime) -> Result<(), Fail> {
    agree(&rt, &Root::current(&rt), LAID, ANEW)
}

// More bytes go behind the file that stands there, and not behind one that is put there meanwhile as a link.
const BEHIND: &str = r"
put real_test/new file 0 ab; put real_test/new file 2 cd; put real_test/new program 4 ef; stat real_test/new; home; text real_test/new => Ok(true) Ok(true) Ok(true) File false 6 abcdef
put real_test/new file 0 ab; put real_test/file file 0 AB; put real_test/new file 2 cd; put real_test/file file 2 CD; home; text real_test/new; text real_test/file => Ok(true) Ok(true) Ok(true) Ok(true) abcd ABCD
put real_test/program file 2 x; stat real_test/program => Ok(true) File true 3
mode real_test/file 640; put real_test/file file 3 er; home; text real_test/file; rights real_test/file 777 => Ok(true) older 640
put real_test/file file 2 x; put real_test/file file 4 x; home; text real_test/file => Ok(false) Ok(false) old
put real_test/link file 3 x; put real_test/link file 4 x; put real_test/absent file 1 x; put real_test/folder file 1 x; put real_test/file/a file 1 x; put real_test/way/inner file 1 x; put real_test/absent/a file 1 x; home; text real_test/file; text real_test/folder/inner; is real_test/absent => Ok(false) Ok(false) Ok(false) Ok(false) Ok(false) Ok(false) Ok(false) old 1 false
put real_test/new file 0 ab; home; unlink real_test/new; link real_test/new program; put real_test/new file 2 cd; home; text real_test/program => Ok(true) Ok(false) #!
put real_test/new file 0 ab; home; unlink real_test/new; file real_test/new xy; put real_test/new file 2 cd; home; text real_test/new => Ok(true) Ok(true) xycd
many real_test/file link 0 4096; home; text real_test/file => Ok(false) old
";

#[test]
fn puts_bytes_behind(rt: HostRuntime) -> Result<(), Fail> {
    agree(&rt, &Root::current(&rt), LAID, BEHIND)
}

// A name that was left beside isn't touched, and another is taken. Where all are in use, only what would take another's place fails.
const BESIDE: &str = r"
file real_test/.hgtrack-new~0 left; put real_test/file file 0 new; home; text real_test/file; text real_test/.hgtrack-new~0; is real_test/.hgtrack-new~1; told => Ok(true) new left false none
link real_test/.hgtrack-new~0 program; put real_test/file file 0 new; home; text real_test/file; text real_test/program; target real_test/.hgtrack-new~0 => Ok(true) new #! program
link real_test/.hgtrack-new~0 nowhere; put real_test/file link 0 new; home; target real_test/file; is real_test/nowhere; target real_test/.hgtrack-new~0 => Ok(true) new false nowhere
folder real_test/.hgtrack-new~0; file real_test/.hgtrack-new~1 left; put real_test/file file 0 new; home; text real_test/file; text real_test/.hgtrack-new~1; is real_test/.hgtrack-new~2 => Ok(true) new left false
file real_test/.hgtrack-new~0 0; file real_test/.hgtrack-new~1 1; file real_test/.hgtrack-new~2 2; file real_test/.hgtrack-new~3 3; put real_test/new file 0 new; put real_test/file file 3 er; put real_test/file file 0 x; told; home; text real_test/new; text real_test/file; text real_test/.hgtrack-new~0; text real_test/.hgtrack-new~3 => Ok(true) Ok(true) Err(Failed) real_test/file: each name beside it is in use new older 0 3
file real_test/.hgtrack-new~0 left; put real_test/.hgtrack-new~0 file 0 new; home; text real_test/.hgtrack-new~0; is real_test/.hgtrack-new~1 => Ok(true) new false
";

#[test]
fn leaves_what_is_beside(rt: HostRuntime) -> Result<(), Fail> {
    agree(&rt, &Root::current(&rt), LAID, BESIDE)
}

// What fails is told, and what stood there stays; nothing is left beside it. (Who may write into each folder is told by std.)
const FAILS: &str = r"
put real_test/new link 0 \xff; told; list real_test => Err(Failed) real_test/new: a target that isn't text dangling file folder link program way
put real_test/file link 0 \xff; told; list real_test; home; text real_test/file => Err(Failed) real_test/file: a target that isn't text dangling file folder link program way old
put real_test/yyyyyyyyyyyyyyyyyyyyyyyyyyyyyyyyyyyyyyyyyyyyyyyyyyyyyyyyyyyyyyyyyyyyyyyyyyyyyyyyyyyyyyyyyyyyyyyyyyyyyyyyyyyyyyyyyyyyyyyyyyyyyyyyyyyyyyyyyyyyyyyyyyyyyyyyyyyyyyyyyyyyyyyyyyyyyyyyyyyyyyyyyyyyyyyyyyyyyyyyyyyyyyyyyyyyyyyyyyyyyyyyyyyyyyyyyyyyyyyyyyyyyyyyyyyyyyyy file 0 x; told; put real_test/file file 0 new; home; text real_test/file => Err(Failed) real_test/yyyyyyyyyyyyyyyyyyyyyyyyyyyyyyyyyyyyyyyyyyyyyyyyyyyyyyyyyyyyyyyyyyyyyyyyyyyyyyyyyyyyyyyyyyyyyyyyyyyyyyyyyyyyyyyyyyyyyyyyyyyyyyyyyyyyyyyyyyyyyyyyyyyyyyyyyyyyyyyyyyyyyyyyyyyyyyyyyyyyyyyyyyyyyyyyyyyyyyyyyyyyyyyyyyyyyyyyyyyyyyyyyyyyyyyyyyyyyyyyyyyyyyyyyyyyyyyy: file name too long Ok(true) new
put real_test/yyyyyyyyyyyyyyyyyyyyyyyyyyyyyyyyyyyyyyyyyyyyyyyyyyyyyyyyyyyyyyyyyyyyyyyyyyyyyyyyyyyyyyyyyyyyyyyyyyyyyyyyyyyyyyyyyyyyyyyyyyyyyyyyyyyyyyyyyyyyyyyyyyyyyyyyyyyyyyyyyyyyyyyyyyyyyyyyyyyyyyyyyyyyyyyyyyyyyyyyyyyyyyyyyyyyyyyyyyyyyyyyyyyyyyyyyyyyyyyyyyyyyyyyyyyyyyyy/a file 0 x; told; take real_test/yyyyyyyyyyyyyyyyyyyyyyyyyyyyyyyyyyyyyyyyyyyyyyyyyyyyyyyyyyyyyyyyyyyyyyyyyyyyyyyyyyyyyyyyyyyyyyyyyyyyyyyyyyyyyyyyyyyyyyyyyyyyyyyyyyyyyyyyyyyyyyyyyyyyyyyyyyyyyyyyyyyyyyyyyyyyyyyyyyyyyyyyyyyyyyyyyyyyyyyyyyyyyyyyyyyyyyyyyyyyyyyyyyyyyyyyyyyyyyyyyyyyyyyyyyyyyyyy; list real_test => Err(Failed) real_test/yyyyyyyyyyyyyyyyyyyyyyyyyyyyyyyyyyyyyyyyyyyyyyyyyyyyyyyyyyyyyyyyyyyyyyyyyyyyyyyyyyyyyyyyyyyyyyyyyyyyyyyyyyyyyyyyyyyyyyyyyyyyyyyyyyyyyyyyyyyyyyyyyyyyyyyyyyyyyyyyyyyyyyyyyyyyyyyyyyyyyyyyyyyyyyyyyyyyyyyyyyyyyyyyyyyyyyyyyyyyyyyyyyyyyyyyyyyyyyyyyyyyyyyyyyyyyyyy: file name too long Ok(false) dangling file folder link program way
mode real_test/folder 555; like real_test/folder/new real_test/folder/other; home; mode real_test/folder 755; list real_test => true dangling file folder link program way
mode real_test/folder 000; like real_test/folder/new real_test/folder/other; home; mode real_test/folder 755; list real_test => true dangling file folder link program way
";

#[test]
fn fails_and_leaves_what_stood_there(rt: HostRuntime) -> Result<(), Fail> {
    agree(&rt, &Root::current(&rt), LAID, FAILS)
}

// From a root without a name that serves only what stands right in it is changed.
const RIGHT_IN: &str = "
put real_test file 0 x; put real_test file 1 y; text real_test; take real_test; is real_test; told => Ok(true) Ok(true) xy Ok(true) false none
put real_test link 0 nowhere; put real_test file 0 x; text real_test; is nowhere; take real_test => Ok(true) Ok(true) x false Ok(true)
folder real_test; file real_test/a x; put real_test/a file 0 y; told; take real_test/a; text real_test/a => Err(Failed) real_test/a: the root has no name that serves Err(Failed) x
folder real_test; put real_test file 0 x; take real_test; is real_test => Ok(false) Ok(false) true
";

#[test]
fn changes_what_stands_right_in_the_root(rt: HostRuntime) -> Result<(), Fail> {
    agree(&rt, &Root::nameless(), "", RIGHT_IN)
}
