// The clock of a working copy in real files, by a file below `.hg` that is written: no clause says it.
use crate::steps::agree;
use hg_disk::Root;
use std::test::Fail;

// `home` brings the process back into the root, where std looks.
const LAID: &str = "folder real_test; file real_test/file x; ";

const TELLS: &str = "
folder .hg; now real_test/file; home; is .hg/probe; told => true true none
folder .hg; now real_test/file; home; file real_test/later y; now real_test/later; home; text .hg/probe => true true 0
folder .hg; file .hg/probe long; now .hg/probe; home; text .hg/probe => true 0
folder .hg; time real_test/file 4294967296 1; now real_test/file => false
folder .hg; now real_test/file; stat real_test/file; list real_test; put real_test/new file 0 a; size probe; home; text real_test/new => true File false 1 file Ok(true) Ok(Some(1)) a
";

#[test]
fn tells_the_clock(rt: HostRuntime) -> Result<(), Fail> {
    agree(&rt, &Root::current(&rt), LAID, TELLS)
}

// Nothing is made where no folder `.hg` is, and nothing is written through a link.
const LOWEST: &str = "
now real_test/file; home; is .hg; told => lowest false none
file .hg y; now real_test/file; home; text .hg; unlink .hg; told => lowest y none
folder real_test/folder; link .hg real_test/folder; now real_test/file; home; is real_test/folder/probe; unlink .hg => lowest false
folder .hg; link .hg/probe ../real_test/file; now real_test/file; home; text real_test/file; target .hg/probe; told => lowest x ../real_test/file none
folder .hg; link .hg/probe ../real_test/nowhere; now real_test/file; home; is real_test/nowhere => lowest false
folder .hg/probe; now real_test/file; told => lowest none
";

#[test]
fn tells_the_lowest_time(rt: HostRuntime) -> Result<(), Fail> {
    agree(&rt, &Root::current(&rt), LAID, LOWEST)
}

// From a root without a name that serves nothing is written.
#[test]
fn writes_nothing_from_a_root_without_a_name(rt: HostRuntime) -> Result<(), Fail> {
    let line = "folder .hg; now real_test/file; is .hg/probe => lowest false";
    agree(&rt, &Root::nameless(), LAID, line)
}
