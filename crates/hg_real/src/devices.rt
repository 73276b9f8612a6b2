// What no clause says of the adapters over real files: that they look at the files.
use crate::steps::agree;
use hg_disk::Root;
use std::test::Fail;

const LAID: &str =
    r"folder real_test/folder/.hg; file real_test/file hello; file real_test/program #!; file real_test/for_others \e; file real_test/folder/inner 1; mode real_test/file 644; mode real_test/program 744; mode real_test/for_others 655; link real_test/link folder; link real_test/dangling nowhere; ";

const LOOKS: &str = "
contents real_test/file 0 => Bytes(4) hell
contents real_test/file 3 => Bytes(2) lo..
contents real_test/file 9 => Bytes(0) ....
contents real_test/folder/inner 0 => Bytes(1) 1...
contents real_test/link 0 => Bytes(4) fold
contents real_test/dangling 5 => Bytes(2) re..
contents real_test/folder 0 => Absent ....
contents real_test/link/inner 0 => Absent ....
contents real_test/file/inner 0 => Absent ....
contents real_test/absent 0 => Absent ....
stat real_test => Dir false 0
stat real_test/file => File false 5
stat real_test/program => File true 2
stat real_test/for_others => File false 0
stat real_test/link => Link false 6
stat real_test/dangling => Link false 7
stat real_test/folder/inner => File false 1
stat real_test/link/inner => nothing
stat real_test/file/inner => nothing
stat real_test/absent => nothing
list real_test => dangling file folder for_others link program
list real_test/folder => .hg inner
list real_test/folder/.hg =>
list real_test/link => none
list real_test/file => none
list real_test/absent => none
contents real_test/folder/inner 0; contents real_test/link/inner 0; contents real_test/file/inner 0; contents real_test/absent 0; stat real_test; stat real_test/folder/inner; stat real_test/link/inner; list real_test/folder/.hg; list real_test/link; stat real_test/file; list - => Bytes(1) 1... Absent .... Absent .... Absent .... Dir false 0 File false 1 nothing none File false 5 false
";

// By the name of the root, and without it.
#[test]
fn looks_at_real_files(rt: HostRuntime) -> Result<(), Fail> {
    agree(&rt, &Root::nameless(), LAID, LOOKS)?;
    agree(&rt, &Root::current(&rt), LAID, LOOKS)
}

// A time is shown to the nanosecond, and a change of the mode alone leaves it. The time of a link is its own, and not that of the file to which it leads.
const TIMES: &str = "
time real_test/file 1234567890 123456789; mode real_test/file 644; times real_test/file; stat real_test/file => 1234567890 123456789 File false 3
time real_test/file 1234567890 123456789; mode real_test/file 744; times real_test/file; stat real_test/file => 1234567890 123456789 File true 3
time real_test/file 2147483648 999999999; mode real_test/file 744; times real_test/file; stat real_test/file => 2147483648 999999999 File true 3
time real_test/file 2147483648 999999999; mode real_test/file 600; times real_test/file; stat real_test/file => 2147483648 999999999 File false 3
time real_test/file 0 1; mode real_test/file 600; times real_test/file; stat real_test/file => 0 1 File false 3
time real_test/file 1234567890 123456789; mode real_test/file 700; times real_test/file; mode real_test/file 755; times real_test/file; mode real_test/file 600; times real_test/file => 1234567890 123456789 1234567890 123456789 1234567890 123456789
time real_test/file 0 999999999; mode real_test/file 700; times real_test/file; mode real_test/file 755; times real_test/file; mode real_test/file 600; times real_test/file => 0 999999999 0 999999999 0 999999999
time real_test/file 4294967296 1; mode real_test/file 700; times real_test/file; mode real_test/file 755; times real_test/file; mode real_test/file 600; times real_test/file => 4294967296 1 4294967296 1 4294967296 1
time real_test/folder 1234567890 123456789; mode real_test/folder 700; times real_test/folder; mode real_test/folder 755; times real_test/folder; mode real_test/folder 600; times real_test/folder => 1234567890 123456789 1234567890 123456789 1234567890 123456789
time real_test/folder 0 999999999; mode real_test/folder 700; times real_test/folder; mode real_test/folder 755; times real_test/folder; mode real_test/folder 600; times real_test/folder => 0 999999999 0 999999999 0 999999999
time real_test/folder 4294967296 1; mode real_test/folder 700; times real_test/folder; mode real_test/folder 755; times real_test/folder; mode real_test/folder 600; times real_test/folder => 4294967296 1 4294967296 1 4294967296 1
link real_test/link file; time real_test/link 3 5; later real_test/link 3; times real_test/file => true true 3 5
";

#[test]
fn tells_times(rt: HostRuntime) -> Result<(), Fail> {
    agree(
        &rt,
        &Root::nameless(),
        "folder real_test/folder; file real_test/file one; ",
        TIMES,
    )
}

const READS: &str = "
size dirstate => Ok(Some(0))
size link => Ok(Some(6))
size data/below => Ok(None)
size folder => Err(Failed)
read absent 0 => Absent ....
read dirstate 0 => Bytes(0) ....
read data 18446744073709551615 => Bytes(0) ....
read data 4 => Bytes(2) ef..
read link 1 => Bytes(4) bcde
list - => false
unlink .hg/dirstate; size dirstate => Ok(None)
";

#[test]
fn reads_below_hg(rt: HostRuntime) -> Result<(), Fail> {
    let before =
        r"folder .hg/folder; file .hg/dirstate \e; file .hg/data abcdef; link .hg/link data; ";
    agree(&rt, &Root::current(&rt), "", "size dirstate => Ok(None)")?;
    agree(&rt, &Root::current(&rt), before, READS)
}

// What stands below `.hg` after each call, for each of which there is room. What was written is made sure once, whatever else is written, renamed or taken
// away in between. Nothing is written through a link or into a folder, and the reason is kept.
const WRITES: &str = r"
write dirstate-new 0 abc; sync dirstate-new; text .hg/dirstate-new => Ok(()) Ok(()) abc
write dirstate-new 0 abc; sync dirstate-new; write dirstate-new 5 x; sync dirstate-new; text .hg/dirstate-new => Ok(()) Ok(()) Ok(()) Ok(()) abc\0\0x
write dirstate-new 0 abc; write dirstate-new 5 x; write dirstate-new 1 BCD; sync dirstate-new; text .hg/dirstate-new; write dirstate-new 2; sync dirstate-new; text .hg/dirstate-new => Ok(()) Ok(()) Ok(()) Ok(()) aBCD\0x Ok(()) Ok(()) aBCD\0x
write data 2; sync data; text .hg/data; rights .hg/data 133 => Ok(()) Ok(()) \0\0 0
write plain/f-1 0 one; sync plain/f-1; text .hg/plain/f-1 => Ok(()) Ok(()) one
write dirstate-new 0 abcdef; write data 0 a; file .hg/dirstate old; mode .hg/dirstate 600; rename dirstate-new dirstate; rename dirstate-new dirstate; sync_names; sync dirstate-new; remove data; remove data; rights .hg/dirstate 777; text .hg/dirstate; size dirstate-new; size data; size dirstate => Ok(()) Ok(()) Ok(()) Ok(()) Ok(()) Ok(()) Ok(()) Ok(()) 600 abcdef Ok(None) Ok(None) Ok(Some(6))
write one 0 abc; write one 3 def; sync one; sync one; write one 0 A; write other 0 other; sync one; sync other; text .hg/one => Ok(()) Ok(()) Ok(()) Ok(()) Ok(()) Ok(()) Ok(()) Ok(()) A
write one 0 abc; write new 0 new; rename new one; sync new; sync one; text .hg/one => Ok(()) Ok(()) Ok(()) Ok(()) Ok(()) new
write other 0 other; write other 5 end; remove other; sync other; write other 1 2; text .hg/other => Ok(()) Ok(()) Ok(()) Ok(()) Ok(()) \02
folder .hg/folder; link .hg/link ../outside_of_hg; write link 0 a; sync link; write folder 0 a; sync folder; rename link folder; remove folder; is outside_of_hg; failure => Err(Failed) Err(Failed) Err(Failed) Err(Failed) Err(Failed) Err(Failed) false .hg/link: not a regular file
";

#[test]
fn writes_below_hg(rt: HostRuntime) -> Result<(), Fail> {
    agree(&rt, &Root::current(&rt), "", WRITES)
}

// Two that share a working copy, and Mercurial's own lock, which is a link to nowhere.
const LOCKS: &str = r"
lock; other lock; lock; unlock; unlock; other unlock; is .hg/wlock; other lock; lock; other unlock => Ok(true) Ok(false) Ok(true) Ok(()) Ok(()) Ok(()) false Ok(true) Ok(false) Ok(())
folder .hg; link .hg/wlock host:1; lock; is .hg/host:1 => Ok(false) false
folder .hg; file .hg/wlock \e; lock => Ok(true)
folder .hg; file .hg/wlock \e; briefly; other lock => Ok(true) Ok(true)
";

#[test]
fn locks_below_hg(rt: HostRuntime) -> Result<(), Fail> {
    agree(&rt, &Root::nameless(), "", LOCKS)
}

// Under the lock the shelf stands in `.hg`, and the tree finds its way from there, and back.
const STANDS: &str = r"
folder .hg; file real_test \e; stat real_test; lock; is wlock; stat real_test; write one 0 abc; sync one; size one; unlock; stat real_test; is .hg/wlock; unlink real_test => File false 0 Ok(true) true File false 0 Ok(()) Ok(()) Ok(Some(3)) Ok(()) File false 0 false
";

#[test]
fn go_each_their_way(rt: HostRuntime) -> Result<(), Fail> {
    agree(&rt, &Root::current(&rt), "", STANDS)
}

// What was written and isn't what was written last is opened to be made sure: it stays open. Of what is made sure or read under the lock 64 files at most stay
// open (the lock, the root that names `.hg`, the data and `.hg`; then the data once more), up to the end of the shelf; of what is read without it none.
const OPENS: &str = "
write one 0 1; write other 0 2; held /.hg/one; sync one; held /.hg/one => Ok(()) Ok(()) 1 Ok(()) 2
lock; write data 0 abc; sync data; opened; read data 1; opened; names 100; opened; unlock; opened; read data 1; opened => Ok(true) Ok(()) Ok(()) 4 Bytes(2) bc.. 5 Ok(()) 65 Ok(()) 64 Bytes(2) bc.. 64
";

#[test]
fn keeps_few_files_open(rt: HostRuntime) -> Result<(), Fail> {
    agree(&rt, &Root::nameless(), "", OPENS)
}
