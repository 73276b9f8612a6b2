//! What commands do to an entry.

ghost use Rattle.std.specs.Prelude.{◌≡◌, ◌%◌, ◌^◌, ◌||◌, IsTrue};
ghost use Rattle.hg_entry.specs.Entry.{view, stamp_view, state_of};
ghost use Rattle.hg_entry.specs.Steps.{tracked, untracked, without_second, is_link, is_file, seen_clean, unseen};

use crate::entry::{Entry, State};
use hg_base::{Kind, Stamp, Stat};

impl Entry {
    /// What the entry says of its file.
    pub fn state(&self) -> State
        ensures { result ≡ state_of (view self.now) }
    {
        if !self.w {
            return State::Removed;
        }
        if self.p1 {
            if self.p2 {
                State::Merged
            } else {
                State::Normal
            }
        } else {
            if self.p2 { State::Normal } else { State::Added }
        }
    }

    /// The file is tracked from now on, and no time vouches for it.
    pub fn set_tracked(&mut self)
        ensures { view self.new ≡ tracked (view self.old) }
    {
        self.w = true;
        self.stamp = None;
    }

    /// The file is not tracked any more, and what is known of it is dropped. Answers false, and changes nothing, where no parent has
    /// it: such an entry has to go as a whole.
    pub fn set_untracked(&mut self) -> bool
        ensures kept { result ≡ (self.old.p1 || self.old.p2) }
        ensures entry { view self.new ≡ untracked (view self.old) }
    {
        if !one_of(self.p1, self.p2) {
            return false;
        }
        self.w = false;
        self.forget_file();
        true
    }

    /// Nothing of the second parent is left, and where there was something, what is known of the file is dropped. Answers false, and
    /// changes nothing, where the entry would say nothing then.
    pub fn drop_second(&mut self) -> bool
        ensures kept { result ≡ (self.old.w || self.old.p1) }
        ensures entry { view self.new ≡ without_second (view self.old) }
    {
        if !one_of(self.w, self.p1) {
            return false;
        }
        if self.p2 {
            self.p2 = false;
            self.forget_file();
        }
        true
    }

    /// The file was seen to be that of the parent: its size, mode and time are recorded, and no change is expected. Of a link both mode
    /// bits are recorded, as Mercurial does: a link's own mode is 0777, and its programs compare the executable bit of that with the
    /// record.
    pub fn note_clean(&mut self, s: &Stat, t: Stamp)
        requires { IsTrue (is_file s.now.kind) }
        ensures { view self.new ≡ seen_clean (view self.old) s.now (stamp_view t) }
    {
        let link = is_link(s.kind);
        self.exec = one_of(s.exec, link);
        self.link = link;
        self.size = Some((s.size % 0x8000_0000) as u32);
        self.modified = false;
        self.stamp = Some(t);
    }

    // Drops what is known of the file on the disk.
    fn forget_file(&mut self)
        ensures { view self.new ≡ unseen (view self.old) }
    {
        self.exec = false;
        self.link = false;
        self.size = None;
        self.stamp = None;
    }
}

fn one_of(a: bool, b: bool) -> bool
    ensures { result ≡ (a || b) }
{
    a || b
}

fn is_link(kind: Kind) -> bool
    ensures { result ≡ is_link kind }
{
    match kind {
        Kind::Link => true,
        _ => false,
    }
}
