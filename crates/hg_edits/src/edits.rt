// Edits of a table, done to a table in memory and to a plain one beside it.
use hg_append::{Encoded, Way, encode};
use hg_base::{Id20, PathRef, Stamp};
use hg_docket::Docket;
use hg_entry::Entry;
use hg_image::Image;
use hg_mixed::Mixed;
use hg_nodes::SetFault;
use std::alloc::Global;
use std::test::Fail;
use std::vec::Vec;

/// The entries of the examples.
#[derive(Clone, Copy, Debug)]
pub(crate) enum File {
    Added,
    Clean,
    Removed,
    Merged,
}

/// The times of the examples.
#[derive(Clone, Copy, Debug)]
pub(crate) enum When {
    Noon,
    Late,
}

const ADDED: Entry = Entry {
    w: true,
    p1: false,
    p2: false,
    exec: false,
    link: false,
    size: None,
    stamp: None,
    modified: false,
    fallback: 0,
};

const CLEAN: Entry = Entry {
    w: true,
    p1: true,
    p2: false,
    exec: true,
    link: false,
    size: Some(5),
    stamp: Some(NOON),
    modified: false,
    fallback: 0,
};

const REMOVED: Entry = Entry {
    w: false,
    p1: true,
    p2: false,
    exec: false,
    link: false,
    size: None,
    stamp: None,
    modified: false,
    fallback: 0,
};

const MERGED: Entry = Entry {
    w: true,
    p1: true,
    p2: true,
    exec: false,
    link: true,
    size: Some(2_147_483_648),
    stamp: None,
    modified: true,
    fallback: 15,
};

const NOON: Stamp = Stamp {
    seconds: 12,
    nanos: 0,
    ambiguous: false,
};

const LATE: Stamp = Stamp {
    seconds: 2_147_483_647,
    nanos: 999_999_999,
    ambiguous: true,
};

fn entry_of(file: File) -> Entry {
    match file {
        File::Added => ADDED,
        File::Clean => CLEAN,
        File::Removed => REMOVED,
        File::Merged => MERGED,
    }
}

fn time_of(when: When) -> Stamp {
    match when {
        When::Noon => NOON,
        When::Late => LATE,
    }
}

/// What is done to one path, or to all.
#[derive(Clone, Copy, Debug)]
pub(crate) enum Edit {
    Set(&'static str, File),
    Copy(&'static str, Option<&'static str>),
    Drop(&'static str),
    Note(&'static str, When),
    Forget(&'static str),
    NoCaches,
    Ids(u8, u8),
    Hash(u8),
}

/// What a plain table holds of one path; `there` where a node stands.
#[derive(Clone, Copy, Debug)]
pub(crate) struct Row {
    pub path: &'static str,
    pub there: bool,
    pub entry: Option<Entry>,
    pub source: Option<&'static str>,
    pub cache: Option<Stamp>,
}

/// A plain table: a row for each path that an edit may name, ascending.
#[derive(Drop)]
pub(crate) struct Plain {
    pub rows: Vec<Row>,
    pub p1: [u8; 20],
    pub p2: [u8; 20],
    pub hash: [u8; 20],
}

// One text begins with the other and a slash.
fn is_below(dir: &str, path: &str) -> bool {
    if !path.starts_with(dir) {
        return false;
    }
    path.as_bytes().get(dir.len()) == Some(&b'/')
}

fn is_within(dir: &str, path: &str) -> bool {
    dir == path || is_below(dir, path)
}

fn is_parent(dir: &str, path: &str) -> bool {
    match path.rsplit_once('/') {
        None => false,
        Some((front, _)) => front == dir,
    }
}

impl Plain {
    pub(crate) fn of(alloc: Global, paths: &[&'static str]) -> Result<Plain, Fail> {
        let mut rows = Vec::new(alloc);
        for path in paths {
            rows.push(Row {
                path: *path,
                there: false,
                entry: None,
                source: None,
                cache: None,
            })?;
        }
        Ok(Plain {
            rows,
            p1: [0; 20],
            p2: [0; 20],
            hash: Docket::read(b"")?.hash,
        })
    }

    pub(crate) fn row(&self, path: &str) -> Option<Row> {
        for row in &self.rows {
            if row.path == path {
                return Some(*row);
            }
        }
        None
    }

    // The least tracked path above or below one, where an entry would make that tracked.
    fn clash(&self, path: &str, entry: Entry) -> Option<&'static str> {
        if !entry.w || self.is_tracked(path) {
            return None;
        }
        for row in &self.rows {
            if is_tracked(row) && (is_below(row.path, path) || is_below(path, row.path)) {
                return Some(row.path);
            }
        }
        None
    }

    fn is_tracked(&self, path: &str) -> bool {
        match self.row(path) {
            None => false,
            Some(row) => is_tracked(&row),
        }
    }

    fn set(&mut self, path: &str, entry: Entry) {
        for row in self.rows.iter_mut() {
            if is_within(row.path, path) {
                row.there = true;
            }
            if row.path == path {
                row.entry = Some(entry);
                row.cache = None;
            }
        }
    }

    fn copy(&mut self, path: &str, source: Option<&'static str>) {
        for row in self.rows.iter_mut() {
            if row.path == path {
                row.source = source;
            }
        }
    }

    fn note(&mut self, dir: &str, cache: Option<Stamp>) {
        for row in self.rows.iter_mut() {
            if row.path == dir {
                row.cache = cache;
            }
        }
    }

    fn no_caches(&mut self) {
        for row in self.rows.iter_mut() {
            row.cache = None;
        }
    }

    fn clear(&mut self, path: &str) {
        for row in self.rows.iter_mut() {
            if row.path == path {
                row.entry = None;
                row.source = None;
            }
        }
    }

    // A node on the way to the path, at and below which all nodes are on that way and none has an entry.
    fn goes(&self, dir: &str, path: &str) -> bool {
        if !is_within(dir, path) {
            return false;
        }
        for row in &self.rows {
            if row.there && is_within(dir, row.path) {
                if row.entry.is_some() || !is_within(row.path, path) {
                    return false;
                }
            }
        }
        true
    }

    fn gone(&self, alloc: Global, path: &str) -> Result<Vec<&'static str>, Fail> {
        let mut gone = Vec::new(alloc);
        for row in &self.rows {
            if row.there && self.goes(row.path, path) {
                gone.push(row.path)?;
            }
        }
        Ok(gone)
    }

    fn take(&mut self, gone: &str) {
        for row in self.rows.iter_mut() {
            if row.path == gone {
                row.there = false;
                row.cache = None;
            }
            if is_parent(row.path, gone) {
                row.cache = None;
            }
        }
    }

    fn drop_entry(&mut self, alloc: Global, path: &str) -> Result<(), Fail> {
        self.clear(path);
        for gone in &self.gone(alloc, path)? {
            self.take(*gone);
        }
        Ok(())
    }
}

fn is_tracked(row: &Row) -> bool {
    match row.entry {
        None => false,
        Some(entry) => entry.w,
    }
}

// An edit of both tables, which have to agree on what is refused.
fn set(
    alloc: Global,
    m: &mut Mixed<'_>,
    plain: &mut Plain,
    path: &str,
    entry: Entry,
) -> Result<(), Fail> {
    let clash = plain.clash(path, entry);
    match m.set(alloc, PathRef::read(path)?, entry) {
        Ok(()) => {
            if clash.is_some() {
                return Err("an entry is set that clashes".into());
            }
            plain.set(path, entry);
            Ok(())
        }
        Err(SetFault::Clash { other }) => {
            if clash != Some(other.as_str()) {
                return Err("another clash".into());
            }
            Ok(())
        }
        Err(SetFault::OutOfMemory) => Err("out of memory".into()),
    }
}

fn copy(
    alloc: Global,
    m: &mut Mixed<'_>,
    plain: &mut Plain,
    path: &str,
    source: Option<&'static str>,
) -> Result<(), Fail> {
    let at = PathRef::read(path)?;
    if m.get(at).is_none() {
        return Ok(());
    }
    match source {
        None => m.copy_from(alloc, at, None)?,
        Some(source) => m.copy_from(alloc, at, Some(PathRef::read(source)?))?,
    }
    plain.copy(path, source);
    Ok(())
}

fn drop_entry(alloc: Global, m: &mut Mixed<'_>, plain: &mut Plain, path: &str) -> Result<(), Fail> {
    let at = PathRef::read(path)?;
    if m.get(at).is_none() {
        return Ok(());
    }
    m.drop_entry(alloc, at)?;
    plain.drop_entry(alloc, path)
}

fn note(
    alloc: Global,
    m: &mut Mixed<'_>,
    plain: &mut Plain,
    dir: &str,
    time: Stamp,
) -> Result<(), Fail> {
    let at = PathRef::read(dir)?;
    if !m.has_node(at) {
        return Ok(());
    }
    if m.get(at).is_some() {
        return Ok(());
    }
    m.note_dir(alloc, at, time)?;
    plain.note(dir, Some(time));
    Ok(())
}

fn forget(alloc: Global, m: &mut Mixed<'_>, plain: &mut Plain, dir: &str) -> Result<(), Fail> {
    let at = PathRef::read(dir)?;
    if !m.has_node(at) {
        return Ok(());
    }
    if m.get(at).is_some() {
        return Ok(());
    }
    m.forget_dir(alloc, at)?;
    plain.note(dir, None);
    Ok(())
}

/// Does an edit to both, where it may be done.
pub(crate) fn apply(
    alloc: Global,
    m: &mut Mixed<'_>,
    plain: &mut Plain,
    edit: Edit,
) -> Result<(), Fail> {
    match edit {
        Edit::Set(path, file) => set(alloc, m, plain, path, entry_of(file)),
        Edit::Copy(path, source) => copy(alloc, m, plain, path, source),
        Edit::Drop(path) => drop_entry(alloc, m, plain, path),
        Edit::Note(dir, when) => note(alloc, m, plain, dir, time_of(when)),
        Edit::Forget(dir) => forget(alloc, m, plain, dir),
        Edit::NoCaches => {
            m.drop_caches(alloc)?;
            plain.no_caches();
            Ok(())
        }
        Edit::Ids(p1, p2) => {
            m.set_ids(Id20([p1; 20]), Id20([p2; 20]));
            plain.p1 = [p1; 20];
            plain.p2 = [p2; 20];
            Ok(())
        }
        Edit::Hash(hash) => {
            m.set_hash([hash; 20]);
            plain.hash = [hash; 20];
            Ok(())
        }
    }
}

fn is_same_source(found: Option<PathRef<'_>>, wanted: Option<&'static str>) -> bool {
    match found {
        None => wanted.is_none(),
        Some(found) => wanted == Some(found.as_str()),
    }
}

fn is_same_item(m: &Mixed<'_>, path: PathRef<'_>, row: Row) -> bool {
    match m.get(path) {
        None => row.entry.is_none(),
        Some(item) => row.entry == Some(item.entry) && is_same_source(item.source, row.source),
    }
}

fn is_same_row(m: &Mixed<'_>, path: PathRef<'_>, row: Row) -> bool {
    m.has_node(path) == row.there && m.cache(path) == row.cache && is_same_item(m, path, row)
}

/// Whether the table in memory says the same.
pub(crate) fn is_same(m: &Mixed<'_>, plain: &Plain) -> Result<bool, Fail> {
    for row in &plain.rows {
        if !is_same_row(m, PathRef::read(row.path)?, *row) {
            return Ok(false);
        }
    }
    let (p1, p2) = m.parents();
    Ok(p1.0 == plain.p1 && p2.0 == plain.p2 && m.hash() == plain.hash)
}

pub(crate) fn rewritten(alloc: Global, m: &Mixed<'_>) -> Result<Encoded, Fail> {
    Ok(encode(alloc, m, Way::Rewrite)?)
}

/// Whether what a table is encoded as opens as a table that says the same, with right counts.
pub(crate) fn reads_back(alloc: Global, encoded: &Encoded, plain: &Plain) -> Result<bool, Fail> {
    if encoded.docket.len() > 512 {
        return Err("a docket that is too long".into());
    }
    let docket = Docket::read(&encoded.docket).ok().ok_or("a sound docket")?;
    let image = Image::open(&docket, &encoded.bytes)?;
    if !image.counted() {
        return Err("counts that are wrong".into());
    }
    let m = Mixed::open(image);
    is_same(&m, plain)
}
