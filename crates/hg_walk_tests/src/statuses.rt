// What both statuses list behind each step.
use crate::changes::WorkingCopy;
use crate::draws::Draws;
use crate::edits::{docket_of, edited, first_record, written};
use crate::parents::{Parents, some_parents};
use crate::places::PATHS;
use hg_append::Encoded;
use hg_flat::{Flat, Row, Rows, Wanted, plain_status};
use hg_ignore::{Builds, Warnings};
use hg_image::Image;
use hg_mixed::Mixed;
use hg_shelf::MemShelf;
use hg_tree::MemTree;
use hg_walk::{apply, walk};
use std::alloc::Global;
use std::string::String;
use std::test::Fail;

// How often each of both read a file.
#[derive(Clone, Copy)]
struct Reads {
    plain: usize,
    walk: usize,
}

// What both list, and the record with what the walk noted.
#[derive(Drop)]
struct Both {
    plain: String,
    walk: String,
    record: Encoded,
}

// A record, the working copy that it is of, and the parents.
#[derive(Drop)]
struct World {
    copy: WorkingCopy,
    parents: Parents,
    record: Encoded,
}

fn some_letters(draws: &mut Draws) -> Wanted {
    let all = draws.once_in(2);
    Wanted {
        m: all || draws.once_in(2),
        a: all || draws.once_in(2),
        r: all || draws.once_in(2),
        d: all || draws.once_in(2),
        u: all || draws.once_in(2),
        i: all || draws.once_in(2),
        c: all || draws.once_in(2),
    }
}

fn put_row(text: &mut String, row: &Row) -> Result<(), Fail> {
    let (letter, path) = (row.letter, row.path.as_str());
    write!(text, "; {letter:?} {path}")?;
    if let Some(source) = &row.source {
        let source = source.as_str();
        write!(text, " from {source}")?;
    }
    Ok(())
}

fn text_of(alloc: Global, rows: &Rows, warnings: &Warnings) -> Result<String, Fail> {
    let mut text = format!(in alloc; "{warnings:?}")?;
    for i in 0..rows.len() {
        put_row(&mut text, rows.at(i))?;
    }
    Ok(text)
}

// What the plain status lists by an image.
fn plainly(
    alloc: Global,
    image: &Image<'_>,
    tree: &mut MemTree,
    shelf: &mut MemShelf,
    wanted: Wanted,
) -> Result<String, Fail> {
    let flat = Flat::read(alloc, image)?;
    let p1 = flat.first_parent();
    let found = plain_status(alloc, &flat, &p1, tree, shelf, &mut Builds::new(), wanted)?;
    text_of(alloc, &found.rows, &found.warnings)
}

// What the walk lists by a table, which then has what it noted.
fn walked(
    alloc: Global,
    mixed: &mut Mixed<'_>,
    tree: &mut MemTree,
    shelf: &mut MemShelf,
    wanted: Wanted,
) -> Result<String, Fail> {
    let found = walk(alloc, mixed, tree, shelf, &mut Builds::new(), wanted)?;
    apply(alloc, mixed, found.notes)?;
    text_of(alloc, &found.rows, &found.warnings)
}

// What both list over a record.
fn listed(
    alloc: Global,
    record: &Encoded,
    tree: &mut MemTree,
    shelf: &mut MemShelf,
    wanted: Wanted,
    reads: &mut Reads,
) -> Result<Both, Fail> {
    let docket = docket_of(record)?;
    let image = Image::open(&docket, &record.bytes)?;
    let start = tree.asked().len();
    let plain = plainly(alloc, &image, tree, shelf, wanted)?;
    let middle = tree.asked().len();
    let mut mixed = Mixed::open(image);
    let found = walked(alloc, &mut mixed, tree, shelf, wanted)?;
    add_reads(reads, start, middle, tree.asked().len());
    Ok(Both {
        plain,
        walk: found,
        record: written(alloc, &mixed)?,
    })
}

fn add_reads(reads: &mut Reads, start: usize, middle: usize, end: usize) {
    reads.plain = reads.plain.saturating_add(middle.saturating_sub(start));
    reads.walk = reads.walk.saturating_add(end.saturating_sub(middle));
}

// Fails where both list another.
fn agree(alloc: Global, seed: u64, step: u32, both: &Both) -> Result<(), Fail> {
    let (plain, walk) = (&both.plain, &both.walk);
    if plain == walk {
        return Ok(());
    }
    let text = format!(in alloc;
        "copy {seed}, step {step}: by all bytes {plain}\nbut by the walk {walk}"
    )?;
    Err(Fail::new(text.as_str()))
}

fn some_world(alloc: Global, draws: &mut Draws) -> Result<World, Fail> {
    let parents = some_parents(alloc, draws)?;
    let mut copy = WorkingCopy::new(alloc, draws.once_in(8))?;
    for path in PATHS {
        copy.restore(alloc, draws, &parents, *path)?;
    }
    let record = first_record(alloc, draws, &mut copy.tree, &parents)?;
    Ok(World {
        copy,
        parents,
        record,
    })
}

impl World {
    // Something is done; what both list then.
    fn step(&mut self, alloc: Global, draws: &mut Draws, reads: &mut Reads) -> Result<Both, Fail> {
        if draws.once_in(4) {
            self.edit(alloc, draws)?;
        } else {
            self.copy.change(alloc, draws, &self.parents)?;
        }
        listed(
            alloc,
            &self.record,
            &mut self.copy.tree,
            &mut self.parents.shelf,
            some_letters(draws),
            reads,
        )
    }

    fn edit(&mut self, alloc: Global, draws: &mut Draws) -> Result<(), Fail> {
        self.record = edited(
            alloc,
            draws,
            &self.record,
            &mut self.copy.tree,
            &mut self.parents,
        )?;
        Ok(())
    }
}

// In one working copy; half of the time what the walk noted is saved.
fn one_world(alloc: Global, seed: u64, reads: &mut Reads) -> Result<(), Fail> {
    let mut draws = Draws::new(seed);
    let mut world = some_world(alloc, &mut draws)?;
    for step in 0..40 {
        let both = world.step(alloc, &mut draws, reads)?;
        agree(alloc, seed, step, &both)?;
        if draws.once_in(2) {
            let Both { record, .. } = both;
            world.record = record;
        }
    }
    Ok(())
}

#[test]
fn lists_as_the_plain_status(rt: HostRuntime) -> Result<(), Fail> {
    let mut reads = Reads { plain: 0, walk: 0 };
    for seed in 0..1_000 {
        one_world(rt.alloc(), seed, &mut reads)?;
    }
    let Reads { plain, walk } = reads;
    assert!(rt;
        walk < plain,
        "{walk} reads, and {plain} by the plain status"
    );
    Ok(())
}
