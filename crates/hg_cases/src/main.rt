//! The program `hg_cases`: it plays the case files of its folder, and tells how many answers of each were as expected.
//!
//! A case file lays out what stands in a working copy and below `.hg`, runs commands by `hg_cli::run` over devices in memory, and has what is
//! printed below each; docs/CASES.md tells the language. The expected texts come from docs/TEXTS.md, and the bytes of docket and data file from
//! docs/FORMAT_DOCKET.md and docs/FORMAT_DATA.md alone: nothing there is taken from the program under test.
//!
//! ```text
//! data "a"
//! node a w
//! docket
//! file a "one\n"
//! $ status
//!   A a
//! ```
#![tactic(auto)]

mod answers;
mod bytes;
mod commands;
mod due;
mod line;
mod noted;
mod once;
mod play;
mod printed;
mod streams;
mod tables;
mod tokens;
mod world;
mod wrong;

use crate::play::play;
use crate::world::World;
use std::test::Fail;
use std::{env, fs};

// The names of the files that are named behind the program's, or of all texts in the folder.
fn names(rt: &HostRuntime) -> Result<Vec<String>, Fail> {
    let mut names = Vec::new(rt.alloc());
    for name in env::args(rt)?.skip(1) {
        names.push(name)?;
    }
    if names.is_empty() {
        put_texts(rt, &mut names)?;
    }
    Ok(names)
}

fn put_texts(rt: &HostRuntime, names: &mut Vec<String>) -> Result<(), Fail> {
    for entry in fs::read_dir(rt, ".")? {
        let entry = entry?;
        let name = entry.file_name();
        if name.ends_with(".txt") {
            names.push(String::from_str(rt.alloc(), name)?)?;
        }
    }
    Ok(names.sort()?)
}

fn play_file(rt: &HostRuntime, world: &mut World, name: &str) -> Result<(), Fail> {
    let text = fs::read_to_string(rt, name)?;
    play(world, name, text.as_str());
    let told = world.told.line.as_str();
    Ok(print!(rt; "{told}")?)
}

fn play_files(rt: &HostRuntime, world: &mut World) -> Result<(), Fail> {
    for name in &names(rt)? {
        play_file(rt, world, name.as_str())?;
    }
    Ok(())
}

fn main(rt: HostRuntime) -> Result<(), Fail> {
    match World::new(rt.alloc()) {
        Ok(mut world) => play_files(&rt, &mut world),
        Err(_) => Err("no memory".into()),
    }
}
