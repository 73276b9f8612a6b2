//! What commands do to a table, one word at a time (`hg help add`, `hg help forget`, `hg help remove`, `hg help copy`).
//!
//! A call takes the table of a dirstate (`hg_mixed`), the working copy where it has to be looked at, and a word that a user gave. It changes the
//! table as the command says, or refuses the word and leaves all as it was. Each refusal comes exactly where it fits and none before it does.
//!
//! | command | refusals, the first that fits | what it does |
//! |---|---|---|
//! | `add` | no path; nothing there; neither a file nor a link; a tracked path above or below | the path is tracked, in its old entry or in a new one |
//! | `forget` | no path; not tracked | the path isn't tracked; its entry goes where no parent has it, and its copy source in any case |
//! | `remove` | no path; not tracked; added; changed | the file or link is taken away, then as `forget` |
//! | `remove -A` | no path; not tracked; a file or link is still there | as `forget` |
//! | `copy` | no path; source not tracked, not there, neither file nor link; target tracked, taken, or beside a tracked path | it is there too, as a copy |
//!
//! A path that is tracked already is added without a look at the working copy, and stays as it is.
//!
//! `remove` takes nothing away but a file or link whose bytes it has seen to be those of the first parent, whose manifest a `Parent` keeps from one
//! word to the next.
//!
//! `set_parents` makes of a table one with other parents, by their manifests: each path has an entry exactly where it is tracked or a parent has it.
//!
//! ```text
//! let mut table = Mixed::open(image);
//! add(alloc, &mut table, &mut tree, "src/main.c")?;   // None: tracked
//! add(alloc, &mut table, &mut tree, "src")?;          // Some(Refusal::Special): a directory
//! forget(alloc, &mut table, "src/main.c")?;           // None
//! forget(alloc, &mut table, "src/main.c")?;           // Some(Refusal::NotTracked)
//!
//! let mut parent = Parent::of(p1);
//! remove(alloc, &mut table, &mut tree, &mut shelf, &mut parent, "README", false)?;  // None: gone
//! ```
//!
//! `specs/Step.antt` and `specs/Copy.antt` say what a word makes of a table, `specs/Remove.antt` what `remove` saw and did, `specs/Parent.antt` what it read below `.hg`,
//! `specs/Look.antt` what was looked at and when, `specs/Cause.antt` why a command stops, and `specs/Parents.antt` what other parents make of a table.
#![tactic(auto)]

mod adding;
mod copy_refusal;
mod copying;
mod entries;
mod finding;
mod forgetting;
mod laws;
mod parent;
mod parents;
mod paths;
mod putting;
mod refusal;
mod remove_laws;
mod removing;
mod vacant;
mod wanted;

pub use adding::add;
pub use copy_refusal::CopyRefusal;
pub use copying::copy;
pub use forgetting::forget;
pub use laws::{one_add, one_forget, one_set_parents};
pub use parent::Parent;
pub use parents::set_parents;
pub use refusal::{OpFault, Refusal};
pub use remove_laws::{one_remove, remove_is_exact, remove_stays};
pub use removing::remove;
