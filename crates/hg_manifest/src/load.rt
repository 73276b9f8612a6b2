//! Loading a manifest from the plain store.

ghost use Rattle.std.specs.Prelude.{◌≡◌, ◌≤◌, ◌<◌, [], ◌∷◌, true, false, Ok, Option, ℕ, List, IsTrue, IfOk, IfErr, OnOk, length, string_bytes};
ghost use Rattle.hg_base.specs.Fault.{HasCause, IsSteady};
ghost use Rattle.hg_manifest.specs.Kept.{Answers};
ghost use Rattle.hg_manifest.specs.Load.{AsksByFile, Finds, IsCounted, Stays, Was, asks_of, file_asks, manifest_in};
ghost use Rattle.hg_manifest.specs.Loaded.{Sizes, Takes};
ghost use Rattle.hg_manifest.specs.Plain.{is_null, most, plain_name};
ghost use Rattle.hg_manifest.specs.declared.fault.ManifestFault.TheVariants as a_fault;
ghost use Rattle.hg_shelf.specs.Asks.{AsksInOrder};
ghost use Rattle.hg_shelf.specs.History.{Passes};
ghost use Rattle.hg_shelf.specs.Images.{Goes, course};
ghost use Rattle.hg_shelf.specs.declared.asked.Asked.TheVariants as an_ask;

use crate::fault::ManifestFault;
use crate::manifest::Manifest;
use hg_base::{Got, Id20, OutOfMemory};
use hg_shelf::Shelf;
use std::alloc::Global;

// A manifest has at most so many bytes.
const MOST: u64 = 67_108_864;

// Whether the parent is none.
fn is_null(id: &Id20) -> bool
    ensures { result ≡ is_null id.now.0 }
{
    *id == Id20([0; 20])
}

// The name of the file of a manifest.
fn name_of(alloc: Global, id: &Id20) -> Result<String, OutOfMemory>
    ensures { IfOk result (λ name. string_bytes name ≡ plain_name id.now.0) }
{
    let digits = hex::encode(alloc, id.0)?;
    let mut name = String::from_str(alloc, "plain/m-")?;
    name.push_str(digits.as_str())?;
    Ok(name)
}

// The size of the file, where it is there and not too large.
fn ask_size<S: Shelf>(shelf: &mut S, name: &str, id: &Id20) -> Result<u64, ManifestFault>
    ensures passes { Passes (S.history shelf.old) (S.history shelf.new) }
    ensures kept { Goes (course (S.history shelf.old) (S.images shelf.old)) (course (S.history shelf.new) (S.images shelf.new)) }
    ensures held { S.held shelf.new ≡ S.held shelf.old }
    ensures asked { IsTrue (S.history shelf.old).told → AsksInOrder (an_ask.Size name.now ∷ []) (S.history shelf.old) (S.history shelf.new) result }
    ensures found { Sizes (S.history shelf.old) (S.history shelf.new) name.now id.now result }
    ensures cause { HasCause (S.faults shelf.old) (S.faults shelf.new) result (λ e. e ≡ a_fault.Failed) }
    ensures still { IfErr result (λ e. (e ≡ a_fault.Failed → ⊥) → S.faults shelf.new ≡ S.faults shelf.old) }
{
    match shelf.size(name) {
        Err(_) => Err(ManifestFault::Failed),
        Ok(None) => Err(ManifestFault::NoManifest { id: *id }),
        Ok(Some(size)) => if size > MOST {
            Err(ManifestFault::ManifestTooLarge { size })
        } else {
            Ok(size)
        },
    }
}

// So many bytes of the file, all where it is shorter.
fn take_bytes<S: Shelf>(
    alloc: Global,
    shelf: &mut S,
    name: &str,
    id: &Id20,
    size: u64,
) -> Result<Vec<u8>, ManifestFault>
    requires { size ≤ most }
    ensures passes { Passes (S.history shelf.old) (S.history shelf.new) }
    ensures kept { Goes (course (S.history shelf.old) (S.images shelf.old)) (course (S.history shelf.new) (S.images shelf.new)) }
    ensures held { S.held shelf.new ≡ S.held shelf.old }
    ensures asked { IsTrue (S.history shelf.old).told → AsksInOrder (an_ask.Read name.now 0 size ∷ []) (S.history shelf.old) (S.history shelf.new) result }
    ensures found { Takes (S.history shelf.old) (S.history shelf.new) name.now id.now size result }
    ensures cause { HasCause (S.faults shelf.old) (S.faults shelf.new) result (λ e. e ≡ a_fault.Failed) }
    ensures still { IfErr result (λ e. (e ≡ a_fault.Failed → ⊥) → S.faults shelf.new ≡ S.faults shelf.old) }
{
    let mut bytes = vec![in alloc; 0u8; size as usize]?;
    match shelf.read_at(name, 0, bytes.as_mut_slice()) {
        Err(_) => Err(ManifestFault::Failed),
        Ok(Got::Absent) => Err(ManifestFault::NoManifest { id: *id }),
        Ok(Got::Bytes(n)) => {
            bytes.truncate(n);
            Ok(bytes)
        }
    }
}

// The manifest of a parent that isn't null.
fn load_file<S: Shelf>(alloc: Global, shelf: &mut S, id: &Id20) -> Result<Manifest, ManifestFault>
    ensures passes { Passes (S.history shelf.old) (S.history shelf.new) }
    ensures kept { Goes (course (S.history shelf.old) (S.images shelf.old)) (course (S.history shelf.new) (S.images shelf.new)) }
    ensures held { S.held shelf.new ≡ S.held shelf.old }
    ensures asked { IsTrue (S.history shelf.old).told → AsksByFile (plain_name id.now.0) (file_asks (plain_name id.now.0)) (S.history shelf.old) (S.history shelf.new) result }
    ensures found { Finds (S.history shelf.old) (S.history shelf.new) (plain_name id.now.0) id.now result }
    ensures cause { HasCause (S.faults shelf.old) (S.faults shelf.new) result (λ e. e ≡ a_fault.Failed) }
    ensures counted { IsCounted (S.faults shelf.old) (S.faults shelf.new) result }
{
    let name = name_of(alloc, id)?;
    let size = ask_size(shelf, name.as_str(), id)?;
    let bytes = take_bytes(alloc, shelf, name.as_str(), id, size)?;
    Manifest::of(alloc, bytes)
}

impl Manifest {
    /// Loads the manifest of a commit from the plain store: the size of its file, then its bytes by one read. The null parent has no
    /// rows, and the shelf isn't asked.
    ///
    /// The faults are looked for in this order: an absent file, its size, then line by line the form of the line and the order of
    /// its path. A file that gets shorter between the two calls is taken as short as it is.
    pub fn load<S: Shelf>(
        alloc: Global,
        shelf: &mut S,
        id: &Id20,
    ) -> Result<Manifest, ManifestFault>
        ensures null { IsTrue (is_null id.now.0) → result ≡ Ok [] }
        ensures unasked { IsTrue (is_null id.now.0) → shelf.new ≡ shelf.old }
        ensures passes { Passes (S.history shelf.old) (S.history shelf.new) }
        ensures kept { Goes (course (S.history shelf.old) (S.images shelf.old)) (course (S.history shelf.new) (S.images shelf.new)) }
        ensures held { S.held shelf.new ≡ S.held shelf.old }
        // The read begins at the first byte, and asks for as many as the file had at a moment of the call.
        ensures asked { IsTrue (S.history shelf.old).told → AsksByFile (plain_name id.now.0) (asks_of id.now) (S.history shelf.old) (S.history shelf.new) result }
        ensures found { is_null id.now.0 ≡ false → Finds (S.history shelf.old) (S.history shelf.new) (plain_name id.now.0) id.now result }
        ensures cause { HasCause (S.faults shelf.old) (S.faults shelf.new) result (λ e. e ≡ a_fault.Failed) }
        ensures counted { IsCounted (S.faults shelf.old) (S.faults shelf.new) result }

        // Where the file stays as it is and no count rises, it is the file's manifest, or there was no memory.
        ensures complete { (file : Option (List ℕ)) → IsTrue (S.history shelf.old).told → Stays (S.history shelf.old) (S.history shelf.new) (plain_name id.now.0) file
            → IsSteady (S.faults shelf.old) (S.faults shelf.new) → Answers (manifest_in id.now file) result }
    {
        if is_null(id) {
            return Ok(Manifest::empty(alloc));
        }
        load_file(alloc, shelf, id)
    }
}
