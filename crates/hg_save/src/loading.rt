//! Loading the dirstate: the docket, then the data file that it names.

ghost use Rattle.std.specs.Prelude.{◌≡◌, ◌≤◌, ◌∷◌, [], IsTrue, IfErr, IfOk, None, length, take};
ghost use Rattle.hg_base.specs.Fault.{HasCause};
ghost use Rattle.hg_docket.specs.Docket.{docket_of, docket_refusal, view};
ghost use Rattle.hg_docket.specs.Name.{is_name};
ghost use Rattle.hg_shelf.specs.Asks.{AsksInOrder};
ghost use Rattle.hg_shelf.specs.History.{Passes, now};
ghost use Rattle.hg_shelf.specs.Images.{Goes, course};
ghost use Rattle.hg_shelf.specs.declared.asked.Asked.TheVariants as an_ask;
ghost use Rattle.hg_save.specs.Asked.{AsksAsOf, AsksByFiles, data_asks, docket_ask, file_asks, named_asks};
ghost use Rattle.hg_save.specs.Record.{data_name, docket_in};
ghost use Rattle.hg_save.specs.Loads.{bytes_of, DataFindsDuring, FileFindsDuring, FrontFinds, Loads, NamedFinds, Try};
ghost use Rattle.hg_save.specs.declared.load_fault.LoadFault.TheVariants as a_fault;

use crate::load_fault::LoadFault;
use crate::loaded::Loaded;
use hg_base::{Got, OutOfMemory};
use hg_docket::{DataName, Docket, Ident, Idents};
use hg_shelf::Shelf;
use std::alloc::Global;

// The name of the docket below `.hg`.
const DOCKET: &str = "dirstate";

// A docket has at most so many bytes: 125, and 255 of the identifier.
pub const MOST: usize = 512;

// One read of the docket's bytes into the buffer; it answers how many there are.
pub fn read_docket<S: Shelf>(shelf: &mut S, buf: &mut [u8]) -> Result<usize, LoadFault>
    requires { length buf.old ≡ 512 }
    ensures passes { Passes (S.history shelf.old) (S.history shelf.new) }
    ensures kept { Goes (course (S.history shelf.old) (S.images shelf.old)) (course (S.history shelf.new) (S.images shelf.new)) }
    ensures held { S.held shelf.new ≡ S.held shelf.old }
    ensures asked { IsTrue (S.history shelf.old).told → AsksInOrder (docket_ask ∷ []) (S.history shelf.old) (S.history shelf.new) result }
    ensures most { IfOk result (λ n. n ≤ 512) }
    ensures found { IsTrue (S.history shelf.old).told → IfOk result (λ n. take n buf.new ≡ docket_in (now (S.history shelf.new)).files) }
    ensures cause { HasCause (S.faults shelf.old) (S.faults shelf.new) result (λ e. e ≡ a_fault.Failed) }
    ensures kind { IfErr result (λ e. e ≡ a_fault.Failed) }
{
    match shelf.read_at(DOCKET, 0, buf) {
        Err(_) => Err(LoadFault::Failed),
        Ok(Got::Absent) => Ok(0),
        Ok(Got::Bytes(n)) => Ok(n),
    }
}

// The fault of a data file that is absent.
fn gone(id: Ident) -> LoadFault
    ensures { result ≡ a_fault.DataGone (id ∷ []) }
{
    let mut ids = Idents::new();
    ids.push(id);
    LoadFault::DataGone { ids }
}

// So many bytes from the front of a data file, fewer where it is shorter.
fn read_front<S: Shelf>(
    alloc: Global,
    shelf: &mut S,
    id: Ident,
    want: usize,
) -> Result<Vec<u8>, LoadFault>
    ensures passes { Passes (S.history shelf.old) (S.history shelf.new) }
    ensures kept { Goes (course (S.history shelf.old) (S.images shelf.old)) (course (S.history shelf.new) (S.images shelf.new)) }
    ensures held { S.held shelf.new ≡ S.held shelf.old }
    ensures asked { IsTrue (S.history shelf.old).told → AsksInOrder (an_ask.Read (data_name id) 0 want ∷ []) (S.history shelf.old) (S.history shelf.new) result }
    ensures found { IsTrue (S.history shelf.old).told
        → FrontFinds id want (bytes_of result) ((now (S.history shelf.new)).files (data_name id)) }
    ensures cause { HasCause (S.faults shelf.old) (S.faults shelf.new) result (λ e. e ≡ a_fault.Failed) }
    ensures steady { IfErr result (λ e. (e ≡ a_fault.Failed → ⊥) → S.faults shelf.new ≡ S.faults shelf.old) }
    ensures most { IfOk result (λ nodes. length nodes.items ≤ want) }
{
    let name = DataName::of(&id);
    let mut nodes = vec![in alloc; 0u8; want]?;
    match shelf.read_at(name.as_str(), 0, nodes.as_mut_slice()) {
        Err(_) => Err(LoadFault::Failed),
        Ok(Got::Absent) => Err(gone(id)),
        Ok(Got::Bytes(n)) => {
            nodes.truncate(n);
            Ok(nodes)
        }
    }
}

// The used bytes of a data file, fewer where it is shorter.
fn read_file<S: Shelf>(
    alloc: Global,
    shelf: &mut S,
    id: Ident,
    used: u32,
) -> Result<Vec<u8>, LoadFault>
    ensures passes { Passes (S.history shelf.old) (S.history shelf.new) }
    ensures kept { Goes (course (S.history shelf.old) (S.images shelf.old)) (course (S.history shelf.new) (S.images shelf.new)) }
    ensures held { S.held shelf.new ≡ S.held shelf.old }
    ensures asked { IsTrue (S.history shelf.old).told → AsksByFiles (file_asks id used) (S.history shelf.old) (S.history shelf.new) result }
    ensures found { IsTrue (S.history shelf.old).told
        → FileFindsDuring (S.history shelf.old) (S.history shelf.new) id used (bytes_of result) }
    ensures cause { HasCause (S.faults shelf.old) (S.faults shelf.new) result (λ e. e ≡ a_fault.Failed) }
    ensures steady { IfErr result (λ e. (e ≡ a_fault.Failed → ⊥) → S.faults shelf.new ≡ S.faults shelf.old) }
    ensures most { IfOk result (λ nodes. length nodes.items ≤ used) }
{
    match shelf.size(DataName::of(&id).as_str()) {
        Err(_) => Err(LoadFault::Failed),
        Ok(None) => Err(gone(id)),
        Ok(Some(size)) => read_front(alloc, shelf, id, size.min(used as u64) as usize),
    }
}

// The bytes of the data file that a docket names; where it uses none, no file is read.
fn read_data<S: Shelf>(
    alloc: Global,
    shelf: &mut S,
    docket: &Docket<'_>,
) -> Result<Vec<u8>, LoadFault>
    requires { IsTrue (is_name docket.now.id.now) }
    ensures passes { Passes (S.history shelf.old) (S.history shelf.new) }
    ensures kept { Goes (course (S.history shelf.old) (S.images shelf.old)) (course (S.history shelf.new) (S.images shelf.new)) }
    ensures held { S.held shelf.new ≡ S.held shelf.old }
    ensures asked { IsTrue (S.history shelf.old).told → AsksByFiles (data_asks (view docket.now)) (S.history shelf.old) (S.history shelf.new) result }
    ensures found { IsTrue (S.history shelf.old).told
        → DataFindsDuring (S.history shelf.old) (S.history shelf.new) (view docket.now) (bytes_of result) }
    ensures cause { HasCause (S.faults shelf.old) (S.faults shelf.new) result (λ e. e ≡ a_fault.Failed) }
    ensures steady { IfErr result (λ e. (e ≡ a_fault.Failed → ⊥) → S.faults shelf.new ≡ S.faults shelf.old) }
    ensures most { IfOk result (λ nodes. length nodes.items ≤ (view docket.now).used) }
{
    if docket.used == 0 {
        return Ok(Vec::new(alloc));
    }
    match Ident::read(docket.id) {
        None => unreachable!(),
        Some(id) => read_file(alloc, shelf, id, docket.used),
    }
}

fn copy_of(alloc: Global, bytes: &[u8]) -> Result<Vec<u8>, OutOfMemory>
    ensures { IfOk result (λ copy. copy.items ≡ bytes.now) }
{
    let mut copy = Vec::new(alloc);
    copy.extend_from_slice(bytes)?;
    Ok(copy)
}

// Loads by the bytes of a docket.
fn load_named<S: Shelf>(alloc: Global, shelf: &mut S, bytes: &[u8]) -> Result<Loaded, LoadFault>
    requires { length bytes.now ≤ 512 }
    ensures passes { Passes (S.history shelf.old) (S.history shelf.new) }
    ensures kept { Goes (course (S.history shelf.old) (S.images shelf.old)) (course (S.history shelf.new) (S.images shelf.new)) }
    ensures held { S.held shelf.new ≡ S.held shelf.old }
    ensures asked { IsTrue (S.history shelf.old).told → AsksByFiles (named_asks bytes.now) (S.history shelf.old) (S.history shelf.new) result }
    ensures found { IsTrue (S.history shelf.old).told → NamedFinds (S.history shelf.old) (S.history shelf.new) bytes.now result }
    ensures cause { HasCause (S.faults shelf.old) (S.faults shelf.new) result (λ e. e ≡ a_fault.Failed) }
    ensures steady { IfErr result (λ e. (e ≡ a_fault.Failed → ⊥) → S.faults shelf.new ≡ S.faults shelf.old) }
{
    let docket = Docket::read(bytes)?;
    let nodes = read_data(alloc, shelf, &docket)?;
    let kept = copy_of(alloc, bytes)?;
    let shown = copy_of(alloc, bytes)?;
    Ok(Loaded {
        docket: kept,
        shown,
        nodes,
    })
}

/// Loads the record: one read of the docket, then size and bytes of the data file that it names, which are read in `Loaded::open`.
///
/// The faults are looked for in this order: the docket's own, a data file that is gone.
pub fn load<S: Shelf>(alloc: Global, shelf: &mut S) -> Result<Loaded, LoadFault>
    ensures passes { Passes (S.history shelf.old) (S.history shelf.new) }
    ensures kept { Goes (course (S.history shelf.old) (S.images shelf.old)) (course (S.history shelf.new) (S.images shelf.new)) }
    ensures held { S.held shelf.new ≡ S.held shelf.old }
    ensures asked { IsTrue (S.history shelf.old).told → AsksAsOf (S.history shelf.old) (S.history shelf.new) result }
    ensures found { IsTrue (S.history shelf.old).told → ((tried : Try) × Loads (S.history shelf.old) (S.history shelf.new) (tried ∷ []) result) }
    ensures cause { HasCause (S.faults shelf.old) (S.faults shelf.new) result (λ e. e ≡ a_fault.Failed) }
    // Want of memory comes only where the count stayed.
    ensures steady { IfErr result (λ e. (e ≡ a_fault.Failed → ⊥) → S.faults shelf.new ≡ S.faults shelf.old) }
{
    let mut buf = [0; MOST];
    let n = read_docket(shelf, &mut buf)?;
    load_named(alloc, shelf, buf.split_at(n).0)
}
