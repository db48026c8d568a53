//! What the client asks of files and their owner.
ghost use Rattle.std.specs.Prelude.{◌≡◌, ◌<◌, ◌≤◌, ◌^◌, OnOk, IfOk};
ghost use Rattle.alp_base.specs.declared.lists.TheConstants.{PAGES_PER_FILE};
ghost use Rattle.alp_acknowledge.specs.Turns.{InStep};

use crate::ServeFault;
use crate::caller::Caller;
use alp_base::{
    Access, AccessList, Choice, FileId, Name, OutOfMemory, Page, PageList, PageRef, Props, Run,
    TransId,
};
use alp_files::{Call, HeldProps, Refusal, Reply};
use alp_modes::Mode;
use alp_vault::Vault;
use std::alloc::Global;

/// The pages that the owner may have: more than a volume has.
const QUOTA: u32 = 1 << 24;

/// A file in a transaction, with its open number there.
#[derive(Clone, Copy)]
pub(crate) struct Opened {
    pub file: FileId,
    pub open_no: u32,
}

fn owner_name() -> Name {
    Name::spelled(b"bench")
}

// The list that admits everyone.
fn everyone(alloc: Global) -> Result<AccessList, OutOfMemory> {
    let names = vec![in alloc; Name::spelled(b"World")]?;
    Ok(AccessList::new(names))
}

// A new file of so many pages.
fn new_props(alloc: Global, size: u32) -> Result<Props, OutOfMemory>
    ensures { IfOk result (λ p. p.size ≡ size) }
{
    let name = owner_name();
    Ok(Props {
        owner: name,
        name,
        type_no: 0,
        create_time: 0,
        byte_length: 0,
        size,
        high_water: 0,
        read: everyone(alloc)?,
        modify: everyone(alloc)?,
    })
}

/// The owner of all files is there: it is made, or stood before.
pub(crate) fn make_owner<V: Vault>(caller: &mut Caller<V>, trans: TransId) -> Result<(), ServeFault>
    requires { InStep caller.old }
    ensures { OnOk result (InStep caller.new) }
{
    let create = everyone(caller.alloc)?;
    match caller.ask(Call::MakeOwner {
        trans,
        owner: owner_name(),
        quota: QUOTA,
        create,
        choice: Choice::Fail,
    })? {
        Reply::Plain => Ok(()),
        Reply::Refused(Refusal::OwnerExists) => Ok(()),
        _ => Err(ServeFault::Refused),
    }
}

/// A new file of so many pages is made and opened.
pub(crate) fn create<V: Vault>(
    caller: &mut Caller<V>,
    trans: TransId,
    size: u32,
) -> Result<Opened, ServeFault>
    requires step { InStep caller.old }
    requires size { size ≤ PAGES_PER_FILE }
    ensures { OnOk result (InStep caller.new) }
{
    let props = new_props(caller.alloc, size)?;
    let start = HeldProps::new(caller.alloc, props)?;
    match caller.ask(Call::CreateFile {
        trans,
        start,
        choice: Choice::Fail,
    })? {
        Reply::Created { file, open_no } => Ok(Opened { file, open_no }),
        _ => Err(ServeFault::Refused),
    }
}

/// The file is opened to be changed.
pub(crate) fn open<V: Vault>(
    caller: &mut Caller<V>,
    trans: TransId,
    file: FileId,
) -> Result<Opened, ServeFault>
    requires { InStep caller.old }
    ensures { OnOk result (InStep caller.new) }
{
    match caller.ask(Call::OpenFile {
        trans,
        file,
        access: Access::Change,
        mode: Mode::Write,
        choice: Choice::Fail,
    })? {
        Reply::Opened { open_no } => Ok(Opened { file, open_no }),
        _ => Err(ServeFault::Refused),
    }
}

/// One page of the opened file is written.
pub(crate) fn write<V: Vault>(
    caller: &mut Caller<V>,
    trans: TransId,
    opened: Opened,
    at: u32,
    page: Page,
) -> Result<(), ServeFault>
    requires { InStep caller.old }
    ensures { OnOk result (InStep caller.new) }
{
    let page = PageRef::new(caller.alloc, page)?;
    let pages = PageList::new(vec![in caller.alloc; page]?);
    match caller.ask(Call::WritePages {
        trans,
        open_no: opened.open_no,
        run: Run {
            first: at,
            count: 1,
        },
        pages,
        choice: Choice::Fail,
    })? {
        Reply::Plain => Ok(()),
        _ => Err(ServeFault::Refused),
    }
}
