//! The locks that a call needs.
ghost use Rattle.std.specs.Prelude.{◌≡◌, [], ◌∷◌, ◌++◌, IfOk};
ghost use Rattle.std.specs.Option.{option_to_list};
ghost use Rattle.alp_base.specs.declared.key.Key.TheVariants.{OwnerOf};
ghost use Rattle.alp_base.specs.declared.key.Resource.TheVariants.{Leaf};
ghost use Rattle.alp_files.specs.Locks.{page_needs, mark_needs, size_needs, change_needs};
ghost use Rattle.alp_calls.specs.Finds.{access_for as access_for_said};
ghost use Rattle.alp_node.specs.Asks.{looks_at as looked_at, on_opened, open_needs, needs_on};

use alp_base::{Access, FileId, Key, Name, OutOfMemory, Props, Resource, Run};
use alp_calls::OpenedFile;
use alp_files::{Call, Open, PropChange};
use alp_modes::Mode;
use std::alloc::Global;

// Pages that will be changed need an open for change.
fn access_for(mode: Mode) -> Access
    ensures { result ≡ access_for_said mode }
{
    match mode {
        Mode::Update | Mode::ReadIntendWrite | Mode::Write => Access::Change,
        _ => Access::ReadOnly,
    }
}

/// The open that a call names whose locks depend on the open and its file, and the access that the call has to have.
pub fn looks_at(call: &Call) -> Option<(u32, Access)>
    ensures { result ≡ looked_at call.now }
{
    match call {
        Call::DeleteFile { open_no, .. } => Some((*open_no, Access::Change)),
        Call::ReadPages { open_no, .. } => Some((*open_no, Access::ReadOnly)),
        Call::WritePages { open_no, .. } => Some((*open_no, Access::Change)),
        Call::LockPages { open_no, mode, .. } => Some((*open_no, access_for(*mode))),
        Call::SetSize { open_no, .. } => Some((*open_no, Access::Change)),
        Call::WriteProps { open_no, .. } => Some((*open_no, Access::Change)),
        _ => None,
    }
}

/// What a call needs where such an open of it is found.
pub fn needs(
    alloc: Global,
    found: &Option<OpenedFile>,
    call: &Call,
) -> Result<Vec<(Resource, Mode)>, OutOfMemory>
    ensures { IfOk result (λ v. v.items ≡ needs_on found.now call.now) }
{
    let needs = match call {
        Call::CreateFile { start, .. } => owner(alloc, start.props().owner, Mode::Write)?,
        Call::OpenFile { file, mode, .. } => {
            let leader = (Resource::Leaf(Key::Leader(*file)), Mode::Read);
            vec![in alloc; (Resource::Whole(*file), *mode), leader]?
        }
        Call::ReadOwner { owner: name, .. } => owner(alloc, *name, Mode::Read)?,
        Call::MakeOwner { owner: name, .. } => owner(alloc, *name, Mode::Write)?,
        Call::SetQuota { owner: name, .. } => owner(alloc, *name, Mode::Write)?,
        _ => needs_of_open(alloc, found, call)?,
    };
    Ok(needs)
}

fn owner(alloc: Global, name: Name, mode: Mode) -> Result<Vec<(Resource, Mode)>, OutOfMemory>
    ensures { IfOk result (λ v. v.items ≡ (Leaf (OwnerOf name), mode) ∷ []) }
{
    let needs = vec![in alloc; (Resource::Leaf(Key::OwnerOf(name)), mode)]?;
    Ok(needs)
}

// What a call on an open needs, where it has the access that the call has to have and its file is there.
fn needs_of_open(
    alloc: Global,
    found: &Option<OpenedFile>,
    call: &Call,
) -> Result<Vec<(Resource, Mode)>, OutOfMemory>
    ensures { IfOk result (λ v. v.items ≡ on_opened found.now (open_needs call.now)) }
{
    match found {
        Some(file) => needs_there(alloc, &file.opened, &file.props, call),
        None => Ok(Vec::new(alloc)),
    }
}

fn needs_there(
    alloc: Global,
    opened: &Open,
    props: &Props,
    call: &Call,
) -> Result<Vec<(Resource, Mode)>, OutOfMemory>
    ensures { IfOk result (λ v. v.items ≡ open_needs call.now opened.now props.now) }
{
    let file = opened.file;
    let needs = match call {
        Call::DeleteFile { .. } => {
            let charged = (Resource::Leaf(Key::OwnerOf(props.owner)), Mode::Write);
            vec![in alloc; (Resource::Whole(file), Mode::Write), charged]?
        }
        Call::ReadPages { run, mode, .. } => pages(alloc, None, file, run, *mode)?,
        Call::WritePages { run, .. } => {
            let mark = mark(file, props, run.first as u64 + run.count as u64);
            pages(alloc, mark, file, run, Mode::Write)?
        }
        Call::LockPages { run, mode, .. } => pages(alloc, None, file, run, *mode)?,
        Call::SetSize { size, .. } => resized(alloc, opened, props, *size)?,
        Call::WriteProps { change, .. } => changed(alloc, opened, props, change)?,
        _ => Vec::new(alloc),
    };
    Ok(needs)
}

// The leader is written where the high-water mark rises.
fn mark(file: FileId, props: &Props, last: u64) -> Option<(Resource, Mode)>
    ensures { option_to_list result ≡ mark_needs file props.now last }
{
    if (props.high_water as u64) < last {
        return Some((Resource::Leaf(Key::Leader(file)), Mode::Write));
    }
    None
}

// The pages of a run, as far as there are numbers of pages, behind another need.
fn pages(
    alloc: Global,
    first: Option<(Resource, Mode)>,
    file: FileId,
    run: &Run,
    mode: Mode,
) -> Result<Vec<(Resource, Mode)>, OutOfMemory>
    ensures { IfOk result (λ v. v.items ≡ option_to_list first ++ page_needs file run.now.first run.now.count mode) }
{
    let mut needs = Vec::with_capacity(alloc, run.count as usize + 1)?;
    if let Some(need) = first {
        needs.push(need)?;
    }
    for i in 0..run.count {
        let Some(number) = run.first.checked_add(i as u32) else {
            return Ok(needs);
        };
        needs.push((Resource::Leaf(Key::PageOf(file, number)), mode))?;
    }
    Ok(needs)
}

// A smaller size cuts pages off, and so locks the file; the owner is charged where the size differs.
fn resized(
    alloc: Global,
    opened: &Open,
    props: &Props,
    size: u32,
) -> Result<Vec<(Resource, Mode)>, OutOfMemory>
    ensures { IfOk result (λ v. v.items ≡ size_needs size opened.now props.now) }
{
    let leader = (Resource::Leaf(Key::Leader(opened.file)), Mode::Write);
    let charged = (Resource::Leaf(Key::OwnerOf(props.owner)), Mode::Write);
    let needs = if size == props.size {
        vec![in alloc; leader]?
    } else if size < props.size {
        vec![in alloc; (Resource::Whole(opened.file), Mode::Write), charged]?
    } else {
        vec![in alloc; leader, charged]?
    };
    Ok(needs)
}

// A charge goes from one owner to the other.
fn changed(
    alloc: Global,
    opened: &Open,
    props: &Props,
    change: &PropChange,
) -> Result<Vec<(Resource, Mode)>, OutOfMemory>
    ensures { IfOk result (λ v. v.items ≡ change_needs change.now opened.now props.now) }
{
    let leader = (Resource::Leaf(Key::Leader(opened.file)), Mode::Write);
    let charged = (Resource::Leaf(Key::OwnerOf(props.owner)), Mode::Write);
    let needs = match change {
        PropChange::Owner(name) => {
            let other = (Resource::Leaf(Key::OwnerOf(*name)), Mode::Write);
            vec![in alloc; leader, charged, other]?
        }
        _ => vec![in alloc; leader]?,
    };
    Ok(needs)
}
