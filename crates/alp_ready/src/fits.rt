//! Ids, keys and resources can be spelled, since their numbers are in the range of their types, and their names are names.
ghost use Rattle.std.specs.Prelude.{All};
ghost use Rattle.alp_base.specs.declared.key.Key.TheVariants.{PageOf};
ghost use Rattle.alp_fields.specs.Fields.{file_id, name, key, resource, FitsKey, FitsResource};
ghost use Rattle.alp_fields.specs.ChangeField.{cut};

use alp_base::{Cell, FileId, Key, Name, Resource};
use alp_modes::Mode;

fn fit_numbers(server: u8, epoch: u32, counter: u32)
    ensures { file_id.Fits (record { server = server; epoch = epoch; counter = counter }) }
{
    let _ = (server, epoch, counter);
}

fn fit_file(file: &FileId)
    ensures { file_id.Fits file.now }
{
    fit_numbers(file.server, file.epoch, file.counter);
}

fn fit_cut(file: &FileId, size: u32)
    ensures { cut.Fits (file.now, size) }
{
    let _ = size;
    fit_file(file);
}

fn fit_page(file: &FileId, number: u32)
    ensures { FitsKey (PageOf file.now number) }
{
    let _ = number;
    fit_file(file);
}

fn fit_name(owner: &Name)
    ensures { name.Fits owner.now }
{
    let _bytes = owner.as_bytes();
}

fn fit_key(at: &Key)
    ensures { FitsKey at.now }
{
    match at {
        Key::Leader(file) => fit_file(file),
        Key::PageOf(file, number) => fit_page(file, *number),
        Key::OwnerOf(owner) => fit_name(owner),
    }
}

fn fit_resource(at: &Resource)
    ensures { FitsResource at.now }
{
    match at {
        Resource::Whole(file) => fit_file(file),
        Resource::Leaf(place) => fit_key(place),
    }
}

/// Each of the files does.
pub fn fit_files(files: &[FileId])
    ensures { All file_id.Fits files.now }
{
    for file in files {
        fit_file(file);
    }
}

/// Each file with the number of pages that it keeps.
pub fn fit_cuts(cuts: &[(FileId, u32)])
    ensures { All cut.Fits cuts.now }
{
    for (file, size) in cuts {
        fit_cut(file, *size);
    }
}

/// The key of each cell that is put.
pub fn fit_puts(puts: &[(Key, Cell)])
    ensures { All (λ e. FitsKey e.0) puts.now }
{
    for put in puts {
        fit_key(&put.0);
    }
}

/// Each resource that is locked.
pub fn fit_locks(locks: &[(Resource, Mode)])
    ensures { All (λ e. FitsResource e.0) locks.now }
{
    for lock in locks {
        fit_resource(&lock.0);
    }
}
