//! Sizes in leaders that are put are numbers of pages, as their type has them.
ghost use Rattle.std.specs.Prelude.{◌<◌, All};
ghost use Rattle.alp_files.specs.Locks.{page_limit};
ghost use Rattle.alp_files.specs.Apart.{IsSized};

use alp_base::{Cell, Key, Props};

#[tactic(auto, unfolding(alp_files::specs::Locks::page_limit))]
fn size_leader(props: &Props)
    ensures { props.now.size < page_limit }
{
    let _size = props.size;
}

fn size_cell(cell: &Cell)
    ensures { IsSized cell.now }
{
    if let Cell::Leader(props) = cell {
        size_leader(props);
    }
}

/// The size in each leader that is put.
pub(super) fn size_puts(puts: &[(Key, Cell)])
    ensures { All (λ e. IsSized e.1) puts.now }
{
    for put in puts {
        size_cell(&put.1);
    }
}
