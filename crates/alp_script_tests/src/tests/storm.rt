//! Tests of alp_drill: the scripts of storms against their texts.
ghost use Rattle.alp_drill.specs.Storms.{IsStorm, IsClientOf};

mod expected;

use alp_base::MemSource;
use alp_drill::{Storm, storm_job, storm_script, storm_setup};
use alp_script::read_script;
use expected::{SMALL, WRAPPED};
use std::alloc::Global;
use std::test::Fail;

// How many lines the job of a client has.
fn job_length(alloc: Global, storm: Storm, client: u8) -> Result<usize, Fail>
    requires storm { IsStorm storm }
    requires client { IsClientOf storm client }
{
    let job = storm_job(alloc, storm, client)?;
    let mut count = 0usize;
    for lines in job.iter() {
        count = count.saturating_add(lines.len());
    }
    Ok(count)
}

// How many lines the setup and all jobs have.
fn length(alloc: Global, storm: Storm) -> Result<usize, Fail>
    requires { IsStorm storm }
{
    let setup = storm_setup(alloc, storm)?;
    let mut count = setup.len();
    for i in 0..storm.clients {
        count = count.saturating_add(job_length(alloc, storm, i + 2)?);
    }
    Ok(count)
}

// Whether the storm's script has the lines of the text.
fn is_made(alloc: Global, storm: Storm, text: &[u8]) -> Result<bool, Fail>
    requires { IsStorm storm }
{
    let bytes = Vec::from_slice(alloc, text)?;
    let mut source = MemSource::new(bytes, Vec::new(alloc));
    let lines = read_script(alloc, &mut source)?;
    let made = storm_script(alloc, storm)?;
    let count = length(alloc, storm)?;
    Ok(made == lines && count == lines.len())
}

#[test]
fn the_lines_of_storms_are_those_of_their_texts(rt: HostRuntime) -> Result<(), Fail> {
    let small = Storm {
        servers: 1,
        clients: 2,
        size: 1,
        seed: 1,
        patience: 50,
    };
    let wrapped = Storm {
        servers: 2,
        clients: 3,
        size: 5,
        seed: 18446744073709551614,
        patience: 7,
    };
    let alloc = rt.alloc();
    assert!(rt; is_made(alloc, small, SMALL)? && is_made(alloc, wrapped, WRAPPED)?);
    Ok(())
}
