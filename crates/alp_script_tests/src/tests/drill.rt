//! Tests of alp_drill: a whole script against its text.
mod expected;

use alp_base::MemSource;
use alp_drill::drill;
use alp_script::read_script;
use expected::EXPECTED;
use std::alloc::Global;
use std::test::Fail;

fn the_lines_are_made(alloc: Global) -> Result<bool, Fail> {
    let text = Vec::from_slice(alloc, EXPECTED)?;
    let mut source = MemSource::new(text, Vec::new(alloc));
    let lines = read_script(alloc, &mut source)?;
    let made = drill(alloc, 7, 20)?;
    Ok(made == lines)
}

#[test]
fn the_lines_are_those_of_the_text(rt: HostRuntime) -> Result<(), Fail> {
    assert!(rt; the_lines_are_made(rt.alloc())?);
    Ok(())
}
