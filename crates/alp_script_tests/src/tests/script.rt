//! Tests of alp_script: which scripts are read, and which line of another is the first that is outside.
mod outside;
mod reads;

use alp_base::{MemSource, OutOfMemory};
use alp_script::{ScriptFault, read_script};
use std::alloc::Global;

// How many lines the script has.
fn count(alloc: Global, text: &[u8]) -> Result<usize, ScriptFault> {
    let bytes = Vec::from_slice(alloc, text)?;
    let mut source = MemSource::new(bytes, Vec::new(alloc));
    let lines = read_script(alloc, &mut source)?;
    Ok(lines.len())
}

// Whether the script is read, and has so many lines.
fn has_lines(alloc: Global, text: &[u8], lines: usize) -> bool {
    count(alloc, text) == Ok(lines)
}

// Whether this line is the first of the script that is outside.
fn is_bad(alloc: Global, text: &[u8], line: u32) -> bool {
    count(alloc, text) == Err(ScriptFault::Bad { line })
}

// So of each of the scripts.
fn are_bad(alloc: Global, scripts: &[(&[u8], u32)]) -> bool {
    for (text, line) in scripts {
        if !is_bad(alloc, *text, *line) {
            return false;
        }
    }
    true
}

// A script and one line more.
fn with_line(alloc: Global, script: &[u8], line: &[u8]) -> Result<Vec<u8>, OutOfMemory> {
    let mut text = Vec::from_slice(alloc, script)?;
    text.extend_from_slice(line)?;
    Ok(text)
}

// Whether each of these is outside where it stands in that line, behind the script.
fn are_bad_lines(
    alloc: Global,
    script: &[u8],
    number: u32,
    lines: &[&[u8]],
) -> Result<bool, OutOfMemory> {
    for line in lines {
        let text = with_line(alloc, script, *line)?;
        if !is_bad(alloc, text.as_slice(), number) {
            return Ok(false);
        }
    }
    Ok(true)
}
