//! The sizes that a script gives the volumes of its servers.
ghost use Rattle.std.specs.Prelude.{◌≡◌};
ghost use Rattle.alp_script.specs.Volumes.{sizes_in as sizes_in_said, sizes_said};

use crate::NumberedLine;
use alp_base::Sizes;
use alp_lines::Line;

/// The pages for files and owners of a new volume whose sizes no line says.
pub const NEW_HOME: u32 = 16384;

/// The pages of an area of its log.
pub const NEW_AREA: u32 = 2048;

fn sizes_in(line: &Line, server: u8) -> Option<Sizes>
    ensures { result ≡ sizes_in_said server line.now }
{
    match line {
        Line::Volume {
            server: of,
            home,
            area,
        } if *of == server => Some(Sizes {
            home: *home,
            area: *area,
        }),
        _ => None,
    }
}

/// The sizes of a new disk of the server: those that the last line on its volume says.
#[tactic(auto, unfolding(crate::specs::Volumes::sizes_said))]
pub fn sizes_of(lines: &[NumberedLine], server: u8) -> Sizes
    ensures { result ≡ sizes_said lines.now server }
{
    let mut said = None;
    for line in lines {
        if let Some(sizes) = sizes_in(&line.line, server) {
            said = Some(sizes);
        }
    }
    match said {
        Some(sizes) => sizes,
        None => Sizes {
            home: NEW_HOME,
            area: NEW_AREA,
        },
    }
}
