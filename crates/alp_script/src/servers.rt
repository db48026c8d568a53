//! How many servers a script declares.
ghost use Rattle.std.specs.Prelude.{◌≡◌};
ghost use Rattle.alp_script.specs.Accepted.{servers_in as servers_in_said, servers_said};

use crate::NumberedLine;
use alp_lines::Line;

fn servers_in(line: &Line) -> u8
    ensures { result ≡ servers_in_said line.now }
{
    match line {
        Line::Servers { count } => *count,
        _ => 0,
    }
}

/// How many servers the first of the lines declares, and 0 where it declares none.
pub fn servers_of(lines: &[NumberedLine]) -> u8
    ensures { result ≡ servers_said lines.now }
{
    match lines {
        [first, ..] => servers_in(&first.line),
        [] => 0,
    }
}
