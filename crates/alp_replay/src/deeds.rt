//! The lines of such a script.
use std::io::{self, Write};

/// What a client does: files are counted from 0, owners too, and so are pages.
#[derive(Clone, Copy)]
pub enum Deed {
    Begin,
    Open {
        file: u8,
        changes: bool,
    },
    Read {
        file: u8,
        page: u8,
        waits: bool,
    },
    Write {
        file: u8,
        page: u8,
        text: u32,
        waits: bool,
    },
    Size {
        file: u8,
        size: u8,
    },
    Owner {
        file: u8,
        owner: u8,
    },
    Collect,
    Commit,
    Abort,
}

/// A line of a script.
#[derive(Clone, Copy)]
pub enum Line {
    Of { client: u8, deed: Deed },
    Stop { calls: u8 },
    Restart { pick: u8 },
    Settle,
    Timeout { client: u8 },
}

fn file_word(file: u8) -> &'static str {
    match file {
        0 => "A",
        1 => "B",
        _ => "C",
    }
}

fn owner_word(owner: u8) -> &'static str {
    if owner == 0 { "ann" } else { "bob" }
}

fn how(waits: bool) -> &'static str {
    if waits { " wait" } else { "" }
}

fn mode(changes: bool) -> &'static str {
    if changes { "change iw" } else { "read ir" }
}

impl Deed {
    // The line without its client.
    fn put(&self, text: &mut Vec<u8>) -> io::Result<()> {
        match *self {
            Deed::Begin => write!(text, "begin 1"),
            Deed::Open { file, changes } => {
                write!(text, "open {} {}", file_word(file), mode(changes))
            }
            Deed::Read { file, page, waits } => {
                write!(text, "read {} {page} 1{}", file_word(file), how(waits))
            }
            Deed::Write {
                file,
                page,
                text: number,
                waits,
            } => write!(
                text,
                "write {} {page} 1 t{number}{}",
                file_word(file),
                how(waits)
            ),
            Deed::Size { file, size } => write!(text, "size {} {size}", file_word(file)),
            Deed::Owner { file, owner } => {
                write!(
                    text,
                    "change {} owner {}",
                    file_word(file),
                    owner_word(owner)
                )
            }
            Deed::Collect => write!(text, "collect"),
            Deed::Commit => write!(text, "commit"),
            Deed::Abort => write!(text, "abort"),
        }
    }

    /// Whether its call waits where a lock is in its way.
    pub fn waits(&self) -> bool {
        match *self {
            Deed::Read { waits, .. } | Deed::Write { waits, .. } => waits,
            _ => false,
        }
    }
}

impl Line {
    /// Puts the line's text after what stands there, with its end.
    pub fn put(&self, text: &mut Vec<u8>) -> io::Result<()> {
        match *self {
            Line::Of { client, deed } => {
                write!(text, "{client} ")?;
                deed.put(text)?;
            }
            Line::Stop { calls } => write!(text, "stop 1 {calls}")?,
            Line::Restart { pick } => write!(text, "restart 1 {pick}")?,
            Line::Settle => write!(text, "settle")?,
            Line::Timeout { client } => write!(text, "timeout 1 {client}")?,
        }
        write!(text, "\n")
    }
}
