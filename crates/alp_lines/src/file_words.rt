//! How words name files.
ghost use Rattle.std.specs.Prelude.{◌≡◌};
ghost use Rattle.alp_tokens.specs.Telling.{Tells};
ghost use Rattle.alp_tokens.specs.Words.{shown};
ghost use Rattle.alp_lines.specs.FileWords.{id_of as id_said, id_word as id_word_said, name_word as name_word_said, is_id as is_id_said, id_by as id_said_by, file_word_of as file_word_said, word_alone as word_alone_said, new_word_of as new_word_said};

use crate::FileWord;
use alp_base::{FileId, Name};
use alp_tokens::{LineFault, are_numerals, byte, name, parts, word32};
use std::alloc::Global;

#[tactic(auto, unfolding(crate::specs::FileWords::id_of))]
fn id(server: &[u8], epoch: &[u8], counter: &[u8]) -> Result<FileId, LineFault>
    ensures { Tells result (id_said server.now epoch.now counter.now) }
{
    let server = byte(server)?;
    let epoch = word32(epoch)?;
    let counter = word32(counter)?;
    Ok(FileId {
        server,
        epoch,
        counter,
    })
}

fn name_word(word: &[u8]) -> Result<FileWord, LineFault>
    ensures { Tells result (name_word_said word.now) }
{
    let name = name(word)?;
    Ok(FileWord::Word(name))
}

fn id_word(server: &[u8], epoch: &[u8], counter: &[u8]) -> Result<FileWord, LineFault>
    ensures { Tells result (id_word_said server.now epoch.now counter.now) }
{
    let id = id(server, epoch, counter)?;
    Ok(FileWord::Id(id))
}

fn is_id(parts: &[&[u8]]) -> bool
    ensures { result ≡ is_id_said (shown parts.now) }
{
    match parts {
        [server, epoch, counter] => are_numerals(server, epoch, counter),
        _ => false,
    }
}

fn id_by(parts: &[&[u8]]) -> Result<FileWord, LineFault>
    ensures { Tells result (id_said_by (shown parts.now)) }
{
    match parts {
        [server, epoch, counter] => id_word(server, epoch, counter),
        _ => Err(LineFault::Outside),
    }
}

#[tactic(auto, unfolding(crate::specs::FileWords::file_word_of))]
pub(crate) fn file_word(alloc: Global, word: &[u8]) -> Result<FileWord, LineFault>
    ensures { Tells result (file_word_said word.now) }
{
    let parts = parts(alloc, word, b'.')?;
    let named = is_id(parts.as_slice());
    if named {
        id_by(parts.as_slice())
    } else {
        name_word(word)
    }
}

fn word_alone(file: FileWord) -> Result<Name, LineFault>
    ensures { Tells result (word_alone_said file) }
{
    match file {
        FileWord::Word(name) => Ok(name),
        FileWord::Id(_) => Err(LineFault::Outside),
    }
}

#[tactic(auto, unfolding(crate::specs::FileWords::new_word_of))]
pub(crate) fn new_word(alloc: Global, word: &[u8]) -> Result<Name, LineFault>
    ensures { Tells result (new_word_said word.now) }
{
    let file = file_word(alloc, word)?;
    word_alone(file)
}
