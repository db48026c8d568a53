//! What is remembered of files: what words stand for, and a client's opens of ids.
ghost use Rattle.std.specs.Prelude.{◌≡◌, IfOk, OnOk, OnErr, None, false};
ghost use Rattle.std.specs.FinMap as map;
ghost use Rattle.std.specs.Option.{option_copied as copied};
ghost use Rattle.alp_session.specs.Clients.{no_file as no_file_said, meant as meant_said, is_awaited, file_of as file_said};
ghost use Rattle.alp_session.specs.Heard.{words_at, words_awaiting};
ghost use Rattle.alp_session.specs.Maps.{WordMap as AWordMap};
ghost use Rattle.alp_session.specs.declared.meaning.Meaning.{Meaning as AMeaning};

use crate::Meaning;
use alp_base::{FileId, Name, OutOfMemory, TransId};
use alp_lines::{FileWord, Line};
use std::alloc::{AllocError, Global};
use std::collections::BTreeMap;
use std::marker::Model;

// What a word stands for before its file is created.
fn no_file(server: u8) -> FileId
    ensures { result ≡ no_file_said server }
{
    FileId {
        server,
        epoch: 0,
        counter: 0,
    }
}

/// What the words of the script stand for.
#[derive(Drop)]
pub struct Words {
    meanings: BTreeMap<Name, Meaning>,
}

impl Model for Words {
    ghost use Rattle.std.specs.FinMap as map;
    ghost use Rattle.alp_session.specs.Maps.{WordMap};
    ghost use Rattle.alp_base.specs.contracts.name.Name as name_type;
    ghost use Rattle.alp_session.specs.contracts.meaning.Meaning as meaning_type;

    ghost Value = { WordMap };

    ghost coded = { map.code name_type.the_row.coded meaning_type.the_row.coded };

    ghost view = { λ w. map.from_entries w.meanings.entries };
}

impl Clone for Words {
    ghost is_clone = { λ a b. b ≡ a };

    fn clone(&self) -> Result<Words, AllocError> {
        let meanings = self.meanings.clone()?;
        Ok(Words { meanings })
    }
}

// The id that a word stands for, if it stands for something.
fn meant(meaning: Option<Meaning>) -> FileId
    ensures { result ≡ meant_said meaning }
{
    match meaning {
        Some(Meaning::File(id)) => id,
        Some(Meaning::Awaited(_, server)) => no_file(server),
        None => no_file(1),
    }
}

// Whether what a word stands for is created by a call of this transaction that waits at the server.
fn is_by(meaning: Option<Meaning>, trans: Option<TransId>, server: u8) -> bool
    ensures { result ≡ is_awaited meaning trans server }
{
    match (meaning, trans) {
        (Some(Meaning::Awaited(by, at)), Some(trans)) => by == trans && at == server,
        _ => false,
    }
}

impl Words {
    pub fn new(alloc: Global) -> Words
        ensures { result ≡ map.empty }
    {
        Words {
            meanings: BTreeMap::new(alloc),
        }
    }

    pub fn get(&self, word: &Name) -> Option<&Meaning>
        ensures { copied result ≡ map.get self.now word.now }
    {
        self.meanings.get(word)
    }

    /// The id that a line's file word stands for.
    pub fn file_of(&self, file: &FileWord) -> FileId
        ensures { result ≡ file_said self.now file.now }
    {
        match file {
            FileWord::Word(word) => meant(self.get(word).copied()),
            FileWord::Id(id) => *id,
        }
    }

    /// A `create` binds its word at the line, to no file of its server.
    pub fn at_line(&mut self, line: &Line) -> Result<(), OutOfMemory>
        ensures ok { OnOk result (self.new ≡ words_at self.old line.now) }
        ensures err { OnErr result (self.new ≡ self.old) }
    {
        if let Line::Create { word, server, .. } = line {
            self.bind(*word, Meaning::File(no_file(*server)))?;
        }
        Ok(())
    }

    /// What the call of a line creates, which waits at the server, is awaited by its word, where the call is of this transaction.
    pub fn awaiting(
        &mut self,
        line: &Line,
        trans: Option<TransId>,
        server: u8,
    ) -> Result<(), OutOfMemory>
        ensures ok { OnOk result (self.new ≡ words_awaiting self.old line.now false trans server) }
        ensures err { OnErr result (self.new ≡ self.old) }
    {
        let Some(trans) = trans else {
            return Ok(());
        };
        if let Line::Create { word, .. } = line {
            self.bind(*word, Meaning::Awaited(trans, server))?;
        }
        Ok(())
    }

    /// Whether the word stands for what a call of this transaction creates that waits at the server.
    pub fn awaits(&self, word: &Name, trans: Option<TransId>, server: u8) -> bool
        ensures { result ≡ is_awaited (map.get self.now word.now) trans server }
    {
        is_by(self.get(word).copied(), trans, server)
    }

    /// The word stands for that from now on. Gives what it stood for.
    pub fn bind(&mut self, word: Name, meaning: Meaning) -> Result<Option<Meaning>, OutOfMemory>
        ensures ok { OnOk result (self.new ≡ map.insert self.old word meaning) }
        ensures stood { IfOk result (λ stood. stood ≡ map.get self.old word) }
        ensures err { OnErr result (self.new ≡ self.old) }
        ensures absent { OnErr result (map.get self.old word ≡ None) }
    {
        let stood = self.meanings.insert(word, meaning)?;
        Ok(stood)
    }

    /// The word stands again for what it stood for before it was bound.
    pub fn restore(&mut self, word: Name, stood: Option<Meaning>)
        ensures { (m : AWordMap) → (meaning : AMeaning) → stood ≡ map.get m word → self.old ≡ map.insert m word meaning → self.new ≡ m }
    {
        match stood {
            Some(meaning) => {
                let _ = self.bind(word, meaning);
            }
            None => {
                self.meanings.remove(&word);
            }
        }
    }
}

/// The open numbers that were last given for files, in the transaction that runs.
#[derive(Drop)]
pub struct Opens {
    numbers: BTreeMap<FileId, u32>,
}

impl Model for Opens {
    ghost use Rattle.std.specs.FinMap as map;
    ghost use Rattle.std.specs.Coded.{coded_ℕ};
    ghost use Rattle.alp_session.specs.Maps.{OpenMap};
    ghost use Rattle.alp_base.specs.contracts.ids.FileId as id_type;

    ghost Value = { OpenMap };

    ghost coded = { map.code id_type.the_row.coded coded_ℕ };

    ghost view = { λ o. map.from_entries o.numbers.entries };
}

impl Opens {
    pub fn new(alloc: Global) -> Opens
        ensures { result ≡ map.empty }
    {
        Opens {
            numbers: BTreeMap::new(alloc),
        }
    }

    pub fn get(&self, id: &FileId) -> Option<&u32>
        ensures { copied result ≡ map.get self.now id.now }
    {
        self.numbers.get(id)
    }

    pub fn give(&mut self, id: FileId, number: u32) -> Result<(), OutOfMemory>
        ensures ok { OnOk result (self.new ≡ map.insert self.old id number) }
        ensures err { OnErr result (self.new ≡ self.old) }
    {
        self.numbers.insert(id, number)?;
        Ok(())
    }

    pub fn clear(&mut self)
        ensures { self.new ≡ map.empty }
    {
        self.numbers.clear();
    }
}
