//! The call that a line of a client is for, and the server that it goes to.
ghost use Rattle.std.specs.Prelude.{◌≡◌, ◌≤◌, IfOk, length, replicate};
ghost use Rattle.alp_base.specs.Pages.{page_of};
ghost use Rattle.alp_session.specs.Props.{new_props as props_said};
ghost use Rattle.alp_session.specs.Calls.{making_call as making_call_said, owner_call as owner_call_said, home_of as home_said};

use crate::{Client, Words};
use alp_base::{
    AccessList, Bytes, FileId, Name, OutOfMemory, Page, PageList, PageRef, Props, Run, TransId,
};
use alp_files::{Call, HeldProps};
use alp_lines::{FileWord, Line};
use std::alloc::Global;

fn new_props(word: Name, owner: Name, size: u32, read: AccessList, modify: AccessList) -> Props
    ensures { result ≡ props_said word owner size read modify }
{
    Props {
        owner,
        name: word,
        type_no: 0,
        create_time: 0,
        byte_length: 0,
        size,
        high_water: 0,
        read,
        modify,
    }
}

// So many references to one page.
fn copies(alloc: Global, page: &PageRef, count: u8) -> Result<PageList, OutOfMemory>
    ensures { IfOk result (λ l. l ≡ replicate count page.now) }
{
    let mut pages = Vec::new(alloc);
    for _copy in 0..count {
        pages.push(page.share()?)?;
    }
    Ok(PageList::new(pages))
}

// The pages of a write: each has the text.
fn pages_of(alloc: Global, run: Run, text: &Bytes) -> Result<PageList, OutOfMemory>
    requires { length text.now ≤ 512 }
    ensures { IfOk result (λ l. l ≡ replicate run.count (page_of text.now)) }
{
    let page = PageRef::new(alloc, Page::beginning(text.as_slice()))?;
    copies(alloc, &page, run.count)
}

// The call of a line on an owner that is there.
fn owner_call(trans: TransId, line: &Line) -> Option<Call>
    ensures { result ≡ owner_call_said trans line.now }
{
    match line {
        Line::ReadOwner { owner, choice, .. } => Some(Call::ReadOwner {
            trans,
            owner: *owner,
            choice: *choice,
        }),
        Line::SetQuota {
            owner,
            quota,
            choice,
            ..
        } => Some(Call::SetQuota {
            trans,
            owner: *owner,
            quota: *quota,
            choice: *choice,
        }),
        _ => None,
    }
}

// The call of a line that makes an owner or a file, or of one on an owner.
fn making_call(alloc: Global, trans: TransId, line: &Line) -> Result<Option<Call>, OutOfMemory>
    ensures { IfOk result (λ call. call ≡ making_call_said trans line.now) }
{
    let call = match line {
        Line::MakeOwner {
            owner,
            quota,
            create,
            choice,
            ..
        } => Call::MakeOwner {
            trans,
            owner: *owner,
            quota: *quota,
            create: create.clone()?,
            choice: *choice,
        },
        Line::Create {
            word,
            owner,
            size,
            read,
            modify,
            choice,
            ..
        } => {
            let start = new_props(*word, *owner, *size, read.clone()?, modify.clone()?);
            Call::CreateFile {
                trans,
                start: HeldProps::new(alloc, start)?,
                choice: *choice,
            }
        }
        _ => return Ok(owner_call(trans, line)),
    };
    Ok(Some(call))
}

// The server that began the transaction.
fn home_of(trans: Option<TransId>) -> u8
    ensures { result ≡ home_said trans }
{
    match trans {
        Some(trans) => trans.server,
        None => 0,
    }
}

impl Client {
    ghost use Rattle.alp_session.specs.Clients.{open_of as open_said, open_at as open_at_said, first_of};
    ghost use Rattle.alp_session.specs.Calls.{props_call as props_call_said, file_call as file_call_said, page_call as page_call_said, call_in as call_in_said, collect_of as collect_said, outcome_of as outcome_said, call_by as call_said, waits_in as waits_in_said, server_for as server_said, IsAskable};

    // The open number last given to the client for the file, or 0.
    fn open_of(&self, file: &FileId) -> u32
        ensures { result ≡ open_said self.now file.now }
    {
        self.opens.get(file).copied().unwrap_or(0)
    }

    // And that of the file for which the line's word stands.
    fn open_at(&self, words: &Words, file: &FileWord) -> u32
        ensures { result ≡ open_at_said words.now self.now file.now }
    {
        self.open_of(&words.file_of(file))
    }

    // The call of a line on the properties of a file, or on no file that is open.
    fn props_call(
        &self,
        alloc: Global,
        words: &Words,
        trans: TransId,
        line: &Line,
    ) -> Result<Option<Call>, OutOfMemory>
        ensures { IfOk result (λ call. call ≡ props_call_said words.now self.now trans line.now) }
    {
        let call = match line {
            Line::ReadProps { file, .. } => Call::ReadProps {
                trans,
                open_no: self.open_at(words, file),
            },
            Line::WriteProps {
                file,
                change,
                choice,
                ..
            } => Call::WriteProps {
                trans,
                open_no: self.open_at(words, file),
                change: change.clone()?,
                choice: *choice,
            },
            _ => return making_call(alloc, trans, line),
        };
        Ok(Some(call))
    }

    // The call of a line on all of a file, or on no pages.
    fn file_call(
        &self,
        alloc: Global,
        words: &Words,
        trans: TransId,
        line: &Line,
    ) -> Result<Option<Call>, OutOfMemory>
        ensures { IfOk result (λ call. call ≡ file_call_said words.now self.now trans line.now) }
    {
        let call = match line {
            Line::CloseFile { file, .. } => Call::CloseFile {
                trans,
                open_no: self.open_at(words, file),
            },
            Line::DeleteFile { file, choice, .. } => Call::DeleteFile {
                trans,
                open_no: self.open_at(words, file),
                choice: *choice,
            },
            Line::SetSize {
                file,
                size,
                choice,
                ..
            } => Call::SetSize {
                trans,
                open_no: self.open_at(words, file),
                size: *size,
                choice: *choice,
            },
            _ => return self.props_call(alloc, words, trans, line),
        };
        Ok(Some(call))
    }

    // The call of a line that reads, writes or locks pages, or of another but an open.
    fn page_call(
        &self,
        alloc: Global,
        words: &Words,
        trans: TransId,
        line: &Line,
    ) -> Result<Option<Call>, OutOfMemory>
        requires { IsAskable line.now }
        ensures { IfOk result (λ call. call ≡ page_call_said words.now self.now trans line.now) }
    {
        let call = match line {
            Line::WritePages {
                file,
                run,
                text,
                choice,
                ..
            } => Call::WritePages {
                trans,
                open_no: self.open_at(words, file),
                run: *run,
                pages: pages_of(alloc, *run, text)?,
                choice: *choice,
            },
            Line::ReadPages {
                file,
                run,
                mode,
                choice,
                ..
            } => Call::ReadPages {
                trans,
                open_no: self.open_at(words, file),
                run: *run,
                mode: *mode,
                choice: *choice,
            },
            Line::LockPages {
                file,
                run,
                mode,
                choice,
                ..
            } => Call::LockPages {
                trans,
                open_no: self.open_at(words, file),
                run: *run,
                mode: *mode,
                choice: *choice,
            },
            _ => return self.file_call(alloc, words, trans, line),
        };
        Ok(Some(call))
    }

    // The call of a line in the client's transaction.
    fn call_in(
        &self,
        alloc: Global,
        words: &Words,
        trans: TransId,
        line: &Line,
    ) -> Result<Option<Call>, OutOfMemory>
        requires { IsAskable line.now }
        ensures { IfOk result (λ call. call ≡ call_in_said words.now self.now trans line.now) }
    {
        let call = match line {
            Line::OpenFile {
                file,
                access,
                mode,
                choice,
                ..
            } => Call::OpenFile {
                trans,
                file: words.file_of(file),
                access: *access,
                mode: *mode,
                choice: *choice,
            },
            Line::Commit { .. } => Call::Finish {
                trans,
                commit: true,
            },
            Line::Abort { .. } => Call::Finish {
                trans,
                commit: false,
            },
            _ => return self.page_call(alloc, words, trans, line),
        };
        Ok(Some(call))
    }

    // The collect of the call that came to wait last, if one waits.
    fn collect(&self) -> Option<Call>
        ensures { result ≡ collect_said (first_of self.now.waiting) }
    {
        match self.waiting.first() {
            Some(waiting) => Some(Call::Collect {
                number: waiting.number,
            }),
            None => None,
        }
    }

    // What asks how the last transaction that it begun ended, if it begun one.
    fn outcome(&self) -> Option<Call>
        ensures { result ≡ outcome_said self.now.begun }
    {
        match self.begun {
            Some(trans) => Some(Call::Outcome { trans }),
            None => None,
        }
    }

    /// The call that a line of the client is for, if there is a transaction where it needs one.
    pub(crate) fn call_of(
        &self,
        alloc: Global,
        words: &Words,
        line: &Line,
    ) -> Result<Option<Call>, OutOfMemory>
        requires { IsAskable line.now }
        ensures { IfOk result (λ call. call ≡ call_said words.now self.now line.now) }
    {
        if let Line::Begin { .. } = line {
            return Ok(Some(Call::Begin { seen: self.told }));
        }
        if let Line::Outcome { .. } = line {
            return Ok(self.outcome());
        }
        if let Line::Collect { .. } = line {
            return Ok(self.collect());
        }
        match self.trans {
            Some(trans) => self.call_in(alloc, words, trans, line),
            None => Ok(None),
        }
    }

    // The server of the call that came to wait last.
    fn waits_in(&self) -> u8
        ensures { result ≡ waits_in_said (first_of self.now.waiting) }
    {
        match self.waiting.first() {
            Some(waiting) => waiting.server,
            None => 0,
        }
    }

    /// The server that the call of a line goes to, and 0 where the line has none.
    pub(crate) fn server_for(&self, words: &Words, line: &Line) -> u8
        ensures { result ≡ server_said words.now self.now line.now }
    {
        match line {
            Line::Begin { server, .. } => *server,
            Line::Create { server, .. } => *server,
            Line::ReadOwner { server, .. } => *server,
            Line::MakeOwner { server, .. } => *server,
            Line::SetQuota { server, .. } => *server,
            Line::OpenFile { file, .. } => words.file_of(file).server,
            Line::CloseFile { file, .. } => words.file_of(file).server,
            Line::DeleteFile { file, .. } => words.file_of(file).server,
            Line::ReadPages { file, .. } => words.file_of(file).server,
            Line::WritePages { file, .. } => words.file_of(file).server,
            Line::LockPages { file, .. } => words.file_of(file).server,
            Line::SetSize { file, .. } => words.file_of(file).server,
            Line::ReadProps { file, .. } => words.file_of(file).server,
            Line::WriteProps { file, .. } => words.file_of(file).server,
            Line::Commit { .. } => home_of(self.trans),
            Line::Abort { .. } => home_of(self.trans),
            Line::Outcome { .. } => home_of(self.begun),
            Line::Collect { .. } => self.waits_in(),
            _ => 0,
        }
    }
}
