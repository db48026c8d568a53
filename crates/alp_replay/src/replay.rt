//! What one thread makes of the transactions that were committed, in the order of their stamps.
use crate::deeds::{Deed, Line};
use crate::unlike::Unlike;
use alp_base::OutOfMemory;
use std::alloc::Global;
use std::io::Write;

// So many pages a file may have here.
const PAGES: usize = 8;

// A file: its owner, its size, and the number of each page's text, which is 0 of zeros.
#[derive(Clone, Copy)]
struct Held {
    owner: u8,
    size: usize,
    pages: [u32; PAGES],
}

type Files = [Held; 3];

// A call that was answered with ok, and the number of the text that it told.
#[derive(Clone, Copy)]
struct Done {
    deed: Deed,
    told: u64,
}

// What a client's transaction did, and its call that waits.
#[derive(Drop)]
struct Party {
    done: Vec<Done>,
    waiting: Option<Deed>,
}

/// How often what happened.
#[derive(Clone, Copy, Default)]
pub struct Counts {
    commits: u32,
    found: u32,
    lost: u32,
    reads: u32,
    collected: u32,
}

impl Counts {
    /// Whether each of it happened often, a commit that a restart found and one that it lost among them.
    pub fn is_rich(&self) -> bool {
        self.commits > 5000
            && self.found > 20
            && self.lost > 20
            && self.reads > 5_000
            && self.collected > 20
    }
}

fn rise(count: &mut u32) {
    *count = count.saturating_add(1);
}

// The number that the text begins with.
fn number(text: &[u8]) -> u64 {
    let mut number = 0u64;
    for byte in text.iter().take_while(|b| b.is_ascii_digit()) {
        number = number
            .saturating_mul(10)
            .saturating_add((*byte - b'0') as u64);
    }
    number
}

// The lines of a report that are not read yet.
#[derive(Drop)]
struct Answers<'a> {
    rest: &'a [u8],
}

impl<'a> Answers<'a> {
    // What the report says of the line with this number: nothing where it has no line of it.
    fn of(&mut self, line: u32) -> &'a [u8] {
        let end = match self.rest.iter().position(|b| *b == b'\n') {
            Some(end) => end,
            None => return b"",
        };
        let first = &self.rest[..end];
        match first.iter().position(|b| *b == b' ') {
            Some(gap) if number(first) == line as u64 => {
                self.rest = &self.rest[end + 1..];
                &first[gap + 1..]
            }
            _ => b"",
        }
    }
}

fn file_of(files: &mut Files, file: u8) -> Result<&mut Held, Unlike> {
    Ok(
        files
            .get_mut(file as usize)
            .ok_or(Unlike::Report("a file"))?,
    )
}

// The pages of a file from its size on are zeros.
fn cut(held: &mut Held) {
    for page in held.pages.iter_mut().skip(held.size) {
        *page = 0;
    }
}

// The files behind what a call did, which told what they held.
fn does(files: &mut Files, done: Done, counts: &mut Counts) -> Result<(), Unlike> {
    match done.deed {
        Deed::Read { file, page, .. } => {
            rise(&mut counts.reads);
            let held = file_of(files, file)?;
            if held.pages.get(page as usize).map(|text| *text as u64) != Some(done.told) {
                return Err(Unlike::Report("what one thread reads"));
            }
        }
        Deed::Write {
            file,
            page,
            text,
            ..
        } => {
            let held = file_of(files, file)?;
            *held
                .pages
                .get_mut(page as usize)
                .ok_or(Unlike::Report("a page"))? = text;
        }
        Deed::Size { file, size } => {
            let held = file_of(files, file)?;
            held.size = size as usize;
            cut(held);
        }
        Deed::Owner { file, owner } => file_of(files, file)?.owner = owner,
        _ => {}
    }
    Ok(())
}

/// What one thread makes of the transactions that were committed.
#[derive(Drop)]
pub struct Replay {
    line: u32,
    parties: Vec<Party>,
    files: Files,
    clock: u64,
    is_down: bool,
    // The files behind a commit in which the server stopped.
    doubt: Option<Files>,
}

impl Replay {
    /// The state after the lines of the setup, which are so many: three files of two owners.
    pub fn new(alloc: Global, line: u32) -> Result<Replay, OutOfMemory> {
        let mut parties = Vec::new(alloc);
        for _client in 0..3u8 {
            parties.push(Party {
                done: Vec::new(alloc),
                waiting: None,
            })?;
        }
        let held = |owner, size| Held {
            owner,
            size,
            pages: [0; PAGES],
        };
        Ok(Replay {
            line,
            parties,
            files: [held(0, 3), held(0, 2), held(1, 1)],
            clock: 1,
            is_down: false,
            doubt: None,
        })
    }

    fn party(&mut self, client: u8) -> Result<&mut Party, Unlike> {
        Ok(
            self.parties
                .get_mut(client.saturating_sub(1) as usize)
                .ok_or(Unlike::Report("a client"))?,
        )
    }

    // The files behind the transaction of a client, where its reads told what they held.
    fn behind(&self, client: u8, counts: &mut Counts) -> Result<Files, Unlike> {
        let party = self
            .parties
            .get(client.saturating_sub(1) as usize)
            .ok_or(Unlike::Report("a client"))?;
        let mut files = self.files;
        for done in party.done.iter() {
            does(&mut files, *done, counts)?;
        }
        Ok(files)
    }

    // A commit was told, with its stamp: the first behind a stop tells whether the commit that stopped took effect.
    fn commits(&mut self, client: u8, time: u64, counts: &mut Counts) -> Result<(), Unlike> {
        if let Some(files) = self.doubt.take() {
            if time == self.clock.saturating_add(2) {
                self.files = files;
                self.clock = self.clock.saturating_add(1);
                rise(&mut counts.found);
            } else {
                rise(&mut counts.lost);
            }
        }
        if time != self.clock.saturating_add(1) {
            return Err(Unlike::Report("the next stamp"));
        }
        self.files = self.behind(client, counts)?;
        self.clock = time;
        rise(&mut counts.commits);
        Ok(())
    }

    // A call was answered with ok and this.
    fn done(
        &mut self,
        client: u8,
        deed: Deed,
        answer: &[u8],
        counts: &mut Counts,
    ) -> Result<(), Unlike> {
        let told = match answer {
            [b't', text @ ..] => number(text),
            _ => 0,
        };
        match deed {
            Deed::Begin => {
                let party = self.party(client)?;
                party.done.clear();
                party.waiting = None;
            }
            Deed::Commit => {
                let time = answer
                    .strip_prefix(b"stamp ")
                    .ok_or(Unlike::Report("a stamp"))?;
                self.commits(client, number(time), counts)?;
            }
            Deed::Collect => {
                let party = self.party(client)?;
                let deed = party
                    .waiting
                    .take()
                    .ok_or(Unlike::Report("a call that waits"))?;
                party.done.push(Done { deed, told })?;
                rise(&mut counts.collected);
            }
            deed => self.party(client)?.done.push(Done { deed, told })?,
        }
        Ok(())
    }

    // The server is down: a commit that is the first to be told so may have taken effect.
    fn stopped(&mut self, client: u8, deed: Deed, counts: &mut Counts) -> Result<(), Unlike> {
        if !self.is_down && matches!(deed, Deed::Commit) {
            self.doubt = Some(self.behind(client, counts)?);
        }
        self.is_down = true;
        Ok(())
    }

    fn answered(
        &mut self,
        client: u8,
        deed: Deed,
        answer: &[u8],
        counts: &mut Counts,
    ) -> Result<(), Unlike> {
        match answer {
            b"refused 20" => self.stopped(client, deed, counts)?,
            b"refused 18" => {
                let party = self.party(client)?;
                if party.waiting.is_none() && deed.waits() {
                    party.waiting = Some(deed);
                }
            }
            b"ok" => self.done(client, deed, b"", counts)?,
            [b'o', b'k', b' ', told @ ..] => self.done(client, deed, told, counts)?,
            _ if matches!(deed, Deed::Collect) => self.party(client)?.waiting = None,
            _ => {}
        }
        Ok(())
    }

    fn take(&mut self, line: Line, answer: &[u8], counts: &mut Counts) -> Result<(), Unlike> {
        match line {
            Line::Of { client, deed } => self.answered(client, deed, answer, counts)?,
            Line::Restart { .. } | Line::Settle => self.is_down = false,
            Line::Stop { .. } | Line::Timeout { .. } => {}
        }
        Ok(())
    }

    // How many pages the owner's files have.
    fn charge(&self, owner: u8) -> usize {
        self.files
            .iter()
            .filter(|held| held.owner == owner)
            .fold(0usize, |sum, held| sum.saturating_add(held.size))
    }

    // What the report says of the server behind its epoch.
    fn held(&self, alloc: Global) -> Result<Vec<u8>, Unlike> {
        let (ann, bob) = (self.charge(0), self.charge(1));
        let (clock, pages) = (self.clock, ann.saturating_add(bob));
        let mut text = Vec::new(alloc);
        write!(text, " clock {clock} files 3 pages {pages}\n")?;
        write!(text, "owner 1 ann charge {ann} quota 20\n")?;
        write!(text, "owner 1 bob charge {bob} quota 20\n")?;
        write!(text, "committed {clock} aborted ")?;
        Ok(text)
    }

    /// Takes each line with what was answered to it, and what the report says at its end.
    pub fn takes(
        &mut self,
        alloc: Global,
        lines: &[Line],
        report: &[u8],
        counts: &mut Counts,
    ) -> Result<(), Unlike> {
        let mut answers = Answers { rest: report };
        for line in 0..=self.line {
            let _ = answers.of(line);
        }
        self.take_all(lines, &mut answers, counts)?;
        let held = self.held(alloc)?;
        let told = |part: &[u8]| part == held.as_slice();
        if held.is_empty() || !report.windows(held.len()).any(told) {
            return Err(Unlike::Report("what one thread leaves"));
        }
        Ok(())
    }

    fn take_all(
        &mut self,
        lines: &[Line],
        answers: &mut Answers<'_>,
        counts: &mut Counts,
    ) -> Result<(), Unlike> {
        for line in lines {
            self.line = self.line.saturating_add(1);
            self.take(*line, answers.of(self.line), counts)?;
        }
        Ok(())
    }
}
