//! Sixteen clients of one server on a vault in memory, and the one file that all of them lock pages of.
ghost use Rattle.std.specs.Prelude.{◌≡◌, ◌≤◌, IfOk};
ghost use Rattle.alp_base.specs.declared.choices.Choice.TheVariants as choice;
ghost use Rattle.alp_files.specs.declared.call.Call.TheVariants as call;
ghost use Rattle.alp_node.specs.Served.{IsAskable};
ghost use Rattle.alp_node.specs.Shapes.{ReadsSome};

use alp_base::{
    Access, AccessList, Choice, FileId, Name, OutOfMemory, Props, Run, Sizes, Stamp, TransId,
};
use alp_files::{Call, HeldProps, Refusal, Reply};
use alp_journal::Event;
use alp_modes::Mode;
use alp_node::Node;
use alp_vault::MemVault;
use std::alloc::Global;

// How many clients there are.
const SEATS: u8 = 16;

// How many pages the file has. None of them is written.
const FILE_PAGES: u32 = 1024;

// The sizes of the volume, in pages. Its log has room for a part with as many locks as there may be.
const VOLUME: Sizes = Sizes {
    home: 512,
    area: 256,
};

// A client that was told no stamp.
const NO_STAMP: Stamp = Stamp {
    ts: 0,
    trans: TransId {
        server: 0,
        epoch: 0,
        counter: 0,
    },
};

/// What a client is told, as far as it is asked for here.
#[derive(Clone, Copy)]
pub(crate) enum Told {
    Begun(TransId),
    Created(FileId),
    Opened(u32),
    /// It is done: plainly, or with pages, or with the end of the transaction.
    Done,
    /// The call waits.
    Waits,
    Else,
}

fn told_in(reply: &Reply) -> Told {
    match reply {
        Reply::Begun { trans } => Told::Begun(*trans),
        Reply::Created { file, .. } => Told::Created(*file),
        Reply::Opened { open_no } => Told::Opened(*open_no),
        Reply::Plain => Told::Done,
        Reply::Pages(_) => Told::Done,
        Reply::Committed { .. } => Told::Done,
        Reply::Refused(Refusal::Aborted { .. }) => Told::Done,
        Reply::Refused(Refusal::NotYet) => Told::Waits,
        _ => Told::Else,
    }
}

/// A server, and the number of the last call of each of its clients.
#[derive(Drop)]
pub(crate) struct Desk {
    alloc: Global,
    node: Node<MemVault>,
    last: [u32; 16],
}

/// The file in a transaction of a client.
#[derive(Clone, Copy)]
pub(crate) struct Opened {
    pub seat: u8,
    pub trans: TransId,
    pub open_no: u32,
}

fn name() -> Name {
    Name::spelled(b"Admin")
}

// The list that admits everyone.
fn everyone(alloc: Global) -> Result<AccessList, OutOfMemory> {
    let names = vec![in alloc; Name::spelled(b"World")]?;
    Ok(AccessList::new(names))
}

fn owner(alloc: Global, trans: TransId) -> Result<Call, OutOfMemory>
    ensures { IfOk result IsAskable }
{
    Ok(Call::MakeOwner {
        trans,
        owner: name(),
        quota: FILE_PAGES,
        create: everyone(alloc)?,
        choice: Choice::Fail,
    })
}

#[tactic(auto, unfolding(alp_files::specs::Locks::page_limit))]
fn file(alloc: Global, trans: TransId) -> Result<Call, OutOfMemory>
    ensures { IfOk result IsAskable }
{
    let props = Props {
        owner: name(),
        name: name(),
        type_no: 0,
        create_time: 0,
        byte_length: 0,
        size: FILE_PAGES,
        high_water: 0,
        read: everyone(alloc)?,
        modify: everyone(alloc)?,
    };
    Ok(Call::CreateFile {
        trans,
        start: HeldProps::new(alloc, props)?,
        choice: Choice::Fail,
    })
}

fn new_node(alloc: Global) -> Result<Node<MemVault>, OutOfMemory> {
    match Node::start(alloc, 1, 1, MemVault::new(alloc, VOLUME, 1, 1)) {
        Ok(node) => Ok(node),
        Err((_vault, _fault)) => Err(OutOfMemory),
    }
}

impl Desk {
    /// A server that did nothing yet, which nobody greeted.
    pub(crate) fn open(alloc: Global) -> Result<Desk, OutOfMemory> {
        let node = new_node(alloc)?;
        Ok(Desk {
            alloc,
            node,
            last: [0; 16],
        })
    }

    // What the client of the seat is told to its next call. The first one is a greeting, so it has no epoch.
    fn ask(&mut self, seat: u8, call: Call) -> Result<Told, OutOfMemory>
        requires { IsAskable call }
    {
        let seat = seat % SEATS;
        let before = self.last[seat as usize];
        let number = before.saturating_add(1);
        self.last[seat as usize] = number;
        let asked = Event::Call {
            client: seat + 1,
            epoch: before.min(1),
            number,
            call,
        };
        match self.node.step(asked)? {
            Some(reply) => Ok(told_in(&reply)),
            None => Ok(Told::Else),
        }
    }

    /// The number of the last call of the client of the seat.
    pub(crate) fn last(&self, seat: u8) -> u32 {
        self.last[(seat % SEATS) as usize]
    }

    /// Each client greets the server.
    pub(crate) fn greet(&mut self) -> Result<(), OutOfMemory> {
        for seat in 0..SEATS {
            self.ask(seat, Call::Hello { name: name() })?;
        }
        Ok(())
    }

    fn begin(&mut self, seat: u8) -> Result<TransId, OutOfMemory> {
        match self.ask(seat, Call::Begin { seen: NO_STAMP })? {
            Told::Begun(trans) => Ok(trans),
            _ => Err(OutOfMemory),
        }
    }

    /// The first client makes the file, and its owner.
    pub(crate) fn make_file(&mut self) -> Result<FileId, OutOfMemory> {
        let trans = self.begin(0)?;
        let owner = owner(self.alloc, trans)?;
        self.ask(0, owner)?;
        let file = file(self.alloc, trans)?;
        let told = self.ask(0, file)?;
        self.end(0, trans, true)?;
        match told {
            Told::Created(file) => Ok(file),
            _ => Err(OutOfMemory),
        }
    }

    /// The client ends its transaction, by a commit or an abort.
    pub(crate) fn end(
        &mut self,
        seat: u8,
        trans: TransId,
        commit: bool,
    ) -> Result<Told, OutOfMemory> {
        self.ask(seat, Call::Finish { trans, commit })
    }

    /// The client begins a transaction, and opens the file in it, in this mode.
    pub(crate) fn enter(
        &mut self,
        seat: u8,
        file: FileId,
        mode: Mode,
    ) -> Result<Opened, OutOfMemory> {
        let trans = self.begin(seat)?;
        let open = Call::OpenFile {
            trans,
            file,
            access: Access::Change,
            mode,
            choice: Choice::Fail,
        };
        match self.ask(seat, open)? {
            Told::Opened(open_no) => Ok(Opened {
                seat,
                trans,
                open_no,
            }),
            _ => Err(OutOfMemory),
        }
    }

    /// The client locks pages of the file in this mode, and does not wait.
    pub(crate) fn lock(&mut self, opened: Opened, run: Run, mode: Mode) -> Result<(), OutOfMemory>
        requires { ReadsSome (call.LockPages opened.trans opened.open_no run mode choice.Fail) }
    {
        let lock = Call::LockPages {
            trans: opened.trans,
            open_no: opened.open_no,
            run,
            mode,
            choice: Choice::Fail,
        };
        match self.ask(opened.seat, lock)? {
            Told::Done => Ok(()),
            _ => Err(OutOfMemory),
        }
    }

    /// The client reads a page of the file, and waits where another is in its way.
    #[tactic(auto, unfolding(alp_modes::specs::Modes::covers_of))]
    pub(crate) fn read(&mut self, opened: Opened, first: u32) -> Result<Told, OutOfMemory> {
        let read = Call::ReadPages {
            trans: opened.trans,
            open_no: opened.open_no,
            run: Run { first, count: 1 },
            mode: Mode::Read,
            choice: Choice::Wait,
        };
        self.ask(opened.seat, read)
    }

    /// The client collects what its call of that number is answered.
    pub(crate) fn collect(&mut self, seat: u8, number: u32) -> Result<Told, OutOfMemory> {
        self.ask(seat, Call::Collect { number })
    }
}
