//! One line of a script.
ghost use Rattle.std.specs.Prelude.{◌≡◌};
ghost use Rattle.alp_lines.specs.Named.{client_named, server_named, receiver_named};

use alp_base::{Access, AccessList, Bytes, Choice, FileId, Name, Run};
use alp_files::PropChange;
use alp_modes::Mode;

/// How a line names a file: by a word that a `create` line bound, or by its id.
#[derive(Clone, Copy, PartialEq, Eq)]
pub enum FileWord {
    Word(Name),
    Id(FileId),
}

/// What a line says: a declaration, an event, or what a client is to do.
#[derive(Drop, PartialEq, Eq)]
pub enum Line {
    Servers {
        count: u8,
    },
    Volume {
        server: u8,
        home: u32,
        area: u32,
    },
    Client {
        client: u8,
        name: Name,
    },
    Patience {
        count: u32,
    },
    Auto {
        on: bool,
    },
    Carry {
        from: u8,
        to: u8,
    },
    Lose {
        from: u8,
        to: u8,
    },
    Again {
        from: u8,
        to: u8,
    },
    Tick {
        server: u8,
    },
    Force {
        server: u8,
    },
    Timeout {
        server: u8,
        client: u8,
    },
    Stop {
        server: u8,
        calls: u32,
    },
    Restart {
        server: u8,
        pick: u64,
    },
    Settle,
    Begin {
        client: u8,
        server: u8,
    },
    Create {
        client: u8,
        server: u8,
        word: Name,
        owner: Name,
        size: u32,
        read: AccessList,
        modify: AccessList,
        choice: Choice,
    },
    OpenFile {
        client: u8,
        file: FileWord,
        access: Access,
        mode: Mode,
        choice: Choice,
    },
    CloseFile {
        client: u8,
        file: FileWord,
    },
    DeleteFile {
        client: u8,
        file: FileWord,
        choice: Choice,
    },
    ReadPages {
        client: u8,
        file: FileWord,
        run: Run,
        mode: Mode,
        choice: Choice,
    },
    WritePages {
        client: u8,
        file: FileWord,
        run: Run,
        text: Bytes,
        choice: Choice,
    },
    LockPages {
        client: u8,
        file: FileWord,
        run: Run,
        mode: Mode,
        choice: Choice,
    },
    SetSize {
        client: u8,
        file: FileWord,
        size: u32,
        choice: Choice,
    },
    ReadProps {
        client: u8,
        file: FileWord,
    },
    WriteProps {
        client: u8,
        file: FileWord,
        change: PropChange,
        choice: Choice,
    },
    ReadOwner {
        client: u8,
        server: u8,
        owner: Name,
        choice: Choice,
    },
    MakeOwner {
        client: u8,
        server: u8,
        owner: Name,
        quota: u32,
        create: AccessList,
        choice: Choice,
    },
    SetQuota {
        client: u8,
        server: u8,
        owner: Name,
        quota: u32,
        choice: Choice,
    },
    Commit {
        client: u8,
    },
    Abort {
        client: u8,
    },
    Outcome {
        client: u8,
    },
    Collect {
        client: u8,
    },
    Repeat {
        client: u8,
    },
    Old {
        client: u8,
    },
    Raw {
        client: u8,
        server: u8,
        bytes: Bytes,
    },
}

impl Line {
    /// The client that is to do what the line says.
    #[tactic(auto, unfolding(crate::specs::Named::client_named))]
    pub fn client(&self) -> Option<u8>
        ensures { result ≡ client_named self.now }
    {
        match self {
            Line::Begin { client, .. } => Some(*client),
            Line::Create { client, .. } => Some(*client),
            Line::OpenFile { client, .. } => Some(*client),
            Line::CloseFile { client, .. } => Some(*client),
            Line::DeleteFile { client, .. } => Some(*client),
            Line::ReadPages { client, .. } => Some(*client),
            Line::WritePages { client, .. } => Some(*client),
            Line::LockPages { client, .. } => Some(*client),
            Line::SetSize { client, .. } => Some(*client),
            Line::ReadProps { client, .. } => Some(*client),
            Line::WriteProps { client, .. } => Some(*client),
            Line::ReadOwner { client, .. } => Some(*client),
            Line::MakeOwner { client, .. } => Some(*client),
            Line::SetQuota { client, .. } => Some(*client),
            Line::Commit { client } => Some(*client),
            Line::Abort { client } => Some(*client),
            Line::Outcome { client } => Some(*client),
            Line::Collect { client } => Some(*client),
            Line::Repeat { client } => Some(*client),
            Line::Old { client } => Some(*client),
            Line::Raw { client, .. } => Some(*client),
            _ => None,
        }
    }

    /// The server that a line names: of a message, the one that sends it.
    #[tactic(auto, unfolding(crate::specs::Named::server_named))]
    pub fn server(&self) -> Option<u8>
        ensures { result ≡ server_named self.now }
    {
        match self {
            Line::Volume { server, .. } => Some(*server),
            Line::Carry { from, .. } => Some(*from),
            Line::Lose { from, .. } => Some(*from),
            Line::Again { from, .. } => Some(*from),
            Line::Tick { server } => Some(*server),
            Line::Force { server } => Some(*server),
            Line::Timeout { server, .. } => Some(*server),
            Line::Stop { server, .. } => Some(*server),
            Line::Restart { server, .. } => Some(*server),
            Line::Begin { server, .. } => Some(*server),
            Line::Create { server, .. } => Some(*server),
            Line::ReadOwner { server, .. } => Some(*server),
            Line::MakeOwner { server, .. } => Some(*server),
            Line::SetQuota { server, .. } => Some(*server),
            Line::Raw { server, .. } => Some(*server),
            _ => None,
        }
    }

    /// The server that a message of the line goes to.
    #[tactic(auto, unfolding(crate::specs::Named::receiver_named))]
    pub fn receiver(&self) -> Option<u8>
        ensures { result ≡ receiver_named self.now }
    {
        match self {
            Line::Carry { to, .. } => Some(*to),
            Line::Lose { to, .. } => Some(*to),
            Line::Again { to, .. } => Some(*to),
            _ => None,
        }
    }
}
