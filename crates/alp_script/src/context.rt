//! What the lines of a script so far tell, and which line may come next.
ghost use Rattle.std.specs.Prelude.{◌≡◌, Some};
ghost use Rattle.alp_tokens.specs.Telling.{TellsBy};
ghost use Rattle.alp_script.specs.Known.{nothing_known, has_servers as has_servers_said};
ghost use Rattle.alp_script.specs.Order.{is_server as is_server_said, is_client as is_client_said, names_ours as names_ours_said, is_known as is_known_said, is_declared as is_declared_said, is_bound as is_bound_said, after_servers, after_setting, after_timeout, after_volume, after_client, after_call, after_create, after_file, after, next as next_said};

use alp_base::{CLIENTS, Name, SERVERS};
use alp_lines::{FileWord, Line};
use alp_tokens::LineFault;
use std::alloc::Global;
use std::collections::BTreeSet;
use std::marker::Model;

/// What earlier lines declared and bound.
#[derive(Drop)]
pub(crate) struct Context {
    /// How many servers there are, and 0 as long as they are not declared.
    servers: u8,
    clients: Vec<u8>,
    begun: bool,
    words: BTreeSet<Name>,
}

impl Model for Context {
    ghost use Rattle.alp_script.specs.Known.{Known};

    ghost Value = { Known };

    ghost view = { λ c. record { servers = c.servers; clients = c.clients.items; begun = c.begun; words = c.words.keys } };
}

fn is_server(servers: u8, number: Option<u8>) -> bool
    ensures { result ≡ is_server_said servers number }
{
    match number {
        Some(number) => 1 <= number && number <= servers,
        None => true,
    }
}

fn is_client(number: Option<u8>) -> bool
    ensures { result ≡ is_client_said number }
{
    match number {
        Some(number) => 1 <= number && number <= CLIENTS,
        None => true,
    }
}

#[tactic(auto, unfolding(crate::specs::Order::names_ours))]
fn names_ours(servers: u8, line: &Line) -> bool
    ensures { result ≡ names_ours_said servers line.now }
{
    is_client(line.client())
        && is_server(servers, line.server())
        && is_server(servers, line.receiver())
}

fn is_known(clients: &[u8], client: Option<u8>) -> bool
    ensures { result ≡ is_known_said clients.now client }
{
    match client {
        Some(client) => clients.contains(&client),
        None => true,
    }
}

fn is_bound(servers: u8, words: &BTreeSet<Name>, file: &FileWord) -> bool
    ensures { result ≡ is_bound_said servers words.now.keys file.now }
{
    match file {
        FileWord::Word(name) => words.contains(name),
        FileWord::Id(id) => is_server(servers, Some(id.server)),
    }
}

impl Context {
    pub(crate) fn new(alloc: Global) -> Context
        ensures { result ≡ nothing_known }
    {
        Context {
            servers: 0,
            clients: Vec::new(alloc),
            begun: false,
            words: BTreeSet::new(alloc),
        }
    }

    pub(crate) fn has_servers(&self) -> bool
        ensures { result ≡ has_servers_said self.now }
    {
        1 <= self.servers
    }

    #[tactic(auto, unfolding(crate::specs::Order::is_declared))]
    fn is_declared(&self, line: &Line) -> bool
        ensures { result ≡ is_declared_said self.now line.now }
    {
        names_ours(self.servers, line) && is_known(self.clients.as_slice(), line.client())
    }

    #[tactic(auto, unfolding(crate::specs::Order::after_servers))]
    fn take_servers(&mut self, count: u8) -> Result<(), LineFault>
        ensures { TellsBy (λ _. self.new) result (after_servers self.old count) }
    {
        let within = is_server(SERVERS, Some(count));
        if self.has_servers() || !within {
            return Err(LineFault::Outside);
        }
        self.servers = count;
        Ok(())
    }

    #[tactic(auto, unfolding(crate::specs::Order::after_setting))]
    fn take_setting(&mut self) -> Result<(), LineFault>
        ensures { TellsBy (λ _. self.new) result (after_setting self.old) }
    {
        if !self.has_servers() {
            return Err(LineFault::Outside);
        }
        Ok(())
    }

    #[tactic(auto, unfolding(crate::specs::Order::after_timeout))]
    fn take_timeout(&mut self, client: u8) -> Result<(), LineFault>
        ensures { TellsBy (λ _. self.new) result (after_timeout self.old client) }
    {
        let declared = self.clients.contains(&client);
        if !self.has_servers() || !declared {
            return Err(LineFault::Outside);
        }
        Ok(())
    }

    #[tactic(auto, unfolding(crate::specs::Order::after_volume))]
    fn take_volume(&mut self) -> Result<(), LineFault>
        ensures { TellsBy (λ _. self.new) result (after_volume self.old) }
    {
        if !self.has_servers() || self.begun {
            return Err(LineFault::Outside);
        }
        Ok(())
    }

    #[tactic(auto, unfolding(crate::specs::Order::after_client))]
    fn take_client(&mut self, client: u8) -> Result<(), LineFault>
        ensures { TellsBy (λ _. self.new) result (after_client self.old client) }
    {
        let again = self.clients.contains(&client);
        if !self.has_servers() || self.begun || again {
            return Err(LineFault::Outside);
        }
        self.clients.push(client)?;
        Ok(())
    }

    fn take_call(&mut self) -> Result<(), LineFault>
        ensures { TellsBy (λ _. self.new) result (Some (after_call self.old)) }
    {
        self.begun = true;
        Ok(())
    }

    fn take_create(&mut self, word: &Name) -> Result<(), LineFault>
        ensures { TellsBy (λ _. self.new) result (Some (after_create self.old word.now)) }
    {
        self.words.insert(*word)?;
        self.begun = true;
        Ok(())
    }

    #[tactic(auto, unfolding(crate::specs::Order::after_file))]
    fn take_file(&mut self, file: &FileWord) -> Result<(), LineFault>
        ensures { TellsBy (λ _. self.new) result (after_file self.old file.now) }
    {
        if !is_bound(self.servers, &self.words, file) {
            return Err(LineFault::Outside);
        }
        self.begun = true;
        Ok(())
    }

    #[tactic(auto, unfolding(crate::specs::Order::after))]
    fn take(&mut self, line: &Line) -> Result<(), LineFault>
        ensures { TellsBy (λ _. self.new) result (after self.old line.now) }
    {
        match line {
            Line::Servers { count } => self.take_servers(*count),
            Line::Volume { .. } => self.take_volume(),
            Line::Client { client, .. } => self.take_client(*client),
            Line::Patience { .. } | Line::Auto { .. } => self.take_setting(),
            Line::Carry { .. } | Line::Lose { .. } | Line::Again { .. } => self.take_setting(),
            Line::Tick { .. } | Line::Force { .. } | Line::Stop { .. } => self.take_setting(),
            Line::Restart { .. } | Line::Settle => self.take_setting(),
            Line::Timeout { client, .. } => self.take_timeout(*client),
            Line::Begin { .. } | Line::Commit { .. } | Line::Abort { .. } => self.take_call(),
            Line::Collect { .. } | Line::Repeat { .. } | Line::Old { .. } => self.take_call(),
            Line::Outcome { .. } | Line::Raw { .. } => self.take_call(),
            Line::Create { word, .. } => self.take_create(word),
            Line::OpenFile { file, .. } => self.take_file(file),
            Line::CloseFile { file, .. } => self.take_file(file),
            Line::DeleteFile { file, .. } => self.take_file(file),
            Line::ReadPages { file, .. } => self.take_file(file),
            Line::WritePages { file, .. } => self.take_file(file),
            Line::LockPages { file, .. } => self.take_file(file),
            Line::SetSize { file, .. } => self.take_file(file),
            Line::ReadProps { file, .. } => self.take_file(file),
            Line::WriteProps { file, .. } => self.take_file(file),
            Line::ReadOwner { .. } | Line::MakeOwner { .. } | Line::SetQuota { .. } => {
                self.take_call()
            }
        }
    }

    /// Goes on behind a line, where it may stand.
    #[tactic(auto, unfolding(crate::specs::Order::next))]
    pub(crate) fn next(&mut self, line: &Line) -> Result<(), LineFault>
        ensures { TellsBy (λ _. self.new) result (next_said self.old line.now) }
    {
        let declared = self.is_declared(line);
        if !declared {
            return Err(LineFault::Outside);
        }
        self.take(line)
    }
}
