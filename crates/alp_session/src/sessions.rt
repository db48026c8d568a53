//! The sessions of a client, at most one at each server.
ghost use Rattle.std.specs.Prelude.{◌≡◌, OnOk, OnErr, IsSome, None};
ghost use Rattle.std.specs.FinMap as map;

use crate::Greeted;
use alp_base::OutOfMemory;
use std::alloc::Global;
use std::collections::BTreeMap;
use std::marker::Model;

/// The sessions of a client, by the numbers of their servers.
#[derive(Drop)]
pub struct Sessions {
    greeted: BTreeMap<u8, Greeted>,
}

impl Model for Sessions {
    ghost use Rattle.std.specs.FinMap as map;
    ghost use Rattle.std.specs.Coded.{coded_ℕ};
    ghost use Rattle.alp_session.specs.Maps.{SessionMap};
    ghost use Rattle.alp_session.specs.contracts.greeted.Greeted as greeted_type;

    ghost Value = { SessionMap };

    ghost coded = { map.code coded_ℕ greeted_type.the_row.coded };

    ghost view = { λ s. map.from_entries s.greeted.entries };
}

impl Sessions {
    pub fn new(alloc: Global) -> Sessions
        ensures { result ≡ map.empty }
    {
        Sessions {
            greeted: BTreeMap::new(alloc),
        }
    }

    /// The session at the server, if the client has one there.
    pub fn get(&self, server: u8) -> Option<Greeted>
        ensures { result ≡ map.get self.now server }
    {
        self.greeted.get(&server).copied()
    }

    /// The session at the server is this from here on.
    pub fn put(&mut self, server: u8, greeted: Greeted) -> Result<(), OutOfMemory>
        ensures ok { OnOk result (self.new ≡ map.insert self.old server greeted) }
        ensures err { OnErr result (self.new ≡ self.old) }
        ensures absent { OnErr result (map.get self.old server ≡ None) }
    {
        self.greeted.insert(server, greeted)?;
        Ok(())
    }

    /// So it is where there is one already, which takes no memory.
    pub fn update(&mut self, server: u8, greeted: Greeted)
        requires { IsSome (map.get self.old server) }
        ensures { self.new ≡ map.insert self.old server greeted }
    {
        let _ = self.put(server, greeted);
    }

    /// The client has no session at the server.
    pub fn forget(&mut self, server: u8)
        ensures { self.new ≡ map.remove self.old server }
    {
        self.greeted.remove(&server);
    }
}
