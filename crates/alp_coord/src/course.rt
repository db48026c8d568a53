//! How far one transaction is.
ghost use Rattle.std.specs.Prelude.{◌≡◌};
ghost use Rattle.alp_coord.specs.Courses.{is_running_stage, is_finishing_stage, is_early_stage, is_decided_stage, is_standing, time_of, owner_at, counts_at};

use crate::members::{Members, are_none};

/// How far a transaction is that is not settled.
#[derive(Clone, Copy, Drop)]
pub enum Stage {
    Running,
    /// Its client asked for the commit, and the votes come in.
    Finishing,
    /// It is committed at this time, and its parts are to apply it.
    Decided { ts: u64 },
}

/// A transaction that is not settled: whose it is, how far, and who takes part.
#[derive(Drop)]
pub struct Course {
    pub client: u8,
    pub stage: Stage,
    pub members: Members,
}

impl Course {
    pub fn is_running(&self) -> bool
        ensures { result ≡ is_running_stage self.now.stage }
    {
        match self.stage {
            Stage::Running => true,
            Stage::Finishing => false,
            Stage::Decided { .. } => false,
        }
    }

    pub fn is_finishing(&self) -> bool
        ensures { result ≡ is_finishing_stage self.now.stage }
    {
        match self.stage {
            Stage::Running => false,
            Stage::Finishing => true,
            Stage::Decided { .. } => false,
        }
    }

    /// Whether it is not decided.
    pub fn is_early(&self) -> bool
        ensures { result ≡ is_early_stage self.now.stage }
    {
        match self.stage {
            Stage::Running => true,
            Stage::Finishing => true,
            Stage::Decided { .. } => false,
        }
    }

    pub fn is_decided(&self) -> bool
        ensures { result ≡ is_decided_stage self.now.stage }
    {
        match self.stage {
            Stage::Running => false,
            Stage::Finishing => false,
            Stage::Decided { .. } => true,
        }
    }

    /// When it was decided, if it was.
    pub fn time(&self) -> Option<u64>
        ensures { result ≡ time_of self.now.stage }
    {
        match self.stage {
            Stage::Running => None,
            Stage::Finishing => None,
            Stage::Decided { ts } => Some(ts),
        }
    }

    /// Its client, if it is not decided.
    pub fn owner(&self) -> Option<u8>
        ensures { result ≡ owner_at self.now.stage self.now.client }
    {
        match self.stage {
            Stage::Running => Some(self.client),
            Stage::Finishing => Some(self.client),
            Stage::Decided { .. } => None,
        }
    }

    /// Whether it counts towards the transactions of a server.
    pub fn counts(&self) -> bool
        ensures { result ≡ counts_at self.now.stage self.now.members }
    {
        match self.stage {
            Stage::Running => true,
            Stage::Finishing => true,
            Stage::Decided { .. } => !are_none(self.members.as_slice()),
        }
    }

    /// Whether it is a decision with joins.
    pub fn is_standing(&self) -> bool
        ensures { result ≡ is_standing self.now.stage self.now.members }
    {
        match self.stage {
            Stage::Running => false,
            Stage::Finishing => false,
            Stage::Decided { .. } => !are_none(self.members.as_slice()),
        }
    }
}
