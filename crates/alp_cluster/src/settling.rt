//! How a run is settled.
ghost use Rattle.std.specs.Prelude.{OnOk, length};
ghost use Rattle.alp_course.specs.Languages.{Then, Each};
ghost use Rattle.alp_course.specs.Settles.{IsLifted, AreTimedOut, IsTicked, IsRound, AreRounds, IsSettling};
ghost use Rattle.alp_cluster.specs.Fills.{OnEnd};
ghost use Rattle.alp_cluster.specs.Stations.{AreOn, IsOneOf, Did, DidSome, HaveGone};
ghost use Rattle.alp_cluster.specs.Settled.{FindsOpen, TellsRest, IsUpAt, AreUp};

use crate::fault::RunFault;
use crate::stations::Stations;
use alp_base::TransId;
use alp_journal::Event;
use alp_vault::Vault;

/// So many rounds a settling makes at most.
const ROUNDS_MOST: u8 = 8;

impl<V: Vault> Stations<V> {
    // Nobody stops the disk of this server any more, and where the server is down it starts again.
    fn lift_at(&mut self, server: u8) -> Result<(), RunFault>
        requires on { AreOn V.Vault self.old }
        requires server { IsOneOf self.old server }
        ensures gone { HaveGone V.Vault (Unit {0}) self.old self.new result }
        ensures did { OnOk result (Did V.Vault (IsLifted server) self.old self.new) }
        ensures ended { OnEnd result (λ f. DidSome V.Vault (IsLifted server) f self.old self.new) }
    {
        if !self.lift(server) {
            return Ok(());
        }
        self.restart(server, 0)
    }

    fn lift_all(&mut self) -> Result<(), RunFault>
        requires on { AreOn V.Vault self.old }
        ensures gone { HaveGone V.Vault (Unit {0}) self.old self.new result }
        ensures did { OnOk result (Did V.Vault (Each IsLifted (length self.old.all.items)) self.old self.new) }
        ensures ended { OnEnd result (λ f. DidSome V.Vault (Each IsLifted (length self.old.all.items)) f self.old self.new) }
    {
        for place in 0..self.count() {
            self.lift_at(place + 1)?;
        }
        Ok(())
    }

    // The least transaction that has an open part at this server.
    fn open_at(&self, server: u8) -> Option<TransId>
        requires on { AreOn V.Vault self.now }
        requires server { IsOneOf self.now server }
        ensures { FindsOpen V.Vault server result self.now }
    {
        self.at(server).node().open_part()
    }

    // Each transaction times out that has an open part at this server, the least one first.
    fn time_out_at(&mut self, server: u8) -> Result<(), RunFault>
        requires on { AreOn V.Vault self.old }
        requires server { IsOneOf self.old server }
        requires up { IsUpAt V.Vault server self.old }
        ensures gone { HaveGone V.Vault (Unit {0}) self.old self.new result }
        ensures did { OnOk result (Did V.Vault (AreTimedOut server) self.old self.new) }
        ensures ended { OnEnd result (λ f. DidSome V.Vault (AreTimedOut server) f self.old self.new) }
    {
        let Some(trans) = self.open_at(server) else {
            return Ok(());
        };
        self.time_out(server, Some(trans))?;
        self.time_out_at(server)
    }

    fn time_out_all(&mut self) -> Result<(), RunFault>
        requires on { AreOn V.Vault self.old }
        requires up { AreUp V.Vault self.old }
        ensures gone { HaveGone V.Vault (Unit {0}) self.old self.new result }
        ensures did { OnOk result (Did V.Vault (Each AreTimedOut (length self.old.all.items)) self.old self.new) }
        ensures ended { OnEnd result (λ f. DidSome V.Vault (Each AreTimedOut (length self.old.all.items)) f self.old self.new) }
    {
        for place in 0..self.count() {
            self.time_out_at(place + 1)?;
        }
        Ok(())
    }

    fn tick_all(&mut self) -> Result<(), RunFault>
        requires on { AreOn V.Vault self.old }
        ensures gone { HaveGone V.Vault (Unit {0}) self.old self.new result }
        ensures did { OnOk result (Did V.Vault (Each IsTicked (length self.old.all.items)) self.old self.new) }
        ensures ended { OnEnd result (λ f. DidSome V.Vault (Each IsTicked (length self.old.all.items)) f self.old self.new) }
    {
        for place in 0..self.count() {
            self.happen(place + 1, Event::Tick)?;
        }
        Ok(())
    }

    // A tick at each server, and all messages are carried.
    fn round(&mut self) -> Result<(), RunFault>
        requires on { AreOn V.Vault self.old }
        ensures gone { HaveGone V.Vault (Unit {0}) self.old self.new result }
        ensures did { OnOk result (Did V.Vault (IsRound (length self.old.all.items)) self.old self.new) }
        ensures ended { OnEnd result (λ f. DidSome V.Vault (IsRound (length self.old.all.items)) f self.old self.new) }
    {
        self.tick_all()?;
        self.carry_all()
    }

    // Whether no part lives at any server, none is ready, and no decision stands.
    fn is_settled(&self) -> bool
        requires on { AreOn V.Vault self.now }
        ensures { TellsRest V.Vault result self.now }
    {
        for station in self.all.iter() {
            if !station.node().is_settled() {
                return false;
            }
        }
        true
    }

    // At most so many rounds, each further one only where not all is settled.
    fn rounds(&mut self, most: u8) -> Result<(), RunFault>
        requires on { AreOn V.Vault self.old }
        ensures gone { HaveGone V.Vault (Unit {0}) self.old self.new result }
        ensures did { OnOk result (Did V.Vault (AreRounds (length self.old.all.items) most) self.old self.new) }
        ensures ended { OnEnd result (λ f. DidSome V.Vault (AreRounds (length self.old.all.items) most) f self.old self.new) }
    {
        if most == 0 {
            return Ok(());
        }
        self.round()?;
        if self.is_settled() {
            return Ok(());
        }
        self.rounds(most - 1)
    }

    /// All comes to rest: nobody stops a disk any more, each server that is down starts again with pick 0, each transaction times out
    /// where it has an open part, and there are rounds of ticks and messages, one at least and eight at most.
    pub(crate) fn settle(&mut self) -> Result<(), RunFault>
        requires on { AreOn V.Vault self.old }
        ensures gone { HaveGone V.Vault (Unit {0}) self.old self.new result }
        ensures did { OnOk result (Did V.Vault (IsSettling (length self.old.all.items)) self.old self.new) }
        ensures ended { OnEnd result (λ f. DidSome V.Vault (IsSettling (length self.old.all.items)) f self.old self.new) }
    {
        self.lift_all()?;
        self.time_out_all()?;
        self.rounds(ROUNDS_MOST)
    }
}
