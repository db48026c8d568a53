//! What a carrier asks of a server.
ghost use Rattle.std.specs.Prelude.{◌≡◌, ◌<◌, ◌≤◌, ◌^◌, length, IfSome, IfNone, OnOk, OnErr};
ghost use Rattle.alp_carrier.specs.Sights.{Sight, IsShown, Arrives};

use alp_base::OutOfMemory;
use alp_journal::{Envelope, Message};
use alp_monitor::Story;

/// A server whose messages are carried, and to which messages are carried.
pub trait Station: Story {
    /// What carriers see of it.
    ghost sight: { Sight Self.Base Self.Entry };

    /// The envelope at this place in the list of all that it sent.
    fn emitted(&self, place: u32) -> Option<Envelope>
        ensures some { IfSome result (IsShown sight (Self.base self.now) (Self.entries self.now) place) }
        ensures none { IfNone result (length (sight.sent (Self.base self.now) (Self.entries self.now)) ≤ place) };

    /// The rank of its last entry, which is at least the number of its entries.
    fn last_rank(&self) -> u64
        ensures rank { result ≡ sight.last (Self.base self.now) (Self.entries self.now) }
        ensures count { length (Self.entries self.now) ≤ result };

    /// A message comes, whose sender's last rank was `seen` when it was taken. That makes one entry,
    /// with a rank above both last ones. A server that is shut makes none, nor one that is refused
    /// memory.
    fn deliver(&mut self, from: u8, message: Message, seen: u64) -> Result<(), OutOfMemory>
        requires here { sight.last (Self.base self.old) (Self.entries self.old) < 2 ^ 62 }
        requires there { seen < 2 ^ 62 }
        requires timely { sight.is_timely message }
        ensures base { Self.base self.new ≡ Self.base self.old }
        ensures ok { OnOk result (Arrives sight (Self.base self.old) from message seen (Self.entries self.old) (Self.entries self.new)) }
        ensures same { OnErr result (Self.entries self.new ≡ Self.entries self.old) }
        ensures starved { OnErr result (sight.is_starved (Self.base self.old) (Self.entries self.old) from message) };
}
