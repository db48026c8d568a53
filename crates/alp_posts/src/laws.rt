//! What holds of messages and of what was taken of them.
ghost use Rattle.std.specs.Prelude.{◌≡◌, ℕ, List, ◌++◌, Some, slice_get};
ghost use Rattle.alp_journal.specs.declared.entry.Entry.{Entry};
ghost use Rattle.alp_journal.specs.declared.message.Message.{Message};
ghost use Rattle.alp_posts.specs.Messages.{messages_to, HasGrown, IsSent};
ghost use Rattle.alp_posts.specs.Post.{Post};
ghost use Rattle.alp_posts.specs.Posts.{AreServers, Fits, IsTable, post_at, with_post};

/// The messages of a journal stay where they are as it grows, and those of the further entries come behind them.
pub fn messages_stay()
    ensures grown { (to : ℕ) (journal more : List Entry) → messages_to to (journal ++ more) ≡ messages_to to journal ++ messages_to to more }
    ensures kept { (to n : ℕ) (m : Message) (journal longer : List Entry) → HasGrown journal longer → slice_get (messages_to to journal) n ≡ Some m → slice_get (messages_to to longer) n ≡ Some m }
{}

/// Each message is one that an act of an entry sends.
pub fn messages_are_sent()
    ensures { (to n : ℕ) (m : Message) (journal : List Entry) → slice_get (messages_to to journal) n ≡ Some m → IsSent to m journal }
{}

/// What fits the journals fits them as they grow.
pub fn longer_journals_fit()
    ensures { (journals longer : ℕ → List Entry) (p : List Post) → ((n : ℕ) → HasGrown (journals n) (longer n)) → Fits journals p → Fits longer p }
{}

/// What is known of one pair is known apart from the others.
pub fn pairs_stand_apart()
    ensures same { (p : List Post) (from to : ℕ) (x : Post) → IsTable p → AreServers from to → post_at (with_post p from to x) from to ≡ x }
    ensures other { (p : List Post) (from to f t : ℕ) (x : Post) → AreServers from to → AreServers f t → (f ≡ from → t ≡ to → ⊥) → post_at (with_post p from to x) f t ≡ post_at p f t }
    ensures table { (p : List Post) (from to : ℕ) (x : Post) → IsTable p → AreServers from to → x.to ≡ to → IsTable (with_post p from to x) }
{}
