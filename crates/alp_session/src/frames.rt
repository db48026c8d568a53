//! Frames, and those that a client sent last.
ghost use Rattle.std.specs.Prelude.{◌≡◌, Some};
ghost use Rattle.alp_session.specs.Clients.{no_frames};

use alp_base::Bytes;

/// A frame, and the server that it goes to.
#[derive(Clone, Drop)]
pub struct Addressed {
    pub server: u8,
    pub bytes: Bytes,
}

/// The last two frames of a client's own lines, for lines that send one of them again.
#[derive(Drop)]
pub struct Frames {
    pub last: Option<Addressed>,
    /// The one before the last.
    pub before: Option<Addressed>,
}

impl Frames {
    pub fn new() -> Frames
        ensures { result ≡ no_frames }
    {
        Frames {
            last: None,
            before: None,
        }
    }

    /// The frame is the last one from here on.
    pub fn keep(&mut self, frame: Addressed)
        ensures { self.new ≡ record { last = Some frame; before = self.old.last } }
    {
        self.before = self.last.take();
        self.last = Some(frame);
    }
}
