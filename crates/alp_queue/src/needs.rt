//! What a request asks for.
ghost use Rattle.std.specs.Prelude.{◌≡◌};

use alp_base::Resource;
use alp_modes::Mode;
use std::marker::Model;

/// Resources and the modes that are asked on them, in the order given, where a resource may stand
/// more than once; seen as a list.
#[derive(Drop)]
pub struct Needs {
    list: Vec<(Resource, Mode)>,
}

impl Model for Needs {
    ghost use Rattle.std.specs.Prelude.{List};
    ghost use Rattle.alp_base.specs.declared.key.Resource.{Resource as TheResource};
    ghost use Rattle.alp_modes.specs.declared.Mode.{Mode as TheMode};

    ghost Value = { List (TheResource × TheMode) };

    ghost view = { λ n. n.list.items };
}

impl Needs {
    /// These needs, in the order given. A resource may stand there more than once; then the modes are joined.
    pub fn new(list: Vec<(Resource, Mode)>) -> Needs
        ensures { result ≡ list.items }
    {
        Needs { list }
    }

    /// The needs in the order given.
    pub fn as_slice(&self) -> &[(Resource, Mode)]
        ensures { result.now ≡ self.now }
    {
        self.list.as_slice()
    }
}
