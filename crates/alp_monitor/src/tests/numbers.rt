//! The state of the tests: a list of numbers with a name.
ghost use Rattle.std.specs.Prelude.{◌≡◌, length};

use crate::Story;

#[derive(Drop)]
pub(super) struct Numbers {
    pub(super) name: u64,
    pub(super) items: Vec<u64>,
    // How often a turn looks away before it ends.
    pub(super) pause: u32,
}

impl Story for Numbers {
    type Base = u64;

    type Entry = u64;

    ghost base = { λ s. s.name };

    ghost entries = { λ s. s.items.items };

    fn count(&self) -> u64 {
        self.items.len() as u64
    }
}

impl Numbers {
    // Whether `count` numbers from `first` on stand at these places, which rise.
    pub(super) fn have(&self, first: u64, count: usize, places: &[usize]) -> bool {
        let mut after = 0;
        for (place, number) in places.iter().zip(first..u64::MAX) {
            if *place < after || self.items.get(*place) != Some(&number) {
                return false;
            }
            after = *place + 1;
        }
        places.len() == count
    }
}
