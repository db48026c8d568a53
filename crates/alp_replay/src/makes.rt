//! Makes a script from a number.
use crate::deeds::{Deed, Line};
use alp_base::OutOfMemory;
use rand_core::{Rng, SeedableRng};
use rand_pcg::Pcg32;
use std::alloc::Global;

// So many steps a script has: most are one line.
const STEPS: u8 = 250;

// So many steps a stop may take to be met before the server is restarted.
const PATIENCE: u8 = 9;

// Where a client is in its transaction: it begins, opens the three files, and then does as comes.
const TO_BEGIN: u8 = 0;

const TO_DO: u8 = 4;

// A client whose session a restart ended begins twice: its first call learns of the epoch alone.
const STALE: u8 = 255;

/// Makes the lines of a script from a number.
#[derive(Drop)]
pub struct Maker {
    random: Pcg32,
    steps: [u8; 3],
    stopping: u8,
    texts: u32,
}

impl Maker {
    pub fn new(seed: u64) -> Maker {
        Maker {
            random: Pcg32::seed_from_u64(seed),
            steps: [TO_BEGIN; 3],
            stopping: 0,
            texts: 0,
        }
    }

    // A number below this one, which is not 0.
    fn below(&mut self, end: u8) -> u8 {
        match (self.random.next_u32() % 256).checked_rem(end as u32) {
            Some(number) => number as u8,
            None => 0,
        }
    }

    // One of the deeds of a transaction that has its files open.
    fn later(&mut self) -> Deed {
        let file = self.below(3);
        let page = self.below(4);
        let waits = self.below(2) == 0;
        match self.below(20) {
            0..=6 => Deed::Read { file, page, waits },
            7..=11 => {
                self.texts = self.texts.saturating_add(1);
                Deed::Write {
                    file,
                    page,
                    text: self.texts,
                    waits,
                }
            }
            12 => Deed::Size {
                file,
                size: self.below(9),
            },
            13 => Deed::Owner {
                file,
                owner: self.below(2),
            },
            14 | 15 => Deed::Collect,
            16..=18 => Deed::Commit,
            _ => Deed::Abort,
        }
    }

    // What comes next at this step, and the step after it.
    fn deed_at(&mut self, step: u8) -> (Deed, u8) {
        match step {
            STALE => (Deed::Begin, TO_BEGIN),
            TO_BEGIN => (Deed::Begin, 1),
            1..=3 => {
                let changes = self.below(4) > 0;
                (
                    Deed::Open {
                        file: step - 1,
                        changes,
                    },
                    step + 1,
                )
            }
            _ => match self.later() {
                deed @ (Deed::Commit | Deed::Abort) => (deed, TO_BEGIN),
                deed => (deed, TO_DO),
            },
        }
    }

    // The next line of one of the clients.
    fn call(&mut self) -> Line {
        let at = self.below(3);
        let step = match self.steps.get(at as usize) {
            Some(step) => *step,
            None => TO_BEGIN,
        };
        let (deed, next) = self.deed_at(step);
        if let Some(step) = self.steps.get_mut(at as usize) {
            *step = next;
        }
        Line::Of {
            client: at.saturating_add(1),
            deed,
        }
    }

    // A restart, and a transaction by whose stamp one sees what the restart found.
    fn restart(&mut self, lines: &mut Vec<Line>) -> Result<(), OutOfMemory> {
        self.stopping = 0;
        self.steps = [TO_BEGIN, STALE, STALE];
        let again = match self.below(9) {
            0 => Line::Settle,
            pick => Line::Restart { pick: pick - 1 },
        };
        lines.push(again)?;
        for deed in [Deed::Begin, Deed::Begin, Deed::Commit] {
            lines.push(Line::Of { client: 1, deed })?;
        }
        Ok(())
    }

    // A step of the script.
    fn step(&mut self, lines: &mut Vec<Line>) -> Result<(), OutOfMemory> {
        if self.stopping == 1 {
            return self.restart(lines);
        }
        self.stopping = self.stopping.saturating_sub(1);
        let line = match self.below(60) {
            0 if self.stopping == 0 => {
                self.stopping = PATIENCE;
                Line::Stop {
                    calls: self.below(8),
                }
            }
            1 => Line::Timeout {
                client: self.below(3).saturating_add(1),
            },
            _ => self.call(),
        };
        lines.push(line)?;
        Ok(())
    }

    // The last transaction reads all that is held.
    fn reads_all(&mut self, lines: &mut Vec<Line>) -> Result<(), OutOfMemory> {
        for file in 0..3u8 {
            let changes = false;
            lines.push(Line::Of {
                client: 1,
                deed: Deed::Open { file, changes },
            })?;
        }
        for place in 0..24u8 {
            lines.push(Line::Of {
                client: 1,
                deed: Deed::Read {
                    file: place % 3,
                    page: place / 3,
                    waits: false,
                },
            })?;
        }
        Ok(())
    }

    /// All lines, the last of which read what is held after a restart.
    pub fn lines(&mut self, alloc: Global) -> Result<Vec<Line>, OutOfMemory> {
        let mut lines = Vec::new(alloc);
        for _step in 0..STEPS {
            self.step(&mut lines)?;
        }
        self.restart(&mut lines)?;
        lines.push(Line::Of {
            client: 1,
            deed: Deed::Begin,
        })?;
        self.reads_all(&mut lines)?;
        lines.push(Line::Of {
            client: 1,
            deed: Deed::Commit,
        })?;
        Ok(lines)
    }
}
