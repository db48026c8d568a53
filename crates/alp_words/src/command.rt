//! What the program is asked to do.

/// A command of the program.
#[derive(Drop)]
pub enum Command {
    /// Play the script on standard input, on the volumes of a folder where one is named, and in memory where none is.
    Play {
        /// The name of the folder, as it was given.
        folder: Option<String>,
    },
    /// Play the script that the seed makes, with so many rounds, on such volumes, and print the summary alone.
    Drill {
        /// Any number.
        seed: u64,
        /// In rounds, from 1 to 5,000.
        size: u32,
        /// The name of the folder, as it was given.
        folder: Option<String>,
    },
    /// Play a storm that the seed makes, on such volumes, and print the summary alone.
    Storm {
        /// From 1 to 8.
        servers: u8,
        /// So many clients have a job, from 1 to 15.
        clients: u8,
        /// In transactions of a client, from 1 to 200.
        size: u32,
        /// Any number.
        seed: u64,
        /// So often a call that waits is collected, from 1 to 1,000.
        patience: u32,
        /// The name of the folder, as it was given.
        folder: Option<String>,
    },
}
