//! The script of a storm: its setup, and the jobs of its clients.
ghost use Rattle.std.specs.Prelude.{◌≡◌, ◌≤◌, ◌<◌, ◌+◌, ◌++◌, ◌∷◌, [], IfOk, OnOk, map, length, true};
ghost use Rattle.alp_script.specs.Accepted.{IsAccepted, servers_said};
ghost use Rattle.alp_drill.specs.Adds.{Adds};
ghost use Rattle.alp_drill.specs.Shapes.{IsShape};
ghost use Rattle.alp_drill.specs.Files.{AreFiles};
ghost use Rattle.alp_drill.specs.Transactions.{transaction as transaction_said};
ghost use Rattle.alp_drill.specs.Storms.{IsStorm, IsClientOf, shape_of as shape_said, AreFilesOf, setup_lines, setup_script};
ghost use Rattle.alp_drill.specs.Storms.{job_dice as dice_said, job_turn as turn_said, job as job_said, job_lines, jobs_lines, AreOfJob, storm_lines, storm_script as script_said};

use crate::adding::add;
use crate::dice::Dice;
use crate::files::roll_pages;
use crate::script::counted;
use crate::shape::{Shape, Turn};
use crate::start::set_up;
use crate::transactions::transaction;
use alp_base::{Choice, OutOfMemory};
use alp_lines::Line;
use alp_script::NumberedLine;
use std::alloc::Global;

/// What a storm is made of.
#[derive(Clone, Copy)]
pub struct Storm {
    /// From 1 to 8.
    pub servers: u8,
    /// So many clients have a job, 1 to 15: client 2 and those that follow.
    pub clients: u8,
    /// In transactions of a job, at most 200.
    pub size: u32,
    /// Any number.
    pub seed: u64,
    /// So often a call that waits is collected, from 1 to 1,000.
    pub patience: u32,
}

fn shape_of(storm: Storm) -> Shape
    requires { IsStorm storm }
    ensures shape { result ≡ shape_said storm }
    ensures sizes { IsShape result }
{
    Shape {
        servers: storm.servers,
        owners: storm.clients,
        groups: 5,
        pages: 40,
    }
}

// How many pages each file has.
fn files_of(alloc: Global, storm: Storm) -> Result<Vec<u32>, OutOfMemory>
    requires { IsStorm storm }
    ensures { IfOk result (λ pages. AreFilesOf storm pages.items) }
{
    let shape = shape_of(storm);
    let mut dice = Dice::new(storm.seed);
    let pages = roll_pages(alloc, &mut dice, shape)?;
    Ok(pages)
}

// The lines that stand before the jobs.
fn setup_of(alloc: Global, storm: Storm, pages: &[u32]) -> Result<Vec<Line>, OutOfMemory>
    requires storm { IsStorm storm }
    requires files { AreFilesOf storm pages.now }
    ensures { IfOk result (λ lines. lines.items ≡ setup_lines storm) }
{
    let shape = shape_of(storm);
    let count = storm.servers;
    let patience = storm.patience;
    let mut script = Vec::new(alloc);
    add(&mut script, Line::Servers { count })?;
    add(&mut script, Line::Patience { count: patience })?;
    set_up(alloc, &mut script, shape, pages)?;
    Ok(script)
}

// What the job of a client is rolled with.
fn dice_of(storm: Storm, client: u8) -> Dice
    ensures { result ≡ dice_said storm client }
{
    let seed = storm.seed.wrapping_add(u64::from(client));
    Dice::new(seed)
}

fn turn_of(storm: Storm, client: u8, number: u32) -> Turn
    requires { IsStorm storm }
    ensures turn { result ≡ turn_said storm client number }
    ensures shape { result.shape ≡ shape_said storm }
    ensures sizes { IsShape result.shape }
{
    let shape = shape_of(storm);
    Turn {
        shape,
        client,
        number,
        choice: Choice::Wait,
    }
}

// Puts the lines of a client's job after the others.
fn add_job(
    alloc: Global,
    script: &mut Vec<Line>,
    storm: Storm,
    pages: &[u32],
    client: u8,
) -> Result<(), OutOfMemory>
    requires storm { IsStorm storm }
    requires files { AreFilesOf storm pages.now }
    ensures { OnOk result (script.new.items ≡ script.old.items ++ job_lines storm client) }
{
    let mut dice = dice_of(storm, client);
    for number in 0..storm.size {
        let turn = turn_of(storm, client, number);
        transaction(alloc, script, &mut dice, turn, pages)?;
    }
    Ok(())
}

// And those of all clients, one job after the other.
fn add_jobs(
    alloc: Global,
    script: &mut Vec<Line>,
    storm: Storm,
    pages: &[u32],
) -> Result<(), OutOfMemory>
    requires storm { IsStorm storm }
    requires files { AreFilesOf storm pages.now }
    ensures { OnOk result (script.new.items ≡ script.old.items ++ jobs_lines storm) }
{
    for i in 0..storm.clients {
        add_job(alloc, script, storm, pages, i + 2)?;
    }
    Ok(())
}

fn lines_of(alloc: Global, storm: Storm) -> Result<Vec<Line>, OutOfMemory>
    requires { IsStorm storm }
    ensures { IfOk result (λ lines. lines.items ≡ storm_lines storm) }
{
    let pages = files_of(alloc, storm)?;
    let files = pages.as_slice();
    let mut script = setup_of(alloc, storm, files)?;
    add_jobs(alloc, &mut script, storm, files)?;
    Ok(script)
}

// The lines of one transaction.
fn lines_in(
    alloc: Global,
    dice: &mut Dice,
    turn: Turn,
    pages: &[u32],
) -> Result<Vec<Line>, OutOfMemory>
    requires shape { IsShape turn.shape }
    requires files { AreFiles turn.shape pages.now }
    ensures lines { IfOk result (λ lines. lines.items ≡ (transaction_said pages.now turn dice.old).0) }
    ensures dice { OnOk result (dice.new ≡ (transaction_said pages.now turn dice.old).1) }
{
    let mut lines = Vec::new(alloc);
    transaction(alloc, &mut lines, dice, turn, pages)?;
    Ok(lines)
}

// The transactions of a client's job.
fn job_of(
    alloc: Global,
    storm: Storm,
    pages: &[u32],
    client: u8,
) -> Result<Vec<Vec<Line>>, OutOfMemory>
    requires storm { IsStorm storm }
    requires files { AreFilesOf storm pages.now }
    ensures { IfOk result (λ job. map (λ t. t.items) job.items ≡ job_said storm client) }
{
    let mut dice = dice_of(storm, client);
    let mut job = Vec::new(alloc);
    for number in 0..storm.size {
        let turn = turn_of(storm, client, number);
        let lines = lines_in(alloc, &mut dice, turn, pages)?;
        job.push(lines)?;
    }
    Ok(job)
}

/// The setup of a storm: a script of the language that declares its servers and clients, and creates its files. Fails for want of
/// memory alone.
pub fn storm_setup(alloc: Global, storm: Storm) -> Result<Vec<NumberedLine>, OutOfMemory>
    requires { IsStorm storm }
    ensures script { IfOk result (λ lines. lines.items ≡ setup_script storm) }
    ensures accepted { IfOk result (λ lines. IsAccepted lines.items) }
    ensures servers { IfOk result (λ lines. servers_said lines.items ≡ storm.servers) }
{
    let pages = files_of(alloc, storm)?;
    let files = pages.as_slice();
    let lines = setup_of(alloc, storm, files)?;
    let script = counted(alloc, lines)?;
    Ok(script)
}

/// The job of a client: its transactions, each with all its lines. What is rolled for it depends on nothing that is played. Fails for
/// want of memory alone.
pub fn storm_job(alloc: Global, storm: Storm, client: u8) -> Result<Vec<Vec<Line>>, OutOfMemory>
    requires storm { IsStorm storm }
    requires client { IsClientOf storm client }
    // The lines are those that the client's own seed makes.
    ensures job { IfOk result (λ job. map (λ t. t.items) job.items ≡ job_said storm client) }
    // Each is of the language's forms, is the client's, and names servers of the storm.
    ensures own { IfOk result (λ job. AreOfJob storm client (map (λ t. t.items) job.items)) }
{
    let pages = files_of(alloc, storm)?;
    let files = pages.as_slice();
    let job = job_of(alloc, storm, files, client)?;
    Ok(job)
}

/// A storm as one script: the setup, and then job after job, by the number of the client, with all lines. Fails for want of memory
/// alone.
pub fn storm_script(alloc: Global, storm: Storm) -> Result<Vec<NumberedLine>, OutOfMemory>
    requires { IsStorm storm }
    ensures script { IfOk result (λ lines. lines.items ≡ script_said storm) }
    ensures accepted { IfOk result (λ lines. IsAccepted lines.items) }
    ensures servers { IfOk result (λ lines. servers_said lines.items ≡ storm.servers) }
{
    let lines = lines_of(alloc, storm)?;
    let script = counted(alloc, lines)?;
    Ok(script)
}
