//! The disks of the run's servers are taken from their bay and given back.
ghost use Rattle.std.specs.Prelude.{◌≡◌, ◌⊎◌, ◌≤◌, ℕ, [], None, IsTrue, IfOk, IfErr, OnOk, OnErr, length};
ghost use Rattle.std.specs.Option.{option_map};
ghost use Rattle.alp_cluster.specs.Gathered.{AreGathered};
ghost use Rattle.alp_script.specs.Accepted.{IsAccepted, servers_said};
ghost use Rattle.alp_top.specs.Anywhere.{IsPlayedThrough};
ghost use Rattle.alp_top.specs.Disks.{IsLong, IsToldOf, IsVaultTold, IsGivenAs, IsGivenAt, IsBegunHere, IsRefusedHere, HasAdded, HaveBegun, HaveBegunSome, AreHeld, AreLeftBy, IsAtRest, AreAtRest, IsElsewhere, IsClosedHere, GoesOn, IsStationPut, AreClosed};
ghost use Rattle.alp_top.specs.Limits.{IsEndTold};
ghost use Rattle.alp_top.specs.Endings.{AreRestsOf};
ghost use Rattle.alp_top.specs.Besides.{IsRunOf};
ghost use Rattle.alp_top.specs.Looks.{OnlyLooks};
ghost use Rattle.alp_top.specs.Volumes.{HasRunCause, IsBayTold, IsFolderChosen, IsOfServers, pages_of as pages_of_said};
ghost use Rattle.alp_vault.specs.Vault.{AreSizes};

use crate::fault::NoReport;
use crate::finish::{Ended, Rests, disk_in, end_node, report, shown, vault_of};
use crate::start::start;
use alp_base::{OutOfMemory, Sizes};
use alp_bay::Bay;
use alp_cluster::{Cluster, RunFault, Server, Station};
use alp_disk::{Disk, Fuse};
use alp_node::Node;
use alp_script::{NumberedLine, servers_of, sizes_of};
use alp_store::Store;
use alp_vault::Vault;
use std::alloc::Global;

// The pages of a new disk for a volume of these sizes.
fn pages_of(sizes: Sizes) -> u32
    requires { AreSizes sizes }
    ensures { result ≡ pages_of_said sizes }
{
    2 + 2 * sizes.area + sizes.home
}

// The disk stands at the server's place again, and nobody stops it.
fn give_disk<B: Bay>(bay: &mut B, server: u8, disk: Fuse<B::Device>)
    requires server { (1 ≤ server) × (server ≤ 8) }
    requires long { IsLong ⟦<Fuse<B::Device> as Disk>⟧ disk }
    requires told { IsTrue (B.tells bay.old) → IsToldOf ⟦<Fuse<B::Device> as Disk>⟧ disk }
    ensures given { IsGivenAs ⟦<Fuse<B::Device> as Disk>⟧ B.Device.Disk (B.tells bay.old) (B.at bay.old) (B.at bay.new) server disk }
    ensures tells { B.tells bay.new ≡ B.tells bay.old }
    ensures chosen { B.chosen bay.new ≡ B.chosen bay.old }
    ensures faults { B.faults bay.new ≡ B.faults bay.old }
{
    let mut device = disk.into_inner();
    device.stop_after(None);
    bay.give(server, device);
}

// So does that of a vault.
fn give<B: Bay>(bay: &mut B, server: u8, vault: Store<Fuse<B::Device>>)
    requires server { (1 ≤ server) × (server ≤ 8) }
    requires told { IsTrue (B.tells bay.old) → IsVaultTold ⟦<Store<Fuse<B::Device>> as Vault>⟧ vault }
    ensures given { IsGivenAt ⟦<Store<Fuse<B::Device>> as Vault>⟧ B.Device.Disk (B.tells bay.old) (B.at bay.old) (B.at bay.new) server vault }
    ensures tells { B.tells bay.new ≡ B.tells bay.old }
    ensures chosen { B.chosen bay.new ≡ B.chosen bay.old }
    ensures faults { B.faults bay.new ≡ B.faults bay.old }
{
    give_disk(bay, server, disk_in(vault));
}

// ---- the servers are started

// The server of this number is started on its disk, or the disk stands at its place again.
fn start_one<B: Bay>(
    alloc: Global,
    lines: &[NumberedLine],
    servers: u8,
    server: u8,
    bay: &mut B,
) -> Result<Node<Store<Fuse<B::Device>>>, NoReport>
    requires accepted { IsAccepted lines.now }
    requires servers { servers ≡ servers_said lines.now }
    requires server { (1 ≤ server) × (server ≤ servers) }
    ensures begun { IfOk result (IsBegunHere ⟦<Store<Fuse<B::Device>> as Vault>⟧ B.Device.Disk (B.tells bay.old) lines.now (B.at bay.old) (B.at bay.new) server) }
    ensures refused { IfErr result (IsRefusedHere B.Device.Disk (B.tells bay.old) lines.now server (B.at bay.old) (B.at bay.new) (B.faults bay.old) (B.faults bay.new)) }
    ensures tells { B.tells bay.new ≡ B.tells bay.old }
    ensures chosen { B.chosen bay.new ≡ B.chosen bay.old }
    ensures bay { IsBayTold result (B.faults bay.old) (B.faults bay.new) }
{
    let sizes = sizes_of(lines, server);
    let device = bay.take(server, pages_of(sizes))?;
    match start(alloc, server, servers, Fuse::new(device), sizes) {
        Ok(node) => Ok(node),
        Err((disk, fault)) => {
            give_disk(bay, server, disk);
            Err(fault)
        }
    }
}

// The next server is started and comes to the others.
fn add_one<B: Bay>(
    alloc: Global,
    lines: &[NumberedLine],
    servers: u8,
    server: u8,
    bay: &mut B,
    cluster: &mut Cluster<Store<Fuse<B::Device>>>,
) -> Result<(), NoReport>
    requires accepted { IsAccepted lines.now }
    requires servers { servers ≡ servers_said lines.now }
    requires server { (1 ≤ server) × (server ≤ servers) }
    ensures begun { OnOk result (HasAdded ⟦<Store<Fuse<B::Device>> as Vault>⟧ B.Device.Disk (B.tells bay.old) lines.now (B.at bay.old) (B.at bay.new) server cluster.old cluster.new) }
    ensures refused { IfErr result (IsRefusedHere B.Device.Disk (B.tells bay.old) lines.now server (B.at bay.old) (B.at bay.new) (B.faults bay.old) (B.faults bay.new)) }
    ensures still { OnErr result (cluster.new.parties.stations.all.items ≡ cluster.old.parties.stations.all.items) }
    ensures tells { B.tells bay.new ≡ B.tells bay.old }
    ensures chosen { B.chosen bay.new ≡ B.chosen bay.old }
    ensures bay { IsBayTold result (B.faults bay.old) (B.faults bay.new) }
{
    let node = start_one(alloc, lines, servers, server, bay)?;
    match cluster.add(node) {
        Ok(()) => Ok(()),
        Err((node, OutOfMemory)) => {
            let (_, vault, _) = node.into_parts();
            vault.knows();
            give(bay, server, vault);
            Err(NoReport::OutOfMemory)
        }
    }
}

// All servers are started, in order.
fn start_all<B: Bay>(
    alloc: Global,
    lines: &[NumberedLine],
    servers: u8,
    bay: &mut B,
    cluster: &mut Cluster<Store<Fuse<B::Device>>>,
) -> Result<(), NoReport>
    requires accepted { IsAccepted lines.now }
    requires servers { servers ≡ servers_said lines.now }
    requires none { AreGathered [] cluster.old.parties cluster.old.lists.items cluster.old.text.items }
    ensures begun { OnOk result (HaveBegun ⟦<Store<Fuse<B::Device>> as Vault>⟧ B.Device.Disk (B.tells bay.old) lines.now servers (B.at bay.old) (B.at bay.new) cluster.new) }
    ensures some { IfErr result (λ f. HaveBegunSome ⟦<Store<Fuse<B::Device>> as Vault>⟧ B.Device.Disk (B.tells bay.old) lines.now (B.at bay.old) (B.at bay.new) (B.faults bay.old) (B.faults bay.new) f cluster.new) }
    ensures tells { B.tells bay.new ≡ B.tells bay.old }
    ensures chosen { B.chosen bay.new ≡ B.chosen bay.old }
    ensures bay { IsBayTold result (B.faults bay.old) (B.faults bay.new) }
{
    for at in 0..servers {
        add_one(alloc, lines, servers, at + 1, bay, cluster)?;
    }
    Ok(())
}

// ---- and their disks are given back

// All disks stand at their places again, whatever the servers came to.
fn leave_all<B: Bay>(mut stations: Vec<Station<Store<Fuse<B::Device>>>>, bay: &mut B)
    requires held { AreHeld ⟦<Store<Fuse<B::Device>> as Vault>⟧ (B.tells bay.old) stations.items }
    requires few { length stations.items ≤ 8 }
    ensures left { AreLeftBy ⟦<Store<Fuse<B::Device>> as Vault>⟧ B.Device.Disk (B.tells bay.old) stations.items (B.at bay.old) (B.at bay.new) }
    ensures tells { B.tells bay.new ≡ B.tells bay.old }
    ensures chosen { B.chosen bay.new ≡ B.chosen bay.old }
    ensures faults { B.faults bay.new ≡ B.faults bay.old }
{
    while let Some(station) = stations.pop() {
        let server = stations.len() as u8 + 1;
        give(bay, server, vault_of(station));
    }
}

// What a server at rest did and holds comes in front of the others, if no fault came before, and its disk stands at its place again.
fn close_one<B: Bay>(
    alloc: Global,
    station: Station<Store<Fuse<B::Device>>>,
    server: u8,
    ended: Result<(), RunFault>,
    bay: &mut B,
    rests: &mut Rests<Store<Fuse<B::Device>>>,
) -> Result<(), RunFault>
    requires server { (1 ≤ server) × (server ≤ 8) }
    requires at_rest { IsAtRest ⟦<Store<Fuse<B::Device>> as Vault>⟧ (B.tells bay.old) server station }
    requires looks { OnlyLooks ended }
    ensures closed { (servers : ℕ) → server ≤ servers → IsElsewhere servers server ended → IsClosedHere ⟦<Store<Fuse<B::Device>> as Vault>⟧ B.Device.Disk (B.tells bay.old) servers (B.at bay.old) (B.at bay.new) result server station }
    ensures goes { (servers : ℕ) → server ≤ servers → GoesOn servers server ended result }
    ensures looks { OnlyLooks result }
    ensures rest { OnOk result (IsStationPut ⟦<Store<Fuse<B::Device>> as Vault>⟧ station rests.old rests.new) }
    ensures tells { B.tells bay.new ≡ B.tells bay.old }
    ensures chosen { B.chosen bay.new ≡ B.chosen bay.old }
    ensures faults { B.faults bay.new ≡ B.faults bay.old }
{
    if let Err(fault) = ended {
        give(bay, server, vault_of(station));
        return Err(fault);
    }
    let (up, ranks) = station.into_parts();
    let Server::Up(node) = up else { unreachable!() };
    let (vault, ended) = end_node(alloc, node, ranks, rests);
    give(bay, server, vault);
    ended
}

// What all servers at rest did and hold. All disks stand at their places again.
fn close_all<B: Bay>(
    alloc: Global,
    mut stations: Vec<Station<Store<Fuse<B::Device>>>>,
    bay: &mut B,
) -> Result<Rests<Store<Fuse<B::Device>>>, RunFault>
    requires at_rest { AreAtRest ⟦<Store<Fuse<B::Device>> as Vault>⟧ (B.tells bay.old) 1 stations.items }
    requires few { length stations.items ≤ 8 }
    ensures closed { AreClosed ⟦<Store<Fuse<B::Device>> as Vault>⟧ B.Device.Disk (B.tells bay.old) (length stations.items) stations.items (B.at bay.old) (B.at bay.new) result }
    ensures looks { OnlyLooks result }
    ensures rests { IfOk result (AreRestsOf ⟦<Store<Fuse<B::Device>> as Vault>⟧ stations.items) }
    ensures tells { B.tells bay.new ≡ B.tells bay.old }
    ensures chosen { B.chosen bay.new ≡ B.chosen bay.old }
    ensures faults { B.faults bay.new ≡ B.faults bay.old }
{
    let mut rests = Rests::new(alloc);
    let mut ended = Ok(());
    while let Some(station) = stations.pop() {
        let server = stations.len() as u8 + 1;
        ended = close_one(alloc, station, server, ended, bay, &mut rests);
    }
    match ended {
        Ok(()) => Ok(rests),
        Err(fault) => Err(fault),
    }
}

// ---- the run

/// Plays the lines on the servers that they declare, each on its disk, in the folder that is named, or in memory where none is. All disks
/// that were taken are given back however the run ends. The report begins with a line for each line of a client, where these are shown.
pub fn run_bay<B: Bay>(
    alloc: Global,
    lines: &[NumberedLine],
    shows: bool,
    folder: Option<&str>,
    bay: &mut B,
) -> Result<Ended<Store<Fuse<B::Device>>>, NoReport>
    requires accepted { IsAccepted lines.now }
    ensures ran { (folder.entry ≡ None) ⊎ IsTrue (B.tells bay.new) → IfOk result (λ e. IsRunOf ⟦<Store<Fuse<B::Device>> as Vault>⟧ B.Device.Disk shows lines.now e.log e.text.items (B.at bay.old) (B.at bay.new)) }
    ensures through { IfOk result (λ e. IsPlayedThrough ⟦<Store<Fuse<B::Device>> as Vault>⟧ shows lines.now e.log e.text.items) }
    ensures cause { (folder.entry ≡ None) ⊎ IsTrue (B.tells bay.new) → IfErr result (HasRunCause B.Device.Disk lines.now (B.at bay.old) (B.at bay.new) (B.faults bay.old) (B.faults bay.new)) }
    ensures chosen { IsFolderChosen result (B.chosen bay.old) (B.chosen bay.new) (option_map (λ name. name.now) folder.entry) }
    ensures counted { IfErr result (IsOfServers B.Device.Disk (servers_said lines.now)) }
    ensures ended { IfErr result (IsEndTold lines.now) }
    ensures bay { IsBayTold result (B.faults bay.old) (B.faults bay.new) }
{
    bay.choose(folder)?;
    let mut cluster = Cluster::new(alloc)?;
    if let Err(fault) = start_all(alloc, lines, servers_of(lines), bay, &mut cluster) {
        let (stations, _, _) = cluster.into_parts();
        leave_all(stations, bay);
        return Err(fault);
    }
    if let Err(fault) = cluster.play_out(lines) {
        let (stations, _, _) = cluster.into_parts();
        leave_all(stations, bay);
        return Err(NoReport::from(fault));
    }
    let (stations, lists, text) = cluster.into_parts();
    let rests = close_all(alloc, stations, bay)?;
    Ok(report(rests, lists, shown(alloc, text, shows))?)
}
