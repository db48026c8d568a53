//! Ids, stamps and runs.
ghost use Rattle.std.specs.Prelude.{◌≡◌, ◌<◌, ◌≤◌, ◌^◌, OnOk, OnErr};
ghost use Rattle.alp_fields.specs.Forms.{IsRead, IsWritten, Extends, checked, u64 as long};
ghost use Rattle.alp_fields.specs.Fields.{id_parts, file_id, trans_id, join_no, is_time, stamp, run};

use crate::FieldReader;
use crate::numbers::{put_u8, put_u32, put_u64};
use alp_base::{FileId, JoinNo, OutOfMemory, Run, Stamp, TransId};

/// The greatest time of a stamp.
pub const GREATEST_TIME: u64 = 1 << 62;

impl<'a> FieldReader<'a> {
    #[tactic(auto, unfolding(crate::specs::Fields::file_id))]
    pub fn file_id(&mut self) -> Option<FileId>
        ensures { IsRead file_id self.old self.new result }
    {
        let server = self.u8()?;
        let epoch = self.u32()?;
        let counter = self.u32()?;
        Some(FileId {
            server,
            epoch,
            counter,
        })
    }

    #[tactic(auto, unfolding(crate::specs::Fields::trans_id))]
    pub fn trans_id(&mut self) -> Option<TransId>
        ensures { IsRead trans_id self.old self.new result }
    {
        let server = self.u8()?;
        let epoch = self.u32()?;
        let counter = self.u32()?;
        Some(TransId {
            server,
            epoch,
            counter,
        })
    }

    #[tactic(auto, unfolding(crate::specs::Fields::join_no))]
    pub fn join_no(&mut self) -> Option<JoinNo>
        ensures { IsRead join_no self.old self.new result }
    {
        let server = self.u8()?;
        let epoch = self.u32()?;
        let counter = self.u32()?;
        Some(JoinNo {
            server,
            epoch,
            counter,
        })
    }

    /// A time that clocks may show.
    pub(super) fn time(&mut self) -> Option<u64>
        ensures { IsRead (checked is_time long) self.old self.new result }
    {
        let ts = self.u64()?;
        if ts > GREATEST_TIME {
            return None;
        }
        Some(ts)
    }

    #[tactic(auto, unfolding(crate::specs::Fields::stamp))]
    pub fn stamp(&mut self) -> Option<Stamp>
        ensures { IsRead stamp self.old self.new result }
    {
        let ts = self.u64()?;
        if ts > GREATEST_TIME {
            return None;
        }
        let trans = self.trans_id()?;
        Some(Stamp { ts, trans })
    }

    #[tactic(auto, unfolding(crate::specs::Fields::run, crate::specs::Fields::some_count))]
    pub fn run(&mut self) -> Option<Run>
        ensures { IsRead run self.old self.new result }
    {
        let first = self.u32()?;
        let count = self.u8()?;
        if count == 0 {
            return None;
        }
        Some(Run { first, count })
    }
}

fn append_parts(out: &mut Vec<u8>, server: u8, epoch: u32, counter: u32) -> Result<(), OutOfMemory>
    ensures ok { OnOk result (IsWritten id_parts (server, (epoch, counter)) out.old.items out.new.items) }
    ensures err { OnErr result (Extends out.old.items out.new.items) }
{
    put_u8(out, server)?;
    put_u32(out, epoch)?;
    put_u32(out, counter)
}

fn put_parts(out: &mut Vec<u8>, server: u8, epoch: u32, counter: u32) -> Result<(), OutOfMemory>
    ensures ok { OnOk result (IsWritten id_parts (server, (epoch, counter)) out.old.items out.new.items) }
    ensures err { OnErr result (out.new.items ≡ out.old.items) }
{
    let begun = out.len();
    let done = append_parts(out, server, epoch, counter);
    if done.is_err() {
        out.truncate(begun);
    }
    done
}

#[tactic(auto, unfolding(crate::specs::Fields::file_id))]
pub fn put_file_id(out: &mut Vec<u8>, id: FileId) -> Result<(), OutOfMemory>
    ensures ok { OnOk result (IsWritten file_id id out.old.items out.new.items) }
    ensures err { OnErr result (out.new.items ≡ out.old.items) }
{
    put_parts(out, id.server, id.epoch, id.counter)
}

#[tactic(auto, unfolding(crate::specs::Fields::trans_id))]
pub fn put_trans_id(out: &mut Vec<u8>, id: TransId) -> Result<(), OutOfMemory>
    ensures ok { OnOk result (IsWritten trans_id id out.old.items out.new.items) }
    ensures err { OnErr result (out.new.items ≡ out.old.items) }
{
    put_parts(out, id.server, id.epoch, id.counter)
}

#[tactic(auto, unfolding(crate::specs::Fields::join_no))]
pub fn put_join_no(out: &mut Vec<u8>, id: JoinNo) -> Result<(), OutOfMemory>
    ensures ok { OnOk result (IsWritten join_no id out.old.items out.new.items) }
    ensures err { OnErr result (out.new.items ≡ out.old.items) }
{
    put_parts(out, id.server, id.epoch, id.counter)
}

/// Writes a time that clocks may show.
pub(super) fn put_time(out: &mut Vec<u8>, ts: u64) -> Result<(), OutOfMemory>
    requires { ts ≤ 2 ^ 62 }
    ensures { OnOk result (IsWritten (checked is_time long) ts out.old.items out.new.items) }
{
    put_u64(out, ts)
}

#[tactic(auto, unfolding(crate::specs::Fields::stamp))]
fn append_stamp(out: &mut Vec<u8>, at: Stamp) -> Result<(), OutOfMemory>
    requires { at.ts ≤ 2 ^ 62 }
    ensures ok { OnOk result (IsWritten stamp at out.old.items out.new.items) }
    ensures err { OnErr result (Extends out.old.items out.new.items) }
{
    put_u64(out, at.ts)?;
    put_trans_id(out, at.trans)
}

/// Writes a stamp whose time is one that clocks may show.
pub fn put_stamp(out: &mut Vec<u8>, at: Stamp) -> Result<(), OutOfMemory>
    requires { at.ts ≤ 2 ^ 62 }
    ensures ok { OnOk result (IsWritten stamp at out.old.items out.new.items) }
    ensures err { OnErr result (out.new.items ≡ out.old.items) }
{
    let begun = out.len();
    let done = append_stamp(out, at);
    if done.is_err() {
        out.truncate(begun);
    }
    done
}

#[tactic(auto, unfolding(crate::specs::Fields::run, crate::specs::Fields::some_count))]
fn append_run(out: &mut Vec<u8>, pages: Run) -> Result<(), OutOfMemory>
    requires { 0 < pages.count }
    ensures ok { OnOk result (IsWritten run pages out.old.items out.new.items) }
    ensures err { OnErr result (Extends out.old.items out.new.items) }
{
    put_u32(out, pages.first)?;
    put_u8(out, pages.count)
}

/// Writes a run that is not empty.
pub fn put_run(out: &mut Vec<u8>, pages: Run) -> Result<(), OutOfMemory>
    requires { 0 < pages.count }
    ensures ok { OnOk result (IsWritten run pages out.old.items out.new.items) }
    ensures err { OnErr result (out.new.items ≡ out.old.items) }
{
    let begun = out.len();
    let done = append_run(out, pages);
    if done.is_err() {
        out.truncate(begun);
    }
    done
}
