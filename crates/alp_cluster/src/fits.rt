//! That each reply that may be sent has a frame, whether there is memory to write it or not. Nothing is written: each function only goes through
//! the parts of a value, and the contracts say of each that it fits its form.
#![tactic(auto, unfolding(alp_fields::specs::Forms::u8, alp_fields::specs::Forms::u16, alp_fields::specs::Forms::u32, alp_fields::specs::Forms::u64))]

ghost use Rattle.std.specs.Prelude.{◌≡◌, ◌<◌, ◌≤◌, ◌^◌, length};
ghost use Rattle.alp_fields.specs.Forms.{u8 as byte, u16 as short, u32 as word, u64 as long, repeated};
ghost use Rattle.alp_fields.specs.Fields.{id_parts, file_id, trans_id, stamp, name as name_form, list, page, pages as pages_form};
ghost use Rattle.alp_fields.specs.PropsField.{numbers, numbers_of, props as props_form};
ghost use Rattle.alp_forms.specs.Reasons.{list_name, what, why, cause};
ghost use Rattle.alp_forms.specs.Refusals.{refusal as refusal_form};
ghost use Rattle.alp_rpc.specs.Endings.{ended};
ghost use Rattle.alp_rpc.specs.Frames.{head, reply_frame, IsHead, IsSendableReply};
ghost use Rattle.alp_rpc.specs.Replies.{owner_field, reply as reply_form, IsSendable, IsSendableEnding};

use alp_base::{AccessList, FileId, Name, OwnerRecord, PageList, PageRef, Props, Stamp, TransId};
use alp_files::{Cause, Ended, ListName, Refusal, Reply, What, Why};
use alp_rpc::ReplyFrame;

// ---- numbers

fn byte_fits(n: u8)
    ensures { byte.Fits n }
{}

fn short_fits(n: u16)
    ensures { short.Fits n }
{}

fn word_fits(n: u32)
    ensures { word.Fits n }
{}

fn long_fits(n: u64)
    ensures { long.Fits n }
{}

// ---- ids and stamps

fn id_fits(server: u8, epoch: u32, counter: u32)
    ensures { id_parts.Fits (server, (epoch, counter)) }
{
    byte_fits(server);
    word_fits(epoch);
    word_fits(counter);
}

#[tactic(auto, unfolding(alp_fields::specs::Fields::file_id))]
fn file_id_fits(id: FileId)
    ensures { file_id.Fits id }
{
    id_fits(id.server, id.epoch, id.counter);
}

#[tactic(auto, unfolding(alp_fields::specs::Fields::trans_id))]
fn trans_id_fits(id: TransId)
    ensures { trans_id.Fits id }
{
    id_fits(id.server, id.epoch, id.counter);
}

#[tactic(auto, unfolding(alp_fields::specs::Fields::stamp))]
fn stamp_fits(at: Stamp)
    requires { at.ts ≤ 2 ^ 62 }
    ensures { stamp.Fits at }
{
    long_fits(at.ts);
    trans_id_fits(at.trans);
}

// ---- names, lists and pages

#[tactic(auto, unfolding(alp_fields::specs::Fields::name, alp_fields::specs::Forms::u8))]
fn name_fits(name: &Name)
    ensures { name_form.Fits name.now }
{
    let _ = name.as_bytes();
}

fn names_fit(names: &[Name])
    ensures { (repeated name_form (length names.now)).Fits names.now }
{
    for next in names {
        name_fits(next);
    }
}

#[tactic(auto, unfolding(alp_fields::specs::Fields::list, alp_fields::specs::Fields::list_count, alp_fields::specs::Forms::u8))]
fn list_fits(names: &AccessList)
    ensures { list.Fits names.now }
{
    names_fit(names.names());
}

#[tactic(auto, unfolding(alp_fields::specs::Fields::page))]
fn page_fits(given: &PageRef)
    ensures { page.Fits given.now }
{
    let _ = given.bytes();
}

fn pages_fit(pages: &[PageRef])
    ensures { (repeated page (length pages.now)).Fits pages.now }
{
    for next in pages {
        page_fits(next);
    }
}

#[tactic(auto, unfolding(alp_fields::specs::Fields::pages, alp_fields::specs::Fields::some_count, alp_fields::specs::Forms::u8))]
fn page_list_fits(pages: &PageList)
    requires some { 1 ≤ length pages.now }
    requires few { length pages.now < 2 ^ 8 }
    ensures { pages_form.Fits pages.now }
{
    pages_fit(pages.pages());
}

// ---- properties and owners

#[tactic(auto, unfolding(alp_fields::specs::PropsField::numbers))]
fn numbers_fit(of: &Props)
    ensures { numbers.Fits (numbers_of of.now) }
{
    short_fits(of.type_no);
    long_fits(of.create_time);
    long_fits(of.byte_length);
    word_fits(of.size);
    word_fits(of.high_water);
}

#[tactic(auto, unfolding(alp_fields::specs::PropsField::props))]
fn props_fit(of: &Props)
    ensures { props_form.Fits of.now }
{
    name_fits(&of.owner);
    name_fits(&of.name);
    numbers_fit(of);
    list_fits(&of.read);
    list_fits(&of.modify);
}

#[tactic(auto, unfolding(alp_rpc::specs::Replies::owner_field))]
fn owner_fits(owner: &OwnerRecord)
    ensures { owner_field.Fits owner.now }
{
    name_fits(&owner.name);
    word_fits(owner.quota);
    word_fits(owner.charge);
    list_fits(&owner.create);
}

// ---- refusals

#[tactic(auto, unfolding(alp_forms::specs::Reasons::list_name))]
fn list_name_fits(of: ListName)
    ensures { list_name.Fits of }
{
    match of {
        ListName::Read => {}
        ListName::Modify => {}
        ListName::Create => {}
        ListName::Admin => {}
    }
}

#[tactic(auto, unfolding(alp_forms::specs::Reasons::what))]
fn what_fits(limited: What)
    ensures { what.Fits limited }
{
    match limited {
        What::Run => {}
        What::Pages => {}
        What::Opens => {}
        What::Cells => {}
        What::Locks => {}
        What::Files => {}
        What::Owners => {}
        What::Transactions => {}
    }
}

#[tactic(auto, unfolding(alp_forms::specs::Reasons::why))]
fn why_fits(reason: Why)
    ensures { why.Fits reason }
{
    match reason {
        Why::UnknownJoin => {}
        Why::Waiting => {}
        Why::LogFull { room, asked } => {
            word_fits(room);
            word_fits(asked);
        }
        Why::ReadFault => {}
        Why::ClockEnd => {}
    }
}

#[tactic(auto, unfolding(alp_forms::specs::Reasons::cause))]
fn cause_fits(reason: Cause)
    ensures { cause.Fits reason }
{
    match reason {
        Cause::Asked => {}
        Cause::TimedOut => {}
        Cause::Voted { server, why } => {
            byte_fits(server);
            why_fits(why);
        }
        Cause::Lost { epoch } => word_fits(epoch),
    }
}

#[tactic(auto, unfolding(alp_forms::specs::Refusals::refusal))]
fn refusal_fits(given: Refusal)
    ensures { refusal_form.Fits given }
{
    match given {
        Refusal::StaleSession { epoch } => word_fits(epoch),
        Refusal::AccessDenied { list } => list_name_fits(list),
        Refusal::NoSuchPage { size } => word_fits(size),
        Refusal::QuotaExceeded {
            charge,
            asked,
            quota,
        } => {
            word_fits(charge);
            word_fits(asked);
            word_fits(quota);
        }
        Refusal::VolumeFull { left, asked } => {
            word_fits(left);
            word_fits(asked);
        }
        Refusal::LogFull { room, asked } => {
            word_fits(room);
            word_fits(asked);
        }
        Refusal::TooMany { what, limit } => {
            what_fits(what);
            word_fits(limit);
        }
        Refusal::LockConflict { holder } => trans_id_fits(holder),
        Refusal::Aborted { cause } => cause_fits(cause),
        _ => {}
    }
}

// ---- replies

#[tactic(auto, unfolding(alp_rpc::specs::Endings::ended))]
fn ending_fits(how: Ended)
    requires { IsSendableEnding how }
    ensures { ended.Fits how }
{
    match how {
        Ended::Running => {}
        Ended::Committed { stamp } => stamp_fits(stamp),
        Ended::Aborted => {}
        Ended::Unknown => {}
    }
}

#[tactic(auto, unfolding(alp_rpc::specs::Replies::reply))]
fn answer_fits(given: &Reply)
    requires { IsSendable given.now }
    ensures { reply_form.Fits given.now }
{
    match given {
        Reply::Welcome { epoch } => word_fits(*epoch),
        Reply::Begun { trans } => trans_id_fits(*trans),
        Reply::Joined => {}
        Reply::Created { file, open_no } => {
            file_id_fits(*file);
            word_fits(*open_no);
        }
        Reply::Opened { open_no } => word_fits(*open_no),
        Reply::Plain => {}
        Reply::Pages(pages) => page_list_fits(pages),
        Reply::Props(props) => props_fit(props.props()),
        Reply::Owner(owner) => owner_fits(owner),
        Reply::Committed { stamp } => stamp_fits(*stamp),
        Reply::Ended(how) => ending_fits(*how),
        Reply::Refused(refusal) => refusal_fits(*refusal),
    }
}

#[tactic(auto, unfolding(alp_rpc::specs::Frames::head, alp_fields::specs::Forms::u8))]
fn head_fits(client: u8, epoch: u32, number: u32)
    requires { IsHead client number }
    ensures { head.Fits (client, (epoch, number)) }
{
    word_fits(epoch);
    word_fits(number);
}

/// A reply that may be sent has a frame.
#[tactic(auto, unfolding(alp_rpc::specs::Frames::reply_frame))]
pub(crate) fn reply_fits(reply: &ReplyFrame)
    requires { IsSendableReply reply.now }
    ensures { reply_frame.Fits reply.now }
{
    head_fits(reply.client, reply.epoch, reply.number);
    answer_fits(&reply.reply);
}
