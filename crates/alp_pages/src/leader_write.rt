//! Writing a leader page.
ghost use Rattle.std.specs.Prelude.{◌≡◌, ◌≤◌, length};
ghost use Rattle.alp_fields.specs.Forms.{IsSet};
ghost use Rattle.alp_base.specs.Pages.{page_bytes};
ghost use Rattle.alp_fields.specs.PropsField.{numbers_of};
ghost use Rattle.alp_pages.specs.Leader.{head, head_of, sized_numbers, tail, tail_of, leader_body, leader_page};

use crate::Leader;
use crate::leader_form::{
    BYTES_AT, FILE_AT, HIGH_WATER_AT, INDEX_AT, MODIFY_AT, NAME_AT, OWNER_AT, READ_AT, SIZE_AT,
    TIME_AT, TYPE_AT, UNUSED_BYTES, ZEROS_AT, format_of,
};
use alp_base::{PAGE_BYTES, PAGES_PER_FILE, Page, Props};
use alp_fields::{
    set_file_id, set_list_field, set_named_field, set_u8, set_u16, set_u32, set_u32s, set_u64,
    set_zeros,
};

fn set_head(out: &mut [u8], leader: &Leader)
    requires { length out.old ≡ page_bytes }
    ensures { IsSet head (head_of leader.now) FILE_AT out.old out.new }
{
    set_file_id(out, FILE_AT, leader.file);
    set_named_field(out, OWNER_AT, &leader.props.owner);
    set_named_field(out, NAME_AT, &leader.props.name);
}

fn set_numbers(out: &mut [u8], of: &Props)
    requires full { length out.old ≡ page_bytes }
    requires fits { of.now.size ≤ PAGES_PER_FILE }
    ensures { IsSet sized_numbers (numbers_of of.now) TYPE_AT out.old out.new }
{
    set_u16(out, TYPE_AT, of.type_no);
    set_u64(out, TIME_AT, of.create_time);
    set_u64(out, BYTES_AT, of.byte_length);
    set_u32(out, SIZE_AT, of.size);
    set_u32(out, HIGH_WATER_AT, of.high_water);
}

fn set_tail(out: &mut [u8], leader: &Leader)
    requires { length out.old ≡ page_bytes }
    ensures { IsSet tail (tail_of leader.now) READ_AT out.old out.new }
{
    set_list_field(out, READ_AT, &leader.props.read);
    set_list_field(out, MODIFY_AT, &leader.props.modify);
    set_u32s(out, INDEX_AT, leader.index.as_slice());
}

fn set_body(out: &mut [u8], leader: &Leader)
    requires full { length out.old ≡ page_bytes }
    requires fits { leader.now.props.size ≤ PAGES_PER_FILE }
    ensures { IsSet leader_body leader.now FILE_AT out.old out.new }
{
    set_head(out, leader);
    set_numbers(out, &leader.props);
    set_tail(out, leader);
    set_zeros(out, ZEROS_AT, UNUSED_BYTES);
}

fn set_leader(out: &mut [u8], leader: &Leader)
    requires full { length out.old ≡ page_bytes }
    requires fits { leader.now.props.size ≤ PAGES_PER_FILE }
    ensures { IsSet leader_page leader.now 0 out.old out.new }
{
    let props = &leader.props;
    set_u8(out, 0, format_of(props.size, &props.read, &props.modify));
    set_body(out, leader);
}

/// Makes the page the one spelling of the leader, which is read back as it. The file is at most as
/// large as files may be.
pub fn encode_leader(leader: &Leader, page: &mut Page)
    requires { leader.now.props.size ≤ PAGES_PER_FILE }
    ensures spelled { page.new ≡ leader_page.spell leader.now }
    ensures fits { leader_page.Fits leader.now }
{
    let mut bytes = [0u8; PAGE_BYTES];
    set_leader(&mut bytes, leader);
    *page = Page::new(bytes);
}
