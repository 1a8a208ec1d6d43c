//! What came of a package's operations. Each item is one line of the table of [`Entry`], in its
//! reader, its length and its writer.

ghost use Rattle.std.specs.Prelude.{◌≡◌, ◌≤◌, ◌+◌, ◌*◌, ◌++◌, take, length};
ghost use Rattle.std.specs.Prelude.{OnOk, OnErr, IfOk};
ghost use Rattle.sgp_der.specs.Element.{element};
ghost use Rattle.sgp_der.specs.Fields.{Gives};
ghost use Rattle.sgp_fields.specs.Alone.{number_alone_of};
ghost use Rattle.sgp_fields.specs.Fields.{Finds};
ghost use Rattle.small_card.specs.Lists.{Every};
ghost use Rattle.small_card.specs.Ranges.{IsItem, IsTable, IsEimList};
ghost use Rattle.result_codec.specs.Reading.{done_at, not_done_at, add_at, items_at};
ghost use Rattle.result_codec.specs.Spelling.{add_content, items, profiles, eim_lines};

use crate::eim_lines::{eim_lines_len, read_eim_lines, write_eim_lines};
use crate::profiles::{profiles_len, read_profiles, write_profiles};
use crate::tags::{GREATEST_ASSOCIATION, add, item};
use iot_bytes::{NoMemory, ReadError, Row};
use sgp_der::{put_head, put_uint};
use sgp_fields::{
    Fields, Listed, Written, element_len, list, list_len, number_alone, number_alone_len,
    number_len, put_list, put_number_alone,
};
use small_card::limits::MOST_OPERATIONS;
use small_card::{EimLine, Item, Profile, codes};
use std::alloc::Global;

// The code, from 0 to the greatest, that is the one number of an item.
fn code_alone(content: &[u8], greatest: u8) -> Result<u8, ReadError>
    ensures { Finds result (number_alone_of 0 greatest content.now) }
{
    let code = number_alone(content, 0, u64::from(greatest))?;
    Ok(code as u8)
}

#[tactic(auto, unfolding(crate::specs::Reading::done_at))]
fn done_add(fields: Fields<'_>) -> Result<Item, ReadError>
    ensures { Gives result (done_at fields.entry) }
{
    let association = fields.last_number(add::ASSOCIATION, 1, GREATEST_ASSOCIATION)?;
    Ok(Item::Add {
        code: codes::DONE,
        association: association as u32,
    })
}

#[tactic(auto, unfolding(crate::specs::Reading::not_done_at))]
fn other_add(code: u8, fields: Fields<'_>) -> Result<Item, ReadError>
    ensures { Gives result (not_done_at code fields.entry) }
{
    fields.end()?;
    Ok(Item::Add {
        code,
        association: 0,
    })
}

#[tactic(auto, unfolding(crate::specs::Reading::add_at))]
fn add_from(content: &[u8]) -> Result<Item, ReadError>
    ensures { Gives result (add_at content.now) }
{
    let mut fields = Fields::of(content);
    let code = fields.number(add::CODE, 0, u64::from(codes::NO_ASSOCIATION_LEFT))?;
    let code = code as u8;
    if code == codes::DONE {
        done_add(fields)
    } else {
        other_add(code, fields)
    }
}

#[tactic(auto, unfolding(crate::specs::Spelling::add_content), using(sgp_fields::proofs::Appending::length_both))]
fn add_len(code: u8, association: u32) -> usize
    ensures len { result ≡ length (add_content code association) }
    ensures few { result ≤ 28 }
{
    if code == codes::DONE {
        number_len(u64::from(code)) + number_len(u64::from(association))
    } else {
        number_len(u64::from(code))
    }
}

#[tactic(auto, unfolding(crate::specs::Spelling::add_content))]
fn put_add_content(out: &mut Row<u8>, code: u8, association: u32) -> Result<(), NoMemory>
    ensures ok { OnOk result (out.new ≡ out.old ++ add_content code association) }
    ensures err { OnErr result (take (length out.old) out.new ≡ out.old) }
{
    put_uint(out, add::CODE, u64::from(code))?;
    if code == codes::DONE {
        put_uint(out, add::ASSOCIATION, u64::from(association))
    } else {
        Ok(())
    }
}

#[tactic(auto, using(sgp_fields::proofs::Appending::headed, sgp_fields::proofs::Appending::kept_before))]
fn put_add(out: &mut Row<u8>, code: u8, association: u32) -> Result<(), NoMemory>
    ensures ok { OnOk result (out.new ≡ out.old ++ element 0xa8 (add_content code association)) }
    ensures err { OnErr result (take (length out.old) out.new ≡ out.old) }
{
    put_head(out, item::ADD, add_len(code, association))?;
    put_add_content(out, code, association)
}

#[tactic(auto, using(sgp_fields::proofs::Appending::headed))]
fn put_profile_list(out: &mut Row<u8>, rows: &[Profile]) -> Result<(), NoMemory>
    requires { IsTable rows.now }
    ensures ok { OnOk result (out.new ≡ out.old ++ element 0xa3 (profiles rows.now)) }
    ensures err { OnErr result (take (length out.old) out.new ≡ out.old) }
{
    put_head(out, item::PROFILES, profiles_len(rows))?;
    write_profiles(rows, out)
}

#[tactic(auto, using(sgp_fields::proofs::Appending::headed))]
fn put_eim_list(out: &mut Row<u8>, rows: &[EimLine]) -> Result<(), NoMemory>
    requires { IsEimList rows.now }
    ensures ok { OnOk result (out.new ≡ out.old ++ element 0xab (eim_lines rows.now)) }
    ensures err { OnErr result (take (length out.old) out.new ≡ out.old) }
{
    put_head(out, item::EIMS, eim_lines_len(rows))?;
    write_eim_lines(rows, out)
}

/// An item as one element.
struct Entry;

impl Listed<Item> for Entry {
    ghost use Rattle.result_codec.specs.Reading.{item_of};

    ghost entry_of = { item_of };

    #[tactic(auto, unfolding(crate::specs::Reading::item_of))]
    fn read(alloc: Global, tag: u8, content: &[u8]) -> Result<Item, ReadError> {
        match tag {
            item::ENABLE => code_alone(content, codes::WRONG_STATE).map(Item::Enable),
            item::DISABLE => code_alone(content, codes::WRONG_STATE).map(Item::Disable),
            item::DELETE => code_alone(content, codes::ARMED).map(Item::Delete),
            item::PROFILES => read_profiles(alloc, content).map(Item::Profiles),
            item::ADD => add_from(content),
            item::UPDATE => code_alone(content, codes::NOT_FOUND).map(Item::Update),
            item::DROPPED => code_alone(content, codes::LAST_DELETED).map(Item::Dropped),
            item::EIMS => read_eim_lines(alloc, content).map(Item::Eims),
            _ => Err(ReadError::Malformed),
        }
    }
}

impl Written<Item> for Entry {
    ghost use Rattle.result_codec.specs.Spelling.{item as spelled_item};

    ghost spelled = { spelled_item };

    ghost Fits = { IsItem };

    ghost most = { 2268 };

    #[tactic(auto, unfolding(crate::specs::Spelling::item, small_card::specs::Ranges::IsItem), using(crate::proofs::ItemCodec::item_few))]
    fn len(value: &Item) -> usize {
        match value {
            Item::Enable(code)
            | Item::Disable(code)
            | Item::Delete(code)
            | Item::Update(code)
            | Item::Dropped(code) => element_len(number_alone_len(u64::from(*code))),
            Item::Profiles(rows) => element_len(profiles_len(rows.as_slice())),
            Item::Add { code, association } => element_len(add_len(*code, *association)),
            Item::Eims(rows) => element_len(eim_lines_len(rows.as_slice())),
        }
    }

    #[tactic(auto, unfolding(crate::specs::Spelling::item, small_card::specs::Ranges::IsItem))]
    fn put(out: &mut Row<u8>, value: &Item) -> Result<(), NoMemory> {
        match value {
            Item::Enable(code) => put_number_alone(out, item::ENABLE, u64::from(*code)),
            Item::Disable(code) => put_number_alone(out, item::DISABLE, u64::from(*code)),
            Item::Delete(code) => put_number_alone(out, item::DELETE, u64::from(*code)),
            Item::Profiles(rows) => put_profile_list(out, rows.as_slice()),
            Item::Add { code, association } => put_add(out, *code, *association),
            Item::Update(code) => put_number_alone(out, item::UPDATE, u64::from(*code)),
            Item::Dropped(code) => put_number_alone(out, item::DROPPED, u64::from(*code)),
            Item::Eims(rows) => put_eim_list(out, rows.as_slice()),
        }
    }
}

/// The items of a result, from 1 to 8.
#[tactic(auto, unfolding(crate::specs::Reading::items_at))]
pub(crate) fn read_items(alloc: Global, content: &[u8]) -> Result<Row<Item>, ReadError>
    ensures { Gives result (items_at content.now) }
{
    let rows = list::<Item, Entry>(alloc, content, MOST_OPERATIONS)?;
    if rows.is_empty() {
        Err(ReadError::Malformed)
    } else {
        Ok(rows)
    }
}

/// How many octets the items have.
pub(crate) fn items_len(rows: &[Item]) -> usize
    requires few { length rows.now ≤ 8 }
    requires each { Every IsItem rows.now }
    ensures len { result ≡ length (items rows.now) }
    ensures few { result ≤ 18144 }
{
    list_len::<Item, Entry>(rows)
}

/// Appends the items, or a part of them where memory runs out.
pub(crate) fn put_items(out: &mut Row<u8>, rows: &[Item]) -> Result<(), NoMemory>
    requires { Every IsItem rows.now }
    ensures ok { OnOk result (out.new ≡ out.old ++ items rows.now) }
    ensures err { OnErr result (take (length out.old) out.new ≡ out.old) }
{
    put_list::<Item, Entry>(out, rows)
}
