ghost use Rattle.std.specs.Prelude.{◌≡◌, ◌++◌, length, take, OnOk, OnErr};
ghost use Rattle.std.specs.List.{flat_map};
ghost use Rattle.trace_text.specs.Texts.{add_text, item_text, item_entry, items_text};
ghost use Rattle.trace_text.specs.Texts.{counters_text, refused_text};

use crate::parts::put_number;
use iot_bytes::{NoMemory, Row, put_decimal};
use small_card::codes::DONE;
use small_card::codes::load::REPLAY;
use small_card::{Item, Refused};

fn put_add(out: &mut Row<u8>, code: u8, association: u32) -> Result<(), NoMemory>
    ensures ok { OnOk result (out.new ≡ out.old ++ add_text code association) }
    ensures err { OnErr result (take (length out.old) out.new ≡ out.old) }
{
    if code == DONE {
        put_number(out, b"add=0:", u64::from(association))
    } else {
        put_number(out, b"add=", u64::from(code))
    }
}

#[tactic(auto, unfolding(crate::specs::Texts::item_text))]
fn put_item(out: &mut Row<u8>, item: &Item) -> Result<(), NoMemory>
    ensures ok { OnOk result (out.new ≡ out.old ++ item_text item.now) }
    ensures err { OnErr result (take (length out.old) out.new ≡ out.old) }
{
    match item {
        Item::Enable(code) => put_number(out, b"enable=", u64::from(*code)),
        Item::Disable(code) => put_number(out, b"disable=", u64::from(*code)),
        Item::Delete(code) => put_number(out, b"delete=", u64::from(*code)),
        Item::Profiles(rows) => put_number(out, b"profiles=", rows.len() as u64),
        Item::Add { code, association } => put_add(out, *code, *association),
        Item::Update(code) => put_number(out, b"update=", u64::from(*code)),
        Item::Dropped(code) => put_number(out, b"drop=", u64::from(*code)),
        Item::Eims(rows) => put_number(out, b"eims=", rows.len() as u64),
    }
}

#[tactic(auto, using(iot_bytes::proofs::Appending::appended), unfolding(crate::specs::Texts::item_entry))]
fn put_entry(out: &mut Row<u8>, item: &Item) -> Result<(), NoMemory>
    ensures ok { OnOk result (out.new ≡ out.old ++ item_entry item.now) }
    ensures err { OnErr result (take (length out.old) out.new ≡ out.old) }
{
    out.append(b" ")?;
    put_item(out, item)
}

fn put_entries(out: &mut Row<u8>, items: &[Item]) -> Result<(), NoMemory>
    ensures ok { OnOk result (out.new ≡ out.old ++ flat_map item_entry items.now) }
    ensures err { OnErr result (take (length out.old) out.new ≡ out.old) }
{
    for item in items {
        put_entry(out, item)?;
    }
    Ok(())
}

/// Appends one space and the item's text for each item, or nothing where memory ran out.
#[tactic(auto, unfolding(crate::specs::Texts::items_text))]
pub fn put_items(out: &mut Row<u8>, items: &[Item]) -> Result<(), NoMemory>
    ensures ok { OnOk result (out.new ≡ out.old ++ items_text items.now) }
    ensures err { OnErr result (out.new ≡ out.old) }
{
    let before = out.len();
    if put_entries(out, items).is_err() {
        out.cut(before);
        return Err(NoMemory);
    }
    Ok(())
}

fn put_counters(out: &mut Row<u8>, refused: &Refused) -> Result<(), NoMemory>
    ensures ok { OnOk result (out.new ≡ out.old ++ counters_text refused.now) }
    ensures err { OnErr result (take (length out.old) out.new ≡ out.old) }
{
    if refused.code == REPLAY {
        put_number(out, b" kept ", refused.kept)?;
        put_number(out, b" received ", refused.received)?;
    }
    Ok(())
}

#[tactic(auto, using(iot_bytes::proofs::Appending::appended), unfolding(crate::specs::Texts::refused_text))]
fn put_whole_refused(out: &mut Row<u8>, refused: &Refused) -> Result<(), NoMemory>
    ensures ok { OnOk result (out.new ≡ out.old ++ refused_text refused.now) }
    ensures err { OnErr result (take (length out.old) out.new ≡ out.old) }
{
    put_number(out, b"refused ", u64::from(refused.code))?;
    put_counters(out, refused)
}

/// Appends the code of a refusal, and for a replay the two counters, or nothing where memory ran
/// out.
pub fn put_refused(out: &mut Row<u8>, refused: &Refused) -> Result<(), NoMemory>
    ensures ok { OnOk result (out.new ≡ out.old ++ refused_text refused.now) }
    ensures err { OnErr result (out.new ≡ out.old) }
{
    let before = out.len();
    if put_whole_refused(out, refused).is_err() {
        out.cut(before);
        return Err(NoMemory);
    }
    Ok(())
}
