use sgp_values::{EimId, Iccid};
use small_card::{Answer, EimEntry, EimLine, Item, PackageResult, Profile};
use std::alloc::Global;
use std::test::Fail;

// A profile is named by the last octet of its ICCID: 1 is A.
fn put_name(out: &mut String, iccid: &Iccid) -> Result<(), Fail> {
    let last = iccid.octets().last().copied().unwrap_or(0);
    out.push(char::from(b'@'.wrapping_add(last)))?;
    Ok(())
}

fn put_id(out: &mut String, id: &EimId) -> Result<(), Fail> {
    for octet in id.octets() {
        out.push(char::from(*octet))?;
    }
    Ok(())
}

fn put_profiles(out: &mut String, profiles: &[Profile]) -> Result<(), Fail> {
    for profile in profiles {
        out.push(if profile.enabled { '+' } else { '-' })?;
        put_name(out, &profile.iccid)?;
    }
    Ok(())
}

fn put_lines(alloc: Global, out: &mut String, lines: &[EimLine]) -> Result<(), Fail> {
    for line in lines {
        out.push(' ')?;
        put_id(out, &line.id)?;
        let numbers = format!(in alloc;
            "/{}/{}/{:?}",
            line.association,
            line.counter,
            line.address.octets()
        )?;
        out.push_str(numbers.as_str())?;
    }
    Ok(())
}

fn put_entries(alloc: Global, out: &mut String, entries: &[EimEntry]) -> Result<(), Fail> {
    for entry in entries {
        out.push(' ')?;
        put_id(out, &entry.id)?;
        let numbers = format!(in alloc; "/{}/{}", entry.association, entry.counter)?;
        out.push_str(numbers.as_str())?;
    }
    Ok(())
}

fn put_item(alloc: Global, out: &mut String, item: &Item) -> Result<(), Fail> {
    match item {
        Item::Profiles(rows) => {
            out.push_str(" profiles=")?;
            put_profiles(out, rows.as_slice())
        }
        Item::Eims(rows) => {
            out.push_str(" eims=")?;
            put_lines(alloc, out, rows.as_slice())
        }
        Item::Enable(code) => Ok(out.push_str(format!(in alloc; " enable={code}")?.as_str())?),
        Item::Disable(code) => Ok(out.push_str(format!(in alloc; " disable={code}")?.as_str())?),
        Item::Delete(code) => Ok(out.push_str(format!(in alloc; " delete={code}")?.as_str())?),
        Item::Add { code, association } => {
            Ok(out.push_str(format!(in alloc; " add={code}:{association}")?.as_str())?)
        }
        Item::Update(code) => Ok(out.push_str(format!(in alloc; " update={code}")?.as_str())?),
        Item::Dropped(code) => Ok(out.push_str(format!(in alloc; " drop={code}")?.as_str())?),
    }
}

fn put_items(alloc: Global, out: &mut String, items: &[Item]) -> Result<(), Fail> {
    for item in items {
        put_item(alloc, out, item)?;
    }
    Ok(())
}

fn put_results(alloc: Global, out: &mut String, results: &[PackageResult]) -> Result<(), Fail> {
    for kept in results {
        out.push_str(format!(in alloc; " {}/", kept.seq)?.as_str())?;
        put_id(out, &kept.eim)?;
        let mark = if kept.rolled { "r" } else { "" };
        let numbers = format!(in alloc; "/{}/{}{mark}", kept.association, kept.counter)?;
        out.push_str(numbers.as_str())?;
        put_items(alloc, out, kept.items.as_slice())?;
    }
    Ok(())
}

/// An answer in words.
pub(crate) fn answer_text(alloc: Global, answer: &Answer) -> Result<String, Fail> {
    let mut out = String::new(alloc);
    match answer {
        Answer::Loaded(kept) => {
            out.push_str(format!(in alloc; "loaded {}", kept.seq)?.as_str())?;
            put_items(alloc, &mut out, kept.items.as_slice())?;
        }
        Answer::LoadRefused(why) => {
            let words = format!(in alloc; "refused {} {} {}", why.code, why.kept, why.received)?;
            out.push_str(words.as_str())?;
        }
        Answer::RolledBack { seq } => out.push_str(format!(in alloc; "rolled {seq}")?.as_str())?,
        Answer::NotPermitted => out.push_str("not permitted")?,
        Answer::Removed => out.push_str("removed")?,
        Answer::Absent => out.push_str("absent")?,
        Answer::Results(rows) => put_results(alloc, &mut out, rows.as_slice())?,
        Answer::Eims(rows) => put_lines(alloc, &mut out, rows.as_slice())?,
        Answer::Associated { association } => {
            out.push_str(format!(in alloc; "associated {association}")?.as_str())?;
        }
        Answer::InitialRefused { code } => {
            out.push_str(format!(in alloc; "initial refused {code}")?.as_str())?;
        }
        Answer::AlreadyPersonal => out.push_str("already personal")?,
        Answer::Personalised | Answer::Malformed => out.push_str("another answer")?,
    }
    Ok(out)
}

/// A card's profiles, eIMs and pending results in words.
pub(crate) fn card_text(
    alloc: Global,
    profiles: &[Profile],
    entries: &[EimEntry],
    results: &[PackageResult],
) -> Result<String, Fail> {
    let mut out = String::new(alloc);
    put_profiles(&mut out, profiles)?;
    put_entries(alloc, &mut out, entries)?;
    put_results(alloc, &mut out, results)?;
    Ok(out)
}
