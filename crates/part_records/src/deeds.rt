//! What an assistant does: one record with a command to the card, with messages to managers, or
//! with nothing.

ghost use Rattle.std.specs.Prelude.{◌≡◌, ◌++◌, ◌≤◌, ◌*◌, length, take};
ghost use Rattle.std.specs.Prelude.{OnOk, OnErr};
ghost use Rattle.sgp_der.specs.Element.{element};
ghost use Rattle.part_records.specs.Ranges.{AreDeeds, IsPost};
ghost use Rattle.part_records.specs.Spelling.{deeds, deeds_content, post_content};

use crate::records::Deeds;
use crate::tags::deed::{DEEDS, TO_CARD, TO_EIM};
use crate::tags::post::{MESSAGE, TO};
use es10_codec::{command_len, write_command};
use esipa_codec::{Post, to_eim_len, write_to_eim};
use iot_bytes::{NoMemory, Row};
use sgp_der::{put_head, put_octets};
use sgp_fields::{Written, element_len, field_len, list_len, put_list, write};

#[tactic(auto, unfolding(crate::specs::Spelling::post_content), using(sgp_fields::proofs::Appending::length_both))]
fn post_len(value: &Post) -> usize
    requires { IsPost value.now }
    ensures len { result ≡ length (post_content value.now) }
    ensures few { result ≤ 18451 }
{
    field_len(value.to.octets()) + element_len(to_eim_len(&value.message))
}

#[tactic(auto, unfolding(crate::specs::Spelling::post_content), using(sgp_fields::proofs::Appending::appended))]
fn put_post(out: &mut Row<u8>, value: &Post) -> Result<(), NoMemory>
    requires { IsPost value.now }
    ensures ok { OnOk result (out.new ≡ out.old ++ element 0xa1 (post_content value.now)) }
    ensures err { OnErr result (take (length out.old) out.new ≡ out.old) }
{
    put_head(out, TO_EIM, post_len(value))?;
    put_octets(out, TO, value.to.octets())?;
    put_head(out, MESSAGE, to_eim_len(&value.message))?;
    write_to_eim(&value.message, out)
}

/// A message to a manager, one of a list.
struct PostEntry;

impl Written<Post> for PostEntry {
    ghost use Rattle.part_records.specs.Ranges.{IsPost};
    ghost use Rattle.part_records.specs.Spelling.{post};

    ghost spelled = { post };

    ghost Fits = { IsPost };

    ghost most = { 18456 };

    #[tactic(auto, unfolding(crate::specs::Spelling::post))]
    fn len(value: &Post) -> usize {
        element_len(post_len(value))
    }

    #[tactic(auto, unfolding(crate::specs::Spelling::post))]
    fn put(out: &mut Row<u8>, value: &Post) -> Result<(), NoMemory> {
        put_post(out, value)
    }
}

#[tactic(auto, unfolding(crate::specs::Spelling::deeds_content, crate::specs::Ranges::AreDeeds))]
fn content_len(value: &Deeds) -> usize
    requires { AreDeeds value.now }
    ensures len { result ≡ length (deeds_content value.now) }
    ensures few { result ≤ 16777215 }
{
    match value {
        Deeds::ToCard(command) => element_len(command_len(command)),
        Deeds::ToEims(posts) => list_len::<Post, PostEntry>(posts.as_slice()),
        Deeds::Nothing => 0,
    }
}

#[tactic(auto, unfolding(crate::specs::Spelling::deeds_content, crate::specs::Ranges::AreDeeds), using(sgp_fields::proofs::Appending::headed, sgp_fields::proofs::Appending::kept_before))]
fn put_content(out: &mut Row<u8>, value: &Deeds) -> Result<(), NoMemory>
    requires { AreDeeds value.now }
    ensures ok { OnOk result (out.new ≡ out.old ++ deeds_content value.now) }
    ensures err { OnErr result (take (length out.old) out.new ≡ out.old) }
{
    match value {
        Deeds::ToCard(command) => {
            put_head(out, TO_CARD, command_len(command))?;
            write_command(command, out)
        }
        Deeds::ToEims(posts) => put_list::<Post, PostEntry>(out, posts.as_slice()),
        Deeds::Nothing => Ok(()),
    }
}

/// What an assistant does, as one element.
struct Record;

impl Written<Deeds> for Record {
    ghost use Rattle.part_records.specs.Ranges.{AreDeeds};
    ghost use Rattle.part_records.specs.Spelling.{deeds};

    ghost spelled = { deeds };

    ghost Fits = { AreDeeds };

    ghost most = { 16777220 };

    #[tactic(auto, unfolding(crate::specs::Spelling::deeds))]
    fn len(value: &Deeds) -> usize {
        element_len(content_len(value))
    }

    #[tactic(auto, unfolding(crate::specs::Spelling::deeds), using(sgp_fields::proofs::Appending::headed, sgp_fields::proofs::Appending::kept_before))]
    fn put(out: &mut Row<u8>, value: &Deeds) -> Result<(), NoMemory> {
        put_head(out, DEEDS, content_len(value))?;
        put_content(out, value)
    }
}

/// How many octets [`write_deeds`] appends. It takes no memory.
pub fn deeds_len(value: &Deeds) -> usize
    requires { AreDeeds value.now }
    ensures len { result ≡ length (deeds value.now) }
    ensures few { result ≤ 16777220 }
{
    <Record as Written<Deeds>>::len(value)
}

/// Appends the one spelling of what an assistant does, or nothing where memory runs out.
pub fn write_deeds(value: &Deeds, out: &mut Row<u8>) -> Result<(), NoMemory>
    requires { AreDeeds value.now }
    ensures ok { OnOk result (out.new ≡ out.old ++ deeds value.now) }
    ensures err { OnErr result (out.new ≡ out.old) }
{
    write::<Deeds, Record>(out, value)
}
