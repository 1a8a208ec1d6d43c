//! Commands to the card. Each is one line of [`Record`]'s reader, of its length and of
//! its writer.

ghost use Rattle.std.specs.Prelude.{◌≡◌, ◌≤◌, ◌+◌, ◌++◌, Some, take, length};
ghost use Rattle.std.specs.Prelude.{OnOk, OnErr, IfOk, IsErrOf};
ghost use Rattle.sgp_der.specs.Element.{element};
ghost use Rattle.sgp_der.specs.Fields.{Gives};
ghost use Rattle.sgp_fields.specs.Alone.{made_of, number_alone_of};
ghost use Rattle.sgp_fields.specs.Config.{config_of};
ghost use Rattle.sgp_fields.specs.Laws.{SpellsNone};
ghost use Rattle.small_card.specs.Ranges.{IsTable, IsCommand};
ghost use Rattle.small_card.specs.declared.types.Command.{Command};
ghost use Rattle.result_codec.specs.Spelling.{profiles};
ghost use Rattle.es10_codec.specs.Reading.{personalise_of, load_of, initial, command_at};
ghost use Rattle.es10_codec.specs.Spelling.{personalise_content, load_content, command, IsShort};

use crate::tags::GREATEST_SEQ;
use crate::tags::command::{EIMS, INITIAL, LOAD, PERSONALISE, REMOVE, RESULTS, ROLLBACK};
use crate::tags::load::{PACKAGE, VERDICT};
use crate::tags::personalise::{EID, PROFILES};
use iot_bytes::{NoMemory, ReadError, Row};
use result_codec::{profiles_len, read_profiles, write_profiles};
use sgp_der::{put_head, put_octets};
use sgp_fields::{
    EimConfig, Fields, Listed, Written, config_len, element_len, field_len, flag_len, number_alone,
    number_alone_len, put_config, put_flag, put_number_alone, read_config, when_empty, whole,
    write,
};
use sgp_values::Eid;
use small_card::{Command, Profile};
use std::alloc::Global;

#[tactic(auto, unfolding(crate::specs::Reading::personalise_of))]
fn personalise(alloc: Global, content: &[u8]) -> Result<Command, ReadError>
    ensures { Gives result (personalise_of content.now) }
{
    let mut fields = Fields::of(content);
    let eid = fields.value::<Eid>(EID)?;
    let inner = fields.last_content(PROFILES)?;
    let profiles = read_profiles(alloc, inner)?;
    Ok(Command::Personalise { eid, profiles })
}

#[tactic(auto, unfolding(crate::specs::Reading::load_of))]
fn load(alloc: Global, content: &[u8]) -> Result<Command, ReadError>
    ensures { Gives result (load_of content.now) }
{
    let mut fields = Fields::of(content);
    let good = fields.value::<bool>(VERDICT)?;
    let octets = fields.last_content(PACKAGE)?;
    let mut bytes = Row::new(alloc);
    bytes.append(octets)?;
    Ok(Command::Load { good, bytes })
}

fn remove(content: &[u8]) -> Result<Command, ReadError>
    ensures { Gives result (made_of (number_alone_of 1 4294967295) Command.Remove content.now) }
{
    let seq = number_alone(content, 1, GREATEST_SEQ)?;
    Ok(Command::Remove { seq: seq as u32 })
}

fn initial(content: &[u8]) -> Result<Command, ReadError>
    ensures { Gives result (made_of config_of initial content.now) }
{
    let EimConfig { id, address, key } = read_config(content)?;
    Ok(Command::Initial { id, address, key })
}

/// A command as one element.
struct Record;

impl Listed<Command> for Record {
    ghost use Rattle.es10_codec.specs.Reading.{command_of};

    ghost entry_of = { command_of };

    #[tactic(auto, unfolding(crate::specs::Reading::command_of))]
    fn read(alloc: Global, tag: u8, content: &[u8]) -> Result<Command, ReadError> {
        match tag {
            PERSONALISE => personalise(alloc, content),
            LOAD => load(alloc, content),
            ROLLBACK => when_empty(content, Command::Rollback),
            REMOVE => remove(content),
            RESULTS => when_empty(content, Command::Results),
            EIMS => when_empty(content, Command::Eims),
            INITIAL => initial(content),
            _ => Err(ReadError::Malformed),
        }
    }
}

#[tactic(auto, unfolding(crate::specs::Reading::command_at))]
fn command_from(alloc: Global, bytes: &[u8]) -> Result<Command, ReadError>
    ensures { Gives result (command_at bytes.now) }
{
    whole::<Command, Record>(alloc, bytes)
}

/// The command that the octets spell. The octets of a Load are any, and are copied once.
///
/// # Errors
/// `Malformed` where the octets spell no command.
pub fn read_command(alloc: Global, bytes: &[u8]) -> Result<Command, ReadError>
    // What is read is spelled so.
    ensures found { IfOk result (λ c. IsCommand c × (bytes.now ≡ command c)) }
    ensures short { IfOk result (λ c. IsShort c) }
    // What is spelled so is read, unless memory runs out.
    ensures only { (c : Command) → IsCommand c → bytes.now ≡ command c → Gives result (Some c) }
    // Malformed comes only where nothing is spelled so.
    ensures malformed { IsErrOf result ReadError.Malformed
        → SpellsNone command IsCommand bytes.now }
    // The reading word, for callers that compose it.
    ensures exact { Gives result (command_at bytes.now) }
{
    command_from(alloc, bytes)
}

#[tactic(auto, unfolding(crate::specs::Spelling::personalise_content), using(sgp_fields::proofs::Appending::length_both))]
fn personalise_len(eid: &Eid, rows: &[Profile]) -> usize
    requires { IsTable rows.now }
    ensures len { result ≡ length (personalise_content eid.now rows.now) }
    ensures few { result ≤ 1400 }
{
    field_len(eid.octets()) + element_len(profiles_len(rows))
}

#[tactic(auto, unfolding(crate::specs::Spelling::personalise_content), using(sgp_fields::proofs::Appending::appended))]
fn put_personalise(out: &mut Row<u8>, eid: &Eid, rows: &[Profile]) -> Result<(), NoMemory>
    requires { IsTable rows.now }
    ensures ok { OnOk result
        (out.new ≡ out.old ++ element 0xa0 (personalise_content eid.now rows.now)) }
    ensures err { OnErr result (take (length out.old) out.new ≡ out.old) }
{
    put_head(out, PERSONALISE, personalise_len(eid, rows))?;
    put_octets(out, EID, eid.octets())?;
    put_head(out, PROFILES, profiles_len(rows))?;
    write_profiles(rows, out)
}

#[tactic(auto, unfolding(crate::specs::Spelling::load_content), using(sgp_fields::proofs::Appending::length_both, crate::proofs::Short::inner_short))]
fn load_len(good: bool, bytes: &[u8]) -> usize
    requires { length (load_content good bytes.now) ≤ 16777215 }
    ensures { result ≡ length (load_content good bytes.now) }
{
    flag_len(good) + field_len(bytes)
}

#[tactic(auto, unfolding(crate::specs::Spelling::load_content), using(sgp_fields::proofs::Appending::appended, crate::proofs::Short::inner_short))]
fn put_load(out: &mut Row<u8>, good: bool, bytes: &[u8]) -> Result<(), NoMemory>
    requires { length (load_content good bytes.now) ≤ 16777215 }
    ensures ok { OnOk result (out.new ≡ out.old ++ element 0xa1 (load_content good bytes.now)) }
    ensures err { OnErr result (take (length out.old) out.new ≡ out.old) }
{
    put_head(out, LOAD, load_len(good, bytes))?;
    put_flag(out, VERDICT, good)?;
    put_octets(out, PACKAGE, bytes)
}

impl Written<Command> for Record {
    ghost use Rattle.es10_codec.specs.Spelling.{IsSpellable};

    ghost spelled = { command };

    ghost Fits = { IsSpellable };

    ghost most = { 16777220 };

    #[tactic(auto, unfolding(crate::specs::Spelling::command, crate::specs::Spelling::IsShort, small_card::specs::Ranges::IsCommand))]
    fn len(value: &Command) -> usize {
        match value {
            Command::Personalise { eid, profiles } => {
                element_len(personalise_len(eid, profiles.as_slice()))
            }
            Command::Load { good, bytes } => element_len(load_len(*good, bytes.as_slice())),
            Command::Rollback | Command::Results | Command::Eims => element_len(0),
            Command::Remove { seq } => element_len(number_alone_len(u64::from(*seq))),
            Command::Initial { id, address, key } => element_len(config_len(id, address, key)),
        }
    }

    #[tactic(auto, unfolding(crate::specs::Spelling::command, crate::specs::Spelling::IsShort, small_card::specs::Ranges::IsCommand), using(sgp_fields::proofs::Appending::headed, sgp_fields::proofs::Appending::kept_before))]
    fn put(out: &mut Row<u8>, value: &Command) -> Result<(), NoMemory> {
        match value {
            Command::Personalise { eid, profiles } => {
                put_personalise(out, eid, profiles.as_slice())
            }
            Command::Load { good, bytes } => put_load(out, *good, bytes.as_slice()),
            Command::Rollback => put_octets(out, ROLLBACK, &[]),
            Command::Remove { seq } => put_number_alone(out, REMOVE, u64::from(*seq)),
            Command::Results => put_octets(out, RESULTS, &[]),
            Command::Eims => put_octets(out, EIMS, &[]),
            Command::Initial { id, address, key } => {
                put_head(out, INITIAL, config_len(id, address, key))?;
                put_config(out, id, address, key)
            }
        }
    }
}

/// How many octets [`write_command`] appends. It takes no memory.
pub fn command_len(value: &Command) -> usize
    requires range { IsCommand value.now }
    requires short { IsShort value.now }
    ensures len { result ≡ length (command value.now) }
    ensures few { result ≤ 16777220 }
{
    <Record as Written<Command>>::len(value)
}

/// Appends the one spelling of the command, or nothing where memory runs out.
pub fn write_command(value: &Command, out: &mut Row<u8>) -> Result<(), NoMemory>
    requires range { IsCommand value.now }
    requires short { IsShort value.now }
    ensures ok { OnOk result (out.new ≡ out.old ++ command value.now) }
    ensures err { OnErr result (out.new ≡ out.old) }
{
    write::<Command, Record>(out, value)
}
