ghost use Rattle.std.specs.Prelude.{◌≡◌, ◌++◌, length, take, codes, OnOk, OnErr};
ghost use Rattle.std.specs.Fmt.{decimal};
ghost use Rattle.small_card.specs.declared.types.Answer.TheVariants.{Loaded};
ghost use Rattle.small_card.specs.declared.types.Command.{Command};
ghost use Rattle.small_world.specs.Texts.{said, removed_text};
ghost use Rattle.small_world.specs.Printing.{device_printed};
ghost use Rattle.world_text.specs.Removing.{removed_by};

use iot_bytes::{NoMemory, Row};
use small_card::{Answer, PackageResult};
use trace_text::{put_items, put_number, put_refused};

// A word, and the number of the result that the command names.
fn put_removed(out: &mut Row<u8>, removed: Option<u32>, word: &[u8]) -> Result<(), NoMemory>
    ensures ok { (c : Command) → removed ≡ removed_by c
        → OnOk result (out.new ≡ out.old ++ removed_text c word.now) }
    ensures err { OnErr result (take (length out.old) out.new ≡ out.old) }
{
    match removed {
        Some(seq) => put_number(out, word, u64::from(seq)),
        None => out.append(word),
    }
}

#[tactic(auto, using(iot_bytes::proofs::Appending::appended), unfolding(small_world::specs::Texts::said))]
fn put_loaded(out: &mut Row<u8>, loaded: &PackageResult) -> Result<(), NoMemory>
    ensures ok { (c : Command)
        → OnOk result (out.new ≡ out.old ++ said c (Loaded loaded.now)) }
    ensures err { OnErr result (take (length out.old) out.new ≡ out.old) }
{
    put_number(out, b"loaded ", u64::from(loaded.seq))?;
    put_items(out, loaded.items.as_slice())
}

/// Appends what the card answered to a command. `removed` is the number that the command names
/// where it is a removal.
#[tactic(auto, unfolding(small_world::specs::Texts::said))]
pub fn put_said(out: &mut Row<u8>, removed: Option<u32>, answer: &Answer) -> Result<(), NoMemory>
    ensures ok { (c : Command) → removed ≡ removed_by c
        → OnOk result (out.new ≡ out.old ++ said c answer.now) }
    ensures err { OnErr result (take (length out.old) out.new ≡ out.old) }
{
    match answer {
        Answer::Loaded(loaded) => put_loaded(out, loaded),
        Answer::LoadRefused(refused) => put_refused(out, refused),
        Answer::RolledBack { seq } => put_number(out, b"rolled ", u64::from(*seq)),
        Answer::NotPermitted => out.append(b"not permitted"),
        Answer::Removed => put_removed(out, removed, b"removed "),
        Answer::Absent => put_removed(out, removed, b"absent "),
        Answer::Associated { association } => {
            put_number(out, b"associated ", u64::from(*association))
        }
        Answer::InitialRefused { code } => put_number(out, b"initial refused ", u64::from(*code)),
        Answer::Personalised
        | Answer::Results(_)
        | Answer::Eims(_)
        | Answer::Malformed
        | Answer::AlreadyPersonal => Ok(()),
    }
}

/// Appends what the first line of a schedule prints: the number of profiles.
#[tactic(auto, unfolding(small_world::specs::Printing::device_printed))]
pub fn put_device(out: &mut Row<u8>, profiles: usize) -> Result<(), NoMemory>
    ensures ok { OnOk result (out.new ≡ out.old ++ device_printed profiles) }
    ensures err { OnErr result (take (length out.old) out.new ≡ out.old) }
{
    put_number(out, b"device ", profiles as u64)
}

/// Appends how many probes in a row failed.
pub fn put_strikes(out: &mut Row<u8>, strikes: u8) -> Result<(), NoMemory>
    ensures ok { OnOk result (out.new ≡ out.old ++ (codes "strikes " ++ decimal strikes)) }
    ensures err { OnErr result (take (length out.old) out.new ≡ out.old) }
{
    put_number(out, b"strikes ", u64::from(strikes))
}
