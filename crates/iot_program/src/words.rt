ghost use Rattle.std.specs.Prelude.{◌≡◌, ◌≤◌, map, string_bytes, IfSome};
ghost use Rattle.iot_schedule.specs.Tokens.{number_of};
ghost use Rattle.iot_program.specs.Words.{demo_form, eid_word, eim_form, form_of, gen_form};
ghost use Rattle.iot_program.specs.Words.{generated_of, ipa_form, AreGenerated, IsForm};

use hex::FromHex;
use iot_bytes::read_decimal;
use line_loop::MOST_LINES;
use sgp_values::{Eid, EimId};

/// The greatest start of the generator.
const GREATEST_START: u32 = 0x7fff_ffff;

/// What the program is asked to do.
#[derive(Clone, Copy, Debug, PartialEq, Eq)]
pub enum Form {
    /// `card PATH`: one card, over framed commands.
    Card,
    /// `eim ID EID`: one manager for the card with this EID, over framed inputs.
    Eim { id: EimId, eid: Eid },
    /// `ipa EID`: one assistant for the card with this EID, over framed inputs.
    Ipa { eid: Eid },
    /// `check`: a schedule is checked.
    Check,
    /// `gen START LINES`: a schedule of so many lines is generated from a start.
    Gen { start: u32, lines: u32 },
    /// `replay`: a schedule is replayed.
    Replay,
    /// `demo START LINES`: that schedule is replayed, and what became of it is counted.
    Demo { start: u32, lines: u32 },
}

// The EID that 32 hexadecimal digits spell. It takes no memory.
fn eid_of_word(word: &str) -> Option<Eid>
    ensures { result ≡ eid_word word.now }
{
    let octets = <[u8; 16] as FromHex>::from_hex(word).ok()?;
    Eid::of(&octets).ok()
}

fn ipa(eid: &str) -> Option<Form>
    ensures { result ≡ ipa_form eid.now }
{
    let eid = eid_of_word(eid)?;
    Some(Form::Ipa { eid })
}

fn eim(id: &str, eid: &str) -> Option<Form>
    ensures { result ≡ eim_form id.now eid.now }
{
    let id = EimId::of(id.as_bytes()).ok()?;
    let eid = eid_of_word(eid)?;
    Some(Form::Eim { id, eid })
}

// The number from the least to the greatest that a word spells. It takes no memory.
#[tactic(auto, using(iot_schedule::proofs::Deciding::decimal_read), unfolding(iot_schedule::specs::Tokens::number_of))]
fn number_of_word(word: &str, least: u32, greatest: u32) -> Option<u32>
    ensures value { result ≡ number_of least greatest word.now }
    ensures range { IfSome result (λ n. (least ≤ n) × (n ≤ greatest)) }
{
    let n = read_decimal(word.as_bytes())?;
    if u64::from(least) <= n && n <= u64::from(greatest) {
        Some(n as u32)
    } else {
        None
    }
}

// The start of a generated schedule and how many lines it has.
fn generated(start: &str, lines: &str) -> Option<(u32, u32)>
    ensures numbers { result ≡ generated_of start.now lines.now }
    ensures range { IfSome result AreGenerated }
{
    let start = number_of_word(start, 0, GREATEST_START)?;
    let lines = number_of_word(lines, 1, MOST_LINES)?;
    Some((start, lines))
}

fn generator(start: &str, lines: &str) -> Option<Form>
    ensures form { result ≡ gen_form start.now lines.now }
    ensures range { IfSome result IsForm }
{
    let (start, lines) = generated(start, lines)?;
    Some(Form::Gen { start, lines })
}

fn demonstration(start: &str, lines: &str) -> Option<Form>
    ensures form { result ≡ demo_form start.now lines.now }
    ensures range { IfSome result IsForm }
{
    let (start, lines) = generated(start, lines)?;
    Some(Form::Demo { start, lines })
}

/// The form of the words behind the program's name. No word needs memory.
#[tactic(auto, unfolding(crate::specs::Words::form_of))]
pub fn form_of_words(words: &[String]) -> Option<Form>
    ensures form { result ≡ form_of (map string_bytes words.now) }
    ensures range { IfSome result IsForm }
{
    match words {
        [word] if word.as_str() == "check" => Some(Form::Check),
        [word] if word.as_str() == "replay" => Some(Form::Replay),
        [word, path] if word.as_str() == "card" && !path.is_empty() => Some(Form::Card),
        [word, eid] if word.as_str() == "ipa" => ipa(eid.as_str()),
        [word, id, eid] if word.as_str() == "eim" => eim(id.as_str(), eid.as_str()),
        [word, start, lines] if word.as_str() == "gen" => {
            generator(start.as_str(), lines.as_str())
        }
        [word, start, lines] if word.as_str() == "demo" => {
            demonstration(start.as_str(), lines.as_str())
        }
        _ => None,
    }
}
