//! The lines behind the first one: a keyword, and the words that it takes.

ghost use Rattle.std.specs.Prelude.{◌≡◌, IfOk};
ghost use Rattle.iot_schedule.specs.Ranges.{IsStep};
ghost use Rattle.sgp_der.specs.Fields.{Gives};
ghost use Rattle.iot_schedule.specs.declared.types.Line.{Line};
ghost use Rattle.iot_schedule.specs.Steps.{eim_line, initial_line, bind_line, order_line};
ghost use Rattle.iot_schedule.specs.Steps.{skip_line, kept_line, poll_line, up_line, verdict_of};
ghost use Rattle.iot_schedule.specs.Steps.{down_line, load_line, probe_line, cut_line, detach_line};
ghost use Rattle.iot_schedule.specs.Steps.{bare_line, device_step, assistant_step, network_step};
ghost use Rattle.iot_schedule.specs.Steps.{eim_step, step_line, step_at};

use crate::operations::body;
use crate::types::Line;
use crate::words::{Words, is, keyword};
use iot_bytes::ReadError;
use small_card::limits::{GREATEST_ASSOCIATION, GREATEST_COUNTER};
use std::alloc::Global;

#[tactic(auto, unfolding(crate::specs::Steps::eim_line))]
fn eim(alloc: Global, words: &mut Words) -> Result<Line, ReadError>
    ensures { Gives result (eim_line words.old) }
{
    let id = words.last(alloc)?;
    Ok(Line::Eim { id })
}

#[tactic(auto, unfolding(crate::specs::Steps::skip_line))]
fn skip(alloc: Global, words: &mut Words) -> Result<Line, ReadError>
    ensures { Gives result (skip_line words.old) }
{
    let id = words.last(alloc)?;
    Ok(Line::Skip { id })
}

#[tactic(auto, unfolding(crate::specs::Steps::kept_line))]
fn kept(alloc: Global, words: &mut Words) -> Result<Line, ReadError>
    ensures { Gives result (kept_line words.old) }
{
    let id = words.last(alloc)?;
    Ok(Line::Kept { id })
}

#[tactic(auto, unfolding(crate::specs::Steps::poll_line))]
fn poll(alloc: Global, words: &mut Words) -> Result<Line, ReadError>
    ensures { Gives result (poll_line words.old) }
{
    let id = words.last(alloc)?;
    Ok(Line::Poll { id })
}

#[tactic(auto, unfolding(crate::specs::Steps::initial_line))]
fn initial(alloc: Global, words: &mut Words) -> Result<Line, ReadError>
    ensures { Gives result (initial_line words.old) }
{
    let id = words.next(alloc)?;
    let address = words.next(alloc)?;
    let key = words.last(alloc)?;
    Ok(Line::Initial { id, address, key })
}

#[tactic(auto, unfolding(crate::specs::Steps::bind_line))]
fn bind(alloc: Global, words: &mut Words) -> Result<Line, ReadError>
    ensures { Gives result (bind_line words.old) }
{
    let id = words.next(alloc)?;
    let association = words.number(1, u64::from(GREATEST_ASSOCIATION))?;
    let last = words.last_number(0, GREATEST_COUNTER)?;
    Ok(Line::Bind {
        id,
        association: association as u32,
        last,
    })
}

#[tactic(auto, unfolding(crate::specs::Steps::order_line))]
fn order(alloc: Global, words: &mut Words) -> Result<Line, ReadError>
    ensures { Gives result (order_line words.old) }
{
    let id = words.next(alloc)?;
    let body = body(alloc, words)?;
    Ok(Line::Order { id, body })
}

#[tactic(auto, unfolding(crate::specs::Steps::up_line))]
fn up(alloc: Global, words: &mut Words) -> Result<Line, ReadError>
    ensures { Gives result (up_line words.old) }
{
    let pick = words.last(alloc)?;
    Ok(Line::Up { pick })
}

// The verdict is good unless the word `bad` follows.
#[tactic(auto, unfolding(crate::specs::Steps::verdict_of))]
fn verdict(words: &mut Words) -> Result<bool, ReadError>
    ensures { Gives result (verdict_of words.old) }
{
    let Some(word) = words.take() else {
        return Ok(true);
    };
    if words.ended() && is(word, b"bad") {
        Ok(false)
    } else {
        Err(ReadError::Malformed)
    }
}

#[tactic(auto, unfolding(crate::specs::Steps::down_line))]
fn down(alloc: Global, words: &mut Words) -> Result<Line, ReadError>
    ensures { Gives result (down_line words.old) }
{
    let pick = words.next(alloc)?;
    let good = verdict(words)?;
    Ok(Line::Down { pick, good })
}

#[tactic(auto, unfolding(crate::specs::Steps::load_line))]
fn load(alloc: Global, words: &mut Words) -> Result<Line, ReadError>
    ensures { Gives result (load_line words.old) }
{
    let good = words.choice(b"good", b"bad")?;
    let bytes = words.last(alloc)?;
    Ok(Line::Load { good, bytes })
}

#[tactic(auto, unfolding(crate::specs::Steps::probe_line))]
fn probe(words: &mut Words) -> Result<Line, ReadError>
    ensures { Gives result (probe_line words.old) }
{
    let passed = words.last_choice(b"ok", b"fail")?;
    Ok(Line::Probe { passed })
}

#[tactic(auto, unfolding(crate::specs::Steps::cut_line))]
fn cut(alloc: Global, words: &mut Words) -> Result<Line, ReadError>
    ensures { Gives result (cut_line words.old) }
{
    let calls = words.number(0, u64::from(u32::MAX))?;
    let tear = words.last(alloc)?;
    Ok(Line::Cut {
        calls: calls as u32,
        tear,
    })
}

#[tactic(auto, unfolding(crate::specs::Steps::detach_line))]
fn detach(words: &mut Words) -> Result<Line, ReadError>
    ensures { Gives result (detach_line words.old) }
{
    let at = words.last_number(0, u64::from(u32::MAX))?;
    Ok(Line::Detach { at: at as u32 })
}

// A line without a word behind its keyword.
#[tactic(auto, unfolding(crate::specs::Steps::bare_line))]
fn bare(line: Line, words: &Words) -> Result<Line, ReadError>
    ensures { Gives result (bare_line line words.now) }
{
    words.end()?;
    Ok(line)
}

// The card, the chip and the modems.
#[tactic(auto, unfolding(crate::specs::Steps::device_step))]
fn device_step(alloc: Global, name: &[u8], words: &mut Words) -> Result<Line, ReadError>
    ensures { Gives result (device_step name.now words.old) }
{
    if is(name, b"cut") {
        cut(alloc, words)
    } else if is(name, b"boot") {
        bare(Line::Boot, words)
    } else if is(name, b"show") {
        bare(Line::Show, words)
    } else if is(name, b"detach") {
        detach(words)
    } else if is(name, b"modems") {
        bare(Line::Modems, words)
    } else {
        Err(ReadError::Malformed)
    }
}

// The assistant, or one of the lines above.
#[tactic(auto, unfolding(crate::specs::Steps::assistant_step))]
fn assistant_step(alloc: Global, name: &[u8], words: &mut Words) -> Result<Line, ReadError>
    ensures { Gives result (assistant_step name.now words.old) }
{
    if is(name, b"load") {
        load(alloc, words)
    } else if is(name, b"push") {
        bare(Line::Push, words)
    } else if is(name, b"probe") {
        probe(words)
    } else if is(name, b"rollback") {
        bare(Line::Rollback, words)
    } else if is(name, b"restart") {
        bare(Line::Restart, words)
    } else {
        device_step(alloc, name, words)
    }
}

// The network, or one of the lines above.
#[tactic(auto, unfolding(crate::specs::Steps::network_step))]
fn network_step(alloc: Global, name: &[u8], words: &mut Words) -> Result<Line, ReadError>
    ensures { Gives result (network_step name.now words.old) }
{
    if is(name, b"poll") {
        poll(alloc, words)
    } else if is(name, b"up") {
        up(alloc, words)
    } else if is(name, b"down") {
        down(alloc, words)
    } else {
        assistant_step(alloc, name, words)
    }
}

// The managers, or one of the lines above.
#[tactic(auto, unfolding(crate::specs::Steps::eim_step))]
fn eim_step(alloc: Global, name: &[u8], words: &mut Words) -> Result<Line, ReadError>
    ensures { Gives result (eim_step name.now words.old) }
{
    if is(name, b"eim") {
        eim(alloc, words)
    } else if is(name, b"initial") {
        initial(alloc, words)
    } else if is(name, b"bind") {
        bind(alloc, words)
    } else if is(name, b"order") {
        order(alloc, words)
    } else if is(name, b"skip") {
        skip(alloc, words)
    } else if is(name, b"kept") {
        kept(alloc, words)
    } else {
        network_step(alloc, name, words)
    }
}

#[tactic(auto, unfolding(crate::specs::Steps::step_line, crate::specs::Steps::step_at))]
fn step(alloc: Global, text: &[u8]) -> Result<Line, ReadError>
    ensures { Gives result (step_at text.now) }
{
    let (name, mut words) = keyword(text);
    eim_step(alloc, name, &mut words)
}

/// The line behind the first one that a text, without its end, spells.
///
/// # Errors
/// `Malformed` exactly where the text spells no line.
#[tactic(auto, using(crate::proofs::FittingLines::step_given))]
pub fn read_step(alloc: Global, text: &[u8]) -> Result<Line, ReadError>
    ensures exact { Gives result (step_at text.now) }
    ensures range { IfOk result (λ line. IsStep line) }
{
    step(alloc, text)
}
