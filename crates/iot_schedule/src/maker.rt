//! The generator of schedules: a line for each number, drawn from a linear congruential sequence.

ghost use Rattle.std.specs.Prelude.{◌≡◌, ◌<◌, ◌≤◌, ◌+◌, ◌^◌, ◌++◌, ℕ, length, take, OnOk, OnErr};
ghost use Rattle.std.specs.Fmt.{decimal};
ghost use Rattle.iot_schedule.specs.Making.{next_state, drawn, target_text, aimed_text, tear_name};
ghost use Rattle.iot_schedule.specs.Making.{cut_text, first_kinds, other_kinds, made_text};
ghost use Rattle.iot_schedule.specs.Making.{state_behind, head_text, line_text, state_after};
ghost use Rattle.iot_schedule.specs.Making.{state_before, made_line};

use iot_bytes::{NoMemory, Row, put_decimal};

/// How many lines stand before the drawn ones.
const HEAD_LINES: u32 = 4;

/// The states are below this.
const MODULUS: u64 = 0x8000_0000;

const MULTIPLIER: u64 = 1_103_515_245;

const INCREMENT: u64 = 12_345;

/// What is drawn from a state is the state divided by this.
const LOW_PART: u64 = 0x1_0000;

/// How many kinds of line are drawn.
const KINDS: u64 = 16;

/// A generator of schedules, seen as the state of its sequence.
#[derive(Debug, Drop)]
pub struct Maker {
    state: u64,
    ghost in_range: { state < 2 ^ 31 },
}

#[tactic(auto, unfolding(crate::specs::Making::next_state))]
fn next_state(x: u64) -> u64
    requires { x < 2 ^ 31 }
    ensures next { result ≡ next_state x }
    ensures range { result < 2 ^ 31 }
{
    (x * MULTIPLIER + INCREMENT) % MODULUS
}

fn drawn(x: u64) -> u64
    ensures { result ≡ drawn x }
{
    x / LOW_PART
}

fn target(x: u64) -> &'static [u8]
    ensures { result.now ≡ target_text x }
{
    match drawn(x) % 3 {
        0 => b"98440000000000000001",
        1 => b"98440000000000000002",
        _ => b"98440000000000000003",
    }
}

// An order about one of the three profiles, which the next draw picks.
#[tactic(auto, using(iot_bytes::proofs::Appending::apart), unfolding(crate::specs::Making::aimed_text))]
fn put_aimed(out: &mut Row<u8>, label: &[u8], x: u64) -> Result<(), NoMemory>
    requires { x < 2 ^ 31 }
    ensures ok { OnOk result (out.new ≡ out.old ++ aimed_text label.now x) }
    ensures err { OnErr result (take (length out.old) out.new ≡ out.old) }
{
    out.append(label)?;
    out.append(target(next_state(x)))
}

fn tear(x: u64) -> &'static [u8]
    ensures { result.now ≡ tear_name x }
{
    match drawn(x) % 4 {
        0 => b" old",
        1 => b" new",
        2 => b" half",
        _ => b" junk",
    }
}

// A planned cut: the next draw gives its calls, and the one behind that what it leaves.
#[tactic(auto, using(iot_bytes::proofs::Appending::apart), unfolding(crate::specs::Making::cut_text))]
fn put_cut(out: &mut Row<u8>, x: u64) -> Result<(), NoMemory>
    requires { x < 2 ^ 31 }
    ensures ok { OnOk result (out.new ≡ out.old ++ cut_text x) }
    ensures err { OnErr result (take (length out.old) out.new ≡ out.old) }
{
    let calls = next_state(x);
    out.append(b"cut ")?;
    put_decimal(out, drawn(calls) % 32)?;
    out.append(tear(next_state(calls)))
}

// The line of a kind from 0 to 7.
#[tactic(auto, unfolding(crate::specs::Making::first_kinds))]
fn put_first(out: &mut Row<u8>, kind: u64, x: u64) -> Result<(), NoMemory>
    requires { x < 2 ^ 31 }
    ensures ok { OnOk result (out.new ≡ out.old ++ first_kinds kind x) }
    ensures err { OnErr result (take (length out.old) out.new ≡ out.old) }
{
    match kind {
        0 => put_aimed(out, b"order e1 enable!:", x),
        1 => put_aimed(out, b"order e1 enable:", x),
        2 => put_aimed(out, b"order e1 disable:", x),
        3 => out.append(b"order e1 list"),
        4 => out.append(b"poll e1"),
        5 | 6 => out.append(b"up last"),
        _ => out.append(b"down last"),
    }
}

// The line of a kind from 8 to 15.
#[tactic(auto, unfolding(crate::specs::Making::other_kinds))]
fn put_other(out: &mut Row<u8>, kind: u64, x: u64) -> Result<(), NoMemory>
    requires { x < 2 ^ 31 }
    ensures ok { OnOk result (out.new ≡ out.old ++ other_kinds kind x) }
    ensures err { OnErr result (take (length out.old) out.new ≡ out.old) }
{
    match kind {
        8 => out.append(b"down last"),
        9 => out.append(b"push"),
        10 => out.append(b"probe fail"),
        11 => out.append(b"probe ok"),
        12 => put_cut(out, x),
        13 => out.append(b"boot"),
        14 => out.append(b"show"),
        _ => out.append(b"skip e1"),
    }
}

// The line of the state that was drawn for it.
#[tactic(auto, unfolding(crate::specs::Making::made_text))]
fn put_made(out: &mut Row<u8>, x: u64) -> Result<(), NoMemory>
    requires { x < 2 ^ 31 }
    ensures ok { OnOk result (out.new ≡ out.old ++ made_text x) }
    ensures err { OnErr result (take (length out.old) out.new ≡ out.old) }
{
    let kind = drawn(x) % KINDS;
    if kind < KINDS / 2 {
        put_first(out, kind, x)
    } else {
        put_other(out, kind, x)
    }
}

// The state behind a line: some lines draw once or twice more.
#[tactic(auto, unfolding(crate::specs::Making::state_behind))]
fn state_behind(x: u64) -> u64
    requires { x < 2 ^ 31 }
    ensures behind { result ≡ state_behind x }
    ensures range { result < 2 ^ 31 }
{
    match drawn(x) % KINDS {
        0..=2 => next_state(x),
        12 => next_state(next_state(x)),
        _ => x,
    }
}

#[tactic(auto, unfolding(crate::specs::Making::head_text))]
fn head(number: u32) -> &'static [u8]
    ensures { result.now ≡ head_text number }
{
    match number {
        1 => {
            b"device 000102030405060708090a0b0c0d0e0f -98440000000000000001% \
            -98440000000000000002% -98440000000000000003%"
        }
        2 => b"eim e1",
        3 => b"initial e1 @ #",
        _ => b"bind e1 1 0",
    }
}

impl Maker {
    /// The generator of this start.
    pub fn new(start: u32) -> Maker
        requires { start < 2 ^ 31 }
        ensures start { result.state ≡ start }
    {
        Maker {
            state: u64::from(start),
        }
    }

    // The next line, where a front of it may be left behind what was there before.
    #[tactic(auto, unfolding(crate::specs::Making::line_text, crate::specs::Making::state_after))]
    fn put_line(&mut self, number: u32, out: &mut Row<u8>) -> Result<(), NoMemory>
        ensures ok { OnOk result (out.new ≡ out.old ++ line_text number self.old.state) }
        ensures state { OnOk result (self.new.state ≡ state_after number self.old.state) }
        ensures err { OnErr result (take (length out.old) out.new ≡ out.old) }
        ensures same { OnErr result (self.new.state ≡ self.old.state) }
    {
        if number <= HEAD_LINES {
            return out.append(head(number));
        }
        let x = next_state(self.state);
        put_made(out, x)?;
        self.state = state_behind(x);
        Ok(())
    }

    /// Appends the line of this number, from 1, without its end. Each line takes constant work.
    ///
    /// It is the line of the sequence where the lines before it were made in their order. Where
    /// memory runs out nothing changes.
    pub fn next_line(&mut self, number: u32, out: &mut Row<u8>) -> Result<(), NoMemory>
        ensures line { OnOk result (out.new ≡ out.old ++ line_text number self.old.state) }
        ensures state { OnOk result (self.new.state ≡ state_after number self.old.state) }
        ensures of_start { (start : ℕ) → self.old.state ≡ state_before start number → OnOk result (
            (out.new ≡ out.old ++ made_line start number)
            × (self.new.state ≡ state_before start (number + 1))) }
        ensures err { OnErr result (out.new ≡ out.old) }
        ensures same { OnErr result (self.new.state ≡ self.old.state) }
    {
        let before = out.len();
        if self.put_line(number, out).is_err() {
            out.cut(before);
            return Err(NoMemory);
        }
        Ok(())
    }
}
