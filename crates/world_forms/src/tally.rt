//! How many lines of a trace begin with each of five words, and the line that tells it.

ghost use Rattle.std.specs.Prelude.{◌≡◌, IfOk};
ghost use Rattle.world_forms.specs.Demos.{demo_line};
ghost use Rattle.world_forms.specs.Plays.{CountsOn, counted};

use iot_bytes::{NoMemory, Row, put_decimal};
use std::alloc::Global;

/// How many texts begin with each of the words.
#[derive(Clone, Copy)]
pub(crate) struct Tally {
    pub loaded: u32,
    pub refused: u32,
    pub rolled: u32,
    pub lost: u32,
    pub removed: u32,
}

// The count of those that begin with a word, with one text more.
fn counted(count: u32, word: &[u8], text: &[u8]) -> u32
    ensures { result ≡ counted count word.now text.now }
{
    if text.starts_with(word) {
        count.saturating_add(1)
    } else {
        count
    }
}

impl Tally {
    /// No text is counted.
    pub fn new() -> Tally
        ensures loaded { result.loaded ≡ 0 }
        ensures refused { result.refused ≡ 0 }
        ensures rolled { result.rolled ≡ 0 }
        ensures lost { result.lost ≡ 0 }
        ensures removed { result.removed ≡ 0 }
    {
        Tally {
            loaded: 0,
            refused: 0,
            rolled: 0,
            lost: 0,
            removed: 0,
        }
    }

    /// Counts a text, which comes with its end.
    pub fn count(&mut self, text: &[u8])
        ensures { CountsOn self.old self.new text.now }
    {
        self.loaded = counted(self.loaded, b"loaded", text);
        self.refused = counted(self.refused, b"refused", text);
        self.rolled = counted(self.rolled, b"rolled", text);
        self.lost = counted(self.lost, b"lost", text);
        self.removed = counted(self.removed, b"removed", text);
    }

    /// The line that tells the counts of so many lines.
    #[tactic(auto, unfolding(crate::specs::Demos::demo_line))]
    pub fn demo_line(&self, alloc: Global, lines: u32) -> Result<Row<u8>, NoMemory>
        ensures { IfOk result (λ out. out ≡ demo_line lines self.now) }
    {
        let mut out = Row::new(alloc);
        out.append(b"demo ")?;
        put_decimal(&mut out, u64::from(lines))?;
        out.append(b" loaded ")?;
        put_decimal(&mut out, u64::from(self.loaded))?;
        out.append(b" refused ")?;
        put_decimal(&mut out, u64::from(self.refused))?;
        out.append(b" rolled ")?;
        put_decimal(&mut out, u64::from(self.rolled))?;
        out.append(b" lost ")?;
        put_decimal(&mut out, u64::from(self.lost))?;
        out.append(b" removed ")?;
        put_decimal(&mut out, u64::from(self.removed))?;
        out.append(b"\n")?;
        Ok(out)
    }
}
