//! What a manager gives. Each is one line of [`Record`]'s length and of its writer.

ghost use Rattle.std.specs.Prelude.{◌≡◌, ◌++◌, ◌≤◌, length};
ghost use Rattle.std.specs.Prelude.{OnOk, OnErr};
ghost use Rattle.part_records.specs.Ranges.{IsEimOutput};
ghost use Rattle.part_records.specs.Spelling.{eim_output, refusal_code};

use crate::records::{EimOutput, EimRefusal};
use crate::tags::eim_output::{BOUND, ORDERED, REFUSED, REPLY, SILENT, SKIPPED};
use esipa_codec::{to_ipa_len, write_to_ipa};
use iot_bytes::{NoMemory, Row};
use sgp_der::{put_head, put_octets, put_uint};
use sgp_fields::{Written, element_len, number_alone_len, number_len, put_number_alone, write};

impl EimRefusal {
    fn code(self) -> u64
        ensures { result ≡ refusal_code self }
    {
        match self {
            EimRefusal::Unbound => 1,
            EimRefusal::CounterSpent => 2,
            EimRefusal::BindLow => 3,
            EimRefusal::NoneWaiting => 4,
        }
    }
}

/// What a manager gives, as one element.
struct Record;

impl Written<EimOutput> for Record {
    ghost use Rattle.part_records.specs.Ranges.{IsEimOutput};
    ghost use Rattle.part_records.specs.Spelling.{eim_output};

    ghost spelled = { eim_output };

    ghost Fits = { IsEimOutput };

    ghost most = { 16777220 };

    #[tactic(auto, unfolding(crate::specs::Spelling::eim_output, crate::specs::Ranges::IsEimOutput))]
    fn len(output: &EimOutput) -> usize {
        match output {
            EimOutput::Ordered { counter } => number_len(*counter),
            EimOutput::Refused(why) => element_len(number_alone_len(why.code())),
            EimOutput::Bound => element_len(0),
            EimOutput::Skipped { counter } => number_len(*counter),
            EimOutput::Reply(message) => element_len(to_ipa_len(message)),
            EimOutput::Silent => element_len(0),
        }
    }

    #[tactic(auto, unfolding(crate::specs::Spelling::eim_output, crate::specs::Ranges::IsEimOutput), using(sgp_fields::proofs::Appending::headed, sgp_fields::proofs::Appending::kept_before))]
    fn put(out: &mut Row<u8>, output: &EimOutput) -> Result<(), NoMemory> {
        match output {
            EimOutput::Ordered { counter } => put_uint(out, ORDERED, *counter),
            EimOutput::Refused(why) => put_number_alone(out, REFUSED, why.code()),
            EimOutput::Bound => put_octets(out, BOUND, &[]),
            EimOutput::Skipped { counter } => put_uint(out, SKIPPED, *counter),
            EimOutput::Reply(message) => {
                put_head(out, REPLY, to_ipa_len(message))?;
                write_to_ipa(message, out)
            }
            EimOutput::Silent => put_octets(out, SILENT, &[]),
        }
    }
}

/// How many octets [`write_eim_output`] appends. It takes no memory.
pub fn eim_output_len(output: &EimOutput) -> usize
    requires { IsEimOutput output.now }
    ensures len { result ≡ length (eim_output output.now) }
    ensures few { result ≤ 16777220 }
{
    Record::len(output)
}

/// Appends the one spelling of what a manager gives, or nothing where memory runs out.
pub fn write_eim_output(output: &EimOutput, out: &mut Row<u8>) -> Result<(), NoMemory>
    requires { IsEimOutput output.now }
    ensures ok { OnOk result (out.new ≡ out.old ++ eim_output output.now) }
    ensures err { OnErr result (out.new ≡ out.old) }
{
    write::<EimOutput, Record>(out, output)
}
