//! Answers of the card. Each is one line of [`Record`]'s reader, of its length and of
//! its writer.

ghost use Rattle.std.specs.Prelude.{◌≡◌, ◌≤◌, ◌+◌, ◌++◌, Some, take, length};
ghost use Rattle.std.specs.Prelude.{OnOk, OnErr, IfOk, IsErrOf};
ghost use Rattle.sgp_der.specs.Element.{element};
ghost use Rattle.sgp_der.specs.Fields.{Gives};
ghost use Rattle.sgp_fields.specs.Alone.{made_of, number_alone_of};
ghost use Rattle.sgp_fields.specs.Fields.{Finds};
ghost use Rattle.sgp_fields.specs.Laws.{SpellsNone};
ghost use Rattle.small_card.specs.Lists.{Every};
ghost use Rattle.small_card.specs.Ranges.{IsResult, IsEimList, IsAnswer};
ghost use Rattle.small_card.specs.declared.types.Answer.{Answer};
ghost use Rattle.result_codec.specs.Spelling.{eim_lines, refusal, result as spelled_result};
ghost use Rattle.es10_codec.specs.Reading.{answer_at};
ghost use Rattle.es10_codec.specs.Spelling.{results, answer};

use crate::lists::{put_results, read_results, results_len};
use crate::tags::answer::{
    ABSENT, ALREADY_PERSONAL, ASSOCIATED, EIMS, INITIAL_REFUSED, LOAD_REFUSED, LOADED, MALFORMED,
    NOT_PERMITTED, PERSONALISED, REMOVED, RESULTS, ROLLED_BACK,
};
use crate::tags::{GREATEST_ASSOCIATION, GREATEST_SEQ};
use iot_bytes::{NoMemory, ReadError, Row};
use result_codec::{
    eim_lines_len, read_eim_lines, read_refusal, read_result, refusal_len, result_len,
    write_eim_lines, write_refusal, write_result,
};
use sgp_der::{put_head, put_octets};
use sgp_fields::{
    Listed, Written, element_len, number_alone, number_alone_len, put_number_alone, when_empty,
    whole, write,
};
use small_card::codes::initial;
use small_card::{Answer, EimLine, PackageResult, Refused};
use std::alloc::Global;

fn rolled_back(content: &[u8]) -> Result<Answer, ReadError>
    ensures { Finds result (made_of (number_alone_of 1 4294967295) Answer.RolledBack content.now) }
{
    let seq = number_alone(content, 1, GREATEST_SEQ)?;
    Ok(Answer::RolledBack { seq: seq as u32 })
}

fn associated(content: &[u8]) -> Result<Answer, ReadError>
    ensures { Finds result (made_of (number_alone_of 1 4294967295) Answer.Associated content.now) }
{
    let association = number_alone(content, 1, GREATEST_ASSOCIATION)?;
    Ok(Answer::Associated {
        association: association as u32,
    })
}

fn initial_refused(content: &[u8]) -> Result<Answer, ReadError>
    ensures { Finds result (made_of (number_alone_of 1 2) Answer.InitialRefused content.now) }
{
    let code = number_alone(content, 1, u64::from(initial::NO_ASSOCIATION_LEFT))?;
    Ok(Answer::InitialRefused { code: code as u8 })
}

/// An answer as one element.
struct Record;

impl Listed<Answer> for Record {
    ghost use Rattle.es10_codec.specs.Reading.{answer_of};

    ghost entry_of = { answer_of };

    #[tactic(auto, unfolding(crate::specs::Reading::answer_of))]
    fn read(alloc: Global, tag: u8, content: &[u8]) -> Result<Answer, ReadError> {
        match tag {
            PERSONALISED => when_empty(content, Answer::Personalised),
            LOADED => read_result(alloc, content).map(Answer::Loaded),
            LOAD_REFUSED => read_refusal(content).map(Answer::LoadRefused),
            ROLLED_BACK => rolled_back(content),
            NOT_PERMITTED => when_empty(content, Answer::NotPermitted),
            REMOVED => when_empty(content, Answer::Removed),
            ABSENT => when_empty(content, Answer::Absent),
            RESULTS => read_results(alloc, content).map(Answer::Results),
            EIMS => read_eim_lines(alloc, content).map(Answer::Eims),
            ASSOCIATED => associated(content),
            INITIAL_REFUSED => initial_refused(content),
            MALFORMED => when_empty(content, Answer::Malformed),
            ALREADY_PERSONAL => when_empty(content, Answer::AlreadyPersonal),
            _ => Err(ReadError::Malformed),
        }
    }
}

#[tactic(auto, unfolding(crate::specs::Reading::answer_at))]
fn answer_from(alloc: Global, bytes: &[u8]) -> Result<Answer, ReadError>
    ensures { Gives result (answer_at bytes.now) }
{
    whole::<Answer, Record>(alloc, bytes)
}

/// The answer that the octets spell.
///
/// # Errors
/// `Malformed` where the octets spell no answer.
pub fn read_answer(alloc: Global, bytes: &[u8]) -> Result<Answer, ReadError>
    // What is read is spelled so.
    ensures found { IfOk result (λ a. IsAnswer a × (bytes.now ≡ answer a)) }
    // What is spelled so is read, unless memory runs out.
    ensures only { (a : Answer) → IsAnswer a → bytes.now ≡ answer a → Gives result (Some a) }
    // Malformed comes only where nothing is spelled so.
    ensures malformed { IsErrOf result ReadError.Malformed → SpellsNone answer IsAnswer bytes.now }
    // The reading word, for callers that compose it.
    ensures exact { Gives result (answer_at bytes.now) }
{
    answer_from(alloc, bytes)
}

#[tactic(auto, using(sgp_fields::proofs::Appending::headed))]
fn put_refusal(out: &mut Row<u8>, r: &Refused) -> Result<(), NoMemory>
    ensures ok { OnOk result (out.new ≡ out.old ++ element 0xa2 (refusal r.now)) }
    ensures err { OnErr result (take (length out.old) out.new ≡ out.old) }
{
    put_head(out, LOAD_REFUSED, refusal_len(r))?;
    write_refusal(r, out)
}

#[tactic(auto, using(sgp_fields::proofs::Appending::headed))]
fn put_loaded(out: &mut Row<u8>, r: &PackageResult) -> Result<(), NoMemory>
    requires { IsResult r.now }
    ensures ok { OnOk result (out.new ≡ out.old ++ element 0xa1 (spelled_result r.now)) }
    ensures err { OnErr result (take (length out.old) out.new ≡ out.old) }
{
    put_head(out, LOADED, result_len(r))?;
    write_result(r, out)
}

#[tactic(auto, using(sgp_fields::proofs::Appending::headed, sgp_fields::proofs::Appending::kept_before))]
fn put_result_list(out: &mut Row<u8>, rows: &[PackageResult]) -> Result<(), NoMemory>
    requires few { length rows.now ≤ 8 }
    requires each { Every IsResult rows.now }
    ensures ok { OnOk result (out.new ≡ out.old ++ element 0xa7 (results rows.now)) }
    ensures err { OnErr result (take (length out.old) out.new ≡ out.old) }
{
    put_head(out, RESULTS, results_len(rows))?;
    put_results(out, rows)
}

#[tactic(auto, using(sgp_fields::proofs::Appending::headed))]
fn put_eim_list(out: &mut Row<u8>, rows: &[EimLine]) -> Result<(), NoMemory>
    requires { IsEimList rows.now }
    ensures ok { OnOk result (out.new ≡ out.old ++ element 0xa8 (eim_lines rows.now)) }
    ensures err { OnErr result (take (length out.old) out.new ≡ out.old) }
{
    put_head(out, EIMS, eim_lines_len(rows))?;
    write_eim_lines(rows, out)
}

impl Written<Answer> for Record {
    ghost spelled = { answer };

    ghost Fits = { IsAnswer };

    ghost most = { 146477 };

    #[tactic(auto, unfolding(crate::specs::Spelling::answer, small_card::specs::Ranges::IsAnswer))]
    fn len(value: &Answer) -> usize {
        match value {
            Answer::Personalised
            | Answer::NotPermitted
            | Answer::Removed
            | Answer::Absent
            | Answer::Malformed
            | Answer::AlreadyPersonal => element_len(0),
            Answer::Loaded(r) => element_len(result_len(r)),
            Answer::LoadRefused(r) => element_len(refusal_len(r)),
            Answer::RolledBack { seq } => element_len(number_alone_len(u64::from(*seq))),
            Answer::Results(rows) => element_len(results_len(rows.as_slice())),
            Answer::Eims(rows) => element_len(eim_lines_len(rows.as_slice())),
            Answer::Associated { association } => {
                element_len(number_alone_len(u64::from(*association)))
            }
            Answer::InitialRefused { code } => element_len(number_alone_len(u64::from(*code))),
        }
    }

    #[tactic(auto, unfolding(crate::specs::Spelling::answer, small_card::specs::Ranges::IsAnswer))]
    fn put(out: &mut Row<u8>, value: &Answer) -> Result<(), NoMemory> {
        match value {
            Answer::Personalised => put_octets(out, PERSONALISED, &[]),
            Answer::Loaded(r) => put_loaded(out, r),
            Answer::LoadRefused(r) => put_refusal(out, r),
            Answer::RolledBack { seq } => put_number_alone(out, ROLLED_BACK, u64::from(*seq)),
            Answer::NotPermitted => put_octets(out, NOT_PERMITTED, &[]),
            Answer::Removed => put_octets(out, REMOVED, &[]),
            Answer::Absent => put_octets(out, ABSENT, &[]),
            Answer::Results(rows) => put_result_list(out, rows.as_slice()),
            Answer::Eims(rows) => put_eim_list(out, rows.as_slice()),
            Answer::Associated { association } => {
                put_number_alone(out, ASSOCIATED, u64::from(*association))
            }
            Answer::InitialRefused { code } => {
                put_number_alone(out, INITIAL_REFUSED, u64::from(*code))
            }
            Answer::Malformed => put_octets(out, MALFORMED, &[]),
            Answer::AlreadyPersonal => put_octets(out, ALREADY_PERSONAL, &[]),
        }
    }
}

/// How many octets [`write_answer`] appends. It takes no memory.
pub fn answer_len(value: &Answer) -> usize
    requires { IsAnswer value.now }
    ensures len { result ≡ length (answer value.now) }
    ensures few { result ≤ 146477 }
{
    <Record as Written<Answer>>::len(value)
}

/// Appends the one spelling of the answer, or nothing where memory runs out.
#[tactic(auto, using(crate::proofs::AnswerCodec::grown))]
pub fn write_answer(value: &Answer, out: &mut Row<u8>) -> Result<(), NoMemory>
    requires { IsAnswer value.now }
    ensures ok { OnOk result (out.new ≡ out.old ++ answer value.now) }
    ensures few { OnOk result (length out.new ≤ length out.old + 146477) }
    ensures err { OnErr result (out.new ≡ out.old) }
{
    write::<Answer, Record>(out, value)
}
