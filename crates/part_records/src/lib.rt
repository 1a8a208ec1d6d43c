//! The records of one part alone: what comes to a manager (eIM) and to an assistant (IPA), and what
//! each of them gives, as octets. The grammar is told in `docs/FORMATS.md`.
#![tactic(auto)]

mod deeds;
mod eim_inputs;
mod eim_outputs;
mod ipa_inputs;
mod laws;
mod records;
mod tags;

pub use deeds::{deeds_len, write_deeds};
pub use eim_inputs::read_eim_input;
pub use eim_outputs::{eim_output_len, write_eim_output};
pub use ipa_inputs::read_ipa_input;
pub use laws::{
    inputs_are_read_back, inputs_have_one_spelling, outputs_are_short, outputs_have_one_spelling,
};
pub use records::{Deeds, EimInput, EimOutput, EimRefusal, IpaInput};
