use esipa_codec::ToIpa;
use sgp_values::EimId;

/// A message to the assistant, with the identifier of the eIM that it comes from.
#[derive(Debug, Drop)]
pub struct Reply {
    pub from: EimId,
    pub message: ToIpa,
}
