use home_codec::Card;
use small_card::Answer;

/// What a command makes of a card.
#[derive(Debug, Drop)]
pub enum Turn {
    /// The card stays, and this is the answer.
    Same(Answer),
    /// This card takes its place, with this answer.
    Changed(Card, Answer),
}
