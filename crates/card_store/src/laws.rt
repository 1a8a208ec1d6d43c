//! What holds of every image, and of every chip that holds a history, as functions that do nothing:
//! their clauses are the laws.

ghost use Rattle.std.specs.Prelude.{◌≡◌, List, ℕ};
ghost use Rattle.small_card.specs.Cards.{FullCard};
ghost use Rattle.card_store.specs.Holding.{AnswersAreHeld, LossesAreHeld};
ghost use Rattle.card_store.specs.Standing.{Stands};

use chip_port::Chip;

/// An image stands for at most one card.
pub fn an_image_stands_for_one_card()
    ensures { (f g : FullCard) (image : List ℕ) → Stands f image → Stands g image → f ≡ g }
{}

/// A chip that holds a history holds it, with one mark more, after a run that ends with an answer:
/// up to the unit that was in progress where this one stands now, or without it.
pub fn answers_are_held<C: Chip>(_before: &C, _after: &C)
    ensures { AnswersAreHeld (C.sees _before.now) (C.sees _after.now) }
{}

/// It holds the history with the same marks after a run without an answer; the unit that was in
/// progress is the attempt of the last one.
pub fn losses_are_held<C: Chip>(_before: &C, _after: &C)
    ensures { LossesAreHeld (C.sees _before.now) (C.sees _after.now) }
{}
