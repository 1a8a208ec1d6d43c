//! A chip that holds a history goes on holding it, as functions that do nothing: their clauses are
//! the laws.

ghost use Rattle.euicc_core.specs.Laws.{StepsAreHeld, OpeningsAreHeld, LooksAreHeld};

use chip_port::Chip;

/// An answered step leaves the chip holding the history after the command, with one mark more.
pub fn steps_are_held<C: Chip>(_before: &C, _after: &C)
    ensures { StepsAreHeld (C.sees _before.now) (C.sees _after.now) }
{}

/// An opening leaves it holding the history with the unit that was in progress, or without it, with
/// one mark more.
pub fn openings_are_held<C: Chip>(_before: &C, _after: &C)
    ensures { OpeningsAreHeld (C.sees _before.now) (C.sees _after.now) }
{}

/// A look at the chip leaves it holding what it held.
pub fn looks_are_held<C: Chip>(_before: &C, _after: &C)
    ensures { LooksAreHeld (C.sees _before.now) (C.sees _after.now) }
{}
