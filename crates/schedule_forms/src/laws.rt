ghost use Rattle.std.specs.Prelude.{◌≢◌, ℕ, None};
ghost use Rattle.iot_schedule.specs.Devices.{device_at};
ghost use Rattle.iot_schedule.specs.Making.{made_line};
ghost use Rattle.iot_schedule.specs.Steps.{step_at};
ghost use Rattle.schedule_forms.specs.Grammar.{AreInGrammar};
ghost use Rattle.schedule_forms.specs.Schedules.{made_lines};

/// The lines that the generator makes are a schedule: the first one spells a device, and each other
/// one something that happens.
pub fn generated_lines_are_in_the_grammar()
    ensures first { (start : ℕ) → device_at (made_line start 1) ≢ None }
    ensures later { (start number : ℕ) → number ≢ 1 → step_at (made_line start number) ≢ None }
    ensures all { (start n : ℕ) → AreInGrammar (made_lines start n) }
{}
