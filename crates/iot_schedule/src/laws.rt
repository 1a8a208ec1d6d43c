ghost use Rattle.std.specs.Prelude.{◌≡◌, ◌++◌, ◌∷◌, List, ℕ, Some};
ghost use Rattle.iot_schedule.specs.declared.types.Device.{Device};
ghost use Rattle.iot_schedule.specs.declared.types.Line.{Line};
ghost use Rattle.iot_schedule.specs.Devices.{device_at};
ghost use Rattle.iot_schedule.specs.Steps.{step_at};
ghost use Rattle.iot_schedule.specs.Spelling.{device_text, step_text};
ghost use Rattle.iot_schedule.specs.Ranges.{IsDevice, IsStep};

/// A line in range is read again from the text that is written for it, and what a text is read as
/// is in range.
pub fn steps_are_read_again()
    ensures again { (line : Line) → IsStep line → step_at (step_text line) ≡ Some line }
    ensures range { (text : List ℕ) (line : Line) → step_at text ≡ Some line → IsStep line }
{}

/// A device in range is read again from the text that is written for it, and what a text is read as
/// is in range.
pub fn devices_are_read_again()
    ensures again { (device : Device) → IsDevice device
        → device_at (device_text device) ≡ Some device }
    ensures range { (text : List ℕ) (device : Device) → device_at text ≡ Some device
        → IsDevice device }
{}
