//! Where typed keys are recorded.
ghost use Rattle.std.specs.Prelude.{◌≡◌, Option, Some, None, IfErr, OnOk};
ghost use Rattle.cpm_commands.specs.Record.{HasEndedRecord, IsUnrecorded};
ghost use Rattle.cpm_host.specs.declared.error.HostError.{HostError};

use cpm_host::HostError;
use std::io::Write;

/// Where typed keys are recorded. What was recorded is to be found under its name once it has ended.
pub trait KeyRecord: Write {
    // From this state to that one by ending it, which is refused so, or isn't.
    ghost ends: { Self → Option HostError → Self → Type 0 };

    /// Ends it, where all was typed.
    fn end(&mut self) -> Result<(), HostError>
        ensures same { Self.contents self.new ≡ Self.contents self.old }
        ensures ended { OnOk result (ends self.old None self.new) }
        ensures refused { IfErr result (λ e. ends self.old (Some e) self.new) }
        ensures refusal { IfErr result IsUnrecorded };
}

/// Ends a record of what was typed.
pub(crate) fn end_record<R: KeyRecord>(record: &mut R) -> Result<(), HostError>
    ensures same { R.contents «record».new ≡ R.contents «record».old }
    ensures ended { OnOk result (HasEndedRecord R.ends R.contents (R.contents «record».new) «record».new None) }
    ensures refused { IfErr result (λ e. HasEndedRecord R.ends R.contents (R.contents «record».new) «record».new (Some e)) }
    ensures refusal { IfErr result IsUnrecorded }
{
    record.end()
}
