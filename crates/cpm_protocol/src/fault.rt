//! Why a line is no request.
use crate::field::RequestField;

/// What is wrong with a field of a request.
#[derive(Clone, Copy, Drop)]
pub enum FieldFault {
    /// The field is missing.
    Missing(RequestField),
    /// The field is of another type, out of its bounds, or stands beside another one that it excludes.
    Wrong(RequestField),
}

/// Why a value is no request.
#[derive(Clone, Copy, Drop)]
pub enum RequestFault<'a> {
    Field(FieldFault),
    /// The request has no field of this name.
    Unknown(&'a str),
}

/// Why a line is not read as a value.
#[derive(Clone, Copy, Drop)]
pub enum LineError {
    /// The line is no JSON from this column on, counted in bytes from 1.
    NoJson { at: usize },
    /// There was no memory for its value.
    OutOfMemory,
}

impl From<FieldFault> for RequestFault<'_> {
    ghost use Rattle.std.specs.Prelude.{◌≡◌};
    ghost use Rattle.cpm_protocol.specs.declared.fault.RequestFault.TheVariants.{Field};

    ghost from_gives = { λ fault e. e ≡ Field fault };

    fn from(fault: FieldFault) -> Self {
        RequestFault::Field(fault)
    }
}
