//! Laws of layouts of values in bytes.

ghost use Rattle.cpm_saved.specs.Laws.{CodedAreBytes, ReadValuesAreWritten, ValuesAreRead};

/// What is read of the bytes of a value is the value.
pub fn values_are_read()
    ensures { ValuesAreRead }
{}

/// Where a value is read of bytes, they are just its bytes: no other bytes are that value.
pub fn read_values_are_written()
    ensures { ReadValuesAreWritten }
{}

/// What a value is written as is bytes, where each limit of its layout is at most 256.
pub fn coded_are_bytes()
    ensures { CodedAreBytes }
{}
