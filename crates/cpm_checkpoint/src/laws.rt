//! Laws of checkpoints: their bytes and their values are one for the other.

ghost use Rattle.cpm_checkpoint.specs.Laws.{ReadIsWritten, WrittenIsRead};

/// What was written is read, for 64 sessions at most.
pub fn written_is_read()
    ensures { WrittenIsRead }
{}

/// What is read of bytes is written as just these bytes: no damaged file is taken for another one.
pub fn read_is_written()
    ensures { ReadIsWritten }
{}
