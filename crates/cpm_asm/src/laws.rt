//! Laws of the assembler.
ghost use Rattle.cpm_asm.specs.Encoding.{Decodes, HasEncoding};
ghost use Rattle.cpm_decode.specs.declared.operation.Op.{Op};

/// The bytes of an instruction are those whose row in the 8080's table is the instruction.
pub fn encodings_decode()
    ensures { (instruction : Op) → HasEncoding instruction → Decodes instruction }
{}
