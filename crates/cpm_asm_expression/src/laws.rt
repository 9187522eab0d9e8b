//! Laws of expressions.
ghost use Rattle.std.specs.Prelude.{◌≡◌, ℕ, List, Some, false, is_some};
ghost use Rattle.cpm_asm_expression.specs.Names.{Extends, NameTable};
ghost use Rattle.cpm_asm_expression.specs.Grammar.{Spells};
ghost use Rattle.cpm_asm_expression.specs.Reading.{reading, value_at};
ghost use Rattle.cpm_asm_expression.specs.declared.tokens.Token.{Token};
ghost use Rattle.cpm_asm_expression.specs.declared.values.CheckedValue.{CheckedValue};

/// Tokens are read as a value where they are an expression of that value, and nowhere else.
pub fn exact_reading()
    ensures read { (names : NameTable) (here : ℕ) (ts : List Token) (v : CheckedValue) → Spells names here ts v → reading names here ts ≡ Some v }
    ensures only { (names : NameTable) (here : ℕ) (ts : List Token) (v : CheckedValue) → reading names here ts ≡ Some v → Spells names here ts v }
{}

/// A value that is known is the same under each table that has more names.
pub fn known_values_stay()
    ensures { (names more : NameTable) (here : ℕ) (text : List ℕ) (v : CheckedValue) → Extends names more
        → value_at names here text ≡ Some v → v.is_unknown ≡ false → value_at more here text ≡ Some v }
{}

/// Whether a text is an expression depends on no name and no address.
pub fn expressions_anywhere()
    ensures { (names others : NameTable) (here there : ℕ) (text : List ℕ) → is_some (value_at names here text) ≡ is_some (value_at others there text) }
{}
