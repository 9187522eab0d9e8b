//! A place of the screen, with the character that it shows and how it shows it.

/// How a character is shown.
#[derive(Clone, Copy, Debug, PartialEq, Eq)]
pub struct Attributes {
    pub bold: bool,
    pub underline: bool,
    pub blink: bool,
    pub reverse: bool,
}

/// One of the attributes.
#[derive(Clone, Copy)]
pub enum Attribute {
    Bold,
    Underline,
    Blink,
    Reverse,
}

/// What the bytes of characters stand for.
#[derive(Clone, Copy, Debug, PartialEq, Eq)]
pub enum CharacterSet {
    /// Letters, digits and signs; 80h to FFh are characters of the terminal's own.
    Ascii,
    /// DEC's lines, corners and signs, by the bytes 5Fh to 7Eh.
    Drawing,
}

/// A place of the screen.
#[derive(Clone, Copy, Debug, PartialEq, Eq)]
pub struct ScreenCell {
    /// The byte of the character: 20h to 7Eh, or 80h to FFh.
    pub character: u8,
    pub set: CharacterSet,
    pub attributes: Attributes,
}

/// No attribute.
pub const PLAIN: Attributes = Attributes {
    bold: false,
    underline: false,
    blink: false,
    reverse: false,
};

/// The cell of a blank screen.
pub const BLANK: ScreenCell = ScreenCell {
    character: b' ',
    set: CharacterSet::Ascii,
    attributes: PLAIN,
};
