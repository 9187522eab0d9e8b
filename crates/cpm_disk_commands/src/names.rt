//! Names of files and patterns of names, as a person writes them.

ghost use Rattle.std.specs.Prelude.{◌≡◌, ◌≤◌, ◌+◌, ◌==◌, ◌&&◌, length};
ghost use Rattle.std.specs.List.{list_all, position, position_or_len};
ghost use Rattle.cpm_disk_commands.specs.Names.{capital_letter, character_at, fields, has_parts, is_name_character, is_part};
ghost use Rattle.cpm_disk_commands.specs.Names.{is_pattern_character, is_special, is_sized, one_name, name_part, pattern_text, star_of, type_part};

/// The name of one file: 1 to 8 characters and, after a dot, up to 3. Letters become capitals, and blanks fill both parts up.
/// None where the text is no such name.
#[tactic(auto, unfolding(crate::specs::Names::one_name))]
pub fn name_of(text: &str) -> Option<[u8; 11]>
    ensures { result ≡ one_name text.now }
{
    let text = text.as_bytes();
    if is_name(text) {
        Some(fields(text))
    } else {
        None
    }
}

/// A pattern of names: the same, where `?` stands for any character and a last `*` for all that follow in its part.
#[tactic(auto, unfolding(crate::specs::Names::pattern_text))]
pub fn pattern_of(text: &str) -> Option<[u8; 11]>
    ensures { result ≡ pattern_text text.now }
{
    let text = text.as_bytes();
    if is_pattern(text) {
        Some(fields(text))
    } else {
        None
    }
}

/// Whether a text is a name.
#[tactic(auto, unfolding(crate::specs::Names::has_parts))]
fn is_name(text: &[u8]) -> bool
    ensures { result ≡ has_parts is_name_character text.now }
{
    let (name, kind) = (name_part(text), type_part(text));
    !name.is_empty() && is_name_part(name, 8) && is_name_part(kind, 3)
}

/// Whether a text is a pattern.
#[tactic(auto, unfolding(crate::specs::Names::has_parts))]
fn is_pattern(text: &[u8]) -> bool
    ensures { result ≡ has_parts is_pattern_character text.now }
{
    let (name, kind) = (name_part(text), type_part(text));
    !name.is_empty() && is_pattern_part(name, 8) && is_pattern_part(kind, 3)
}

/// Whether this is a name's part of at most so many characters.
fn is_name_part(part: &[u8], most: usize) -> bool
    ensures { result ≡ is_part is_name_character most part.now }
{
    is_sized(part, most) && all_of_name(part)
}

/// Whether this is a pattern's part of at most so many characters.
fn is_pattern_part(part: &[u8], most: usize) -> bool
    ensures { result ≡ is_part is_pattern_character most part.now }
{
    is_sized(part, most) && all_of_pattern(part)
}

/// Whether a part has at most so many characters, and none after a star.
#[tactic(auto, unfolding(crate::specs::Names::is_sized))]
fn is_sized(part: &[u8], most: usize) -> bool
    ensures { result ≡ is_sized most part.now }
{
    part.len() <= most && part.len() <= star_of(part).saturating_add(1)
}

fn all_of_name(part: &[u8]) -> bool
    ensures { result ≡ list_all is_name_character part.now }
{
    part.iter().all(|c| is_name_character(*c))
}

fn all_of_pattern(part: &[u8]) -> bool
    ensures { result ≡ list_all is_pattern_character part.now }
{
    part.iter().all(|c| is_pattern_character(*c))
}

/// Whether a character may stand in a name.
#[tactic(auto, unfolding(crate::specs::Names::is_name_character))]
fn is_name_character(c: u8) -> bool
    ensures { result ≡ is_name_character c }
{
    b' ' < c && c < 0x7F && !is_special(c)
}

/// Whether a character may stand in a pattern.
#[tactic(auto, unfolding(crate::specs::Names::is_pattern_character))]
fn is_pattern_character(c: u8) -> bool
    ensures { result ≡ is_pattern_character c }
{
    is_name_character(c) || c == b'?' || c == b'*'
}

/// Whether a character has a meaning of its own in a command line.
fn is_special(c: u8) -> bool
    ensures { result ≡ is_special c }
{
    matches!(
        c,
        b'<' | b'>' | b'.' | b',' | b';' | b':' | b'=' | b'?' | b'*' | b'[' | b']' | b'_'
    )
}

/// The characters up to the first dot.
#[tactic(auto, unfolding(crate::specs::Names::name_part))]
fn name_part(text: &[u8]) -> &[u8]
    ensures { result.now ≡ name_part text.now }
{
    &text[..dot_of(text)]
}

/// The characters after it; none where there is no dot.
#[tactic(auto, unfolding(crate::specs::Names::type_part))]
fn type_part(text: &[u8]) -> &[u8]
    ensures { result.now ≡ type_part text.now }
{
    let dot = dot_of(text);
    if dot < text.len() {
        &text[dot + 1..]
    } else {
        &text[dot..]
    }
}

/// Where the first dot is, or the end.
fn dot_of(text: &[u8]) -> usize
    ensures place { result ≡ position_or_len (λ c. c == 0x2E) text.now }
    ensures within { result ≤ length text.now }
{
    first_dot(text).unwrap_or(text.len())
}

fn first_dot(text: &[u8]) -> Option<usize>
    ensures { result ≡ position (λ c. c == 0x2E) text.now }
{
    text.iter().position(|c| *c == b'.')
}

/// Where the first star is, or the end.
fn star_of(part: &[u8]) -> usize
    ensures place { result ≡ star_of part.now }
    ensures within { result ≤ length part.now }
{
    first_star(part).unwrap_or(part.len())
}

fn first_star(part: &[u8]) -> Option<usize>
    ensures { result ≡ position (λ c. c == 0x2A) part.now }
{
    part.iter().position(|c| *c == b'*')
}

/// Both parts in their fields.
#[tactic(auto, unfolding(crate::specs::Names::fields))]
fn fields(text: &[u8]) -> [u8; 11]
    ensures { result ≡ fields text.now }
{
    let (name, kind) = (name_part(text), type_part(text));
    let mut both = [0; 11];
    for place in 0..11 {
        both[place] = if place < 8 {
            character_at(name, place)
        } else {
            character_at(kind, place - 8)
        };
    }
    both
}

/// The character at a place of a field.
#[tactic(auto, unfolding(crate::specs::Names::character_at))]
fn character_at(part: &[u8], place: usize) -> u8
    ensures { result ≡ character_at part.now place }
{
    let star = star_of(part);
    if place < star {
        capital_letter(part[place])
    } else if star < part.len() {
        b'?'
    } else {
        b' '
    }
}

/// A small letter as its capital.
#[tactic(auto, unfolding(crate::specs::Names::capital_letter))]
fn capital_letter(c: u8) -> u8
    ensures { result ≡ capital_letter c }
{
    if c.is_ascii_lowercase() {
        c - (b'a' - b'A')
    } else {
        c
    }
}
