//! The editing of a line, one key at a time.

ghost use Rattle.std.specs.Prelude.{◌≡◌, ◌<◌, ◌≤◌, ◌+◌, ◌*◌, ◌-◌, ◌↔◌, ◌++◌, ◌∷◌, ◌==◌, [], ℕ, length, take, drop};
ghost use Rattle.std.specs.Prelude.{min, slice_get, IsTrue, IfOk, if◌then◌else◌, true, false, not, fold, replicate};
ghost use Rattle.cpm_console.specs.Terminal.{said, IsWithin, most_waiting, step_output};
ghost use Rattle.cpm_console.specs.EditedLine.{EditedLine};
ghost use Rattle.cpm_console.specs.Editing.{echo_at, next_column, columns, echo, erasure, without_last, last_echo, with_character};
ghost use Rattle.cpm_console.specs.Editing.{emptied, fresh_line, keystroke, edited, put_in, begun_line, key_into_line};

use crate::Console;
use arrayvec::ArrayVec;
use std::marker::Model;

/// How a line stands after a key.
#[derive(Clone, Copy, Debug, PartialEq, Eq)]
pub enum LineState {
    /// A further key is to come.
    GoesOn,
    /// The line is complete.
    Ended,
    /// ^C was typed into an empty line: the session is to be booted anew.
    Interrupted,
}

/// What a key means in a line.
#[derive(Clone, Copy, Debug, PartialEq, Eq)]
pub enum Keystroke {
    /// ^C in an empty line.
    Interrupt,
    /// ^E: the cursor goes to a fresh line, and the line goes on.
    NewLine,
    /// ^H: the last character goes, and its columns are blanked.
    Erase,
    /// Rubout: the last character goes, and is shown again.
    Repeat,
    /// Return or ^J.
    End,
    /// ^P: echo to the list device, on or off.
    ListEcho,
    /// ^R: the line is shown again below.
    Retype,
    /// ^U: the line is given up, and begins again below.
    Restart,
    /// ^X: all characters go, and their columns are blanked.
    EraseAll,
    /// Any other key is a character of the line.
    Character,
}

impl Keystroke {
    /// What a key means in a line that is empty or not.
    #[tactic(auto, unfolding(crate::specs::Editing::keystroke))]
    fn of(key: u8, is_empty: bool) -> Keystroke
        ensures { result ≡ keystroke is_empty key }
    {
        match key {
            0x03 if is_empty => Keystroke::Interrupt,
            0x05 => Keystroke::NewLine,
            0x08 => Keystroke::Erase,
            0x7F => Keystroke::Repeat,
            0x0A | 0x0D => Keystroke::End,
            0x10 => Keystroke::ListEcho,
            0x12 => Keystroke::Retype,
            0x15 => Keystroke::Restart,
            0x18 => Keystroke::EraseAll,
            _ => Keystroke::Character,
        }
    }
}

/// A line that is being edited.
#[derive(Drop)]
pub struct Line {
    start: u8,
    limit: u8,
    characters: ArrayVec<u8, 255>,
}

impl Model for Line {
    ghost use Rattle.cpm_console.specs.EditedLine.{EditedLine};

    ghost Value = { EditedLine };

    ghost view = { λ l. record { start = l.start; limit = l.limit; characters = l.characters.items } };
}

impl Line {
    /// An empty line that begins at a column and may have this many characters.
    pub fn new(start: u8, limit: u8) -> Self
        ensures { result ≡ begun_line start limit }
    {
        Line {
            start,
            limit,
            characters: ArrayVec::new(),
        }
    }

    /// The line of these characters, 255 at most, that began at a column and may have this many.
    pub fn with_characters(start: u8, limit: u8, characters: &[u8]) -> Line
        requires { length characters.now ≤ 255 }
        ensures { result ≡ record { start = start; limit = limit; characters = characters.now } }
    {
        let mut line = Line::new(start, limit);
        // There is room for them.
        let _ = line.characters.try_extend_from_slice(characters);
        line
    }

    /// The same line.
    pub fn copied(&self) -> Self
        ensures { result ≡ self.now }
    {
        Line::with_characters(self.start, self.limit, self.characters())
    }

    /// The characters now in the line.
    pub fn characters(&self) -> &[u8]
        ensures value { result.now ≡ self.now.characters }
        ensures fits { length self.now.characters ≤ 255 }
    {
        self.characters.as_slice()
    }

    /// The column where the line began.
    pub fn start(&self) -> u8
        ensures value { result ≡ self.now.start }
        ensures fits { result ≤ 255 }
    {
        self.start
    }

    /// How many characters the line may have.
    pub fn limit(&self) -> u8
        ensures value { result ≡ self.now.limit }
        ensures fits { self.now.limit ≤ 255 }
    {
        self.limit
    }

    /// Puts a key into the line, which must not be full, and shows its echo, which is 2,304 bytes at most: there must be
    /// room for all that a step may put. CP/M 2.2 Operating System Manual, section 5.2, function 10.
    #[tactic(auto, using(crate::proofs::Growth::editing))]
    pub fn key_into_line(&mut self, console: &mut Console, key: u8) -> LineState
        requires open { length self.old.characters < self.old.limit }
        requires screen { length console.old.screen ≤ step_output }
        requires printer { length console.old.printer ≤ step_output }
        ensures line { edited console.new self.new result ≡ key_into_line console.old self.old key }
        ensures open { result ≡ LineState.GoesOn → length self.new.characters < self.new.limit }
        ensures output { IsWithin 2304 console.old console.new }
    {
        let _start = self.start();
        let _characters = self.characters();
        self.by_keystroke(console, key)
    }

    /// The column count of the characters now in the line.
    fn column_count(&self) -> u8
        ensures { result ≡ columns self.now.start self.now.characters }
    {
        columns(self.start, self.characters())
    }

    /// Does what the key means in the line.
    #[tactic(auto, using(crate::proofs::Said::saying))]
    fn by_keystroke(&mut self, console: &mut Console, key: u8) -> LineState
        requires open { length self.old.characters < self.old.limit }
        requires screen { length console.old.screen ≤ step_output }
        requires printer { length console.old.printer ≤ step_output }
        ensures { edited console.new self.new result ≡ key_into_line console.old self.old key }
    {
        match Keystroke::of(key, self.characters.is_empty()) {
            Keystroke::Interrupt => {
                console.say_all(b"^C");
                LineState::Interrupted
            }
            Keystroke::NewLine => {
                console.say_all(b"\r\n");
                LineState::GoesOn
            }
            Keystroke::Erase => {
                self.erase_last(console);
                LineState::GoesOn
            }
            Keystroke::Repeat => {
                self.repeat_last(console);
                LineState::GoesOn
            }
            Keystroke::End => {
                console.say(b'\r');
                LineState::Ended
            }
            Keystroke::ListEcho => {
                console.set_list_echo(!console.list_echo());
                LineState::GoesOn
            }
            Keystroke::Retype => {
                self.retype(console);
                LineState::GoesOn
            }
            Keystroke::Restart => {
                self.begin_again(console);
                self.characters.clear();
                LineState::GoesOn
            }
            Keystroke::EraseAll => {
                erase(console, echo_width(self.start, self.characters()));
                self.characters.clear();
                LineState::GoesOn
            }
            Keystroke::Character => self.put(console, key),
        }
    }

    /// Removes the last character, and erases its columns.
    #[tactic(auto, using(crate::proofs::Said::saying))]
    fn erase_last(&mut self, console: &mut Console)
        requires screen { length console.old.screen ≤ step_output }
        requires printer { length console.old.printer ≤ step_output }
        ensures line { self.new ≡ without_last self.old }
        ensures console { console.new ≡ said console.old (erasure (length (last_echo self.old))) }
    {
        if let Some(character) = self.characters.pop() {
            let at = self.column_count();
            erase(console, usize::from(width(at, character)));
        }
    }

    /// Removes the last character, and shows it again.
    #[tactic(auto, using(crate::proofs::Said::saying))]
    fn repeat_last(&mut self, console: &mut Console)
        requires screen { length console.old.screen ≤ step_output }
        requires printer { length console.old.printer ≤ step_output }
        ensures line { self.new ≡ without_last self.old }
        ensures console { console.new ≡ said console.old (last_echo self.old) }
    {
        if let Some(character) = self.characters.pop() {
            let at = self.column_count();
            say_echo(console, at, character);
        }
    }

    /// Shows the line again on a fresh line, from the column where it began, in 1,024 bytes at most. There must be room for
    /// all that a step may put.
    #[tactic(auto, using(crate::proofs::Said::saying))]
    pub fn retype(&self, console: &mut Console)
        requires screen { length console.old.screen ≤ step_output }
        requires printer { length console.old.printer ≤ step_output }
        ensures shown { console.new ≡ said console.old (fresh_line self.now ++ echo self.now.start self.now.characters) }
        ensures output { IsWithin 1024 console.old console.new }
    {
        self.begin_again(console);
        say_echoes(console, self.start, self.characters());
    }

    /// Goes to a fresh line, and to the column where this one began.
    #[tactic(auto, using(crate::proofs::Said::saying))]
    fn begin_again(&self, console: &mut Console)
        requires screen { length console.old.screen ≤ step_output }
        requires printer { length console.old.printer ≤ step_output }
        ensures { console.new ≡ said console.old (fresh_line self.now) }
    {
        console.say_all(b"#\r\n");
        say_spaces(console, self.start);
    }

    /// Stores a character and shows it. The line ends where it is full then.
    #[tactic(auto, using(crate::proofs::Said::saying))]
    fn put(&mut self, console: &mut Console, character: u8) -> LineState
        requires open { length self.old.characters < self.old.limit }
        requires screen { length console.old.screen ≤ step_output }
        requires printer { length console.old.printer ≤ step_output }
        ensures { edited console.new self.new result ≡ put_in console.old self.old character }
    {
        let limit = usize::from(self.limit);
        let at = self.column_count();
        say_echo(console, at, character);
        self.characters.push(character);
        if self.characters.len() == limit {
            console.say(b'\r');
            LineState::Ended
        } else {
            LineState::GoesOn
        }
    }
}

/// How many columns the echo of characters takes from a column on.
#[tactic(auto, using(crate::proofs::Said::saying))]
fn echo_width(column: u8, characters: &[u8]) -> usize
    requires { length characters.now ≤ 255 }
    ensures { result ≡ length (echo column characters.now) }
{
    let mut at = column;
    let mut total = 0;
    for character in characters {
        total += usize::from(width(at, *character));
        at = next_column(at, *character);
    }
    total
}

/// How many columns the echo of a character takes.
#[tactic(auto, unfolding(crate::specs::Editing::echo_at))]
fn width(column: u8, character: u8) -> u8
    ensures value { result ≡ length (echo_at column character) }
    ensures small { result ≤ 8 }
{
    if character == b'\t' {
        8 - column % 8
    } else if character < 0x20 || character == 0x7F {
        2
    } else {
        1
    }
}

/// The column count after a character.
#[tactic(auto, unfolding(crate::specs::Editing::next_column))]
fn next_column(column: u8, character: u8) -> u8
    ensures { result ≡ next_column column character }
{
    column.saturating_add(width(column, character))
}

/// The column count after characters.
fn columns(column: u8, characters: &[u8]) -> u8
    ensures { result ≡ columns column characters.now }
{
    characters
        .iter()
        .fold(column, |at, character| next_column(at, *character))
}

/// Shows spaces.
#[tactic(auto, using(crate::proofs::Said::saying))]
fn say_spaces(console: &mut Console, count: u8)
    requires screen { length console.old.screen + count ≤ most_waiting }
    requires printer { length console.old.printer + count ≤ most_waiting }
    ensures { console.new ≡ said console.old (replicate count 32) }
{
    for _ in 0..count {
        console.say(b' ');
    }
}

/// Erases columns to the left.
#[tactic(auto, using(crate::proofs::Said::saying))]
fn erase(console: &mut Console, count: usize)
    requires screen { length console.old.screen + 3 * count ≤ most_waiting }
    requires printer { length console.old.printer + 3 * count ≤ most_waiting }
    ensures { console.new ≡ said console.old (erasure count) }
{
    for _ in 0..count {
        console.say_all(b"\x08 \x08");
    }
}

/// Shows the echo of a character at a column.
#[tactic(auto, unfolding(crate::specs::Editing::echo_at))]
fn say_echo(console: &mut Console, column: u8, character: u8)
    requires screen { length console.old.screen + 8 ≤ most_waiting }
    requires printer { length console.old.printer + 8 ≤ most_waiting }
    ensures { console.new ≡ said console.old (echo_at column character) }
{
    if character == b'\t' {
        say_spaces(console, 8 - column % 8);
    } else if character < 0x20 || character == 0x7F {
        console.say_all(&[b'^', character ^ 0x40]);
    } else {
        console.say(character);
    }
}

/// Shows the echo of characters from a column on, and returns the column after them.
#[tactic(auto, using(crate::proofs::Said::saying))]
fn say_echoes(console: &mut Console, column: u8, characters: &[u8]) -> u8
    requires screen { length console.old.screen + length (echo column characters.now) + 8 ≤ most_waiting }
    requires printer { length console.old.printer + length (echo column characters.now) + 8 ≤ most_waiting }
    ensures said { console.new ≡ said console.old (echo column characters.now) }
    ensures column { result ≡ columns column characters.now }
{
    let mut at = column;
    for character in characters {
        say_echo(console, at, *character);
        at = next_column(at, *character);
    }
    at
}
