//! Attributes, tab stops, the scrolling region, modes, and what is saved.

ghost use Rattle.std.specs.Prelude.{◌≡◌, ◌≤◌, ◌<◌, fold, length};
ghost use Rattle.cpm_screen.specs.Modes.{given_numbers, looking, region_bottom, rendered, switched, switched_on, with_inserts, with_mode, with_modes};
ghost use Rattle.cpm_screen.specs.Modes.{with_origin};
ghost use Rattle.cpm_screen.specs.Modes.{with_region, with_restored, with_saved, with_set, with_shift, with_tab, with_wrap, without_tabs};
ghost use Rattle.cpm_screen.specs.State.{fresh_tabs};
ghost use Rattle.cpm_screen.specs.State.{SameSize};

use crate::action::Parameters;
use crate::cell::{Attribute, Attributes, CharacterSet, PLAIN};
use crate::cursor::FRESH;
use crate::screen::TextScreen;
use crate::terminal::Wrap;

/// Tab stops in every eighth column.
#[tactic(auto, unfolding(crate::specs::State::fresh_tabs))]
pub(crate) fn fresh_tabs() -> [bool; 132]
    ensures { result ≡ fresh_tabs }
{
    let mut tabs = [false; 132];
    for column in 0..132 {
        tabs[column] = column % 8 == 0;
    }
    tabs
}

impl Parameters {
    /// The numbers that were given, of which there is one at least.
    fn given_numbers(&self) -> &[u8]
        ensures { result.now ≡ given_numbers self.now }
    {
        let count = usize::from(self.place) + 1;
        &self.numbers[..count.min(16)]
    }
}

impl Attributes {
    /// With one of them on or off.
    #[tactic(auto, unfolding(crate::specs::Modes::switched))]
    fn switched(self, attribute: Attribute, on: bool) -> Attributes
        ensures { result ≡ switched attribute on self }
    {
        match attribute {
            Attribute::Bold => Attributes { bold: on, ..self },
            Attribute::Underline => Attributes {
                underline: on,
                ..self
            },
            Attribute::Blink => Attributes { blink: on, ..self },
            Attribute::Reverse => Attributes {
                reverse: on,
                ..self
            },
        }
    }

    /// After a number of SGR.
    #[tactic(auto, unfolding(crate::specs::Modes::rendered, crate::specs::Modes::switched))]
    fn rendered(self, number: u8) -> Attributes
        ensures { result ≡ rendered self number }
    {
        match number {
            0 => PLAIN,
            1 => self.switched(Attribute::Bold, true),
            4 => self.switched(Attribute::Underline, true),
            5 => self.switched(Attribute::Blink, true),
            7 => self.switched(Attribute::Reverse, true),
            22 => self.switched(Attribute::Bold, false),
            24 => self.switched(Attribute::Underline, false),
            25 => self.switched(Attribute::Blink, false),
            27 => self.switched(Attribute::Reverse, false),
            _ => self,
        }
    }
}

impl TextScreen {
    /// The attributes of what comes.
    #[tactic(auto, unfolding(crate::specs::Modes::looking))]
    pub(crate) fn look(&mut self, attributes: Attributes)
        ensures value { self.new ≡ looking attributes self.old }
        ensures size { SameSize self.old self.new }
    {
        self.cursor.attributes = attributes;
    }

    /// One of them on or off.
    pub(crate) fn switch(&mut self, attribute: Attribute, on: bool)
        ensures value { self.new ≡ looking (switched attribute on self.old.cursor.attributes) self.old }
        ensures size { SameSize self.old self.new }
    {
        self.look(self.cursor.attributes.switched(attribute, on));
    }

    /// The attributes by the numbers of SGR.
    pub(crate) fn render(&mut self, parameters: &Parameters)
        ensures value { self.new ≡ looking (fold rendered self.old.cursor.attributes (given_numbers parameters.now)) self.old }
        ensures size { SameSize self.old self.new }
    {
        let before = self.cursor.attributes;
        let attributes = parameters
            .given_numbers()
            .iter()
            .fold(before, |attributes, number| attributes.rendered(*number));
        self.look(attributes);
    }

    /// Sets or clears the tab stop of the cursor's column.
    #[tactic(auto, unfolding(crate::specs::Modes::with_tab))]
    pub(crate) fn put_tab(&mut self, stop: bool)
        ensures value { self.new ≡ with_tab stop self.old }
        ensures size { SameSize self.old self.new }
    {
        self.tabs[self.cursor.column] = stop;
    }

    /// Clears all tab stops.
    #[tactic(auto, unfolding(crate::specs::Modes::without_tabs))]
    pub(crate) fn clear_tabs(&mut self)
        ensures value { self.new ≡ without_tabs self.old }
        ensures size { SameSize self.old self.new }
    {
        self.tabs = [false; 132];
    }

    /// The bottom of a scrolling region by its parameter.
    fn region_bottom(&self, last: u8) -> usize
        ensures value { result ≡ region_bottom last self.now }
        ensures within { result < length self.now.lines }
    {
        let bottom = self.lines.len() - 1;
        if last == 0 {
            bottom
        } else {
            bottom.min(usize::from(last - 1))
        }
    }

    /// The scrolling region, by its rows counted from 1.
    #[tactic(auto, unfolding(crate::specs::Modes::with_region))]
    pub(crate) fn set_region(&mut self, first: u8, last: u8)
        ensures value { self.new ≡ with_region first last self.old }
        ensures size { SameSize self.old self.new }
    {
        let top = usize::from(first.saturating_sub(1));
        let bottom = self.region_bottom(last);
        if top < bottom {
            self.top = top;
            self.bottom = bottom;
            self.place(0, 0);
        }
    }

    /// Whether rows count from the top of the scrolling region.
    #[tactic(auto, unfolding(crate::specs::Modes::with_origin))]
    fn set_origin(&mut self, on: bool)
        ensures value { self.new ≡ with_origin on self.old }
        ensures size { SameSize self.old self.new }
    {
        self.cursor.is_origin = on;
        self.place(0, 0);
    }

    /// Whether a character after one in the last column begins the next line.
    #[tactic(auto, unfolding(crate::specs::Modes::with_wrap))]
    fn set_wrap(&mut self, on: bool)
        ensures value { self.new ≡ with_wrap on self.old }
        ensures size { SameSize self.old self.new }
    {
        self.wrap = if on { Wrap::Later } else { Wrap::Never };
    }

    /// Whether a character moves those after it to the right.
    #[tactic(auto, unfolding(crate::specs::Modes::with_inserts))]
    pub(crate) fn set_inserts(&mut self, on: bool)
        ensures value { self.new ≡ with_inserts on self.old }
        ensures size { SameSize self.old self.new }
    {
        self.inserts = on;
    }

    /// A mode on or off.
    #[tactic(auto, unfolding(crate::specs::Modes::with_mode))]
    fn set_mode(&mut self, is_private: bool, on: bool, number: u8)
        ensures value { self.new ≡ with_mode is_private on self.old number }
        ensures size { SameSize self.old self.new }
    {
        match (is_private, number) {
            (true, 6) => self.set_origin(on),
            (true, 7) => self.set_wrap(on),
            (false, 4) => self.set_inserts(on),
            _ => {}
        }
    }

    /// Modes on or off.
    #[tactic(auto, unfolding(crate::specs::Modes::with_modes))]
    pub(crate) fn set_modes(&mut self, parameters: &Parameters, on: bool)
        ensures value { self.new ≡ with_modes parameters.now on self.old }
        ensures size { SameSize self.old self.new }
    {
        let numbers = parameters.given_numbers();
        for number in numbers {
            self.set_mode(parameters.is_private, on, *number);
        }
    }

    /// Saves the cursor.
    #[tactic(auto, unfolding(crate::specs::Modes::with_saved))]
    pub(crate) fn save(&mut self)
        ensures value { self.new ≡ with_saved self.old }
        ensures size { SameSize self.old self.new }
    {
        self.saved = self.cursor;
    }

    /// The cursor that was saved.
    #[tactic(auto, unfolding(crate::specs::Modes::with_restored))]
    pub(crate) fn restore(&mut self)
        ensures value { self.new ≡ with_restored self.old }
        ensures size { SameSize self.old self.new }
    {
        self.cursor = self.saved;
    }

    /// A character set as G1 or as G0.
    #[tactic(auto, unfolding(crate::specs::Modes::with_set))]
    pub(crate) fn designate(&mut self, is_g1: bool, set: CharacterSet)
        ensures value { self.new ≡ with_set is_g1 set self.old }
        ensures size { SameSize self.old self.new }
    {
        if is_g1 {
            self.cursor.g1 = set;
        } else {
            self.cursor.g0 = set;
        }
    }

    /// Characters are of G1 or of G0.
    #[tactic(auto, unfolding(crate::specs::Modes::with_shift))]
    pub(crate) fn shift(&mut self, is_g1: bool)
        ensures value { self.new ≡ with_shift is_g1 self.old }
        ensures size { SameSize self.old self.new }
    {
        self.cursor.is_shifted = is_g1;
    }

    /// As when the terminal was turned on.
    #[tactic(auto, unfolding(crate::specs::Modes::switched_on, crate::specs::Edits::rows_erased), using(crate::proofs::RowLemmas::sizes))]
    pub(crate) fn reset(&mut self)
        ensures value { self.new ≡ switched_on self.old }
        ensures size { SameSize self.old self.new }
    {
        self.blank();
        self.cursor = FRESH;
        self.saved = FRESH;
        self.top = 0;
        self.bottom = self.lines.len() - 1;
        self.tabs = fresh_tabs();
        self.wrap = self.terminal.wrap();
        self.inserts = false;
    }
}
