//! What bytes do to a screen.

ghost use Rattle.std.specs.Prelude.{◌≡◌, ◌↔◌, IsTrue};
ghost use Rattle.cpm_screen.specs.Shown.{after_bytes, byte_shown, performed, receipt_of};
ghost use Rattle.cpm_screen.specs.State.{SameSize};

use crate::action::{Action, Receipt, Sequence};
use crate::receipts::{adm3a_receipt, kaypro_receipt, televideo_receipt, vt52_receipt};
use crate::screen::TextScreen;
use crate::terminal::TerminalKind;
use crate::vt100::vt100_receipt;

impl TerminalKind {
    /// What a byte means.
    #[inline]
    #[tactic(auto, unfolding(crate::specs::Shown::receipt_of))]
    fn receipt(self, sequence: Sequence, byte: u8) -> Receipt
        ensures { result ≡ receipt_of self sequence byte }
    {
        match self {
            TerminalKind::Adm3a => adm3a_receipt(sequence, byte),
            TerminalKind::Kaypro => kaypro_receipt(sequence, byte),
            TerminalKind::Televideo => televideo_receipt(sequence, byte),
            TerminalKind::Vt52 => vt52_receipt(sequence, byte),
            TerminalKind::Vt100 => vt100_receipt(sequence, byte),
        }
    }
}

impl TextScreen {
    /// Does what a byte means.
    #[tactic(auto, unfolding(crate::specs::Shown::performed))]
    fn perform(&mut self, action: Action)
        ensures value { self.new ≡ performed action self.old }
        ensures size { SameSize self.old self.new }
    {
        match action {
            Action::Nothing => {}
            Action::Character(byte) => self.show_character(byte),
            Action::Up(count) => self.go_up(count),
            Action::Down(count) => self.go_down(count),
            Action::Left(count) => self.go_left(count),
            Action::Right(count) => self.go_right(count),
            Action::LineStart => self.go_to_line_start(),
            Action::LineFeed => self.feed_line(),
            Action::ReverseLineFeed => self.feed_line_back(),
            Action::NextLine => self.go_to_next_line(),
            Action::Home => self.go_home(),
            Action::Place(row, column) => self.place(usize::from(row), usize::from(column)),
            Action::Address(row, column) => self.address(row, column),
            Action::Tab => self.tab(),
            Action::FixedTab => self.tab_by_eight(),
            Action::SetTab => self.put_tab(true),
            Action::ClearTab => self.put_tab(false),
            Action::ClearTabs => self.clear_tabs(),
            Action::Clear => self.clear(),
            Action::EraseScreen(span) => self.erase_screen(span),
            Action::EraseLine(span) => self.erase_line(span),
            Action::InsertLines(count) => self.insert_lines(count),
            Action::DeleteLines(count) => self.delete_lines(count),
            Action::InsertCharacters(count) => self.insert_characters(count),
            Action::DeleteCharacters(count) => self.delete_characters(count),
            Action::Look(attributes) => self.look(attributes),
            Action::Switch(attribute, on) => self.switch(attribute, on),
            Action::Rendition(parameters) => self.render(&parameters),
            Action::Modes(parameters, on) => self.set_modes(&parameters, on),
            Action::Insertion(on) => self.set_inserts(on),
            Action::Region(first, last) => self.set_region(first, last),
            Action::SaveCursor => self.save(),
            Action::RestoreCursor => self.restore(),
            Action::Designate(is_g1, set) => self.designate(is_g1, set),
            Action::Shift(is_g1) => self.shift(is_g1),
            Action::Reset => self.reset(),
        }
    }

    /// Shows a byte.
    #[inline(always)]
    #[tactic(auto, using(crate::proofs::ShownLemmas::character_is))]
    pub fn show(&mut self, byte: u8)
        ensures value { self.new ≡ byte_shown self.old byte }
        ensures size { SameSize self.old self.new }
    {
        if byte >= 0x20 && byte != 0x7F && self.is_text() {
            self.show_character(byte);
        } else {
            self.show_other(byte);
        }
    }

    /// Whether no sequence is being read.
    #[inline]
    fn is_text(&self) -> bool
        ensures { IsTrue result ↔ (self.now.sequence ≡ Sequence.Text) }
    {
        matches!(self.sequence, Sequence::Text)
    }

    /// Shows a byte that may be a control character or part of a sequence.
    #[inline(never)]
    #[tactic(auto, unfolding(crate::specs::Shown::byte_shown))]
    fn show_other(&mut self, byte: u8)
        ensures value { self.new ≡ byte_shown self.old byte }
        ensures size { SameSize self.old self.new }
    {
        let receipt = self.terminal.receipt(self.sequence, byte);
        self.sequence = receipt.sequence;
        self.perform(receipt.action);
    }

    /// Shows bytes, one after the other.
    pub fn show_all(&mut self, bytes: &[u8])
        ensures value { self.new ≡ after_bytes bytes.now self.old }
        ensures size { SameSize self.old self.new }
    {
        for byte in bytes {
            self.show(*byte);
        }
    }
}
