//! A screen as the bytes of a file.

ghost use Rattle.std.specs.Prelude.{◌≡◌, ◌≤◌, ◌++◌, ◌↔◌, IsTrue, IfOk, OnOk, length, map, take};
ghost use Rattle.cpm_screen.specs.Ansi.{is_plain_look};
ghost use Rattle.cpm_screen.specs.Pictures.{IsPicture, cells_page, escaped, form_named, page_head, row_text, screen_page, screen_text};
ghost use Rattle.cpm_screen.specs.Pictures.{seen_character, span_begun, span_change, span_ended, without_end_spaces, word_if};

use crate::cell::{Attributes, PLAIN, ScreenCell};
use crate::painter::same_look;
use crate::repainting::paint_anew;
use crate::screen::TextScreen;
use crate::seeing::seen;
use std::alloc::{AllocError, Global};

/// How a screen is written to a file.
#[derive(Clone, Copy, Debug, PartialEq, Eq)]
pub enum ScreenForm {
    /// As lines of text, without the spaces at their ends.
    Text,
    /// As bytes that show it on an ANSI terminal.
    Painting,
    /// As a page for a browser.
    Page,
}

impl ScreenForm {
    /// The form of a file by its name: one that ends in `.ans` or `.html`, and else text.
    pub fn of_name(name: &str) -> ScreenForm
        ensures { result ≡ form_named name.now }
    {
        let bytes = name.as_bytes();
        if bytes.ends_with(b".ans") {
            ScreenForm::Painting
        } else if bytes.ends_with(b".html") {
            ScreenForm::Page
        } else {
            ScreenForm::Text
        }
    }
}

/// Whether a person sees a space.
fn is_space(cell: ScreenCell) -> bool
    ensures { IsTrue result ↔ (seen_character cell ≡ 0x20) }
{
    seen(cell).character == b' '
}

/// The column from which on a row has only spaces.
fn characters_end(cells: &[ScreenCell]) -> usize
    ensures within { result ≤ length cells.now }
    ensures line { without_end_spaces (map seen_character cells.now) ≡ take result (map seen_character cells.now) }
{
    let mut end = cells.len();
    while end > 0 {
        if !is_space(cells[end - 1]) {
            return end;
        }
        end -= 1;
    }
    end
}

/// Appends a row as a line of text.
fn append_line(out: &mut Vec<u8>, cells: &[ScreenCell]) -> Result<(), AllocError>
    ensures { OnOk result (out.new.items ≡ out.old.items ++ row_text cells.now) }
{
    let end = characters_end(cells);
    for column in 0..end {
        out.push(seen(cells[column]).character)?;
    }
    out.push(b'\n')?;
    Ok(())
}

/// The screen as text.
fn text_of(alloc: Global, screen: &TextScreen) -> Result<Vec<u8>, AllocError>
    ensures { IfOk result (λ text. text.items ≡ screen_text screen.now) }
{
    let mut text = Vec::new(alloc);
    for row in 0..screen.rows() {
        append_line(&mut text, screen.line(row))?;
    }
    Ok(text)
}

/// What stands for a character on a page; nothing for those that stand for themselves.
#[tactic(auto, unfolding(crate::specs::Pictures::escaped))]
fn append_escaped(out: &mut Vec<u8>, character: u8) -> Result<(), AllocError>
    ensures { OnOk result (out.new.items ≡ out.old.items ++ escaped character) }
{
    match character {
        b'&' => out.extend_from_slice(b"&amp;"),
        b'<' => out.extend_from_slice(b"&lt;"),
        b'>' => out.extend_from_slice(b"&gt;"),
        b'"' => out.extend_from_slice(b"&quot;"),
        _ => out.extend_from_slice(&[character]),
    }
}

/// Appends a word, if it counts.
fn append_if(out: &mut Vec<u8>, on: bool, word: &[u8]) -> Result<(), AllocError>
    ensures { OnOk result (out.new.items ≡ out.old.items ++ word_if on word.now) }
{
    if on {
        out.extend_from_slice(word)
    } else {
        Ok(())
    }
}

/// Whether there is no attribute.
fn is_plain(look: Attributes) -> bool
    ensures { result ≡ is_plain_look look }
{
    !(look.bold || look.underline || look.blink || look.reverse)
}

/// Ends the span of attributes, if they have one.
#[tactic(auto, unfolding(crate::specs::Pictures::span_ended))]
fn end_span(out: &mut Vec<u8>, look: Attributes) -> Result<(), AllocError>
    ensures { OnOk result (out.new.items ≡ out.old.items ++ span_ended look) }
{
    append_if(out, !is_plain(look), b"</span>")
}

/// Begins the span of attributes, if they have one.
#[tactic(auto, unfolding(crate::specs::Pictures::span_begun))]
fn begin_span(out: &mut Vec<u8>, look: Attributes) -> Result<(), AllocError>
    ensures { OnOk result (out.new.items ≡ out.old.items ++ span_begun look) }
{
    if is_plain(look) {
        return Ok(());
    }
    out.extend_from_slice(b"<span class=\"")?;
    append_if(out, look.bold, b"bold ")?;
    append_if(out, look.underline, b"underline ")?;
    append_if(out, look.blink, b"blink ")?;
    append_if(out, look.reverse, b"reverse ")?;
    out.extend_from_slice(b"\">")
}

/// Goes from one span to another.
#[tactic(auto, unfolding(crate::specs::Pictures::span_change))]
fn change_span(out: &mut Vec<u8>, from: Attributes, to: Attributes) -> Result<(), AllocError>
    ensures { OnOk result (out.new.items ≡ out.old.items ++ span_change from to) }
{
    if same_look(from, to) {
        return Ok(());
    }
    end_span(out, from)?;
    begin_span(out, to)
}

/// Appends a row as a line of a page.
fn append_page_line(out: &mut Vec<u8>, cells: &[ScreenCell]) -> Result<(), AllocError>
    ensures { OnOk result (out.new.items ≡ out.old.items ++ cells_page PLAIN cells.now) }
{
    let mut look = PLAIN;
    for column in 0..cells.len() {
        let cell = seen(cells[column]);
        change_span(out, look, cell.attributes)?;
        append_escaped(out, cell.character)?;
        look = cell.attributes;
    }
    end_span(out, look)?;
    out.push(b'\n')?;
    Ok(())
}

/// Appends what begins a page.
fn append_head(out: &mut Vec<u8>) -> Result<(), AllocError>
    ensures { OnOk result (out.new.items ≡ out.old.items ++ page_head) }
{
    out.extend_from_slice(
        b"<!DOCTYPE html>\n<html lang=\"en\"><head><meta charset=\"utf-8\"><title>screen</title><style>\nbody{background:#fff}\n",
    )?;
    out.extend_from_slice(
        b"pre{display:inline-block;padding:1em;background:#111;color:#ddd;font:16px/1.25 monospace}\n",
    )?;
    out.extend_from_slice(
        b".bold{font-weight:bold;color:#fff}\n.underline{text-decoration:underline}\n.reverse{background:#ddd;color:#111}\n",
    )?;
    out.extend_from_slice(
        b".blink{animation:blink 1s step-end infinite}\n@keyframes blink{50%{opacity:.4}}\n",
    )?;
    out.extend_from_slice(
        b"@media(prefers-reduced-motion:reduce){.blink{animation:none}}\n</style></head><body><pre>\n",
    )?;
    Ok(())
}

/// The screen as a page.
#[tactic(auto, unfolding(crate::specs::Pictures::page_foot))]
fn page_of(alloc: Global, screen: &TextScreen) -> Result<Vec<u8>, AllocError>
    ensures { IfOk result (λ page. page.items ≡ screen_page screen.now) }
{
    let mut page = Vec::new(alloc);
    append_head(&mut page)?;
    for row in 0..screen.rows() {
        append_page_line(&mut page, screen.line(row))?;
    }
    page.extend_from_slice(b"</pre></body></html>\n")?;
    Ok(page)
}

/// The bytes of a file that has the screen in this form; refused if out of memory.
pub fn picture_of(
    alloc: Global,
    form: ScreenForm,
    screen: &TextScreen,
) -> Result<Vec<u8>, AllocError>
    ensures { IfOk result (λ bytes. IsPicture form screen.now bytes.items) }
{
    match form {
        ScreenForm::Text => text_of(alloc, screen),
        ScreenForm::Painting => paint_anew(alloc, screen),
        ScreenForm::Page => page_of(alloc, screen),
    }
}
