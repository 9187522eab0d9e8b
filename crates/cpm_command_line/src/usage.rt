//! The pages of the help, and the words that ask for one or for the version.
ghost use Rattle.std.specs.Prelude.{◌≡◌, map};
ghost use Rattle.cpm_command_line.specs.HelpWords.{IsNaming, asks_version, begins_with_help, command_pages, disk_pages};
ghost use Rattle.cpm_command_line.specs.HelpWords.{ended_by, is_help_flag, is_help_line, named, named_behind_disk, named_by, named_of_disk};
ghost use Rattle.cpm_command_line.specs.HelpWords.{page_in, page_of_disk_words, page_of_line, topic_pages, unless_flag};
ghost use Rattle.cpm_command_line.specs.HelpWords.{unknown_name};

use crate::fault::{UsageFault, UsageRefusal};
use cpm_shown::shown;

/// What `cpmhost --version` prints.
pub const VERSION: &str = "cpmhost 0.6.0\n";

/// A page of the help.
#[derive(Clone, Copy, Debug)]
pub enum Page {
    /// What there is.
    Overview,
    /// The page of `com`.
    Com,
    /// The page of `boot`.
    Boot,
    /// The page of `asm`.
    Asm,
    /// The page of `list`.
    List,
    /// The page of `check`.
    Check,
    /// The page of `run`.
    Run,
    /// The page of `debug`.
    Debug,
    /// The page of `serve`.
    Serve,
    /// The page of `saved`.
    Saved,
    /// The page of `disk`.
    Disk,
    /// The page of `disk new`.
    DiskNew,
    /// The page of `disk list`.
    DiskList,
    /// The page of `disk put`.
    DiskPut,
    /// The page of `disk get`.
    DiskGet,
    /// The page of `disk remove`.
    DiskRemove,
    /// The page of `disk rename`.
    DiskRename,
    /// The exit statuses.
    Status,
}

/// Whether the word is `-h` or `--help`.
fn is_flag(word: &str) -> bool
    ensures { result ≡ is_help_flag word.now }
{
    word == "-h" || word == "--help"
}

/// The page of the command of this name, but for `disk`.
fn command_page(word: &str) -> Option<Page>
    ensures { result ≡ page_in command_pages word.now }
{
    match word {
        "com" => Some(Page::Com),
        "boot" => Some(Page::Boot),
        "asm" => Some(Page::Asm),
        "list" => Some(Page::List),
        "check" => Some(Page::Check),
        "run" => Some(Page::Run),
        "debug" => Some(Page::Debug),
        "serve" => Some(Page::Serve),
        "saved" => Some(Page::Saved),
        _ => None,
    }
}

/// The page of the command of `disk` of this name.
fn disk_command_page(word: &str) -> Option<Page>
    ensures { result ≡ page_in disk_pages word.now }
{
    match word {
        "new" => Some(Page::DiskNew),
        "list" => Some(Page::DiskList),
        "put" => Some(Page::DiskPut),
        "get" => Some(Page::DiskGet),
        "remove" => Some(Page::DiskRemove),
        "rename" => Some(Page::DiskRename),
        _ => None,
    }
}

/// The page that a word behind `help` names, but for `disk`.
fn topic_page(word: &str) -> Option<Page>
    ensures { result ≡ page_in topic_pages word.now }
{
    match word {
        "help" => Some(Page::Overview),
        "status" => Some(Page::Status),
        _ => command_page(word),
    }
}

/// The page of names that are read, where a word follows that is none: a flag for help, or one that names no
/// command.
fn page_before_name(page: Page, word: &str) -> Result<Page, UsageRefusal>
    ensures { IsNaming (unless_flag word.now page (unknown_name word.now page)) result }
{
    if is_flag(word) {
        Ok(page)
    } else {
        let fault = UsageFault::UnknownCommand(shown(word));
        Err(UsageRefusal { fault, page })
    }
}

/// The page of names behind which these words stand: none, or a flag for help.
fn page_before_end(page: Page, rest: &[&str]) -> Result<Page, UsageRefusal>
    ensures { IsNaming (ended_by page (map (λ w. w.now) rest.now)) result }
{
    match rest {
        [word, ..] => {
            if is_flag(word) {
                Ok(page)
            } else {
                let fault = UsageFault::UnexpectedArgument(shown(word));
                Err(UsageRefusal { fault, page })
            }
        }
        [] => Ok(page),
    }
}

/// The page that names after `help disk` or `disk help` ask for: that of `disk` where there are none.
fn disk_page_named(names: &[&str]) -> Result<Page, UsageRefusal>
    ensures { IsNaming (named_of_disk (map (λ w. w.now) names.now)) result }
{
    match names {
        [first, rest @ ..] => match disk_command_page(first) {
            Some(page) => page_before_end(page, rest),
            None => page_before_name(Page::Disk, first),
        },
        [] => Ok(Page::Disk),
    }
}

/// The page that names after `help` ask for: the overview where there are none.
fn page_named(names: &[&str]) -> Result<Page, UsageRefusal>
    ensures { IsNaming (named (map (λ w. w.now) names.now)) result }
{
    match names {
        [first, rest @ ..] => {
            if *first == "disk" {
                disk_page_named(rest)
            } else {
                match topic_page(first) {
                    Some(page) => page_before_end(page, rest),
                    None => page_before_name(Page::Overview, first),
                }
            }
        }
        [] => Ok(Page::Overview),
    }
}

/// Whether the first word is `help`.
fn is_help_first(words: &[&str]) -> bool
    ensures { result ≡ begins_with_help (map (λ w. w.now) words.now) }
{
    match words {
        [first, ..] => *first == "help",
        [] => false,
    }
}

/// Whether the line, whose first word is the program's own name, is a question behind `help` or `disk help`.
pub(crate) fn is_help_line(words: &[&str]) -> bool
    ensures { result ≡ is_help_line (map (λ w. w.now) words.now) }
{
    match words {
        [_, first, rest @ ..] => *first == "help" || (*first == "disk" && is_help_first(rest)),
        _ => false,
    }
}

/// The page that the names behind the first of these words ask for, which is `help` behind `disk`.
fn disk_page_behind(words: &[&str]) -> Result<Page, UsageRefusal>
    ensures { IsNaming (named_behind_disk (map (λ w. w.now) words.now)) result }
{
    match words {
        [_, names @ ..] => disk_page_named(names),
        [] => Ok(Page::Disk),
    }
}

/// The page that such a line asks for, or what is wrong with it.
pub(crate) fn page_of_help_line(words: &[&str]) -> Result<Page, UsageRefusal>
    ensures { IsNaming (named_by (map (λ w. w.now) words.now)) result }
{
    match words {
        [_, first, rest @ ..] => {
            if *first == "help" {
                page_named(rest)
            } else {
                disk_page_behind(rest)
            }
        }
        _ => Ok(Page::Overview),
    }
}

/// The page of the command of `disk` that the words begin with: that of `disk` where they begin with none.
fn page_of_disk_words(words: &[&str]) -> Page
    ensures { result ≡ page_of_disk_words (map (λ w. w.now) words.now) }
{
    match words {
        [first, ..] => disk_command_page(first).unwrap_or(Page::Disk),
        [] => Page::Disk,
    }
}

/// The page of the command that the line names, whose first word is the program's own name: the overview
/// where it names none.
pub(crate) fn page_of_line(words: &[&str]) -> Page
    ensures { result ≡ page_of_line (map (λ w. w.now) words.now) }
{
    match words {
        [_, first, rest @ ..] => {
            if *first == "disk" {
                page_of_disk_words(rest)
            } else {
                command_page(first).unwrap_or(Page::Overview)
            }
        }
        _ => Page::Overview,
    }
}

/// Whether the words ask for the version: after the program's own name stands `--version` or `-V` alone.
pub fn asks_version(words: &[&str]) -> bool
    ensures { result ≡ asks_version (map (λ w. w.now) words.now) }
{
    match words {
        [_, word] => *word == "--version" || *word == "-V",
        _ => false,
    }
}
