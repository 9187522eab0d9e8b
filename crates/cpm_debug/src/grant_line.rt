//! What became of a grant, as text.
ghost use Rattle.std.specs.Prelude.{◌≡◌, ◌≤◌, length};
ghost use Rattle.cpm_debug.specs.Dialog.{grant_line, why_text};

use arrayvec::ArrayString;
use cpm_machine::{Granted, Why};
use itoa::Buffer;

#[tactic(auto, unfolding(crate::specs::Dialog::why_text))]
fn why_text(why: Why) -> &'static str
    ensures text { result.now ≡ why_text why }
    ensures short { length result.now ≤ 7 }
{
    match why {
        Why::All => "All",
        Why::Stopped => "Stopped",
        Why::Break => "Break",
        Why::Blocked => "Blocked",
    }
}

/// How many steps were executed, and why no more.
#[tactic(auto, unfolding(crate::specs::Dialog::grant_line))]
pub(crate) fn grant_line(granted: Granted) -> ArrayString<32>
    ensures { result.bytes ≡ grant_line granted }
{
    let mut line: ArrayString<32> = ArrayString::new();
    let mut buffer = Buffer::new();
    line.push_str(buffer.format(granted.executed));
    line.push_str(" ");
    line.push_str(why_text(granted.why));
    line
}
