//! Of the console: the law that erases as much as was typed, and how many keys may be pending.

use crate::same::same;
use cpm_console::{KEYS, erased_as_typed};

#[test]
fn a_law_of_lines_and_the_number_of_keys(rt: HostRuntime) {
    erased_as_typed();
    same(&rt, KEYS, 4096);
}
