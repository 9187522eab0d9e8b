//! Who attends the play of a script: one who is told how far it has come, or one who types behind it and may break in.

ghost use Rattle.std.specs.Prelude.{◌≡◌, ◌<◌};
ghost use Rattle.cpm_play.specs.Typist.{HasAttended, TypingState, is_over, nobody};

use crate::progress::{Progress, Watcher};
use crate::typist::Typist;

/// Who attends the play of a script.
pub(crate) trait Attendant {
    // What is known of one who types behind it. Of one who doesn't, that is what is known of nobody.
    ghost attending: { Self → TypingState };

    /// How many steps a turn has at most, after which it is told.
    fn most_turn(&self) -> u64
        ensures { 0 < result };

    /// Whether the play stops here, since it has broken in.
    fn is_over(&self) -> bool
        ensures { result ≡ is_over (attending self.now) };

    /// Tells it how far the machine has come.
    fn attend(&mut self, progress: Progress)
        ensures { HasAttended (attending self.old) (attending self.new) };
}

/// One who types behind a script may break in.
impl<T: Typist> Attendant for T {
    ghost attending = { λ typist. T.typing typist };

    fn most_turn(&self) -> u64 {
        self.most_steps()
    }

    fn is_over(&self) -> bool {
        self.has_broken_in()
    }

    fn attend(&mut self, progress: Progress) {
        self.look_in(progress.done);
    }
}

/// A watcher of a script behind which nobody types.
#[derive(Drop)]
pub(crate) struct Watched<'a, T: Watcher> {
    pub(crate) watcher: &'a mut T,
}

impl<T: Watcher> Attendant for Watched<'_, T> {
    ghost attending = { λ _. nobody };

    fn most_turn(&self) -> u64 {
        self.watcher.most_steps()
    }

    fn is_over(&self) -> bool {
        false
    }

    fn attend(&mut self, progress: Progress) {
        self.watcher.see(progress);
    }
}
