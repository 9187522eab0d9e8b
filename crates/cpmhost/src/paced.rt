//! Who types at a machine that has a pace.

use crate::tempo::{Tempo, micros};
use cpm_host::{Heard, KeyNeed, Typist};
use std::io;
use std::rt::Clock;

/// Who types as another does, at a machine that is held to its pace where no key is wanted. One that waits for a key is not ahead. Turns are as long as the
/// other has them, so that a key comes after as many steps as without a pace.
#[derive(Drop)]
pub struct PacedTypist<'a, C: Clock, P: Typist + Drop> {
    clock: &'a C,
    typist: P,
    tempo: Tempo,
}

impl<'a, C: Clock, P: Typist + Drop> PacedTypist<'a, C, P> {
    /// One with a pace, or with none: then it is as the other.
    pub fn new(clock: &'a C, typist: P, pace: Option<u64>) -> PacedTypist<'a, C, P> {
        PacedTypist {
            clock,
            typist,
            tempo: Tempo::new(pace),
        }
    }

    /// The time, where there is a pace.
    fn time(&self) -> u64 {
        if self.tempo.is_kept() {
            micros(self.clock)
        } else {
            0
        }
    }
}

impl<C: Clock, P: Typist + Drop> Typist for PacedTypist<'_, C, P> {
    // All that is known is known of the other.
    ghost typing = { λ paced. P.typing paced.typist };

    fn is_patient(&self) -> bool {
        self.typist.is_patient()
    }

    fn most_steps(&self) -> u64 {
        self.typist.most_steps()
    }

    fn look_in(&mut self, count: u64) {
        self.tempo.hold(self.clock, count);
        self.typist.look_in(count);
    }

    fn has_broken_in(&self) -> bool {
        self.typist.has_broken_in()
    }

    fn hear(&mut self, need: KeyNeed, count: u64) -> io::Result<Heard> {
        if !need.wants_key() {
            self.tempo.hold(self.clock, count);
        }
        let asked = self.time();
        let heard = self.typist.hear(need, count);
        let waited = self.time().saturating_sub(asked);
        self.tempo.leave_out(waited);
        heard
    }
}
