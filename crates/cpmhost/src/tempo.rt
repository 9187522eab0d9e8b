//! How fast a machine is that is played, and the time by which that is told.

ghost use Rattle.std.specs.Prelude.{◌<◌};

use std::rt::Clock;
use std::thread;
use std::time::Duration;

/// How many milliseconds a turn of a machine with a pace has at most.
const TURN: u64 = 10;

/// How many microseconds it sleeps at most at a time.
const MOST_SLEEP: u64 = 20_000;

/// How many microseconds a machine may make up for that it had no time.
const MOST_CREDIT: u64 = 100_000;

/// How long a turn of a machine takes at most where keys are looked for between turns, how long one that is to be shorter takes then, and how short one is
/// behind which others are longer, in microseconds.
const LONG_TURN: u64 = 4_000;

const GOOD_TURN: u64 = 3_000;

const SHORT_TURN: u64 = 2_000;

/// How many steps such a turn has at most.
const MOST_STEPS: u64 = 100_000;

/// The time of a clock that doesn't go back, in microseconds.
pub fn micros(clock: &impl Clock) -> u64 {
    match clock.monotonic() {
        Ok(time) => u64::try_from(time.as_micros()).unwrap_or(u64::MAX),
        Err(_) => 0,
    }
}

/// Sleeps for so many microseconds, and says what the time is then.
pub fn sleep(clock: &impl Clock, time: u64) -> u64 {
    thread::sleep(clock, Duration::from_micros(time));
    micros(clock)
}

/// The pace of a machine, or none: so many thousand steps in a second, and so many in a millisecond.
#[derive(Clone, Copy, Debug, Drop)]
pub struct Tempo {
    steps: Option<u64>,
    /// From which time and count on it is reckoned.
    from: Option<(u64, u64)>,
}

impl Tempo {
    /// A pace that begins when the machine does.
    pub fn new(steps: Option<u64>) -> Tempo {
        Tempo { steps, from: None }
    }

    /// Whether there is one.
    pub fn is_kept(&self) -> bool {
        self.steps.is_some()
    }

    /// How many steps a turn has at most.
    pub fn most_steps(&self) -> u64
        ensures { 0 < result }
    {
        match self.steps {
            Some(steps) => steps.saturating_mul(TURN).max(1),
            None => u64::MAX,
        }
    }

    /// Sleeps until a machine that has executed so many steps is not ahead of its pace. Without a pace not even the clock is asked.
    pub fn hold(&mut self, clock: &impl Clock, count: u64) {
        if !self.is_kept() {
            return;
        }
        let now = micros(clock);
        let ahead = self.ahead(now, count);
        if ahead > 0 {
            let _ = sleep(clock, ahead);
        }
    }

    /// Sleeps a little where a machine that has executed so many steps by now is ahead of its pace, and says what the time is then.
    pub fn keep(&mut self, clock: &impl Clock, now: u64, count: u64) -> u64 {
        match self.ahead(now, count) {
            0 => now,
            ahead => sleep(clock, ahead.min(MOST_SLEEP)),
        }
    }

    /// How many microseconds a machine is ahead that has executed so many steps by now.
    fn ahead(&mut self, now: u64, count: u64) -> u64 {
        let Some(steps) = self.steps else {
            return 0;
        };
        let (from, first) = self.from.unwrap_or((now, count));
        let due = u128::from(count.saturating_sub(first)) * 1000 / u128::from(steps.max(1));
        let due = u64::try_from(due).unwrap_or(u64::MAX);
        let passed = now.saturating_sub(from);
        let credit = passed.saturating_sub(due);
        let lost = credit.saturating_sub(MOST_CREDIT);
        self.from = Some((from.saturating_add(lost), first));
        due.saturating_sub(passed)
    }

    /// Leaves out a time in which the machine waited.
    pub fn leave_out(&mut self, time: u64) {
        if let Some((from, first)) = self.from {
            self.from = Some((from.saturating_add(time), first));
        }
    }
}

/// How many steps a turn of a machine has, so that keys are looked for every few milliseconds of the clock, whatever its steps take.
#[derive(Clone, Copy, Debug, Drop)]
pub struct TurnLength {
    steps: u64,
    /// When the last turn began, and at which count.
    began: u64,
    count: u64,
}

impl TurnLength {
    /// That of the first turn.
    pub fn new() -> TurnLength {
        TurnLength {
            steps: MOST_STEPS,
            began: 0,
            count: 0,
        }
    }

    /// How many steps a turn has at most.
    pub fn most_steps(&self) -> u64
        ensures { 0 < result }
    {
        self.steps.max(1)
    }

    /// Sees that a machine has executed so many steps by now. Behind a turn that took long others are shorter, and behind a whole one that took little longer.
    pub fn see(&mut self, now: u64, count: u64) {
        let executed = count.saturating_sub(self.count);
        let took = now.saturating_sub(self.began);
        if took > LONG_TURN {
            self.steps = executed.saturating_mul(GOOD_TURN) / took.max(1);
        } else if took < SHORT_TURN && executed >= self.steps {
            self.steps = self.steps.saturating_mul(2).clamp(1, MOST_STEPS);
        }
        self.count = count;
    }

    /// Sees that the next turn begins now.
    pub fn begin(&mut self, now: u64) {
        self.began = now;
    }
}
