//! Whether it pays for a judge to look up known steps.

/// How many look-ups in vain there may be before it is decided. To look up a step that is not found takes half as long as to take it by its names.
const TRIAL: u32 = 8_192;

/// For how many plans no step is looked up if it does not pay: the first time, and at most. Each time there are twice as many as before.
const FIRST_REST: u32 = 16;

const LONGEST_REST: u32 = 4_096;

/// How often a step was looked up and found, or not found.
#[derive(Clone, Copy)]
pub(crate) struct MemoPolicy {
    found: u32,
    missed: u32,
    rested: u32,
    rest: u32,
}

impl MemoPolicy {
    pub(crate) fn new() -> MemoPolicy {
        MemoPolicy {
            found: 0,
            missed: 0,
            rested: 0,
            rest: FIRST_REST,
        }
    }

    /// Whether steps are to be looked up: not if most of them were not found so far.
    pub(crate) fn asks(&self) -> bool {
        self.missed < TRIAL || self.found >= self.missed
    }

    /// Notes that a step was looked up, and whether it was found.
    pub(crate) fn note(&mut self, is_found: bool) {
        if is_found {
            self.found = self.found.saturating_add(1);
        } else {
            self.missed = self.missed.saturating_add(1);
        }
    }

    /// Notes that a plan begins. After some plans without look-ups, another trial begins.
    pub(crate) fn begin(&mut self) {
        if self.asks() {
            self.rested = 0;
        } else if self.rested < self.rest {
            self.rested += 1;
        } else {
            *self = MemoPolicy {
                rest: self.rest.saturating_mul(2).min(LONGEST_REST),
                ..MemoPolicy::new()
            };
        }
    }
}
