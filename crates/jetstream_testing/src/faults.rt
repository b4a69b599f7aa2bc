//! Faults on the way from the server to a reader, drawn from a seed.

ghost use Rattle.std.specs.Prelude.{◌≡◌, false};
ghost use Rattle.jetstream_testing.specs.declared.faults.Fate.TheVariants as fate;

use js_base::Nanos;
use rand_core::utils::NextWord;
use rand_pcg::Pcg32;

/// One in how many: `OneIn(10)` is one in ten on average, `OneIn(1)` each, and `OneIn(0)` none.
#[derive(Clone, Copy, Debug, PartialEq, Eq)]
pub struct OneIn(pub u32);

/// What happens to the messages of streams, and to heartbeats, on their way from the server to a
/// reader.
///
/// The same seed gives the same faults at the same places, if the program does the same. All else
/// arrives at once: answers to requests, acknowledgements of publishes, and other statuses.
#[derive(Clone, Copy, Debug, PartialEq, Eq)]
pub struct Faults {
    /// The seed of the random numbers.
    pub seed: u64,
    /// How many deliveries are lost.
    pub lose: OneIn,
    /// How many of the others arrive twice.
    pub repeat: OneIn,
    /// How many of the others arrive late, after messages that were sent later.
    pub delay: OneIn,
    /// How late these are, in nanoseconds.
    pub delay_by: Nanos,
}

impl Faults {
    /// Returns no faults: each delivery arrives once and at once.
    pub fn none() -> Faults {
        Faults {
            seed: 0,
            lose: OneIn(0),
            repeat: OneIn(0),
            delay: OneIn(0),
            delay_by: 0,
        }
    }
}

// What happens to one delivery.
#[derive(Clone, Copy)]
pub(crate) enum Fate {
    Arrives,
    Lost,
    Twice,
    Late(Nanos),
}

// The faults, and the state of their random numbers.
#[derive(Drop)]
pub(crate) struct FaultSource {
    faults: Faults,
    rng: Pcg32,
}

impl FaultSource {
    pub(crate) fn new(faults: Faults) -> FaultSource {
        FaultSource {
            faults,
            rng: Pcg32::new(faults.seed, 1),
        }
    }

    fn draws(&mut self, share: OneIn) -> bool
        ensures none { share.0 ≡ 0 → result ≡ false }
        ensures kept { self.new.faults ≡ self.old.faults }
    {
        share.0 != 0 && self.rng.next_word() % share.0 == 0
    }

    // Draws what happens to the next delivery.
    pub(crate) fn next_fate(&mut self) -> Fate
        ensures none { self.old.faults.lose.0 ≡ 0 → self.old.faults.repeat.0 ≡ 0 → self.old.faults.delay.0 ≡ 0 → result ≡ fate.Arrives }
        ensures kept { self.new.faults ≡ self.old.faults }
    {
        if self.draws(self.faults.lose) {
            Fate::Lost
        } else if self.draws(self.faults.repeat) {
            Fate::Twice
        } else if self.draws(self.faults.delay) {
            Fate::Late(self.faults.delay_by)
        } else {
            Fate::Arrives
        }
    }
}
