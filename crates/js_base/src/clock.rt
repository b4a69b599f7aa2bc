//! Moments, lengths of time and waits, in whole nanoseconds.

ghost use Rattle.std.specs.Prelude.{◌≡◌, ◌<◌, ◌^◌, ◌||◌, ℕ};
ghost use Rattle.js_base.specs.Clock.{has_come, is_any_due, is_due, is_over};

/// A length of time, in whole nanoseconds.
pub type Nanos = u64;

/// A moment, in whole nanoseconds since an origin that you choose.
pub type Moment = u64;

/// Returns whether a wait of `wait` nanoseconds that began at `set` is over at `now`.
/// A wait that would end after `u64::MAX` is never over.
pub fn due(now: Moment, set: Moment, wait: Nanos) -> bool
    ensures { result ≡ is_over set wait now }
{
    match set.checked_add(wait) {
        Some(end) => end <= now,
        None => false,
    }
}

/// Returns the first moment at which a wait that began at `set` is over.
/// The wait lasts `wait` nanoseconds. Returns `None` if it would end after `u64::MAX`.
pub fn end_of(set: Moment, wait: Nanos) -> Option<Moment>
    ensures { (now : ℕ) → now < 2 ^ 64 → has_come result now ≡ is_over set wait now }
{
    set.checked_add(wait)
}

/// Returns the earlier of two moments.
/// If only one is given, returns that one. Returns `None` if neither is given.
pub fn earlier(first: Option<Moment>, second: Option<Moment>) -> Option<Moment>
    ensures { (now : ℕ) → has_come result now ≡ (has_come first now || has_come second now) }
{
    match first {
        None => second,
        Some(moment) => match second {
            None => Some(moment),
            Some(other) => Some(moment.min(other)),
        },
    }
}

/// A wait that began at a known moment.
#[derive(Clone, Copy, Debug, PartialEq, Eq)]
pub struct Timer {
    /// The moment at which the wait began.
    pub set: Moment,
    /// The length of the wait, in nanoseconds.
    /// A wait that would end after `u64::MAX` is never over.
    pub wait: Nanos,
}

impl Timer {
    /// Returns whether the wait is over at `now`.
    pub fn is_due(&self, now: Moment) -> bool
        ensures { result ≡ is_due self.now now }
    {
        due(now, self.set, self.wait)
    }

    /// Returns the first moment at which the wait is over.
    /// Returns `None` if the wait would end after `u64::MAX`.
    pub fn ends_at(&self) -> Option<Moment>
        ensures { (now : ℕ) → now < 2 ^ 64 → has_come result now ≡ is_due self.now now }
    {
        end_of(self.set, self.wait)
    }
}

/// Returns whether a wait is set and is over at `now`.
pub fn is_any_due(timer: &Option<Timer>, now: Moment) -> bool
    ensures { result ≡ is_any_due timer.now now }
{
    match timer {
        None => false,
        Some(timer) => timer.is_due(now),
    }
}

/// Returns the first moment at which the wait is over.
/// Returns `None` if no wait is set or if it would end after `u64::MAX`.
pub fn any_ends_at(timer: &Option<Timer>) -> Option<Moment>
    ensures { (now : ℕ) → now < 2 ^ 64 → has_come result now ≡ is_any_due timer.now now }
{
    match timer {
        None => None,
        Some(timer) => timer.ends_at(),
    }
}
