//! What a step of a poll comes to.

use crate::published::Published;

/// The result of a step.
pub(crate) enum StepResult {
    /// The step was made.
    Made,
    /// Nothing can be done now.
    Stays,
    /// An outcome is known.
    Over(Published),
    /// Memory ran out.
    NoMemory,
}
