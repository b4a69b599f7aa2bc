//! What prevents a configuration from being sent.
ghost use Rattle.js_call_consumers.specs.Laws.{InstantsAloneAreRefused};

/// States that a configuration can be written as JSON if its instants are in the years 0 to 9999,
/// and so can the request for it. Nothing else in a configuration prevents a call from being made.
/// This is a theorem; calling it does nothing.
pub fn instants_alone_are_refused()
    ensures { InstantsAloneAreRefused }
{}
