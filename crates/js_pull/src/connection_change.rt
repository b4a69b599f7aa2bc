//! Which change of the connection a look shows.
ghost use Rattle.std.specs.Prelude.{◌≡◌};
ghost use Rattle.js_link.specs.Wish.{watch_met};
ghost use Rattle.js_pull.specs.Poll.{change_met, same_state};

use js_base::State;
use js_link::Watch;

/// Returns whether two connection states are the same.
pub fn same_state(last: State, state: State) -> bool
    ensures { result ≡ same_state last state }
{
    match (last, state) {
        (State::Pending, State::Pending) => true,
        (State::Connected, State::Connected) => true,
        (State::Disconnected, State::Disconnected) => true,
        _ => false,
    }
}

// A change of the connection, where one is shown.
pub(crate) fn change_of(watch: Watch, last: State) -> Option<State>
    ensures { result ≡ change_met last (watch_met watch) }
{
    match watch {
        Watch::State(state) => {
            if same_state(last, state) {
                None
            } else {
                Some(state)
            }
        }
        Watch::Ended => None,
    }
}
