// What a living checker was created with.

ghost use Rattle.std.specs.Prelude.{◌≡◌};
ghost use Rattle.network.specs.Answers.{entry_values};

use crate::NetworkState;

// The values at entry of the living checker at a place of the row.
pub(crate) fn entry_values(state: NetworkState, i: usize) -> [u32; NetworkState::VALUES]
    ensures { result ≡ entry_values state i }
{
    let living = usize::from(state.living);
    if i < living.min(NetworkState::CHECKERS) {
        let number = state.checkers[i].number;
        let opened = usize::from(state.opened);
        if let Some(call) = state.calls.iter().take(opened).find(|c| c.number == number) {
            return call.kept;
        }
    }
    [0; NetworkState::VALUES]
}
