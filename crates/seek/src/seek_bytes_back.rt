// A search through a run of bytes from right to left: forwards to their end, and back again.
ghost use Rattle.std.specs.Prelude.{◌≡◌};
ghost use Rattle.search.specs.Backwards.{forwards, back_stop};

use crate::backward::Backward;
use crate::stops::ran_through;
use search::stop::Stop;

// The forward state behind the bytes: `grammar::walk` of a search. Nothing here calls it; it is for those who have bytes and no readings.
pub fn ahead_of_bytes<S: Backward>(search: &S, state: S::Fore, bytes: &[u8]) -> S::Fore
    ensures { result ≡ forwards (S.fore search.now) state bytes.now }
{
    bytes
        .iter()
        .fold(state, |behind, byte| search.ahead(behind, *byte))
}

// Where the search comes to in the bytes, from behind them.
pub fn seek_bytes_back<S: Backward>(
    search: &S,
    state: S::Fore,
    bytes: &[u8],
    at: S::At,
) -> Stop<S::At>
    ensures { result ≡ back_stop (S.fore search.now) (S.back search.now) state bytes.now at }
{
    let [byte, rest @ ..] = bytes else {
        return ran_through(0, at);
    };
    let behind = seek_bytes_back(search, search.ahead(state, *byte), rest, at);
    if behind.stopped {
        return behind;
    }
    match search.prev(state, *byte, behind.at) {
        None => Stop {
            stopped: true,
            ..behind
        },
        Some(before) => ran_through(behind.passed + 1, before),
    }
}
