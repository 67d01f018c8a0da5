// A search through a run of bytes, one after another.
ghost use Rattle.std.specs.Prelude.{◌≡◌};
ghost use Rattle.search.specs.Forwards.{stop};

use crate::forward::Forward;
use crate::stops::ran_through;
use search::stop::Stop;

// Where the search comes to in the bytes.
pub fn seek_bytes<S: Forward>(search: &S, at: S::At, bytes: &[u8]) -> Stop<S::At>
    ensures { result ≡ stop (S.goes search.now) at bytes.now }
{
    let mut now_at = at;
    for (i, byte) in bytes.iter().enumerate() {
        match search.next(now_at, *byte) {
            Some(further) => now_at = further,
            None => {
                return Stop {
                    passed: i,
                    at: now_at,
                    stopped: true,
                };
            }
        }
    }
    ran_through(bytes.len(), now_at)
}
