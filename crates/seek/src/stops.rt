// Stops of a search that goes over one part of a text after another.
ghost use Rattle.std.specs.Prelude.{◌≡◌, ◌+◌, ◌^◌, ◌<◌, false};
ghost use Rattle.search.specs.Forwards.{shifted};

use search::stop::Stop;

// All of it is run through: so many bytes.
pub(crate) fn ran_through<A: Copy>(passed: usize, at: A) -> Stop<A>
    ensures { result ≡ record { passed = passed; at = at; stopped = false } }
{
    Stop {
        passed,
        at,
        stopped: false,
    }
}

// The same stop, `by` bytes further on.
pub(crate) fn further<A: Copy>(by: usize, stop: Stop<A>) -> Stop<A>
    requires { by + stop.passed < 2 ^ 64 }
    ensures { result ≡ shifted by stop }
{
    Stop {
        passed: by + stop.passed,
        ..stop
    }
}
