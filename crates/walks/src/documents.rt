// The meter of a document: walks by its grammar, places, and whatever the host measures besides; and what it reads.
ghost use Rattle.std.specs.Prelude.{◌≡◌};

use crate::walk_meter::Walk;
use measure::pair_reading::PairReading;
use measure::place_reading::Extent;
use measure::walk_reading::Passage;
use meter::{Pair, Place};

pub type DocumentMeter<G, H> = Pair<Walk<G>, Pair<Place, H>>;

pub type Readings<X> = PairReading<Option<Passage>, PairReading<Option<Extent>, X>>;

// The meter of a document with a grammar, on a host that measures by `host`.
pub fn document_meter<G, H>(grammar: G, host: H) -> DocumentMeter<G, H>
    ensures grammar { result.first.grammar ≡ grammar }
    ensures host { result.second.second ≡ host }
{
    Pair {
        first: Walk { grammar },
        second: Pair {
            first: Place,
            second: host,
        },
    }
}
