// The longest text of which a bounded reading tells.
ghost use Rattle.std.specs.Prelude.{◌≡◌, ◌+◌, if◌then◌else◌, Some, None, nat_le};
ghost use Rattle.measure.specs.Bounded.{longest};

pub const LONGEST: u32 = 262_144;

// The length of two texts together, unless that is overlong.
pub fn length_within(left: u32, right: u32) -> Option<u32>
    ensures { result ≡ (if nat_le (left + right) longest then Some (left + right) else None) }
{
    left.checked_add(right).filter(|length| *length <= LONGEST)
}
