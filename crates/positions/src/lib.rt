// Positions. A position is carried as its distance above -1,000,000, so that no signed number is made: 32 bits of two's complement come
// in and go out as a u32.
#![tactic(auto)]

ghost use Rattle.std.specs.Prelude.{◌≡◌};
ghost use Rattle.std.specs.Int.{w32};
ghost use Rattle.std.proofs.Common.{to_z, of_z};
ghost use Rattle.paper.specs.Limits.{limit_bytes};
ghost use Rattle.paper.specs.Numbers.{position, distance, position_at, moved};
ghost use Rattle.positions.specs.Runs.{Holds};
ghost use Rattle.positions.specs.Moves.{Near, lower};

use cell::bytes::half;
use paper::REACH;

// The bits at which signed numbers turn negative, and those of the lowest position.
const TURNING: u32 = 2147483648;

const LOWEST: u32 = 4293967296;

// A distance that is no position's.
const NOWHERE: u32 = 4294967295;

// The distance m lower than d.
fn lowered(d: u32, m: u32) -> u32
    ensures { result ≡ lower d m }
{
    if d < m {
        return NOWHERE;
    }
    d - m
}

// The position at distance d moved by the signed amount whose bits are n.
pub fn moved_by(d: u32, n: u32) -> u32
    requires { Near d }
    ensures { result ≡ moved d (to_z w32 n) }
{
    if n < TURNING {
        return d + n;
    }
    lowered(d, NOWHERE - n + 1)
}

// The distance of the signed number whose bits are n: 0 moved by it.
pub fn distance_of(n: u32) -> u32
    ensures { result ≡ distance (to_z w32 n) }
{
    moved_by(REACH, n)
}

// The position at byte `at`.
pub fn position_at(s: &[u8], at: usize) -> u32
    requires { Holds at limit_bytes s.now }
    ensures { result ≡ position_at at s.now }
{
    distance_of(half(s, at))
}

// The bits of the position at distance d.
pub fn bits_of(d: u32) -> u32
    ensures { result ≡ of_z w32 (position d) }
{
    if d < REACH {
        return d + LOWEST;
    }
    d - REACH
}
