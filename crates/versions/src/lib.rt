// The versions of the bundle: what hangs on each, and which one a number tells of.
#![tactic(auto)]

ghost use Rattle.std.specs.Prelude.{◌≡◌};
ghost use Rattle.paper.specs.Limits.{sizes_of};
ghost use Rattle.paper.specs.Bundle.{version_told};
ghost use Rattle.versions.specs.Told.{told_sizes};

use paper::{HEAD_BYTES, LIMITS_BYTES, Refusal, Sizes, Version};
use refusals::refuse;

// A version's sizes.
pub fn sizes(v: Version) -> Sizes
    ensures { result ≡ sizes_of v }
{
    match v {
        Version::One => {
            return Sizes {
                version: 1,
                axes: 4,
                name: 8,
                axis: 8 + LIMITS_BYTES,
                detail: 32,
                step: HEAD_BYTES + 32,
            }
        }
        Version::Two => {
            return Sizes {
                version: 2,
                axes: 6,
                name: 16,
                axis: 16 + LIMITS_BYTES,
                detail: 96,
                step: HEAD_BYTES + 96,
            }
        }
    }
}

// The version told: 1 or 2, in all its bits; any other number is refused.
pub fn version_told(n: u32) -> Result<Version, Refusal>
    ensures { told_sizes result ≡ version_told n }
{
    match n {
        1 => Ok(Version::One),
        2 => Ok(Version::Two),
        _ => Err(refuse(1, 0)),
    }
}
