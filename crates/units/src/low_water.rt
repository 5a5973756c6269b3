// Low water: whether an accepted call has yet left a land non-empty, and the least number of its free bytes from that call on.
ghost use Rattle.std.specs.Prelude.{◌≡◌};
ghost use Rattle.units.specs.LowWater.{unset, noted, sound_low};
ghost use Rattle.units.specs.inner.Parts.{soundness_of};

use crate::{Refusal, Size};

// The mark, 0 or 1, and low water; both 0 as long as no accepted call has left the land non-empty.
#[repr(C)]
#[derive(Clone, Copy)]
pub struct LowWater {
    pub filled: u64,
    pub low: Size,
}

impl LowWater {
    // That of an opening.
    pub fn unset() -> Self
        ensures { result ≡ unset }
    {
        let low = Size(0);
        LowWater { filled: 0, low }
    }

    // After an accepted call that leaves so many free bytes.
    pub fn noted(self, bytes: Size) -> LowWater
        ensures { result ≡ noted self bytes.0 }
    {
        if self.filled == 0 {
            if bytes.0 == 0 {
                return LowWater {
                    filled: 0,
                    low: bytes,
                };
            }
            return LowWater {
                filled: 1,
                low: bytes,
            };
        }
        let low = self.low;
        if bytes.0 < low.0 {
            return LowWater {
                filled: 1,
                low: bytes,
            };
        }
        LowWater { filled: 1, low }
    }

    // Whether a sound land with so many free bytes may have it.
    pub fn check(self, bytes: Size) -> Result<(), Refusal>
        ensures { result ≡ soundness_of (sound_low self bytes.0) }
    {
        if bytes.0 < self.low.0 {
            return Err(Refusal::Damaged);
        }
        if self.filled == 0 {
            if 0 < bytes.0 {
                return Err(Refusal::Damaged);
            }
            return Ok(());
        }
        if self.filled == 1 {
            return Ok(());
        }
        Err(Refusal::Damaged)
    }
}
