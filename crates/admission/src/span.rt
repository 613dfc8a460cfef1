ghost use Rattle.std.specs.Prelude.{◌≡◌, ◌≤◌, false, ◌&&◌, MatchResult, nat_le};
ghost use Rattle.admission.specs.declared.refusal.Refusal.TheVariants.{TimeRange};

use crate::refusal::Refusal;

// The longest time that the tests look at.
const MAX_TICKS: u32 = 1_000_000;

// A time that the tests look at: 1 to 1,000,000 ticks.
#[derive(Clone, Copy, Debug, PartialEq, Eq)]
pub(crate) struct Span {
    pub(crate) ticks: u32,
    ghost some: { 1 ≤ ticks },
    ghost most: { ticks ≤ 1000000 },
}

impl TryFrom<u32> for Span {
    type Error = Refusal;

    ghost try_from_gives = { λ ticks result. MatchResult result (λ span. span.ticks ≡ ticks) (λ refusal. (refusal ≡ TimeRange) × ((nat_le 1 ticks && nat_le ticks 1000000) ≡ false)) };

    fn try_from(ticks: u32) -> Result<Span, Refusal> {
        if ticks == 0 || ticks > MAX_TICKS {
            return Err(Refusal::TimeRange);
        }
        Ok(Span { ticks })
    }
}
