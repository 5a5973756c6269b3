// The mode of a find, as a host in C gives it: a number.
ghost use Rattle.std.specs.Prelude.{◌≡◌};
ghost use Rattle.capi.specs.Modes.{given_mode, refusal_after};

use units::{Mode, Refusal};

// 0 none, 1 low, 2 high, 3 entire; any other number is no mode.
pub fn mode_of(n: u64) -> Option<Mode>
    ensures { result ≡ given_mode n }
{
    match n {
        0 => Some(Mode::None),
        1 => Some(Mode::Low),
        2 => Some(Mode::High),
        3 => Some(Mode::Entire),
        _ => None,
    }
}

// How a find whose mode is not known is refused, by what a call finds before it looks at its request: as that was, or for the mode.
pub fn refusal_after<S: Drop>(look: Result<S, Refusal>) -> Refusal
    ensures { result ≡ refusal_after look }
{
    match look {
        Ok(_) => Refusal::Request,
        Err(refusal) => refusal,
    }
}
