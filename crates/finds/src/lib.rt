// What the finds of every land share: the part of the chosen range that is found.
//
// Every function here is proved, and the crate assumes nothing of its own. These are inner functions: a `requires`
// says what the calls of a land have checked before.
#![tactic(auto)]

ghost use Rattle.std.specs.Prelude.{◌≡◌};
ghost use Rattle.model.specs.Marks.{struct};
ghost use Rattle.model.specs.inner.Lists.{plain};
ghost use Rattle.model.specs.inner.Steps.{end_part, part};
ghost use Rattle.finds.specs.inner.Parts.{Within};

use units::{Mode, Range, Size, Which};

// The part of a range that a mode finds.
fn end_part(mode: Mode, size: Size, here: Range) -> Range
    requires { Within size here }
    ensures { result ≡ struct (end_part mode size.0 (plain here)) }
{
    match mode {
        Mode::None => here,
        Mode::Low => Range::new(here.base, here.base.plus(size)),
        Mode::High => Range::new(here.limit.minus(size), here.limit),
        Mode::Entire => here,
    }
}

// The part of a range that a find takes. In a find of the largest, low and high act as entire.
pub fn part(which: Which, mode: Mode, size: Size, here: Range) -> Range
    requires { Within size here }
    ensures { result ≡ struct (part which mode size.0 (plain here)) }
{
    match which {
        Which::First => end_part(mode, size, here),
        Which::Last => end_part(mode, size, here),
        Which::Largest => here,
    }
}
