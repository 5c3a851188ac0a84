// Numbers for C, which has no `Result` and no enum of ours: an answer is its refusal number, and a border mode travels as one. A mode over the
// last is refused before everything else.
ghost use Rattle.std.specs.Prelude.{◌≡◌, ◌<◌, ◌≤◌, MatchOption};
ghost use Rattle.rules.specs.Border.{mode_of};

use rules::BorderMode;

const LAST_MODE: u8 = 2;

pub(crate) const ACCEPTED: u8 = 0;

pub(crate) const REFUSED_BORDER: u8 = 255;

// The mode of a number, if it has one.
pub(crate) fn mode_by(border: u8) -> Option<BorderMode>
    ensures { MatchOption result (2 < border) (λ mode. (border ≤ 2) × (mode ≡ mode_of border)) }
{
    if LAST_MODE < border {
        return None;
    }
    Some(BorderMode::from(border))
}
