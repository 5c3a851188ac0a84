// The rows of the table of refusals (01.Refusal.2 to 01.Refusal.8) that the calls share: each refuses by its row's number.
ghost use Rattle.std.specs.Prelude.{◌≡◌, cond, [], ◌∷◌};
ghost use Rattle.rules.specs.Accepted.{Sides};
ghost use Rattle.rules.specs.Answers.{number_of, number};
ghost use Rattle.rules.specs.Refusals.{
  first,
  side_row,
  input_row,
  count_row,
  match_row,
  weight_row,
  bad_threshold,
  threshold_row,
  order_row,
  room_row,
};

use rules::{MAX_SIDE, MAX_THRESHOLD, Refusal, Size, Thresholds};

pub(crate) fn refuse_if(test: bool, by: Refusal) -> Result<(), Refusal>
    ensures { number result ≡ cond test (number_of by) 0 }
{
    if test { Err(by) } else { Ok(()) }
}

// Row 1: a side is over the limit.
pub(crate) fn check_sides(size: Size) -> Result<(), Refusal>
    ensures { number result ≡ first (side_row size ∷ []) }
{
    refuse_if(
        (MAX_SIDE < size.width) | (MAX_SIDE < size.height),
        Refusal::Side,
    )
}

// Row 2: a lent input is not width times height long.
pub(crate) fn check_input<T>(lent: &[T], size: Size) -> Result<(), Refusal>
    requires { Sides size }
    ensures { number result ≡ first (input_row size lent.now ∷ []) }
{
    refuse_if(lent.len() != size.width * size.height, Refusal::Input)
}

// Row 3: a size is zero, even or too large.
pub(crate) fn check_count(most: usize, n: usize) -> Result<(), Refusal>
    ensures { number result ≡ first (count_row most n ∷ []) }
{
    refuse_if((n == 0) | ((n % 2 == 0) | (most < n)), Refusal::Count)
}

// Row 3: there are not n weights.
pub(crate) fn check_match(n: usize, weights: &[f32]) -> Result<(), Refusal>
    ensures { number result ≡ first (match_row n weights.now ∷ []) }
{
    refuse_if(weights.len() != n, Refusal::Count)
}

// Row 4: a weight is infinite or NaN.
pub(crate) fn check_weights(weights: &[f32]) -> Result<(), Refusal>
    ensures { number result ≡ first (weight_row weights.now ∷ []) }
{
    refuse_if(weights.iter().any(|w| !w.is_finite()), Refusal::Weight)
}

// Row 5, of one threshold.
fn bad_threshold(t: f32) -> bool
    ensures { result ≡ bad_threshold t }
{
    !t.is_finite() | ((t < 0.0) | (MAX_THRESHOLD < t))
}

// Rows 5 and 6: a threshold is out of range, or the low one is above the high one.
pub(crate) fn check_thresholds(thresholds: Thresholds) -> Result<(), Refusal>
    ensures { number result ≡ first (threshold_row thresholds ∷ order_row thresholds ∷ []) }
{
    refuse_if(
        bad_threshold(thresholds.low) | bad_threshold(thresholds.high),
        Refusal::Threshold,
    )?;
    refuse_if(thresholds.high < thresholds.low, Refusal::Order)
}

// Row 7: a lent output or work buffer has fewer than width times height entries.
pub(crate) fn check_room<T>(lent: &[T], size: Size) -> Result<(), Refusal>
    requires { Sides size }
    ensures { number result ≡ first (room_row size lent.now ∷ []) }
{
    refuse_if(lent.len() < size.width * size.height, Refusal::Room)
}
