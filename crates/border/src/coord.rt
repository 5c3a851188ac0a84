// The border rules: where a coordinate of a side is read (01.Border.1 to 01.Border.5).
ghost use Rattle.std.specs.Prelude.{◌≡◌, ◌≤◌, ◌<◌, ◌*◌, pos, ◌-ℤ◌};
ghost use Rattle.rules.specs.Limits.{max_side};
ghost use Rattle.rules.specs.Border.{emod, clamp_of, mirror_of, resolved, coord_says};
ghost use Rattle.rules.specs.Calls.{resolve_coord};
ghost use Rattle.border.specs.Reading.{placed};

use refusals::filter::of_coord;
use rules::{BorderMode, Coord};

// The non-negative remainder of c by p: the machine's, mended where it is negative. Kept in place of `rem_euclid`: document 01 asks
// for remainders mended here (01.Change.5, 01.Shape.10).
fn wrap(c: i64, p: usize) -> usize
    requires { (0 < p) × (p ≤ 2 * max_side) }
    ensures { result ≡ emod c p }
{
    let q = p as i64;
    let r = c % q;
    if r < 0 { (r + q) as usize } else { r as usize }
}

// By comparisons, as `clamp_at`.
fn zero_at(c: i64, side: usize) -> Coord
    ensures { result ≡ resolved BorderMode.Zero c side }
{
    if c < 0 {
        return Coord::Nothing;
    }
    let n = c as usize;
    if n < side {
        Coord::At(n)
    } else {
        Coord::Nothing
    }
}

// By comparisons and not by `try_from` and `min`: with those the median took up to 1.13 times as long.
fn clamp_at(c: i64, side: usize) -> usize
    requires { 0 < side }
    ensures { result ≡ clamp_of c side }
{
    if c < 0 {
        return 0;
    }
    let n = c as usize;
    if n < side { n } else { side - 1 }
}

fn mirror_at(c: i64, side: usize) -> usize
    requires { (0 < side) × (side ≤ max_side) }
    ensures { result ≡ mirror_of c side }
{
    if side == 1 {
        return 0;
    }
    let period = 2 * (side - 1);
    let m = wrap(c, period);
    if m < side { m } else { period - m }
}

// Where coordinate c of a side is read.
fn resolve(c: i64, side: usize, border: BorderMode) -> Coord
    requires { (0 < side) × (side ≤ max_side) }
    ensures { result ≡ resolved border c side }
{
    match border {
        BorderMode::Zero => zero_at(c, side),
        BorderMode::Clamp => Coord::At(clamp_at(c, side)),
        BorderMode::Mirror => Coord::At(mirror_at(c, side)),
    }
}

// Resolves one coordinate; a side of 0 or over the limit is refused. Kept a `Coord` and no `Result` of an `Option`: document 01 asks
// for an enum here (01.Change.4, 01.Shape.15).
pub fn resolve_coord(coord: i64, side: usize, border: BorderMode) -> Coord
    ensures { coord_says result ≡ resolve_coord coord side border }
{
    match of_coord(side) {
        Ok(()) => resolve(coord, side, border),
        Err(_) => Coord::Refused,
    }
}

// Where coordinate at - half of a side is read, as a number: `side` itself where it is nowhere, or where the side is refused. Kept a
// number and no `Option`: `placed` is its contract, and each caller makes one test of it all the same, whether it is below the side.
pub fn place(at: u32, half: u32, side: usize, border: BorderMode) -> usize
    ensures { result ≡ placed border (pos at -ℤ pos half) side }
{
    match resolve_coord(at as i64 - half as i64, side, border) {
        Coord::At(i) => i,
        Coord::Nothing | Coord::Refused => side,
    }
}
