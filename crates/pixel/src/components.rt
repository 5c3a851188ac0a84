// Sobel's two components of the nine bytes about a pixel, in row order, and S of two components (01.Gradient.1 to 01.Gradient.3).
ghost use Rattle.std.specs.Prelude.{◌≡◌, length};
ghost use Rattle.rules.specs.Gradient.{gx_table, gy_table, energy};
ghost use Rattle.pixel.specs.Components.{Weights, component, SquareOf};

// The two tables of signed weights, applied without flipping (01.Gradient.1).
const GX: [i16; 9] = [-1, 0, 1, -2, 0, 2, -1, 0, 1];

const GY: [i16; 9] = [-1, -2, -1, 0, 0, 0, 1, 2, 1];

// One component. It takes slices: that an entry is a byte is known of a lent slice, and not of a lent array.
fn weigh(weights: &[i16], nine: &[u8]) -> i16
    requires { Weights weights.now × (length nine.now ≡ 9) }
    ensures { result ≡ component weights.now nine.now }
{
    let mut sum = 0i16;
    for j in 0..9 {
        sum += weights[j] * nine[j] as i16;
    }
    sum
}

// Two names for one function of a table: what is said of a picture's components speaks of each.
pub fn gx_of(nine: &[u8; 9]) -> i16
    ensures { result ≡ component gx_table nine.now }
{
    weigh(&GX, nine)
}

pub fn gy_of(nine: &[u8; 9]) -> i16
    ensures { result ≡ component gy_table nine.now }
{
    weigh(&GY, nine)
}

// The square of a component. At 32 bits from 16, so that a loop over pixels multiplies many at once.
fn square_of(g: i16) -> u32
    ensures { SquareOf g result }
{
    let z = g as i32;
    (z * z) as u32
}

// S, at most 2^31 on any two components.
pub fn energy(gx: i16, gy: i16) -> u32
    ensures { result ≡ energy gx gy }
{
    square_of(gx) + square_of(gy)
}
