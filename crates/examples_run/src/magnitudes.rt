// The magnitude of every S below the cap, by 01's inequality, and the guesses of every S, before they are mended.
ghost use Rattle.std.specs.Prelude.{◌^◌, ◌≤◌};

use crate::call::Every;
use cases::{Line, lines};
use kelontsira::gradients::kelontsira_magnitude_of;
use pixel::{byte, root};
use std::io;

// Whether the float of the bits c is m * 2^-k with (2m - 1)^2 < 4 S 4^k < (2m + 1)^2.
fn nearest(s: u32, c: u32) -> bool {
    let e = c / 8388608;
    if e < 127 || 134 < e {
        return false;
    }
    let m = u64::from(c % 8388608 + 8388608);
    let t = u64::from(s) << (2 * (150 - e) + 2);
    squared(2 * m - 1) < t && t < squared(2 * m + 1)
}

fn squared(n: u64) -> u64
    requires { n ≤ 2 ^ 26 }
{
    n * n
}

// How many S are as they are wanted.
pub(crate) fn every(rt: &impl Print, line: &Line, every: Every) -> io::Result<()> {
    let count = match every {
        Every::Magnitude => (1..65025)
            .filter(|s| nearest(*s, report::bits(kelontsira_magnitude_of(*s))))
            .count(),
        // The guess of a magnitude is that of 65,025 from there on.
        Every::Guess => (0..65026).filter(|s| root::guess_holds(*s)).count(),
        // For Sobel's byte S is held to at most 64,771.
        Every::ByteGuess => (0..64772).filter(|s| byte::guess_holds(*s)).count(),
    };
    lines::count(rt, b"", line, b"count", count)
}
