// Sobel's byte of an S: its root to the nearest whole number, at most 255 (01.Gradient.5). By the table of ends it is found by halving, or
// a guess of it is tested.
ghost use Rattle.std.specs.Prelude.{◌≡◌, ◌≤◌, true};
ghost use Rattle.rules.specs.Root.{upper_end, sobel_byte};
ghost use Rattle.pixel.specs.Components.{nine_energy};
ghost use Rattle.pixel.specs.Guess.{low_byte, byte_guess};
ghost use Rattle.pixel.specs.Halving.{upper_ends, Ends, Among, Halving, held, place_of};

use crate::components::{energy, gx_of, gy_of};
use crate::root::{first_guess, heron};

// S in 16 bits, of which eight fit where four of 32 do. Over the last end every number has byte 255, so one will do for all.
#[tactic(auto, unfolding(crate::specs::Halving::held))]
fn held(s: u32) -> u16
    ensures { result ≡ held s }
{
    s.min(64771) as u16
}

// S of the nine bytes about a pixel, so held.
pub fn sum_of(nine: &[u8; 9]) -> u16
    ensures { result ≡ held (nine_energy nine.now) }
{
    held(energy(gx_of(nine), gy_of(nine)))
}

// ---- The byte of any S, by the table of upper ends: the 256 that it may be, halved eight times.

// The table, to lend: the compiler puts it on the stack of whoever calls this.
pub fn upper_ends() -> [u32; 255]
    ensures { result ≡ upper_ends }
{
    ENDS
}

// The table as a value, on the stack of whoever makes it, to lend: its entries are the ends, and nobody else can write them.
#[derive(Drop)]
pub struct EndTable {
    ends: [u32; 255],
    ghost holds: { Ends ends },
}

impl EndTable {
    pub fn new() -> EndTable
        ensures { result.ends ≡ upper_ends }
    {
        EndTable { ends: upper_ends() }
    }

    // Of the 2 * b bytes from n on, the upper half if the end before it is below s, else the lower: told by its first.
    fn half_by(&self, s: u32, n: usize, b: usize) -> usize
        requires { Halving s n b }
        ensures { Among s result b }
    {
        let m = n + b;
        if self.ends[m - 1] < s {
            return m;
        }
        n
    }

    // The byte of any S. Eight looks into the table, as docs/FIRMWARE.md counts them: `partition_point` takes nine.
    pub fn byte_of(&self, s: u32) -> u8
        ensures { result ≡ sobel_byte s }
    {
        let mut n = self.half_by(s, 0, 128);
        n = self.half_by(s, n, 64);
        n = self.half_by(s, n, 32);
        n = self.half_by(s, n, 16);
        n = self.half_by(s, n, 8);
        n = self.half_by(s, n, 4);
        n = self.half_by(s, n, 2);
        n = self.half_by(s, n, 1);
        n as u8
    }

    // The end to test a byte by.
    pub fn end_of(&self, byte: u8) -> u16
        ensures { result ≡ upper_end (place_of byte) }
    {
        self.ends[place_of(byte)] as u16
    }
}

// The byte of any S, by the table.
pub fn sobel_byte(s: u32) -> u8
    ensures { result ≡ sobel_byte s }
{
    EndTable::new().byte_of(s)
}

// ---- A guess, and its test by the table.

// The lowest byte of a float's bits.
#[tactic(auto, unfolding(crate::specs::Guess::low_byte))]
fn low_byte(z: f32) -> u8
    ensures { result ≡ low_byte z }
{
    if z > 0.0 {
        return (z.to_bits() % 256) as u8;
    }
    0
}

// Tried on every s that is ever held, this is the byte itself (`guess_holds`); no proof leans on it. Two of Heron's steps; 2^23 more, and the
// lowest bits are the nearest whole number.
#[tactic(auto, unfolding(crate::specs::Guess::byte_guess))]
pub fn guess(s: u16) -> u8
    ensures { result ≡ byte_guess s }
{
    let f = s as f32;
    let a = first_guess(f);
    low_byte(heron(f, heron(f, a)) + 8388608.0)
}

// Where the table has the end to test a byte by: its own; for 255, which has none, the last.
#[tactic(auto, unfolding(crate::specs::Halving::place_of))]
pub fn place_of(byte: u8) -> usize
    ensures { (result ≡ place_of byte) × (result ≤ 254) }
{
    byte.min(254) as usize
}

// Whether a byte is that of s, by its end: s is at most that, and above the end before it, which is 2 * byte less. Where the sum wraps, s is
// over its end.
pub fn is_byte(end: u16, s: u16, byte: u8) -> bool
    ensures { result ≡ true → end ≡ upper_end (place_of byte) → byte ≡ sobel_byte s }
{
    let n = byte as u16;
    let over = s.wrapping_add(2 * n);
    let within = (s <= end) & ((end < over) | (n == 0));
    ((n < 255) & within) | ((n == 255) & (end < s))
}

// Whether the guess passes its test by the table, so that nothing is mended: it is then the byte already. For a run over every S
// (docs/LOOSE.md).
pub fn guess_holds(s: u16) -> bool
    ensures { result ≡ true → byte_guess s ≡ sobel_byte s }
{
    let byte = guess(s);
    is_byte(EndTable::new().end_of(byte), s, byte)
}

// The 255 upper ends n² + n: S gets byte n from above the end before it up to its own (01.Gradient.5, 01.Gradient.6).
const ENDS: [u32; 255] = [
    0, 2, 6, 12, 20, 30, 42, 56, 72, 90, 110, 132, 156, 182, 210, 240, 272, 306, 342, 380, 420,
    462, 506, 552, 600, 650, 702, 756, 812, 870, 930, 992, 1056, 1122, 1190, 1260, 1332, 1406,
    1482, 1560, 1640, 1722, 1806, 1892, 1980, 2070, 2162, 2256, 2352, 2450, 2550, 2652, 2756, 2862,
    2970, 3080, 3192, 3306, 3422, 3540, 3660, 3782, 3906, 4032, 4160, 4290, 4422, 4556, 4692, 4830,
    4970, 5112, 5256, 5402, 5550, 5700, 5852, 6006, 6162, 6320, 6480, 6642, 6806, 6972, 7140, 7310,
    7482, 7656, 7832, 8010, 8190, 8372, 8556, 8742, 8930, 9120, 9312, 9506, 9702, 9900, 10100,
    10302, 10506, 10712, 10920, 11130, 11342, 11556, 11772, 11990, 12210, 12432, 12656, 12882,
    13110, 13340, 13572, 13806, 14042, 14280, 14520, 14762, 15006, 15252, 15500, 15750, 16002,
    16256, 16512, 16770, 17030, 17292, 17556, 17822, 18090, 18360, 18632, 18906, 19182, 19460,
    19740, 20022, 20306, 20592, 20880, 21170, 21462, 21756, 22052, 22350, 22650, 22952, 23256,
    23562, 23870, 24180, 24492, 24806, 25122, 25440, 25760, 26082, 26406, 26732, 27060, 27390,
    27722, 28056, 28392, 28730, 29070, 29412, 29756, 30102, 30450, 30800, 31152, 31506, 31862,
    32220, 32580, 32942, 33306, 33672, 34040, 34410, 34782, 35156, 35532, 35910, 36290, 36672,
    37056, 37442, 37830, 38220, 38612, 39006, 39402, 39800, 40200, 40602, 41006, 41412, 41820,
    42230, 42642, 43056, 43472, 43890, 44310, 44732, 45156, 45582, 46010, 46440, 46872, 47306,
    47742, 48180, 48620, 49062, 49506, 49952, 50400, 50850, 51302, 51756, 52212, 52670, 53130,
    53592, 54056, 54522, 54990, 55460, 55932, 56406, 56882, 57360, 57840, 58322, 58806, 59292,
    59780, 60270, 60762, 61256, 61752, 62250, 62750, 63252, 63756, 64262, 64770,
];
