// A case as a row of 80 numbers, those that its line leaves out 0.
ghost use Rattle.std.specs.Prelude.{◌≡◌, ◌-◌, ◌≤◌, min, length, drop, get_or};
ghost use Rattle.cases.specs.Lists.{Turned};

use crate::number::{Number, turn};

pub(crate) const ROW: usize = 80;

#[derive(Clone, Copy)]
pub struct Row {
    pub numbers: [u32; 80],
}

impl Row {
    // The number at a place, 0 past the row.
    pub fn number<T: Number>(&self, place: usize) -> T
        ensures { result ≡ T.of (get_or self.now.numbers place 0) }
    {
        T::from_pattern(kth(&self.numbers, place))
    }

    // The number at a place as a length of something that has `most` entries.
    pub fn at_most(&self, place: usize, most: usize) -> usize
        ensures { (result ≤ most) × (result ≡ min (get_or self.now.numbers place 0) most) }
    {
        let n: usize = self.number(place);
        n.min(most)
    }

    // Fills a buffer with the numbers from a place on, as far as the row goes.
    pub fn list<T: Number>(&self, place: usize, out: &mut [T])
        ensures { Turned T.of (drop place self.now.numbers) out.old out.new (min (80 - place) (length out.old)) }
    {
        turn(&self.numbers[place.min(ROW)..], out);
    }
}

pub(crate) fn kth(list: &[u32], k: usize) -> u32
    ensures { result ≡ get_or list.now k 0 }
{
    list.get(k).copied().unwrap_or(0)
}
