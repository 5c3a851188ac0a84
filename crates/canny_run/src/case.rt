// What the numbers of a case mean, by their places in its row.
ghost use Rattle.std.specs.Prelude.{◌≤◌};

use crate::buffers::ROOM;
use cases::Row;
use rules::{Size, Thresholds};

// What each buffer holds before the call. No two of one type hold the same, and no run leaves it there, so that an entry of one buffer that
// comes into another shows.
#[derive(Clone, Copy)]
pub(crate) struct Poison {
    pub(crate) work: f32,
    pub(crate) magnitude: f32,
    pub(crate) gx: i16,
    pub(crate) gy: i16,
    pub(crate) blurred: u8,
    pub(crate) marks: u8,
    pub(crate) stack: u32,
    pub(crate) map: u8,
}

impl Poison {
    fn first() -> Poison {
        Poison {
            work: report::nan(),
            magnitude: report::infinity(),
            gx: -32768,
            gy: 32767,
            blurred: 254,
            marks: 253,
            stack: 4294967295,
            map: 7,
        }
    }

    fn second() -> Poison {
        Poison {
            work: report::infinity(),
            magnitude: 255.0,
            gx: 1020,
            gy: -1020,
            blurred: 128,
            marks: 3,
            stack: 5,
            map: 254,
        }
    }
}

// The buffers in the call's order, counted from 1.
#[derive(Clone, Copy)]
pub(crate) enum Buffer {
    Work = 1,
    Magnitude,
    Gx,
    Gy,
    Blurred,
    Marks,
    Stack,
    Map,
}

#[derive(Clone, Copy)]
pub(crate) struct Case<'a> {
    row: &'a Row,
    pub(crate) poison: Poison,
}

impl<'a> Case<'a> {
    // Place 0: which poison, 1 or 2; 0 is no case.
    pub(crate) fn of(row: &'a Row) -> Option<Case<'a>> {
        let poison = match row.number::<u32>(0) {
            0 => return None,
            1 => Poison::first(),
            _ => Poison::second(),
        };
        Some(Case { row, poison })
    }

    // Places 1 and 2.
    pub(crate) fn size(&self) -> Size {
        Size {
            width: self.row.number(1),
            height: self.row.number(2),
        }
    }

    // Places 3 to 6: how many pixels there are, all of one grey but for a bar in a picture 8 wide, which is brighter at its left end.
    pub(crate) fn pixels<'b>(&self, room: &'b mut [u8; 1920]) -> &'b [u8] {
        let bright = self.row.number(5);
        let bar = self.row.number(6);
        room.fill(self.row.number(4));
        for line in [18, 26] {
            room[line] = bright;
            room[line + 1..line + 4].fill(bar);
        }
        &room[..self.row.at_most(3, 1920)]
    }

    // Places 7 to 10: how many taps, the first and all from the fourth on, the second and the third.
    pub(crate) fn taps<'b>(&self, room: &'b mut [f32; 65]) -> &'b [f32] {
        room.fill(self.row.number(8));
        room[1] = self.row.number(9);
        room[2] = self.row.number(10);
        &room[..self.row.at_most(7, 65)]
    }

    // Places 11 and 12. Not one function with `size`: each fills a record's fields by their names.
    pub(crate) fn thresholds(&self) -> Thresholds {
        Thresholds {
            low: self.row.number(11),
            high: self.row.number(12),
        }
    }

    // Places 13 and 14: how many entries of each buffer are lent, and which buffer is lent one fewer.
    pub(crate) fn room(&self, buffer: Buffer) -> usize
        ensures { result ≤ 1922 }
    {
        let length = self.row.at_most(13, ROOM);
        if self.row.number::<u32>(14) == buffer as u32 {
            return length.saturating_sub(1);
        }
        length
    }

    // Place 15: what is left pending of a walk that was stopped in the marks and the stack before the call, if any was.
    pub(crate) fn pending(&self) -> Option<usize> {
        match self.row.number(15) {
            0 => None,
            pending => Some(pending),
        }
    }

    // Places 16 to 18: how many entries of the scratch are zero after the call, its number and how many edges it counts.
    pub(crate) fn zeroed(&self) -> usize {
        self.row.number(16)
    }

    pub(crate) fn refusal(&self) -> u32 {
        self.row.number(17)
    }

    pub(crate) fn edges(&self) -> usize {
        self.row.number(18)
    }

    // Place 19: how many entries of the map from the 48th on are 255.
    pub(crate) fn more_edges(&self) -> usize {
        self.row.number(19)
    }

    // Place 20: whether the first 48 entries of the map follow; else they are as before.
    pub(crate) fn map(&self) -> Option<[u8; 48]> {
        if self.row.number::<u32>(20) == 0 {
            return None;
        }
        let mut wanted = [0; 48];
        self.row.list(21, &mut wanted);
        Some(wanted)
    }
}
