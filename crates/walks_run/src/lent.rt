// The walk's calls through kelontsira, where a state is three lent numbers. Each answers with a number, as for C: a `Result` would say
// nothing of what a refused call leaves, and the lines show it.
use cases::{Line, ROOM, lines};
use kelontsira::walk::{kelontsira_map, kelontsira_slice, kelontsira_start};
use rules::{MARK_FINISHED, Thresholds, Walk};
use scratch::count_of;
use std::io;

// What a case lends to the walk.
#[derive(Drop)]
pub(crate) struct Lent<'a> {
    pub(crate) walk: Walk,
    pub(crate) marks: &'a mut [u8],
    pub(crate) stack: &'a mut [u32],
    pub(crate) map: &'a mut [u8],
}

pub(crate) const NO_WALK: Walk = Walk {
    width: 0,
    height: 0,
    pending: 0,
};

impl Lent<'_> {
    // A start over marks and a stack that hold again what they held before. Where it is refused, the crate's own call answers with no state.
    pub(crate) fn start(&mut self, line: &Line) -> u8 {
        let marks = &mut *self.marks;
        let stack = &mut *self.stack;
        line.list(b"marks", marks);
        line.list(b"stack", stack);
        let m = line.lent(b"marks-lent", marks.len());
        let k = line.lent(b"stack-lent", stack.len());
        let (number, walk) = started(line, &mut marks[..m], &mut stack[..k]);
        self.walk = walk;
        number
    }

    // Its number and its takes.
    pub(crate) fn slice(&mut self, line: &Line, budget: usize) -> (u8, usize) {
        let m = line.lent(b"marks-lent", self.marks.len());
        let k = line.lent(b"stack-lent", self.stack.len());
        let mut takes = 0;
        let number = kelontsira_slice(
            &mut self.walk.width,
            &mut self.walk.height,
            &mut self.walk.pending,
            budget,
            &mut self.marks[..m],
            &mut self.stack[..k],
            &mut takes,
        );
        (number, takes)
    }

    // A request for the map, whose buffer holds again what it held before.
    pub(crate) fn map(&mut self, line: &Line) -> u8 {
        let walk = self.walk;
        let marks = &mut *self.marks;
        let stack = &mut *self.stack;
        let map = &mut *self.map;
        line.list(b"map", map);
        let m = line.lent(b"marks-lent", marks.len());
        let k = line.lent(b"stack-lent", stack.len());
        let n = line.lent(b"map-lent", map.len());
        kelontsira_map(
            walk.width,
            walk.height,
            walk.pending,
            &marks[..m],
            &stack[..k],
            &mut map[..n],
        )
    }

    // How many pixels have a mark.
    pub(crate) fn marked(&self, mark: u8) -> usize {
        count_of(self.marks, mark, self.marks.len())
    }

    pub(crate) fn finished(&self) -> usize {
        self.marked(MARK_FINISHED)
    }

    // The state, beside what is wanted of it.
    pub(crate) fn state(&self, rt: &impl Print, wanted: Walk) -> io::Result<()> {
        report::number(rt, b"  width", self.walk.width, wanted.width)?;
        report::number(rt, b"  height", self.walk.height, wanted.height)?;
        report::number(rt, b"  pending", self.walk.pending, wanted.pending)?;
        Ok(())
    }

    // The marks and the stack, beside what two fields want of them.
    pub(crate) fn left(
        &self,
        rt: &impl Print,
        line: &Line,
        marks: &[u8],
        stack: &[u8],
    ) -> io::Result<()> {
        lines::list(rt, b"  marks", line, b"marks", marks, self.marks)?;
        lines::list(rt, b"  stack", line, b"stack", stack, self.stack)
    }

    // The map, beside what a field wants of it.
    pub(crate) fn show_map(
        &self,
        rt: &impl Print,
        name: &[u8],
        line: &Line,
        after: &[u8],
    ) -> io::Result<()> {
        lines::list(rt, name, line, b"map", after, self.map)
    }
}

fn started(line: &Line, marks: &mut [u8], stack: &mut [u32]) -> (u8, Walk) {
    let mut magnitudes = [0.0f32; ROOM];
    let magnitudes = line.list(b"magnitudes", &mut magnitudes);
    let size = line.size();
    let low = line.number(b"low");
    let high = line.number(b"high");
    let mut walk = NO_WALK;
    let number = kelontsira_start(
        magnitudes,
        size.width,
        size.height,
        low,
        high,
        marks,
        stack,
        &mut walk.width,
        &mut walk.height,
        &mut walk.pending,
    );
    if number == 0 {
        return (number, walk);
    }
    let own = hysteresis::start(magnitudes, size, Thresholds { low, high }, marks, stack);
    (number, own.unwrap_or(NO_WALK))
}
