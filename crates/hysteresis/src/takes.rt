// Takes, and what each is made of (01.Walk.7, 01.Walk.8). They are the definition's on every state that fits, forged ones included.
ghost use Rattle.rules.specs.Walk.{state};
ghost use Rattle.hysteresis.specs.Fit.{Fit};

use rules::{MARK_FINISHED, MARK_PENDING, MARK_WEAK, Size};

// A walk under way over the lent marks and stack. Whatever is done to it, it fits.
#[derive(Drop)]
pub(crate) struct Takes<'a> {
    pub marks: &'a mut [u8],
    pub stack: &'a mut [u32],
    pub pending: usize,
    pub size: Size,
    ghost fits: { Fit size (state marks.now stack.now pending) },
}

impl Takes<'_> {
    ghost use Rattle.std.specs.Prelude.{◌≡◌, ◌<◌};
    ghost use Rattle.rules.specs.Limits.{max_area};
    ghost use Rattle.rules.specs.Picture.{area};
    ghost use Rattle.rules.specs.Walk.{look, visit, taken, sliced, takes};
    ghost use Rattle.hysteresis.specs.Around.{row};
    ghost use Rattle.hysteresis.specs.Taking.{held, Same};

    // Pixel r is looked at: with mark 1 it gets mark 2 and is put on the stack.
    fn look_at(&mut self, r: usize)
        requires { r < area self.old.size }
        ensures same { Same self.old self.new }
        ensures looked { held self.new ≡ look r (held self.old) }
    {
        if self.marks[r] == MARK_WEAK {
            self.marks[r] = MARK_PENDING;
            self.stack[self.pending] = r as u32;
            self.pending += 1;
        }
    }

    // The pixel in column nx - 1 and row ny - 1 is looked at, where it is in the picture.
    fn visit_at(&mut self, nx: usize, ny: usize)
        ensures same { Same self.old self.new }
        ensures visited { held self.new ≡ visit self.old.size nx ny (held self.old) }
    {
        let Size { width, height } = self.size;
        if 1 <= nx && nx <= width && 1 <= ny && ny <= height {
            self.look_at((ny - 1) * width + (nx - 1));
        }
    }

    // The three places of row ny - 1 from column x - 1 on.
    fn visit_row(&mut self, x: usize, ny: usize)
        requires { x < max_area }
        ensures same { Same self.old self.new }
        ensures visited { held self.new ≡ row self.old.size x ny (held self.old) }
    {
        self.visit_at(x, ny);
        self.visit_at(x + 1, ny);
        self.visit_at(x + 2, ny);
    }

    // One take: the last index is removed, its pixel finished, and the three rows around it are looked at.
    fn take_one(&mut self)
        requires { 0 < self.old.pending }
        ensures same { Same self.old self.new }
        ensures took { held self.new ≡ taken self.old.size (held self.old) }
    {
        self.pending -= 1;
        let at = self.pending;
        let q = self.stack[at] as usize;
        self.stack[at] = 0;
        self.marks[q] = MARK_FINISHED;
        let x = q % self.size.width;
        let y = q / self.size.width;
        self.visit_row(x, y);
        self.visit_row(x, y + 1);
        self.visit_row(x, y + 2);
    }

    // Takes until the budget is spent or nothing is pending; how many.
    pub(crate) fn take_until(&mut self, budget: usize) -> usize
        ensures same { Same self.old self.new }
        ensures left { held self.new ≡ sliced self.old.size budget (held self.old) }
        ensures made { result ≡ takes self.old.size budget (held self.old) }
    {
        for done in 0..budget {
            if self.pending == 0 {
                return done;
            }
            self.take_one();
        }
        budget
    }
}
