// Buffers cleared, and bytes counted: what a whole run ends with, and its stages begin with. Every function is total: of a
// buffer with fewer than n entries, all that it has. How many entries count travels beside the buffer, since each clause speaks of the whole
// of it, what lies past them included.
#![tactic(auto)]

ghost use Rattle.std.specs.Prelude.{◌≡◌, ◌+◌, ◌-◌, ◌≤◌, min, length, pos};
ghost use Rattle.rules.specs.Sums.{plus_zero};
ghost use Rattle.rules.specs.Walk.{count};
ghost use Rattle.scratch.specs.Cleared.{cleared_to};

// The first n entries. Kept a loop: the library's `fill` needs a `clone` that cannot fail, and `T: Copy` says nothing of that.
pub fn clear<T: Copy>(buffer: &mut [T], n: usize, zero: T)
    ensures { buffer.new ≡ cleared_to n zero buffer.old }
{
    let most = n.min(buffer.len());
    for entry in &mut buffer[..most] {
        *entry = zero;
    }
}

// What the stages up to suppression worked in.
pub fn clear_stages(
    magnitude: &mut [f32],
    gx: &mut [i16],
    gy: &mut [i16],
    blurred: &mut [u8],
    n: usize,
)
    ensures { (magnitude.new ≡ cleared_to n plus_zero magnitude.old)
        × (gx.new ≡ cleared_to n (pos 0) gx.old)
        × (gy.new ≡ cleared_to n (pos 0) gy.old)
        × (blurred.new ≡ cleared_to n 0 blurred.old) }
{
    clear(magnitude, n, 0.0);
    clear(gx, n, 0);
    clear(gy, n, 0);
    clear(blurred, n, 0);
}

// What the walk worked in, with the magnitudes that it read.
pub fn clear_walk(work: &mut [f32], marks: &mut [u8], stack: &mut [u32], n: usize)
    ensures { (work.new ≡ cleared_to n plus_zero work.old)
        × (marks.new ≡ cleared_to n 0 marks.old)
        × (stack.new ≡ cleared_to n 0 stack.old) }
{
    clear(work, n, 0.0);
    clear(marks, n, 0);
    clear(stack, n, 0);
}

// How many entries of a block are v: counted in a byte, so that the loop looks at many at once.
fn count_block(block: &[u8], v: u8) -> u8
    requires { length block.now ≤ 255 }
    ensures { result ≡ count v block.now (length block.now) }
{
    let mut found = 0;
    for byte in block {
        if *byte == v {
            found += 1;
        }
    }
    found
}

// No byte counts more.
const BLOCK: usize = 255;

// How many of the first n entries are v.
pub fn count_of(bytes: &[u8], v: u8, n: usize) -> usize
    ensures { (result ≤ n) × (result ≡ count v bytes.now (min n (length bytes.now))) }
{
    let most = n.min(bytes.len());
    let mut found = 0;
    for block in bytes[..most].chunks(BLOCK) {
        found += count_block(block, v) as usize;
    }
    found
}
