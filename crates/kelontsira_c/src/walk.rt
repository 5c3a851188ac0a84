// The walk for C: its state is three lent numbers, which a refusal leaves as they were.
ghost use Rattle.std.specs.Prelude.{◌≡◌};
ghost use Rattle.rules.specs.Calls as Calls;
ghost use Rattle.kelontsira.specs.Exports.{sides, between, walk_of, start_says, slice_says, map_says};

#[unsafe(no_mangle)]
pub extern "C" fn kelontsira_start(
    magnitudes: &[f32],
    width: usize,
    height: usize,
    low: f32,
    high: f32,
    marks: &mut [u8],
    stack: &mut [u32],
    wide: &mut usize,
    tall: &mut usize,
    pending: &mut usize,
) -> u8
    ensures { (result, ((wide.new, (tall.new, pending.new)), (marks.new, stack.new)))
        ≡ start_says (wide.old, (tall.old, pending.old))
        (Calls.start (sides width height) (between low high) magnitudes.now marks.old stack.old) }
{
    kelontsira::walk::kelontsira_start(
        magnitudes, width, height, low, high, marks, stack, wide, tall, pending,
    )
}

#[unsafe(no_mangle)]
pub extern "C" fn kelontsira_slice(
    wide: &mut usize,
    tall: &mut usize,
    pending: &mut usize,
    budget: usize,
    marks: &mut [u8],
    stack: &mut [u32],
    takes: &mut usize,
) -> u8
    ensures { (result, ((takes.new, (wide.new, (tall.new, pending.new))), (marks.new, stack.new)))
        ≡ slice_says takes.old (wide.old, (tall.old, pending.old))
        (Calls.slice (walk_of wide.old tall.old pending.old) budget marks.old stack.old) }
{
    kelontsira::walk::kelontsira_slice(wide, tall, pending, budget, marks, stack, takes)
}

#[unsafe(no_mangle)]
pub extern "C" fn kelontsira_map(
    wide: usize,
    tall: usize,
    pending: usize,
    marks: &[u8],
    stack: &[u32],
    out: &mut [u8],
) -> u8
    ensures { (result, out.new)
        ≡ map_says (Calls.map (walk_of wide tall pending) marks.now stack.now out.old) }
{
    kelontsira::walk::kelontsira_map(wide, tall, pending, marks, stack, out)
}
