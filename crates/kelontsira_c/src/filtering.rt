// The filters for C: resolver, kernels, blurs, sharpen, median and Sobel's bytes.
ghost use Rattle.std.specs.Prelude.{◌≡◌};
ghost use Rattle.rules.specs.Calls as Calls;
ghost use Rattle.rules.specs.Root.{sobel_byte};
ghost use Rattle.kelontsira.specs.Exports.{sides, kernel_of, taps_of, bordered, placed};

#[unsafe(no_mangle)]
pub extern "C" fn kelontsira_resolve_coord(
    coord: i64,
    side: usize,
    border: u8,
    place: &mut usize,
) -> u8
    ensures { (result, place.new)
        ≡ bordered border place.old (λ b. placed side place.old (Calls.resolve_coord coord side b)) }
{
    kelontsira::filtering::kelontsira_resolve_coord(coord, side, border, place)
}

#[unsafe(no_mangle)]
pub extern "C" fn kelontsira_apply_kernel(
    pixels: &[u8],
    width: usize,
    height: usize,
    columns: usize,
    rows: usize,
    weights: &[f32],
    border: u8,
    out: &mut [u8],
) -> u8
    ensures { (result, out.new)
        ≡ bordered border out.old
        (λ b. Calls.apply_kernel (sides width height) (kernel_of columns rows) b pixels.now weights.now out.old) }
{
    kelontsira::filtering::kelontsira_apply_kernel(
        pixels, width, height, columns, rows, weights, border, out,
    )
}

#[unsafe(no_mangle)]
pub extern "C" fn kelontsira_apply_separable_kernel(
    pixels: &[u8],
    width: usize,
    height: usize,
    across: usize,
    down: usize,
    horizontal: &[f32],
    vertical: &[f32],
    border: u8,
    work: &mut [f32],
    out: &mut [u8],
) -> u8
    ensures { (result, (work.new, out.new))
        ≡ bordered border (work.old, out.old)
        (λ b. Calls.apply_separable_kernel (sides width height) (taps_of across down) b pixels.now horizontal.now
        vertical.now work.old out.old) }
{
    kelontsira::filtering::kelontsira_apply_separable_kernel(
        pixels, width, height, across, down, horizontal, vertical, border, work, out,
    )
}

#[unsafe(no_mangle)]
pub extern "C" fn kelontsira_gaussian_blur(
    pixels: &[u8],
    width: usize,
    height: usize,
    taps: &[f32],
    border: u8,
    work: &mut [f32],
    out: &mut [u8],
) -> u8
    ensures { (result, (work.new, out.new))
        ≡ bordered border (work.old, out.old)
        (λ b. Calls.gaussian_blur (sides width height) b pixels.now taps.now work.old out.old) }
{
    kelontsira::filtering::kelontsira_gaussian_blur(pixels, width, height, taps, border, work, out)
}

#[unsafe(no_mangle)]
pub extern "C" fn kelontsira_box_blur(
    pixels: &[u8],
    width: usize,
    height: usize,
    border: u8,
    work: &mut [f32],
    out: &mut [u8],
) -> u8
    ensures { (result, (work.new, out.new))
        ≡ bordered border (work.old, out.old)
        (λ b. Calls.box_blur (sides width height) b pixels.now work.old out.old) }
{
    kelontsira::filtering::kelontsira_box_blur(pixels, width, height, border, work, out)
}

#[unsafe(no_mangle)]
pub extern "C" fn kelontsira_sharpen(
    pixels: &[u8],
    width: usize,
    height: usize,
    border: u8,
    out: &mut [u8],
) -> u8
    ensures { (result, out.new)
        ≡ bordered border out.old (λ b. Calls.sharpen (sides width height) b pixels.now out.old) }
{
    kelontsira::filtering::kelontsira_sharpen(pixels, width, height, border, out)
}

#[unsafe(no_mangle)]
pub extern "C" fn kelontsira_median(
    pixels: &[u8],
    width: usize,
    height: usize,
    window: usize,
    border: u8,
    out: &mut [u8],
) -> u8
    ensures { (result, out.new)
        ≡ bordered border out.old (λ b. Calls.median (sides width height) window b pixels.now out.old) }
{
    kelontsira::filtering::kelontsira_median(pixels, width, height, window, border, out)
}

#[unsafe(no_mangle)]
pub extern "C" fn kelontsira_sobel(
    pixels: &[u8],
    width: usize,
    height: usize,
    border: u8,
    out: &mut [u8],
) -> u8
    ensures { (result, out.new)
        ≡ bordered border out.old (λ b. Calls.sobel (sides width height) b pixels.now out.old) }
{
    kelontsira::filtering::kelontsira_sobel(pixels, width, height, border, out)
}

#[unsafe(no_mangle)]
pub extern "C" fn kelontsira_sobel_byte(s: u32) -> u8
    ensures { result ≡ sobel_byte s }
{
    kelontsira::filtering::kelontsira_sobel_byte(s)
}
