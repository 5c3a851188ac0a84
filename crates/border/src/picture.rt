// A byte of a lent picture, by the places of its column and its row.
ghost use Rattle.std.specs.Prelude.{◌≡◌};
ghost use Rattle.border.specs.Reading.{read_in};

use refusals::filter::of_picture;
use rules::Size;

// The byte in column x and row y, each as `place` gives it: 0 where one of them is nowhere, and of a picture that is refused.
pub fn read(pixels: &[u8], size: Size, x: usize, y: usize) -> u8
    ensures { result ≡ read_in pixels.now size x y }
{
    if of_picture(pixels, size).is_err() {
        return 0;
    }
    if size.width <= x {
        return 0;
    }
    if size.height <= y {
        return 0;
    }
    let i = y * size.width + x;
    pixels[i]
}
