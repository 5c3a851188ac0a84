// A buffer filled by a rule of the index.
ghost use Rattle.std.specs.Prelude.{◌≡◌, ◌<◌, ℕ, length};
ghost use Rattle.rules.specs.Picture.{filled};
ghost use Rattle.gradient.specs.Gives.{Gives};

// Writes `value` of each index. What the closure ensures of it, by whatever rule f, stands in the buffer.
pub(crate) fn fill_by<T: Copy, F: Fn(usize) -> T>(out: &mut [T], value: F)
    requires { (i : ℕ) → i < length out.old → F.pre value i }
    ensures { (f : ℕ → T) → Gives (F.post value) (length out.old) f → out.new ≡ filled (length out.old) f out.old }
{
    for (i, entry) in out.iter_mut().enumerate() {
        *entry = value(i);
    }
}
