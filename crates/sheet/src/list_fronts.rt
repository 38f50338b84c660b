// A list stored at the front of another. The function takes every input.

ghost use Rattle.std.specs.Prelude.{◌≡◌, length};
ghost use Rattle.sheet.specs.Copied.{copied};

// Stores a list at the front of another, or nothing where that is shorter.
#[tactic(auto, using(crate::proofs::Copies::stored_front, crate::proofs::Copies::unfitting))]
pub(crate) fn copy_front<T: Copy>(xs: &[T], out: &mut [T])
    ensures { out.new ≡ copied xs.now (length xs.now) out.old }
{
    if xs.len() <= out.len() {
        out[..xs.len()].copy_from_slice(xs);
    }
}
