// An environment of the check.
ghost use Rattle.std.specs.Prelude.{◌≡◌, ◌≤◌, length};

// An array of types, two bytes each, and its width beside it: the first `width` types count.
// Not a `Vec`: document 01, "Forms to follow", asks for the array by value with its width, and nothing is allocated.
#[derive(Clone, Copy)]
pub(crate) struct Env {
    pub types: [[u8; 2]; 32],
    pub width: usize,
    ghost full: { length types ≡ 32 },
    ghost narrow: { width ≤ 32 },
}
