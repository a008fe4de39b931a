// A text of at most 128 bytes.
ghost use Rattle.std.specs.Prelude.{◌≤◌};

// Bytes, of which the first `length` count; the others are 0.
// Not a `String`: nothing is allocated.
#[derive(Clone, Copy, Debug, PartialEq, Eq)]
pub struct Text {
    pub bytes: [u8; 128],
    pub length: usize,
    ghost fits: { length ≤ 128 },
}
