// A region of an image, with what has to be known to read it.
ghost use Rattle.std.specs.Prelude.{◌≤◌, length};
ghost use Rattle.checker.specs.Laid.{Known, parameters_bytes, signature_bytes};

// The bytes of a region, with all that stand before it, so that offsets are those of the image; how many clauses deep it is; and where each signature and each label's list of types stands.
#[derive(Clone, Copy)]
pub(crate) struct Region<'a> {
    pub image: &'a [u8],
    pub sigs: &'a [usize],
    pub labels: &'a [usize],
    pub bytes: &'a [u8],
    pub depth: usize,
    ghost short: { length image.now ≤ 16384 },
    ghost signed: { ∥ Known signature_bytes image.now sigs.now ∥₁ },
    ghost labelled: { ∥ Known parameters_bytes image.now labels.now ∥₁ },
    ghost shallow: { depth ≤ 48 },
}
