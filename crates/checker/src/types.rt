// A type as two bytes: its kind, and the number of its signature.
ghost use Rattle.std.specs.Prelude.{◌≡◌, [], ◌∷◌};
ghost use Rattle.definitions.specs.Terms.{prd, cns, ext};
ghost use Rattle.definitions.specs.Layout.{type_bytes};

// Constants and makers, not an enum: document 01, "Forms to follow", asks for them.
#[derive(Clone, Copy, Debug, PartialEq, Eq)]
pub(crate) struct Type {
    pub kind: u8,
    pub number: u8,
}

impl Type {
    pub(crate) const PRD: u8 = 0;

    pub(crate) const CNS: u8 = 1;

    pub(crate) const EXT: u8 = 2;

    // A producer of a signature.
    pub(crate) fn prd(signature: u8) -> Type
        ensures { type_bytes (prd signature) ≡ result.kind ∷ result.number ∷ [] }
    {
        Type {
            kind: Type::PRD,
            number: signature,
        }
    }

    // A consumer of a signature.
    pub(crate) fn cns(signature: u8) -> Type
        ensures { type_bytes (cns signature) ≡ result.kind ∷ result.number ∷ [] }
    {
        Type {
            kind: Type::CNS,
            number: signature,
        }
    }

    // An integer, which has no signature.
    pub(crate) fn ext() -> Type
        ensures { type_bytes ext ≡ result.kind ∷ result.number ∷ [] }
    {
        Type {
            kind: Type::EXT,
            number: 0,
        }
    }
}
