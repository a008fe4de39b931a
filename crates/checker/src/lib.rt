// The check: the first fault of every byte string.
#![tactic(auto)]

ghost use Rattle.std.specs.Prelude.{◌≡◌};
ghost use Rattle.definitions.specs.Reader.{fault};
ghost use Rattle.definitions.specs.FirstFault.{first_fault};

pub mod codes;
mod entries;
mod env;
mod faults;
mod forms;
mod head;
mod places;
mod readers;
mod region;
mod regions;
mod statements;
mod types;
mod whole;

// The number and offset of the first fault: 0 at the image's length where there is none.
// A number, not a `Refusal`: the promise of `check` names document 01's number, 0 included.
#[derive(Clone, Copy, Debug, PartialEq, Eq)]
pub struct Verdict {
    pub number: u8,
    pub offset: usize,
}

// The first fault of a byte string.
pub fn check(image: &[u8]) -> Verdict
    ensures { fault result.number result.offset ≡ first_fault image.now }
{
    match whole::read_image(image) {
        Ok(end) => Verdict {
            number: 0,
            offset: end,
        },
        Err(fault) => Verdict {
            number: fault.refusal.number(),
            offset: fault.offset,
        },
    }
}
