// What programs in other languages call, through a static library.
#![tactic(auto)]

ghost use Rattle.std.specs.Prelude.{◌≡◌};
ghost use Rattle.definitions.specs.Reader.{fault};
ghost use Rattle.definitions.specs.FirstFault.{first_fault};
ghost use Rattle.definitions.specs.Answer.{answer};

// The number and offset of the first fault, laid out as C lays out a struct: C reads it, so it is not the check's own.
#[repr(C)]
#[derive(Clone, Copy, Debug, PartialEq, Eq)]
pub struct Verdict {
    pub number: u8,
    pub offset: u64,
}

impl From<checker::Verdict> for Verdict {
    ghost from_gives = { λ v r. (r.number ≡ v.number) × (r.offset ≡ v.offset) };

    fn from(verdict: checker::Verdict) -> Verdict {
        Verdict {
            number: verdict.number,
            offset: verdict.offset as u64,
        }
    }
}

// The first fault of a byte string: 0 at its length where there is none.
#[unsafe(no_mangle)]
pub extern "C" fn axcut_check(image: &[u8]) -> Verdict
    ensures { fault result.number result.offset ≡ first_fault image.now }
{
    Verdict::from(checker::check(image))
}

// How a run ended, or why it was refused; after how many steps, with how many words stored, and the exit value: C reads it, so it is not the run's own.
#[repr(C)]
#[derive(Clone, Copy, Debug, PartialEq, Eq)]
pub struct Answer {
    pub number: u8,
    pub steps: u32,
    pub words: u32,
    pub value: u64,
}

impl From<runner::Answer> for Answer {
    ghost from_gives = { λ a r. (r.number ≡ a.number) × ((r.steps ≡ a.steps) × ((r.words ≡ a.words) × (r.value ≡ a.value))) };

    fn from(answer: runner::Answer) -> Answer {
        Answer {
            number: answer.number,
            steps: answer.steps,
            words: answer.words,
            value: answer.value,
        }
    }
}

// The run of an image with arguments, fuel and a lent table: its answer, and the whole table after it.
#[unsafe(no_mangle)]
pub extern "C" fn axcut_run(image: &[u8], args: &[u64], fuel: u32, table: &mut [u64]) -> Answer
    ensures { answer image.now args.now fuel table.old ≡ record { number = result.number; steps = result.steps; words = result.words; value = result.value; table = table.new } }
{
    Answer::from(runner::run(image, args, fuel, table))
}
