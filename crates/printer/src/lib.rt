// What the program prints for an input.
#![tactic(auto)]

ghost use Rattle.std.specs.Prelude.{◌≡◌, List, [], ◌∷◌, ◌++◌, ℕ, suc, ◌+◌, ◌≤◌, length, take};
ghost use Rattle.definitions.specs.Answer.{digits, printed};
ghost use Rattle.printer.specs.Texts.{Holds};

mod text;

pub use crate::text::Text;

impl Text {
    // No bytes.
    fn empty() -> Text
        ensures { Holds result [] }
    {
        Text {
            bytes: [0u8; 128],
            length: 0,
        }
    }

    // The text, a number in decimal, and the byte behind it; the text alone where there is no room for both.
    // Not `write!`: it may answer an error, of which nothing is promised, so that `lines` could not promise its bytes.
    fn with_number(self, n: u64, behind: u8) -> Text
        ensures grown { result.length ≤ self.length + 21 }
        ensures holds { (xs : List ℕ) → Holds self xs → length xs + 21 ≤ 128 → Holds result (xs ++ (digits (suc n) n ++ (behind ∷ []))) }
    {
        let at = self.length;
        if 107 < at {
            return self;
        }
        let mut figures = [0u8; 20];
        let count = io::decimal(n, &mut figures);
        let mut bytes = self.bytes;
        bytes[at..at + count].copy_from_slice(&figures[..count]);
        bytes[at + count] = behind;
        Text {
            bytes,
            length: at + count + 1,
        }
    }

    // The bytes that count.
    pub fn as_bytes(&self) -> &[u8]
        ensures { result.now ≡ take self.now.length self.now.bytes }
    {
        &self.bytes[..self.length]
    }
}

// The two lines for an input: check number and offset; run number, steps, words and value of a run without arguments, with 1,024 words and fuel 100,000.
pub fn lines(input: &[u8]) -> Text
    ensures { Holds result (printed input.now) }
{
    let image = &input[..input.len().min(16385)];
    let verdict = checker::check(image);
    let mut table = [0u64; 1024];
    let answer = runner::run(image, &[], 100000, &mut table);
    Text::empty()
        .with_number(verdict.number as u64, b' ')
        .with_number(verdict.offset as u64, b'\n')
        .with_number(answer.number as u64, b' ')
        .with_number(answer.steps as u64, b' ')
        .with_number(answer.words as u64, b' ')
        .with_number(answer.value, b'\n')
}
