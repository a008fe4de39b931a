// Readers of items: a byte, a count, a name; and the same reader again and again.
// Bytes and an offset go side by side, not as a cursor: a fault is told at an item's first byte when later ones have been read, so that each reader would keep a copy of the cursor.
ghost use Rattle.std.specs.Prelude.{◌≡◌, ℕ, ◌+◌, ◌*◌, ◌≤◌, length, get_or, drop};
ghost use mathlib.Core.List.{flat_map};
ghost use Rattle.definitions.specs.Terms.{Environment};
ghost use Rattle.definitions.specs.Layout.{type_bytes};
ghost use Rattle.definitions.specs.Reader.{expected};
ghost use Rattle.checker.specs.Shown.{forget, shown, Within, Next};
ghost use Rattle.checker.specs.Laid.{Laid, parameters_bytes};
ghost use Rattle.checker.specs.Readers.{ByteIs, CountIs, NameIs, FormIs, OperationIs, Repeated, CountedIs};

use crate::codes::{Form, Operation};
use crate::faults::{Fault, Refusal};

// The byte at `at`: 3.
pub(crate) fn byte(s: &[u8], at: usize) -> Result<u8, Fault>
    requires { at ≤ length s.now }
    ensures { ByteIs s.now at result }
{
    s.get(at).copied().ok_or(Refusal::Short.at(at))
}

// The count at `at`, from `least` to `most`: 3, then 4.
pub(crate) fn count(s: &[u8], at: usize, least: usize, most: usize) -> Result<usize, Fault>
    requires { at ≤ length s.now }
    ensures { CountIs s.now least most at result }
{
    let n = byte(s, at)? as usize;
    if n < least || most < n {
        return Err(Refusal::Count.at(at));
    }
    Ok(n)
}

// The byte at `at`, which names one of `many` things: 3, then 7.
pub(crate) fn name(s: &[u8], many: usize, at: usize) -> Result<usize, Fault>
    requires { at ≤ length s.now }
    ensures { NameIs s.now many at result }
{
    let i = byte(s, at)? as usize;
    if many <= i {
        return Err(Refusal::Unnamed.at(at));
    }
    Ok(i)
}

// The byte at `at`, which must be `wanted`: 3, then 9.
pub(crate) fn expect_byte(s: &[u8], wanted: u8, at: usize) -> Result<usize, Fault>
    requires { at ≤ length s.now }
    ensures next { Next at s.now result }
    ensures reads { forget (expected wanted at (drop at s.now)) ≡ shown s.now result }
{
    let found = byte(s, at)?;
    if found != wanted {
        return Err(Refusal::Clause.at(at));
    }
    Ok(at + 1)
}

// The form whose code stands at `at`: 3, then 6.
pub(crate) fn form(s: &[u8], at: usize) -> Result<Form, Fault>
    requires { at ≤ length s.now }
    ensures { FormIs s.now at result }
{
    let code = byte(s, at)?;
    Form::try_from(code).map_err(|_| Refusal::Unknown.at(at))
}

// The operation whose code stands at `at`, and where its arguments stand, behind its literal if it has one: 3, then 6, then 3 at the literal.
pub(crate) fn operation(s: &[u8], at: usize) -> Result<(Operation, usize), Fault>
    requires { at ≤ length s.now }
    ensures { OperationIs s.now at result }
{
    let code = byte(s, at)?;
    let operation = Operation::try_from(code).map_err(|_| Refusal::Unknown.at(at))?;
    let next = at + 1;
    if operation != Operation::Lit {
        return Ok((operation, next));
    }
    if s.len() - next < 8 {
        return Err(Refusal::Short.at(next));
    }
    Ok((operation, next + 8))
}

// `n` times `read`, each time from where it went on before.
pub(crate) fn repeat<F: Fn(usize) -> Result<usize, Fault>>(
    s: &[u8],
    at: usize,
    n: usize,
    read: F,
) -> Result<usize, Fault>
    requires start { at ≤ length s.now }
    requires may { (p : ℕ) → p ≤ length s.now → F.pre read p }
    requires goes_on { (p : ℕ) (r : _) → F.post read p r → Within p s.now r }
    ensures within { Within at s.now result }
    ensures repeated { Repeated (λ p r. F.post read p r) n at result }
{
    let mut p = at;
    for _ in 0..n {
        p = read(p)?;
    }
    Ok(p)
}

// A count of at most `most` at `at`, then `read` as many times.
pub(crate) fn counted<F: Fn(usize) -> Result<usize, Fault>>(
    s: &[u8],
    at: usize,
    most: usize,
    read: F,
) -> Result<usize, Fault>
    requires start { at ≤ length s.now }
    requires may { (p : ℕ) → p ≤ length s.now → F.pre read p }
    requires goes_on { (p : ℕ) (r : _) → F.post read p r → Within p s.now r }
    ensures within { Within at s.now result }
    ensures counted { CountedIs (λ p r. F.post read p r) s.now most at result }
{
    let many = count(s, at, 0, most)?;
    repeat(s, at + 1, many, read)
}

// The bytes of the types of the list of parameters at `list`.
pub(crate) fn parameters(image: &[u8], list: usize) -> &[u8]
    requires { list + 1 + 2 * get_or image.now list 0 ≤ length image.now }
    ensures length { length result.now ≡ 2 * get_or image.now list 0 }
    ensures types { (Γ : Environment) → Laid image.now list (parameters_bytes Γ) → result.now ≡ flat_map type_bytes Γ }
{
    let n = image[list] as usize;
    &image[list + 1..list + 1 + 2 * n]
}
