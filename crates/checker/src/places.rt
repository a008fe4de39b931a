// Where what stands in an image ends, and tables of where things stand.
ghost use Rattle.std.specs.Prelude.{◌≡◌, ℕ, ◌+◌, ◌≤◌, ◌<◌, List, length};
ghost use Rattle.definitions.specs.Terms.{Environment, Signature};
ghost use Rattle.definitions.specs.Typing.{At};
ghost use Rattle.checker.specs.Laid.{Laid, parameters_bytes, signature_bytes};
ghost use Rattle.checker.specs.Places.{Behind, Through, Chained};

// The offset behind the list of parameters at `at`; where none stands there, no further than the image's end or `at`.
pub(crate) fn skip_list(s: &[u8], at: usize) -> usize
    ensures within { (at ≤ length s.now → at ≤ result) × (at ≤ length s.now → result ≤ length s.now) }
    ensures behind { Behind parameters_bytes s.now at result }
{
    match s.get(at) {
        Some(count) => (at + 1 + 2 * *count as usize).min(s.len()),
        None => at,
    }
}

// The offset behind `n` lists of parameters from `at` on.
// The run has its own, `head::past_lists`, which tests nothing: one for both would be public, and so would have to answer for every input.
pub(crate) fn skip_lists(s: &[u8], at: usize, n: usize) -> usize
    ensures within { (at ≤ length s.now → at ≤ result) × (at ≤ length s.now → result ≤ length s.now) }
    ensures through { Through parameters_bytes s.now at n result }
{
    let mut p = at;
    for _ in 0..n {
        p = skip_list(s, p);
    }
    p
}

// The offset behind the signature at `at`.
pub(crate) fn skip_signature(s: &[u8], at: usize) -> usize
    ensures { Behind signature_bytes s.now at result }
{
    match s.get(at) {
        Some(count) => skip_lists(s, at + 1, *count as usize),
        None => at,
    }
}

// Where the parameter count of symbol `m` stands, of the signature whose symbol count stands at `at`.
pub(crate) fn symbol_at(s: &[u8], at: usize, m: usize) -> usize
    requires { at < length s.now }
    ensures within { (at < result) × (result ≤ length s.now) }
    ensures laid { (S : Signature) (Γ : Environment) → Laid s.now at (signature_bytes S) → At S m Γ → Laid s.now result (parameters_bytes Γ) }
{
    skip_lists(s, at + 1, m)
}

// Where each of `count` things stands, the first at `at` and each other where `skip` says that the one before ends.
// A table of 64, not a `Vec`: document 01 has no more signatures or labels, and nothing is allocated.
pub(crate) fn places<F: Fn(usize) -> usize>(at: usize, count: usize, skip: F) -> [usize; 64]
    requires few { count ≤ 64 }
    requires may { F.IsAlwaysCallable skip }
    ensures { Chained (λ p q. F.post skip p q) at count result }
{
    let mut table = [0usize; 64];
    let mut p = at;
    for i in 0..count {
        table[i] = p;
        p = skip(p);
    }
    table
}
