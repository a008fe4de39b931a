// What the check does with an environment: entries are taken, added, compared and named.
ghost use Rattle.std.specs.Prelude.{◌≡◌, [], ◌∷◌, ◌++◌, ◌+◌, ◌-◌, ◌≤◌, ◌<◌, length, take, drop};
ghost use mathlib.Core.List.{map};
ghost use mathlib.Core.Bool.{true};
ghost use Rattle.definitions.specs.Terms.{Ty, Environment};
ghost use Rattle.definitions.specs.Layout.{type_bytes};
ghost use Rattle.definitions.specs.Reader.{times};
ghost use Rattle.definitions.specs.FirstFault.{argument};
ghost use Rattle.checker.specs.Shown.{forget, shown, Within};
ghost use Rattle.checker.specs.Laid.{Holds};
ghost use Rattle.checker.specs.Entries.{Held, Below, NamedIs, Positions, gained};

use crate::env::Env;
use crate::faults::{Fault, Refusal};
use crate::readers::{name, repeat};
use crate::types::Type;

impl Env {
    // No entries.
    pub(crate) fn empty() -> Env
        ensures { result.width ≡ 0 }
    {
        Env {
            types: [[0u8; 2]; 32],
            width: 0,
        }
    }

    // The entries.
    pub(crate) fn entries(&self) -> &[[u8; 2]]
        ensures { result.now ≡ take self.now.width self.now.types }
    {
        &self.types[..self.width]
    }

    // The first entries alone.
    pub(crate) fn first(&self, kept: usize) -> Env
        requires { kept ≤ self.now.width }
        ensures types { result.types ≡ self.now.types }
        ensures width { result.width ≡ kept }
    {
        Env {
            types: self.types,
            width: kept,
        }
    }

    // The first entries, and one more behind them.
    // Written in place: an environment goes by value into each clause, and not from statement to statement.
    pub(crate) fn renew(&mut self, kept: usize, entry: Type)
        requires { kept < 32 }
        ensures { (Δ : Environment) (t : Ty) → Holds self.old.types kept Δ → type_bytes t ≡ entry.kind ∷ entry.number ∷ [] → Held self.new (Δ ++ (t ∷ [])) }
    {
        // an entry is its two bytes: nothing is copied here that a library call would copy
        self.types[kept] = [entry.kind, entry.number];
        self.width = kept + 1;
    }

    // The entries, and an integer behind them where one is gained.
    pub(crate) fn gaining(&self, gains: bool) -> Env
        requires { gains ≡ true → self.now.width < 32 }
        ensures { (Δ : Environment) → Held self.now Δ → Held result (Δ ++ gained gains) }
    {
        let mut env = *self;
        if gains {
            env.renew(self.width, Type::ext());
        }
        env
    }

    // The entries, these behind them, and the last ones behind those.
    pub(crate) fn followed_by(&self, entries: &[[u8; 2]], last: &[[u8; 2]]) -> Env
        requires { self.now.width + length entries.now + length last.now ≤ 32 }
        ensures { (Δ Γ Λ : Environment) → Held self.now Δ → entries.now ≡ map type_bytes Γ → last.now ≡ map type_bytes Λ → Held result (Δ ++ Γ ++ Λ) }
    {
        let between = self.width + entries.len();
        let mut types = self.types;
        put(&mut types, self.width, entries);
        put(&mut types, between, last);
        Env {
            types,
            width: between + last.len(),
        }
    }

    // The entries that these positions name, in that order.
    // The run has its own, `entries::gather`: see `places::skip_lists`.
    pub(crate) fn named(&self, positions: &[u8]) -> Env
        requires few { length positions.now ≤ 32 }
        requires known { Below positions.now 0 (length positions.now) self.now.width }
        ensures { NamedIs self.now positions.now result }
    {
        let mut types = [[0u8; 2]; 32];
        for (i, position) in positions.iter().enumerate() {
            types[i] = self.types[*position as usize];
        }
        Env {
            types,
            width: positions.len(),
        }
    }
}

// Entries from `at` on.
fn put(types: &mut [[u8; 2]; 32], at: usize, entries: &[[u8; 2]])
    requires { at + length entries.now ≤ 32 }
    ensures { take (at + length entries.now) types.new ≡ take at types.old ++ entries.now }
{
    types[at..at + entries.len()].copy_from_slice(entries);
}

// `count` positions from `at` on, each below `width`; of the environment nothing else is needed.
// Those that are there are a slice, so that only the width is tested at each: `repeat` would test the region's end as often.
pub(crate) fn positions(s: &[u8], width: usize, at: usize, count: usize) -> Result<usize, Fault>
    requires { at ≤ length s.now }
    ensures within { Within at s.now result }
    ensures positions { Positions s.now width at count result }
{
    let there = (s.len() - at).min(count);
    for (i, position) in s[at..at + there].iter().enumerate() {
        if width <= *position as usize {
            return Err(Refusal::Unnamed.at(at + i));
        }
    }
    if there < count {
        return Err(Refusal::Short.at(at + there));
    }
    Ok(at + count)
}

// The position at `at`, of an entry of the type ext.
pub(crate) fn ext_at(s: &[u8], env: &Env, at: usize) -> Result<usize, Fault>
    requires { at ≤ length s.now }
    ensures within { Within at s.now result }
    ensures reads { (Δ : Environment) → Holds env.now.types env.now.width Δ → forget (argument Δ at (drop at s.now)) ≡ shown s.now result }
{
    let position = name(s, env.width, at)?;
    if env.types[position][0] != Type::EXT {
        return Err(Refusal::Untyped.at(at));
    }
    Ok(at + 1)
}

// `n` positions from `at` on, each of an entry of the type ext.
pub(crate) fn arguments(s: &[u8], env: &Env, at: usize, n: usize) -> Result<usize, Fault>
    requires { at ≤ length s.now }
    ensures within { Within at s.now result }
    ensures reads { (Δ : Environment) → Holds env.now.types env.now.width Δ → forget (times n (argument Δ) at (drop at s.now)) ≡ shown s.now result }
{
    repeat(s, at, n, |p| ext_at(s, env, p))
}
