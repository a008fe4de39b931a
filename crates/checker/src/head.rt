// The head of an image: types, signatures, labels.
// The number of signatures goes beside bytes and offset, not in a struct with them: it is a parameter of the definitions' readers, and each reader here is one of those.
ghost use Rattle.std.specs.Prelude.{◌≡◌, ◌≤◌, length, drop};
ghost use Rattle.definitions.specs.Reader.{times, count, counted};
ghost use Rattle.definitions.specs.FirstFault.{type, entry_type, signature, signatures, label, labels};
ghost use Rattle.checker.specs.Shown.{forget, shown, Within};
ghost use Rattle.checker.specs.Laid.{parameters_bytes, signature_bytes};
ghost use Rattle.checker.specs.Places.{PlacedFrom};

use crate::faults::{Fault, Refusal};
use crate::places::{places, skip_list, skip_signature};
use crate::readers::{byte, count, counted, name, repeat};
use crate::types::Type;

// The type at `at`, of an image with `sigs` signatures.
pub(crate) fn read_type(s: &[u8], sigs: usize, at: usize) -> Result<usize, Fault>
    requires { at ≤ length s.now }
    ensures within { Within at s.now result }
    ensures reads { forget (type sigs at (drop at s.now)) ≡ shown s.now result }
{
    let kind = byte(s, at)?;
    if kind < Type::EXT {
        name(s, sigs, at + 1)?;
        return Ok(at + 2);
    }
    if kind != Type::EXT {
        return Err(Refusal::Unknown.at(at));
    }
    let number = byte(s, at + 1)?;
    if number != 0 {
        return Err(Refusal::Unknown.at(at + 1));
    }
    Ok(at + 2)
}

// The list of types at `at`, a symbol's or a label's: a parameter count of at most `most`, then as many types.
pub(crate) fn read_list(s: &[u8], sigs: usize, most: usize, at: usize) -> Result<usize, Fault>
    requires { at ≤ length s.now }
    ensures within { Within at s.now result }
    ensures reads { forget (counted (count 0 most) (type sigs) at (drop at s.now)) ≡ shown s.now result }
{
    counted(s, at, most, |p| read_type(s, sigs, p))
}

// The signature at `at`: a symbol count, then its symbols.
pub(crate) fn read_signature(s: &[u8], sigs: usize, at: usize) -> Result<usize, Fault>
    requires { at ≤ length s.now }
    ensures within { Within at s.now result }
    ensures reads { forget (signature sigs at (drop at s.now)) ≡ shown s.now result }
{
    counted(s, at, 32, |p| read_list(s, sigs, 16, p))
}

// The signatures, from their count at `at` on.
pub(crate) fn read_signatures(s: &[u8], at: usize) -> Result<usize, Fault>
    requires { at ≤ length s.now }
    ensures within { Within at s.now result }
    ensures reads { forget (signatures at (drop at s.now)) ≡ shown s.now result }
{
    let many = count(s, at, 0, 64)?;
    repeat(s, at + 1, many, |p| read_signature(s, many, p))
}

// The type at `at` of a parameter of the entry, which has to be `ext`.
pub(crate) fn read_entry_type(s: &[u8], sigs: usize, at: usize) -> Result<usize, Fault>
    requires { at ≤ length s.now }
    ensures within { Within at s.now result }
    ensures reads { forget (entry_type sigs at (drop at s.now)) ≡ shown s.now result }
{
    let kind = byte(s, at)?;
    let next = read_type(s, sigs, at)?;
    if kind != Type::EXT {
        return Err(Refusal::Untyped.at(at));
    }
    Ok(next)
}

// The entry, label 0, at `at`: a parameter count, then its types.
pub(crate) fn read_entry_label(s: &[u8], sigs: usize, at: usize) -> Result<usize, Fault>
    requires { at ≤ length s.now }
    ensures within { Within at s.now result }
    ensures reads { forget (label (entry_type sigs) at (drop at s.now)) ≡ shown s.now result }
{
    counted(s, at, 32, |p| read_entry_type(s, sigs, p))
}

// The labels, from their count at `at` on.
pub(crate) fn read_labels(s: &[u8], sigs: usize, at: usize) -> Result<usize, Fault>
    requires { at ≤ length s.now }
    ensures within { Within at s.now result }
    ensures reads { forget (labels sigs at (drop at s.now)) ≡ shown s.now result }
{
    let many = count(s, at, 1, 64)?;
    let others = read_entry_label(s, sigs, at + 1)?;
    repeat(s, others, many - 1, |p| read_list(s, sigs, 32, p))
}

// Where each of the `count` signatures from `at` on stands.
pub(crate) fn place_signatures(s: &[u8], at: usize, count: usize) -> [usize; 64]
    requires { count ≤ 64 }
    ensures { PlacedFrom signature_bytes s.now at count result }
{
    places(at, count, |p| skip_signature(s, p))
}

// Where each of the `count` labels' lists from `at` on stands.
pub(crate) fn place_labels(s: &[u8], at: usize, count: usize) -> [usize; 64]
    requires { count ≤ 64 }
    ensures { PlacedFrom parameters_bytes s.now at count result }
{
    places(at, count, |p| skip_list(s, p))
}
