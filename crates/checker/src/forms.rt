// The forms of statements, up to their clauses or their remainder.
ghost use Rattle.std.specs.Prelude.{◌+◌, ◌<◌, length};
ghost use Rattle.definitions.specs.FirstFault.{a_jump, a_substitute, a_let, an_invoke};
ghost use Rattle.checker.specs.Shown.{Within};
ghost use Rattle.checker.specs.Forms.{EndsIs, GoesIs, NewIs, SwitchIs, leaving};

use crate::entries::positions;
use crate::env::Env;
use crate::faults::{Fault, Refusal};
use crate::places::symbol_at;
use crate::readers::{byte, count, expect_byte, name, parameters};
use crate::region::Region;
use crate::types::Type;

// jump, of which the code stands at `at`.
pub(crate) fn jump(region: &Region<'_>, env: &Env, at: usize) -> Result<usize, Fault>
    requires { at < length region.now.bytes.now }
    ensures within { Within at region.now.bytes.now result }
    ensures reads { EndsIs a_jump region.now env.now at result }
{
    let label = name(region.bytes, region.labels.len(), at + 1)?;
    let wanted = parameters(region.image, region.labels[label]);
    if env.entries().as_flattened() != wanted {
        return Err(Refusal::Untyped.at(at));
    }
    Ok(at + 2)
}

// substitute, of which the code stands at `at`: where its remainder stands; the environment is left as that has it.
pub(crate) fn substitute(region: &Region<'_>, env: &mut Env, at: usize) -> Result<usize, Fault>
    requires { at < length region.now.bytes.now }
    ensures { GoesIs a_substitute region.now env.old at (leaving env.new result) }
{
    let named = count(region.bytes, at + 1, 0, 32)?;
    let on = positions(region.bytes, env.width, at + 2, named)?;
    *env = env.named(&region.bytes[at + 2..on]);
    Ok(on)
}

// let, of which the code stands at `at`: where its remainder stands; the environment is left as that has it.
pub(crate) fn let_(region: &Region<'_>, env: &mut Env, at: usize) -> Result<usize, Fault>
    requires { at < length region.now.bytes.now }
    ensures { GoesIs a_let region.now env.old at (leaving env.new result) }
{
    let t = name(region.bytes, region.sigs.len(), at + 1)?;
    let sig = region.sigs[t];
    let m = name(region.bytes, region.image[sig] as usize, at + 2)?;
    let fields = parameters(region.image, symbol_at(region.image, sig, m));
    if !env.entries().as_flattened().ends_with(fields) {
        return Err(Refusal::Untyped.at(at));
    }
    let kept = env.width - fields.len() / 2;
    if kept == 32 {
        return Err(Refusal::Wide.at(at));
    }
    env.renew(kept, Type::prd(region.bytes[at + 1]));
    Ok(at + 3)
}

// new, up to its clauses: where its signature stands, and how many entries it captures.
pub(crate) fn new_head(region: &Region<'_>, env: &Env, at: usize) -> Result<(usize, usize), Fault>
    requires { at < length region.now.bytes.now }
    ensures { NewIs region.now env.now at result }
{
    let t = name(region.bytes, region.sigs.len(), at + 1)?;
    let sig = region.sigs[t];
    let captures = byte(region.bytes, at + 2)? as usize;
    if env.width < captures {
        return Err(Refusal::Untyped.at(at + 2));
    }
    expect_byte(region.bytes, region.image[sig], at + 3)?;
    Ok((sig, captures))
}

// switch, up to its clauses: where its signature stands.
pub(crate) fn switch_head(region: &Region<'_>, env: &Env, at: usize) -> Result<usize, Fault>
    requires { at < length region.now.bytes.now }
    ensures { SwitchIs region.now env.now at result }
{
    let t = name(region.bytes, region.sigs.len(), at + 1)?;
    if env.entries().last() != Some(&[Type::PRD, region.bytes[at + 1]]) {
        return Err(Refusal::Untyped.at(at));
    }
    let sig = region.sigs[t];
    expect_byte(region.bytes, region.image[sig], at + 2)?;
    Ok(sig)
}

// invoke, of which the code stands at `at`.
pub(crate) fn invoke(region: &Region<'_>, env: &Env, at: usize) -> Result<usize, Fault>
    requires { at < length region.now.bytes.now }
    ensures within { Within at region.now.bytes.now result }
    ensures reads { EndsIs an_invoke region.now env.now at result }
{
    let untyped = Refusal::Untyped.at(at);
    let (last, others) = env.entries().split_last().ok_or(untyped)?;
    // the kind alone: its signature is looked up next
    if last[0] != Type::CNS {
        return Err(untyped);
    }
    let sig = *region.sigs.get(last[1] as usize).ok_or(untyped)?;
    let m = name(region.bytes, region.image[sig] as usize, at + 1)?;
    let wanted = parameters(region.image, symbol_at(region.image, sig, m));
    if others.as_flattened() != wanted {
        return Err(untyped);
    }
    Ok(at + 2)
}
