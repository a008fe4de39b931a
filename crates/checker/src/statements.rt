// Statements and clauses, which contain one another.
ghost use Rattle.std.specs.Prelude.{◌≤◌, ◌<◌, ◌+◌, length};
ghost use Rattle.definitions.specs.FirstFault.{an_extern, a_new, a_switch};
ghost use Rattle.checker.specs.Laid.{SignatureAt};
ghost use Rattle.checker.specs.Shown.{Within};
ghost use Rattle.checker.specs.Forms.{EndsIs, GoesIs, leaving};
ghost use Rattle.checker.specs.Statements.{StatementIs, RegionIs, ClausesAre, BareAre};

use crate::codes::Form;
use crate::entries::arguments;
use crate::env::Env;
use crate::faults::{Fault, Refusal};
use crate::forms::{invoke, jump, let_, new_head, substitute, switch_head};
use crate::readers::{expect_byte, form, operation, parameters};
use crate::region::Region;
use crate::types::Type;

// The statement at `at`: those that follow one another are walked by the loop.
#[cycle(walk)]
pub(crate) fn statement(region: &Region<'_>, env: Env, at: usize) -> Result<usize, Fault>
    requires { at ≤ length region.now.bytes.now }
    ensures within { Within at region.now.bytes.now result }
    ensures reads { StatementIs region.now env at result }
{
    let mut e = env;
    let mut p = at;
    loop {
        // a `match`, not a table of closures: the forms are the paper's, and it is checked to be whole
        p = match form(region.bytes, p)? {
            Form::Jump => return jump(region, &e, p),
            Form::Substitute => substitute(region, &mut e, p)?,
            Form::Extern => return extern_(region, &e, p),
            Form::Let => let_(region, &mut e, p)?,
            Form::New => new_(region, &mut e, p)?,
            Form::Switch => return switch_(region, &e, p),
            Form::Invoke => return invoke(region, &e, p),
        };
    }
}

// extern, of which the code stands at `at`.
#[cycle(walk)]
fn extern_(region: &Region<'_>, env: &Env, at: usize) -> Result<usize, Fault>
    requires { at < length region.now.bytes.now }
    ensures within { Within at region.now.bytes.now result }
    ensures reads { EndsIs an_extern region.now env.now at result }
{
    let (code, next) = operation(region.bytes, at + 1)?;
    let first = arguments(region.bytes, env, next, code.arguments())?;
    bare_clauses(region, env, code.gains(), first, code.clauses())
}

// new with its clauses, of which the code stands at `at`: where its remainder stands; the environment is left as that has it.
#[cycle(walk)]
fn new_(region: &Region<'_>, env: &mut Env, at: usize) -> Result<usize, Fault>
    requires { at < length region.now.bytes.now }
    ensures { GoesIs a_new region.now env.old at (leaving env.new result) }
{
    let (sig, captures) = new_head(region, env, at)?;
    let kept = env.width - captures;
    let on = clauses(region, &Env::empty(), &env.entries()[kept..], at + 4, sig)?;
    if kept == 32 {
        return Err(Refusal::Wide.at(at));
    }
    env.renew(kept, Type::cns(region.bytes[at + 1]));
    Ok(on)
}

// switch with its clauses, of which the code stands at `at`.
#[cycle(walk)]
fn switch_(region: &Region<'_>, env: &Env, at: usize) -> Result<usize, Fault>
    requires { at < length region.now.bytes.now }
    ensures within { Within at region.now.bytes.now result }
    ensures reads { EndsIs a_switch region.now env.now at result }
{
    let sig = switch_head(region, env, at)?;
    let kept = env.width - 1;
    clauses(region, &env.first(kept), &env.entries()[..0], at + 3, sig)
}

// `many` clauses without symbol byte from `at` on, each with this environment, and with one integer more where it is gained.
#[cycle(walk)]
fn bare_clauses(
    region: &Region<'_>,
    env: &Env,
    gains: bool,
    at: usize,
    many: usize,
) -> Result<usize, Fault>
    requires { at ≤ length region.now.bytes.now }
    ensures within { Within at region.now.bytes.now result }
    ensures reads { BareAre region.now env.now gains many at result }
{
    let mut p = at;
    for _ in 0..many {
        if gains && env.width == 32 {
            return Err(Refusal::Wide.at(p));
        }
        if region.depth == 48 {
            return Err(Refusal::Deep.at(p));
        }
        p = in_region(region, env.gaining(gains), region.depth + 1, p)?;
    }
    Ok(p)
}

// The clauses from `at` on, one for each symbol of the signature at `sig`: each starts with the entries before, its symbol's parameters, and the entries behind.
#[cycle(walk)]
fn clauses(
    region: &Region<'_>,
    before: &Env,
    behind: &[[u8; 2]],
    at: usize,
    sig: usize,
) -> Result<usize, Fault>
    requires inside { at ≤ length region.now.bytes.now }
    requires signature { ∥ SignatureAt region.now.image.now sig ∥₁ }
    ensures within { Within at region.now.bytes.now result }
    ensures reads { ClausesAre region.now before.now behind.now sig at result }
{
    let mut p = at;
    let mut list = sig + 1;
    for symbol in 0..region.image[sig] {
        let length_field = expect_byte(region.bytes, symbol, p)?;
        let (fields, _) = parameters(region.image, list).as_chunks();
        if 32 < before.width + fields.len() + behind.len() {
            return Err(Refusal::Wide.at(p));
        }
        if region.depth == 48 {
            return Err(Refusal::Deep.at(p));
        }
        let inner = before.followed_by(fields, behind);
        p = in_region(region, inner, region.depth + 1, length_field)?;
        list = list + 1 + 2 * fields.len();
    }
    Ok(p)
}

// The region of which the length field stands at `at`, so many clauses deep, filled by one statement.
#[cycle(walk)]
pub(crate) fn in_region(
    region: &Region<'_>,
    env: Env,
    depth: usize,
    at: usize,
) -> Result<usize, Fault>
    requires inside { at ≤ length region.now.bytes.now }
    requires shallow { depth ≤ 48 }
    ensures within { Within at region.now.bytes.now result }
    ensures reads { RegionIs region.now env depth at result }
{
    let bytes = region.bytes;
    if bytes.len() - at < 2 {
        return Err(Refusal::Short.at(at));
    }
    let size = u16::from_be_bytes([bytes[at], bytes[at + 1]]) as usize;
    let start = at + 2;
    if bytes.len() - start < size {
        return Err(Refusal::Short.at(at));
    }
    let end = start + size;
    let stopped = statement(&region.up_to(end, depth), env, start)?;
    if stopped != end {
        return Err(Refusal::Left.at(stopped));
    }
    Ok(end)
}
