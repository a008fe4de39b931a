// The bodies, and the image from end to end.
ghost use Rattle.std.specs.Prelude.{◌≡◌, ◌≤◌, length, drop};
ghost use Rattle.definitions.specs.FirstFault.{program, read_image};
ghost use Rattle.checker.specs.Shown.{forget, shown, Within};
ghost use Rattle.checker.specs.Bodies.{LabelsFit, BodiesIs, HeadRead, opening};

use crate::env::Env;
use crate::faults::{Fault, Refusal};
use crate::head::{place_labels, place_signatures, read_labels, read_signatures};
use crate::readers::parameters;
use crate::region::Region;
use crate::statements::in_region;

// The bodies from `at` on, one for each label: a region in the environment that is the label's list of types.
pub(crate) fn bodies(region: &Region<'_>, at: usize) -> Result<usize, Fault>
    requires inside { at ≤ length region.now.bytes.now }
    requires fit { LabelsFit region.now.image.now region.now.labels.now }
    ensures within { Within at region.now.bytes.now result }
    ensures reads { BodiesIs region.now at result }
{
    let mut p = at;
    for list in region.labels {
        let (types, _) = parameters(region.image, *list).as_chunks();
        let env = Env::empty().followed_by(types, &types[..0]);
        p = in_region(region, env, region.depth, p)?;
    }
    Ok(p)
}

// The size, the version byte and the length field.
pub(crate) fn read_envelope(image: &[u8]) -> Result<usize, Fault>
    ensures within { Within 0 image.now result }
    ensures reads { forget (opening image.now) ≡ shown image.now result }
{
    if image.len() < 3 || 16384 < image.len() {
        return Err(Refusal::Size.at(0));
    }
    // one byte, the version
    if image[0] != 1 {
        return Err(Refusal::Version.at(0));
    }
    let size = u16::from_be_bytes([image[1], image[2]]) as usize;
    if size + 3 != image.len() {
        return Err(Refusal::Size.at(1));
    }
    Ok(3)
}

// What follows the head, which was read: the bodies from `start` on, and nothing behind them. The image's size is asked for, not a `Region`, which is made here.
pub(crate) fn read_rest(image: &[u8], at: usize, heads: usize, start: usize) -> Result<usize, Fault>
    requires short { length image.now ≤ 16384 }
    requires read { HeadRead image.now at heads start }
    ensures { forget (program (length image.now) at (drop at image.now)) ≡ shown image.now result }
{
    let many = image[at] as usize;
    let count = image[heads] as usize;
    let sigs = place_signatures(image, at + 1, many);
    let labels = place_labels(image, heads + 1, count);
    let region = Region {
        image,
        sigs: &sigs[..many],
        labels: &labels[..count],
        bytes: image,
        depth: 0,
    };
    let end = bodies(&region, start)?;
    if end != image.len() {
        return Err(Refusal::Left.at(end));
    }
    Ok(end)
}

// What follows the length field: the signatures from `at` on, the labels, the bodies. Of the image its size is known, and nothing that a `Region` needs.
pub(crate) fn read_program(image: &[u8], at: usize) -> Result<usize, Fault>
    requires inside { at ≤ length image.now }
    requires short { length image.now ≤ 16384 }
    ensures { forget (program (length image.now) at (drop at image.now)) ≡ shown image.now result }
{
    let heads = read_signatures(image, at)?;
    let start = read_labels(image, image[at] as usize, heads)?;
    read_rest(image, at, heads, start)
}

// The image from end to end: where it ends, or its first fault.
pub(crate) fn read_image(image: &[u8]) -> Result<usize, Fault>
    ensures { forget (read_image image.now) ≡ shown image.now result }
{
    let at = read_envelope(image)?;
    read_program(image, at)
}
