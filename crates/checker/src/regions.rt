// The regions inside a region.
ghost use Rattle.std.specs.Prelude.{◌≤◌, length};
ghost use Rattle.checker.specs.Regions.{UpTo};

use crate::region::Region;

impl<'a> Region<'a> {
    // The region that ends at `end`, so many clauses deep.
    pub(crate) fn up_to(&self, end: usize, depth: usize) -> Region<'a>
        requires inside { end ≤ length self.now.bytes.now }
        requires shallow { depth ≤ 48 }
        ensures { UpTo self.now end depth result }
    {
        Region {
            image: self.image,
            sigs: self.sigs,
            labels: self.labels,
            bytes: &self.bytes[..end],
            depth,
        }
    }
}
