// Lines of pixels, brought into the lines of the planes.

ghost use Rattle.std.specs.Prelude.{◌*◌, ◌≤◌, length};
ghost use Rattle.ffv1_slice.specs.Below.{AreBelow, IsHalf};
ghost use Rattle.ffv1_slice.specs.Planes.{IsLoaded, AreReady};

use crate::colour::load_row;
use crate::lines::Planes;

/// Brings a line of pixels into the planes, each a line down.
pub(crate) fn load_planes(
    planes: &mut Planes,
    half: u32,
    green_based: bool,
    pixels: &[u16],
    width: usize,
)
    requires half { IsHalf half }
    requires some { 1 ≤ width }
    requires pixels { 3 * width ≤ length pixels.now }
    requires colours { AreBelow half pixels.now }
    requires luma { AreReady width (2 * half) planes.old.luma }
    requires blue { AreReady width (2 * half) planes.old.blue }
    requires red { AreReady width (2 * half) planes.old.red }
    ensures luma { IsLoaded half green_based pixels.now 0 width planes.old.luma planes.new.luma }
    ensures blue { IsLoaded half green_based pixels.now 1 width planes.old.blue planes.new.blue }
    ensures red { IsLoaded half green_based pixels.now 2 width planes.old.red planes.new.red }
{
    planes.luma.go_down();
    planes.blue.go_down();
    planes.red.go_down();
    load_row(
        half,
        green_based,
        pixels,
        planes.luma.line.as_mut_slice(),
        planes.blue.line.as_mut_slice(),
        planes.red.line.as_mut_slice(),
        width,
    );
    planes.luma.close(width);
    planes.blue.close(width);
    planes.red.close(width);
}
