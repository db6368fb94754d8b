// A corner of a face.
ghost use Rattle.std.specs.Prelude.{◌≡◌};
ghost use Rattle.scene.specs.Faces.{is_corner};

use crate::Face;

pub fn is_corner(f: Face, i: usize) -> bool
    ensures { result ≡ is_corner i f }
{
    if f.p == i {
        return true;
    }
    if f.q == i {
        return true;
    }
    f.r == i
}
