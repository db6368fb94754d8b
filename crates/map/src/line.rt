// A refusal as a line, rendered into a lent buffer; what is answered is the place behind it.
ghost use Rattle.print.specs.Put.{Put};
ghost use Rattle.print.specs.Text.{line};
ghost use Rattle.map.specs.Line.{refused_line};

use map_image::Fault;

pub fn refused(f: Fault, out: &mut [u8]) -> usize
    ensures { Put out.old 0 (line (refused_line f)) out.new result }
{
    print_refusals::refused(out, 0, f)
}
