ghost use Rattle.pages.specs.Pages.{Assembled};

use crate::layout::Layout;
use body_coder::BodyCoder;
use level_coder::LevelCoder;

// Assembles a page from its levels and plain bytes at the front of `out`, and answers its length.
// The three lists come by themselves, since nothing below takes them together.
pub fn assemble<L: LevelCoder, B: BodyCoder>(
    layout: Layout,
    reps: &[u8],
    defs: &[u8],
    plain: &[u8],
    out: &mut [u8],
) -> Option<usize>
    ensures { Assembled L.LevelCoder.coding B.BodyCoder.body layout reps.now defs.now plain.now out.old out.new result }
{
    let rep_form = layout.repetition();
    let def_form = layout.definition();
    let rep_size = rep_form.measure::<L>(reps)?;
    let def_size = def_form.measure::<L>(defs)?;
    let (lists, body) = out.split_at_mut_checked(rep_size + def_size)?;
    let body_size = B::code(layout.width, plain, body)?;
    let (rep_list, def_list) = lists.split_at_mut(rep_size);
    rep_form.write::<L>(reps, rep_list);
    def_form.write::<L>(defs, def_list);
    Some(rep_size + def_size + body_size)
}
