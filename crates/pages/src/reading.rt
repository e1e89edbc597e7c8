ghost use Rattle.pages.specs.Counts.{byte_count, Counted};
ghost use Rattle.pages.specs.Reading.{PageRead, ReadsBack};

use crate::counts::PageCounts;
use crate::layout::Layout;
use body_coder::BodyCoder;
use level_coder::LevelCoder;

// Reads a page of `n` levels back: its levels, each list where the maximum is above 0, and its plain bytes.
// The three lists come by themselves, since nothing below takes them together.
pub fn read_page<L: LevelCoder, B: BodyCoder>(
    layout: Layout,
    n: usize,
    page: &[u8],
    reps: &mut [u8],
    defs: &mut [u8],
    plain: &mut [u8],
) -> Option<PageCounts>
    ensures read { PageRead L.LevelCoder.coding B.BodyCoder.body layout n page.now reps.old defs.old plain.old reps.new defs.new plain.new (byte_count result) }
    ensures back { ReadsBack L.LevelCoder.coding B.BodyCoder.body layout n page.now reps.old defs.old plain.old reps.new defs.new plain.new (byte_count result) }
    ensures counts { Counted layout n defs.new result }
{
    if n > 1024 {
        return None;
    }
    let rep_form = layout.repetition();
    let def_form = layout.definition();
    let (rep_list, _) = reps.split_at_mut_checked(rep_form.count(n))?;
    let (def_list, _) = defs.split_at_mut_checked(def_form.count(n))?;
    // Read apart, so that a list never holds half of what was read.
    let mut rep_room = [0u8; 1024];
    let mut def_room = [0u8; 1024];
    let rep_levels = &mut rep_room[..rep_list.len()];
    let def_levels = &mut def_room[..def_list.len()];
    let rest = rep_form.read::<L>(n, page, rep_levels)?;
    let body = def_form.read::<L>(n, rest, def_levels)?;
    let bytes = B::read(layout.width, body, plain)?;
    rep_list.copy_from_slice(rep_levels);
    def_list.copy_from_slice(def_levels);
    Some(PageCounts {
        levels: n,
        values: def_form.value_count(n, def_levels),
        bytes,
    })
}
