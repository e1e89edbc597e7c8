ghost use Rattle.std.specs.Prelude.{◌≡◌, length};
ghost use Rattle.std.specs.Option.{option_map};
ghost use Rattle.sinks.specs.Stores.{Copied};
ghost use Rattle.areas.specs.Areas.{part};

use crate::place::Place;

// The three answers of a store about a page: its offset, its length, a copy.
pub fn offset_at(place: Option<Place>) -> Option<usize>
    ensures { result ≡ option_map (λ p. p.offset) place }
{
    place.map(|place| place.offset as usize)
}

pub fn len_at(area: &[u8], place: Option<Place>) -> Option<usize>
    ensures { result ≡ option_map length (option_map (part area.now) place) }
{
    place.map(|place| place.bytes_in(area).len())
}

pub fn copy_at(area: &[u8], place: Option<Place>, out: &mut [u8]) -> Option<usize>
    ensures { Copied (option_map (part area.now) place) out.old out.new result }
{
    let bytes = place?.bytes_in(area);
    let (front, _) = out.split_at_mut_checked(bytes.len())?;
    front.copy_from_slice(bytes);
    Some(bytes.len())
}
