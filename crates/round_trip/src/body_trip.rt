ghost use Rattle.round_trip.specs.Trips.{BodyAgain};

use body_coder::BodyCoder;

// Codes the plain bytes of a body into `coded`, and reads them back from there.
pub fn body_again<B: BodyCoder>(
    k: usize,
    plain: &[u8],
    coded: &mut [u8],
    back: &mut [u8],
) -> Option<usize>
    ensures { BodyAgain B.BodyCoder.body k plain.now coded.old coded.new back.old back.new result }
{
    let len = B::code(k, plain, coded)?;
    B::read(k, &coded[..len], back)
}
