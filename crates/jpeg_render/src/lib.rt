// The picture of a frame from the samples of all its blocks (the rules' 'Samples, places, colour'), in colour where that is chosen. Any
// frame may come in: one whose numbers are not a frame's, or that does not fit the two buffers, is not drawn, and the output stays as it
// was. The test is made once a picture, and so are the measures of its MCUs.
#![tactic(auto)]

ghost use Rattle.std.specs.Prelude.{◌≡◌};
ghost use Rattle.jpeg_render.specs.Rendered.{fits, rendered};

mod layout;
mod render;

use layout::Measured;
use reading::Frame;
use render::Source;

// Whether a frame can be drawn from so many samples into so many bytes.
#[tactic(auto, using(crate::proofs::RowPlaces::pixels_most, crate::proofs::RowPlaces::bytes_most, crate::proofs::Fitting::sized_framed), unfolding(crate::specs::Rendered::fits))]
fn fits(m: Measured, samples: usize, room: usize) -> bool
    ensures { result ≡ fits m.frame samples room }
{
    m.frame.width * m.frame.height * m.frame.channels <= room && m.all_samples() <= samples
}

// The picture over what stood in the buffer.
pub fn picture(frame: Frame, colour: bool, samples: &[u8], out: &mut [u8])
    ensures { out.new ≡ rendered frame colour samples.now out.old }
{
    if let Some(m) = Measured::of(frame) {
        if fits(m, samples.len(), out.len()) {
            let source = Source { m, colour, samples };
            source.picture(out);
        }
    }
}
