// Where a row of pixels begins among the block samples (the rules' 'MCUs, restarts, end' and 'Samples, places, colour'), and how many
// there are. All divisions of a row are made for these: behind them places are counted on.
ghost use Rattle.std.specs.Prelude.{◌≡◌, ◌*◌, ◌/◌, ◌<◌, false, Some, MatchOption};
ghost use Rattle.reading.specs.Layout.{block_count};
ghost use Rattle.reading.specs.Tables.{shape_of};
ghost use Rattle.reading.specs.Code.Mcus.{measured};
ghost use Rattle.jpeg_render.specs.Rendered.{framed};
ghost use Rattle.jpeg_render.specs.Rows.{Sized, RowFits, blocks_above, row_in, RowsOf};

use reading::{Frame, Limits, Mcu};

// A frame with the measures of its MCUs, whose numbers are a frame's: behind it no product wraps.
#[derive(Clone, Copy)]
pub(crate) struct Measured {
    pub(crate) frame: Frame,
    pub(crate) mcu: Mcu,
    ghost sized: { Sized frame },
    ghost of_frame: { Some mcu ≡ measured frame },
}

impl Measured {
    // none where a side or the sampling is none that a frame has
    #[tactic(auto, using(crate::proofs::Fitting::unmeasured))]
    pub(crate) fn of(frame: Frame) -> Option<Self>
        ensures { MatchOption result (framed frame ≡ false) (λ m. m.frame ≡ frame) }
    {
        if Limits::SIDE < frame.width || Limits::SIDE < frame.height {
            return None;
        }
        let mcu = Mcu::of(frame)?;
        Some(Self { frame, mcu })
    }

    // the blocks of the MCUs above those that have row y
    fn blocks_above(self, y: usize) -> usize
        requires { y < self.frame.height }
        ensures { result ≡ blocks_above (shape_of self.frame) y }
    {
        y / (8 * self.mcu.down) * reading::mcus(self.frame.width, self.mcu.across) * self.mcu.blocks
    }

    // the place of each channel's sample for pixel (0, y); 0 behind the last channel
    #[tactic(auto, using(crate::proofs::RowPlaces::few_channels))]
    pub(crate) fn rows_of(self, y: usize) -> [usize; 4]
        requires { y < self.frame.height }
        ensures { RowsOf (shape_of self.frame) y self.frame.channels result }
    {
        let v = y % (8 * self.mcu.down);
        let mut blocks = self.blocks_above(y);
        let mut places = [0usize; 4];
        for c in 0..self.frame.channels {
            places[c] = row_in(
                blocks,
                v,
                self.frame.across[c],
                self.frame.down[c],
                self.mcu.down,
            );
            blocks += self.frame.across[c] * self.frame.down[c];
        }
        places
    }

    // the samples of all blocks
    pub(crate) fn all_samples(self) -> usize
        ensures { result ≡ 64 * block_count (shape_of self.frame) }
    {
        64 * (reading::mcus(self.frame.width, self.mcu.across)
            * reading::mcus(self.frame.height, self.mcu.down)
            * self.mcu.blocks)
    }
}

// Where a channel's samples for row v of an MCU begin, behind so many blocks.
fn row_in(blocks: usize, v: usize, across: usize, down: usize, largest: usize) -> usize
    requires { RowFits blocks v across down largest }
    ensures { result ≡ row_in blocks (v * down / largest) across }
{
    let own = v * down / largest;
    64 * (blocks + own / 8 * across) + 8 * (own % 8)
}
