// A run of pixels of three channels, whose samples stand in three lists (the rules' 'Samples, places, colour'): channels interleaved,
// in colour where it is chosen. Any number of pixels and any buffer may come in: where the lists or the buffer are too short for so
// many, the buffer stays as it was. The test is made once a run.
#![tactic(auto)]

ghost use Rattle.std.specs.Prelude.{◌≡◌, ◌+◌, ◌≤◌, length};
ghost use Rattle.jpeg_render_row.specs.Drawn.{written};
ghost use Rattle.jpeg_render_row.specs.Runs.{three, shown, run};

// One pixel. The choice of colour stands here and is taken out of the loop by the compiler. Tried, a closure for each choice that gives the
// three bytes of a pixel: a picture of 4:4:4 in colour is drawn with more than twice the instructions.
fn pixel(y: u8, b: u8, r: u8, colour: bool, out: &mut [u8], at: usize)
    requires { at + 3 ≤ length out.old }
    ensures { out.new ≡ written (shown colour (three y b r)) at 3 out.old }
{
    if colour {
        out[at] = jpeg_color::red(y, r);
        out[at + 1] = jpeg_color::green(y, b, r);
        out[at + 2] = jpeg_color::blue(y, b);
    } else {
        out[at] = y;
        out[at + 1] = b;
        out[at + 2] = r;
    }
}

// The first n pixels, at the start of the buffer. That n is small is tested first: then n * 3 does not wrap. Tried, a slice for each pixel by
// `chunks_exact_mut`: twice the instructions.
pub fn run(luma: &[u8; 32], cb: &[u8; 32], cr: &[u8; 32], n: usize, colour: bool, out: &mut [u8])
    ensures { out.new ≡ run luma.now cb.now cr.now n colour out.old }
{
    if 32 < n || out.len() < n * 3 {
        return;
    }
    for i in 0..n {
        pixel(luma[i], cb[i], cr[i], colour, out, i * 3);
    }
}
