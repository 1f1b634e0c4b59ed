// Frames: what a thermal sensor sees, a number for each of its pixels, and their mean.
#![tactic(auto)]

ghost use Rattle.std.specs.Prelude.{◌≡◌, ◌*◌, ◌≤◌, true, length, IfOk, sum};
ghost use Rattle.frame.specs.Frames.{all_dim, greatest_pixel, mean_of, pixel_count, refusal_number};

use camera::{COLUMNS, ROWS, all_at_most};

// How many pixels the sensor has.
const PIXELS: u32 = COLUMNS as u32 * ROWS as u32;

// The greatest number that a pixel can have: the sensor measures with fourteen bits.
const GREATEST_PIXEL: u16 = 16383;

// Why a frame has no mean, with the number by which each refusal is known outside.
#[derive(Clone, Copy, Debug, PartialEq, Eq)]
pub enum FrameRefusal {
    // not 4,800 pixels
    Size = 51,
    // a pixel above 16,383
    Bright = 52,
}

impl FrameRefusal {
    // The number by which a refusal is known outside.
    pub fn number(self) -> u8
        ensures value { result ≡ refusal_number self }
    {
        self as u8
    }
}

// The sum of the pixels of a frame.
fn total(pixels: &[u16]) -> u32
    requires size { length pixels.now ≡ pixel_count }
    requires dim { all_dim pixels.now ≡ true }
    ensures value { result ≡ sum pixels.now }
    ensures bound { result ≤ pixel_count * greatest_pixel }
{
    pixels.iter().map(|pixel| u32::from(*pixel)).sum()
}

// The mean of a frame, rounded down.
pub fn frame_mean(pixels: &[u16]) -> Result<u16, FrameRefusal>
    ensures value { result ≡ mean_of pixels.now }
    ensures bound { IfOk result (λ m. m ≤ greatest_pixel) }
{
    if pixels.len() != PIXELS as usize {
        return Err(FrameRefusal::Size);
    }
    if !all_at_most(pixels, GREATEST_PIXEL) {
        return Err(FrameRefusal::Bright);
    }
    let mean = total(pixels) / PIXELS;
    Ok(mean as u16)
}

#[cfg(test)]
mod tests {
    use super::*;

    // The mean, or the number of the refusal: the numbers are what is published.
    fn outcome(pixels: &[u16]) -> Result<u16, u8> {
        frame_mean(pixels).map_err(FrameRefusal::number)
    }

    #[test]
    fn means_are_rounded_down(rt: HostRuntime) {
        let mut pixels = [1; 4800];
        assert_eq!(rt; outcome(&pixels), Ok(1));
        pixels[4799] = 0;
        assert_eq!(rt; outcome(&pixels), Ok(0));
    }

    #[test]
    fn refusals_come_in_order(rt: HostRuntime) {
        let mut pixels = [16383; 4800];
        assert_eq!(rt; outcome(&pixels), Ok(16383));
        pixels[4798] = 16384;
        assert_eq!(rt; outcome(&pixels), Err(52));
        assert_eq!(rt; outcome(&pixels[..4799]), Err(51));
    }
}
