// What the sensor sees.
ghost use Rattle.camera.specs.Steps.{ended};
ghost use Rattle.frame.specs.Frames.{mean_of};
ghost use Rattle.head.specs.Meaning.{head_state};
ghost use Rattle.head.specs.Pictures.{framed, with_mean};
ghost use Rattle.std.specs.Prelude.{◌≡◌};

use crate::memory::Head;
use camera::FRAME_MEAN;
use frame::{FrameRefusal, frame_mean};

impl Head {
    // Gives attribute 15 a mean.
    #[tactic(auto, unfolding(camera::specs::Attributes::attribute_at))]
    fn set_mean(&mut self, mean: u16)
        ensures after { head_state self.new ≡ with_mean mean (head_state self.old) }
    {
        let record = self.inner.table.record(FRAME_MEAN).with(&[mean]);
        self.inner.table.set_record(FRAME_MEAN, record);
    }

    // Gives the head a frame. Attribute 15 becomes its mean, and nothing else changes; a frame of another size or with a
    // pixel that is too bright is refused and changes nothing.
    pub fn load_frame(&mut self, pixels: &[u16]) -> Result<(), FrameRefusal>
        ensures outcome { ended result (head_state self.new) ≡ framed (mean_of pixels.now) (head_state self.old) }
    {
        let mean = frame_mean(pixels)?;
        self.set_mean(mean);
        Ok(())
    }
}
