// Gain.
ghost use Rattle.std.specs.Prelude.{◌≡◌, min, length};
ghost use Rattle.node.specs.Rows.{Values, gain_in};
ghost use Rattle.mix.specs.Mix.{gained, Buffers, used};

use mix_pieces::mix_into;
use mix_samples::Scale;
use node::Rows;

// Gain over the first min(src, dst) channels, by the rows of its node. Requires rows with a value for each channel, and of
// the buffers used: within the area, no source a destination; and a block that is not too long.
pub fn gain(area: &mut [f32], block: usize, src: &[u32], dst: &[u32], node: Rows)
    requires buffers { Buffers block (used src.now dst.now) (used dst.now src.now) area.old }
    requires values { Values (min (length src.now) (length dst.now)) node }
    ensures { area.new ≡ gained block (gain_in node.entry) 0 src.now dst.now area.old }
{
    for (c, (s, d)) in src.iter().zip(dst).enumerate() {
        let g = node.gain(c);
        mix_into(area, block, *s as usize, *d as usize, Scale(g));
    }
}
