// The run: block after block, with the settings between, and the digest of each slot's samples.
ghost use Rattle.std.specs.Prelude.{◌+◌, ◌<◌};

use crate::areas::Areas;
use crate::{layout, refused, settings, stand_in};
use format::Format;
use refusal::{Answer, Refusal};
use signals::{BLOCK, digest, inputs};

// The channels of all slots.
const CHANNELS: usize = 22;

pub const OUTPUT: usize = CHANNELS * BLOCK;

// Four seconds at 48,000 samples a second.
const BLOCKS: usize = 750;

// One block of what the inputs carry, from a sample on, and the stand-in's line behind its first one. Requires samples that a u32 counts.
pub fn ran(from: u32, areas: &mut Areas, output: &mut [f32]) -> Result<usize, Refusal>
    requires { from + 256 < 4294967296 }
{
    let mut directory = [0u32; inputs::DIRECTORY];
    let mut samples = [0.0f32; inputs::SAMPLES];
    inputs::directory(&mut directory);
    inputs::play(from, &mut samples);
    let lent = stand_in::directory_at(from, &directory);
    let ran = areas.process(lent, &samples, output);
    stand_in::line(from, &samples, &areas.buffers);
    ran
}

// The digest of each slot, with a block more. The blocks of the plan's Outputs stand one after the other in the output area, in step order and channel
// by channel.
// The number is what is handed on: no list is walked.
fn digest_block(output: &[f32], digests: &mut [u32; layout::SLOTS]) {
    let mut rest = output;
    for i in 0..layout::SLOTS {
        let slot = layout::output_slot(i);
        let n = Format::channels(layout::slot_at(slot).0) * BLOCK;
        let Some((block, after)) = rest.split_at_checked(n) else {
            return;
        };
        digests[slot] = digest::with_frames(digests[slot], block);
        rest = after;
    }
}

// What happens before a block, the block, and what it adds to the digests. Requires samples that a u32 counts.
fn block(from: usize, areas: &mut Areas, digests: &mut [u32; layout::SLOTS]) -> Answer
    requires { from + 256 < 4294967296 }
{
    settings::before(from, areas)?;
    refused::before(from, areas);
    let mut output = [0.0f32; OUTPUT];
    ran(from as u32, areas, &mut output)?;
    digest_block(&output, digests);
    Ok(())
}

// The digests of all blocks, or the refusal of a call that should not be refused.
// The number is what is handed on: no list is walked.
pub fn blocks(areas: &mut Areas) -> Result<[u32; layout::SLOTS], Refusal> {
    let mut digests = [digest::empty(); layout::SLOTS];
    for i in 0..BLOCKS {
        block(i * BLOCK, areas, &mut digests)?;
    }
    Ok(digests)
}
