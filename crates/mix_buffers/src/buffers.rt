// Whole buffers: cleared, copied in, and copied out.
ghost use Rattle.std.specs.Prelude.{◌≡◌, ◌+◌, ◌*◌, ◌≤◌, length, get_or};
ghost use Rattle.std.specs.Float.{nan};
ghost use Rattle.mix.specs.Samples.{put};
ghost use Rattle.mix.specs.Mix.{clear_buffer, cleared, appended, Inside, AllInside};

use mix_samples::{copy, fill};

// +0 in buffer d. Requires that it lies within the area.
#[tactic(auto, using(mix::proofs::Stored::part_stored))]
pub fn fill_buffer(area: &mut [f32], block: usize, d: usize)
    requires { Inside block d area.old }
    ensures { area.new ≡ clear_buffer block d area.old }
{
    let p = d * block;
    fill(&mut area[p..p + block]);
}

// The start of `samples` in buffer d. Requires that it lies within the area, and a block of samples.
#[tactic(auto, using(mix::proofs::Stored::part_stored))]
pub fn copy_buffer(area: &mut [f32], block: usize, d: usize, samples: &[f32])
    requires { Inside block d area.old × (block ≤ length samples.now) }
    ensures { area.new ≡ put block d (λ k. get_or samples.now k nan) area.old }
{
    let p = d * block;
    // By `copy`, which also takes samples that are more than a block.
    copy(samples, &mut area[p..p + block]);
}

// +0 in every buffer of dst. Requires that they lie within the area.
pub fn clear(area: &mut [f32], block: usize, dst: &[u32])
    requires { AllInside block dst.now area.old }
    ensures { area.new ≡ cleared block dst.now area.old }
{
    for d in dst {
        fill_buffer(area, block, *d as usize);
    }
}

// The buffers of src, one after the other, into the output from place `at` on. Requires that they lie within the area, and room in the output.
pub fn append(area: &[f32], block: usize, src: &[u32], output: &mut [f32], at: usize)
    requires sources { AllInside block src.now area.now }
    requires room { at + length src.now * block ≤ length output.old }
    ensures { output.new ≡ appended block area.now src.now at output.old }
{
    for (c, s) in src.iter().enumerate() {
        let p = *s as usize * block;
        let q = at + c * block;
        copy(&area[p..p + block], &mut output[q..q + block]);
    }
}
