// A stand-in for the narrator's microphone. Its samples are lent in every block; from one block on its entry stands at the directory's end.
use crate::names;
use signals::{BLOCK, digest, inputs};

// The sample that its first block starts at.
const AT: u32 = 168_192;

// What the block from a sample on is lent of a directory whose last entry is the stand-in's.
pub fn directory_at(from: u32, directory: &[u32; inputs::DIRECTORY]) -> &[u32] {
    if from < AT {
        return &directory[0..inputs::DIRECTORY - 4];
    }
    directory
}

// Its line behind its first block, and one behind each later block in which it is not heard. It is heard where the narrator's buffer, the first
// of the plan, has its samples, the last of those lent.
pub fn line(from: u32, samples: &[f32; inputs::SAMPLES], buffers: &[f32]) {
    if from < AT {
        return;
    }
    if buffers.len() < BLOCK {
        return;
    }
    let played = digest::of_samples(digest::empty(), &samples[inputs::SAMPLES - BLOCK..]);
    let buffer = digest::of_samples(digest::empty(), &buffers[0..BLOCK]);
    if from == AT {
        let heard = names::yes(played == buffer);
        text::print(format_args!(
            "{from:>8}  a stand-in for the narrator appended to the directory; heard: {heard}\n"
        ));
        return;
    }
    if played != buffer {
        text::print(format_args!("{from:>8}  the stand-in is not heard\n"));
    }
}
