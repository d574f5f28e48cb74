// Cases 1 to 6: runs of small plans, whose steps are given as words: 7 Patch, 248 Gain, 2296 Matrix, 192 Clear, 1016 Send, 1072 Output.
use crate::answers::Written;
use crate::floats::{Exact, Signed};
use crate::plans;
use crate::plans::Layout;
use refusal::Refusal;
use std::fmt;
use std::fmt::{Display, Formatter, Write};

// Patch 0 to buffer 0, Gain from 0 to 1, Output 1 to slot 0.
const THROUGH_GAIN: [&[u32]; 3] = [&[7, 0, 0, 0], &[248, 0, 0, 1, 1, 1], &[1072, 1, 1, 0]];

// The samples of two runs, and whether the node is at rest then, a fact of its own: the samples are there either way.
#[derive(Drop)]
pub struct TwoRuns<const N: usize> {
    first: Written<N>,
    second: Written<N>,
    rests: bool,
}

impl<const N: usize> Display for TwoRuns<N> {
    fn fmt<W: Write>(&self, f: &mut Formatter<W>) -> fmt::Result {
        let then = if self.rests { "at rest" } else { "ramping" };
        write!(f, "{}, then {}; {then}", self.first, self.second)
    }
}

// A run over a block of ones.
fn over_ones<const N: usize>(
    layout: &mut Layout,
    directory: &[u32],
) -> Result<Written<N>, Refusal> {
    let output = layout.process(directory, &[1.0, 1.0, 1.0])?;
    Ok(Written(output))
}

// Cases 1 and 2: two blocks of N ones through a Gain of [1] with a ramp of 4.
pub fn ramped<const N: usize>(directory: &[u32]) -> Result<TwoRuns<N>, Refusal> {
    let mut layout = Layout::begun(N, 2, &[])?;
    layout.node(&[1.0], 4)?;
    layout.finish(&THROUGH_GAIN)?;
    Ok(TwoRuns {
        first: over_ones(&mut layout, directory)?,
        second: over_ones(&mut layout, directory)?,
        rests: layout.rests(),
    })
}

// A plan of so many buffers and a node at rest with these values, in blocks of one sample.
// The count is of buffers, as in `begun`.
fn at_rest(buffers: usize, values: &[f32], records: &[&[u32]]) -> Result<Layout, Refusal> {
    let mut layout = Layout::begun(1, buffers, &[])?;
    layout.node(values, 0)?;
    layout.finish(records)?;
    Ok(layout)
}

// Case 3: a Gain over ones, so that it writes its gains.
pub fn set_one_of_two() -> Result<Written<2>, Refusal> {
    let records: [&[u32]; 4] = [
        &[7, 0, 0, 0],
        &[7, 1, 0, 1],
        &[248, 0, 0, 2, 2, 2],
        &[1072, 2, 2, 0],
    ];
    let mut layout = at_rest(4, &[1.0, 2.0], &records)?;
    layout.set(&[5.0])?;
    let output = layout.process(&[0, 0, 0, 1, 1, 0, 1, 1], &[1.0, 1.0])?;
    Ok(Written(output))
}

// Case 4: a Matrix over 3 and infinity.
pub fn matrix_of_two() -> Result<Exact, Refusal> {
    let records: [&[u32]; 4] = [
        &[7, 0, 0, 0],
        &[7, 1, 0, 1],
        &[2296, 0, 0, 2, 2, 1],
        &[1072, 2, 1, 0],
    ];
    let mut layout = at_rest(3, &[1.0, 0.0], &records)?;
    let [x] = layout.process::<1>(&[0, 0, 0, 1, 1, 0, 1, 1], &[3.0, 1.0 / 0.0])?;
    Ok(Exact::from(x))
}

// Case 4: a Gain of 0 over infinity.
pub fn gain_of_zero() -> Result<Exact, Refusal> {
    let mut layout = at_rest(2, &[0.0], &THROUGH_GAIN)?;
    let [x] = layout.process::<1>(&[0, 0, 0, 1], &[1.0 / 0.0])?;
    Ok(Exact::from(x))
}

// Case 5: a Matrix of 1 over -0.
pub fn matrix_of_one() -> Result<Signed, Refusal> {
    let records: [&[u32]; 3] = [&[7, 0, 0, 0], &[2296, 0, 0, 1, 1, 1], &[1072, 1, 1, 0]];
    let mut layout = at_rest(2, &[1.0], &records)?;
    let [x] = layout.process::<1>(&[0, 0, 0, 1], &[-0.0])?;
    Ok(Signed(Exact::from(x)))
}

// Case 6: a Send of 2^-140 with the weight 2^-10 and the target 2^20, into a buffer of silence.
pub fn send(ramp: u32) -> Result<Exact, Refusal> {
    let mut layout = Layout::begun(1, 2, &[0.0009765625])?;
    layout.node(&[1048576.0], ramp)?;
    layout.finish(&plans::SEND)?;
    let [x] = layout.process::<1>(&[3, 0, 0, 1], &[7.1746481373430634e-43])?;
    Ok(Exact::from(x))
}
