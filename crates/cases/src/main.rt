// Document 01's table of cases, run through the public calls: a line for each, with what came out.
#![tactic(auto)]

mod answers;
mod checks;
mod floats;
mod gains;
mod plans;
mod runs;

use answers::Answered;
use gains::Rounded;
use plan::Step;

fn case_1_to_3() {
    text::print(format_args!(
        "1. New [1], ramp 4, block 2: gains {}.\n",
        Answered(runs::ramped::<2>(&[0, 0, 0, 2]))
    ));
    text::print(format_args!(
        "2. Block 3: {}.\n",
        Answered(runs::ramped::<3>(&[0, 0, 0, 3]))
    ));
    text::print(format_args!(
        "3. Node [1, 2], set [5], ramp 0: [{}].\n",
        Answered(runs::set_one_of_two())
    ));
}

fn case_4_to_6() {
    text::print(format_args!(
        "4. Matrix [1, 0] at rest over 3 and infinity: {}. Gain 0 over infinity: {}.\n",
        Answered(runs::matrix_of_two()),
        Answered(runs::gain_of_zero())
    ));
    text::print(format_args!(
        "5. Matrix [1] over -0: {}.\n",
        Answered(runs::matrix_of_one())
    ));
    text::print(format_args!(
        "6. Send x = 2^-140, w = 2^-10, target 2^20: adds {} at rest, {} while ramping.\n",
        Answered(runs::send(0)),
        Answered(runs::send(1))
    ));
}

fn case_7() {
    text::print(format_args!(
        "7. Round {}; {}; {}.\n",
        Rounded(1.000000059604644775390625),
        Rounded(1.000000178813934326171875),
        Rounded(7.006492321624085e-46)
    ));
}

fn case_8() {
    text::print(format_args!(
        "8. Patch 3 to buffer 0, Clear 1, Send 0 to 1 with weight 0, Output 1 to slot 2: lists {}.\n",
        Answered(checks::traced())
    ));
}

fn case_9_and_10() {
    text::print(format_args!(
        "9. 5.1 to mono, all gains 0.5, LFE 0: {}; normalised {}.\n",
        Answered(gains::folded(false)),
        Answered(gains::folded(true))
    ));
    text::print(format_args!(
        "10. Balance 0.5 of 5.1: {}.\n",
        Answered(gains::balanced(0.5))
    ));
}

fn case_11() {
    text::print(format_args!(
        "11. Block 1024 {}, 1025 {}; Matrix 12 by 2 {}, 5 by 5 {}; input 255 {}, 256 {}.\n",
        checks::block(1024),
        checks::block(1025),
        checks::step(&[Step::MATRIX_MAP, 0, 0, 12, 12, 2]),
        checks::step(&[Step::MATRIX_MAP, 0, 0, 5, 5, 5]),
        checks::step(&[Step::PATCH_MAP, 255, 0, 0]),
        checks::step(&[Step::PATCH_MAP, 256, 0, 0])
    ));
}

fn main() {
    case_1_to_3();
    case_4_to_6();
    case_7();
    case_8();
    case_9_and_10();
    case_11();
}
