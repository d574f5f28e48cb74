// The settings of the show, each made before a block.
use crate::areas::Areas;
use crate::layout;
use desk::gains;
use refusal::Answer;

// What an operator sets.
#[derive(Clone, Copy)]
enum Setting {
    // The node of a strip's or a send's level, and the gain.
    Level(u32, f32),
    // The singer's place.
    Pan(f64),
    // The band's.
    Width(f64),
    // The insert's: the dry signal to 1, the return to 0.
    Bypass,
}

// The sample that its block starts at, the setting in words, its ramp in samples.
#[derive(Clone, Copy)]
struct Cue(usize, &'static str, Setting, u32);

const CUES: [Cue; 7] = [
    Cue(
        24_064,
        "narrator to 0.25 over 24,000 samples",
        Setting::Level(layout::NARRATOR_LEVEL, 0.25),
        24_000,
    ),
    Cue(
        48_128,
        "singer from left to right over 48,000 samples",
        Setting::Pan(0.5),
        48_000,
    ),
    Cue(
        72_192,
        "band to a width of 1.5 over 12,000 samples",
        Setting::Width(1.5),
        12_000,
    ),
    Cue(
        108_032,
        "insert on band bypassed over 4,800 samples",
        Setting::Bypass,
        4_800,
    ),
    Cue(
        120_064,
        "talkback opened in the hall over 100 samples",
        Setting::Level(layout::TALKBACK_IN_HALL, 1.0),
        100,
    ),
    Cue(
        144_128,
        "film closed in the hall at once",
        Setting::Level(layout::FILM_IN_HALL, 0.0),
        0,
    ),
    Cue(
        180_224,
        "announcement to 0.25 over 4,800 samples",
        Setting::Level(layout::ANNOUNCEMENT_LEVEL, 0.25),
        4_800,
    ),
];

fn level(areas: &mut Areas, id: u32, gain: f32, ramp: u32) -> Answer {
    areas.set(id, &[gain; layout::STRIP_GAINS], ramp)
}

fn pan(areas: &mut Areas, b: f64, ramp: u32) -> Answer {
    let mut values = [0.0f32; 2];
    gains::pan(b, &mut values)?;
    areas.set(layout::PAN, &values, ramp)
}

// Beside `pan`: one function of both takes the call as a closure, which the check does not see may be called.
fn width(areas: &mut Areas, w: f64, ramp: u32) -> Answer {
    let mut values = [0.0f32; 4];
    gains::width(w, &mut values)?;
    areas.set(layout::WIDTH, &values, ramp)
}

fn make(areas: &mut Areas, setting: Setting, ramp: u32) -> Answer {
    match setting {
        Setting::Level(id, gain) => level(areas, id, gain, ramp),
        Setting::Pan(b) => pan(areas, b, ramp),
        Setting::Width(w) => width(areas, w, ramp),
        Setting::Bypass => {
            level(areas, layout::DRY, 1.0, ramp)?;
            level(areas, layout::WET, 0.0, ramp)
        }
    }
}

// The setting before the block that starts at a sample, if it has one, and its line.
pub fn before(from: usize, areas: &mut Areas) -> Answer {
    for &Cue(at, what, setting, ramp) in &CUES {
        if at == from {
            text::print(format_args!("{from:>8}  {what}\n"));
            make(areas, setting, ramp)?;
        }
    }
    Ok(())
}
