// What is done to a sample of a destination with the one of a source: one form of the loops for all of it.
ghost use Rattle.std.specs.Prelude.{◌≡◌, Float};
ghost use Rattle.std.specs.Float.{binary32};
ghost use Rattle.std.specs.Float.Ieee.{add, mul};
ghost use Rattle.node.specs.declared.Gain.{Gain as AnyGain};
ghost use Rattle.node.specs.declared.Gain.TheVariants.{Rest};
ghost use Rattle.mix.specs.Samples.{silence};

use node::Gain;

pub trait Mixing: Copy {
    ghost gain: { Self → AnyGain };

    // Of the source's sample x, the destination's y and the factor of the gain.
    ghost mixed: { Self → Float → Float → Float → Float };

    // Whether the samples after the last whole piece of a buffer go as a shorter piece, and not one by one.
    const SHORT_PIECE: bool = false;

    fn gain(self) -> Gain
        ensures { result ≡ gain self };

    fn mix(self, x: f32, y: f32, factor: f32) -> f32
        ensures { result ≡ mixed self x y factor };
}

// y becomes x.
#[derive(Clone, Copy)]
pub struct Load;

impl Mixing for Load {
    ghost gain = { λ it. Rest silence };

    ghost mixed = { λ it x y v. x };

    fn gain(self) -> Gain {
        Gain::Rest(0.0)
    }

    fn mix(self, x: f32, _y: f32, _factor: f32) -> f32 {
        x
    }
}

// y = x * gain
#[derive(Clone, Copy)]
pub struct Scale(pub Gain);

impl Mixing for Scale {
    ghost gain = { λ it. it.0 };

    ghost mixed = { λ it x y v. mul binary32 x v };

    fn gain(self) -> Gain {
        self.0
    }

    fn mix(self, x: f32, _y: f32, factor: f32) -> f32 {
        x * factor
    }
}

// y += x * gain
#[derive(Clone, Copy)]
pub struct Add(pub Gain);

impl Mixing for Add {
    ghost gain = { λ it. it.0 };

    ghost mixed = { λ it x y v. add binary32 y (mul binary32 x v) };

    fn gain(self) -> Gain {
        self.0
    }

    fn mix(self, x: f32, y: f32, factor: f32) -> f32 {
        y + x * factor
    }
}

// y += x * a. The gain is at rest for the compiler too, which `Add` does not say.
#[derive(Clone, Copy)]
pub struct AddAtRest(pub f32);

impl Mixing for AddAtRest {
    ghost gain = { λ it. Rest it.0 };

    ghost mixed = { λ it x y v. add binary32 y (mul binary32 x v) };

    fn gain(self) -> Gain {
        Gain::Rest(self.0)
    }

    fn mix(self, x: f32, y: f32, factor: f32) -> f32 {
        y + x * factor
    }
}

// y = 0 + x * a
#[derive(Clone, Copy)]
pub struct StartAtRest(pub f32);

impl Mixing for StartAtRest {
    ghost gain = { λ it. Rest it.0 };

    ghost mixed = { λ it x y v. add binary32 silence (mul binary32 x v) };

    fn gain(self) -> Gain {
        Gain::Rest(self.0)
    }

    fn mix(self, x: f32, _y: f32, factor: f32) -> f32 {
        0.0 + x * factor
    }
}

// y += x * w * gain
#[derive(Clone, Copy)]
pub struct Weigh(pub f32, pub Gain);

impl Mixing for Weigh {
    ghost gain = { λ it. it.1 };

    ghost mixed = { λ it x y v. add binary32 y (mul binary32 (mul binary32 x it.0) v) };

    const SHORT_PIECE: bool = true;

    fn gain(self) -> Gain {
        self.1
    }

    fn mix(self, x: f32, y: f32, factor: f32) -> f32 {
        y + x * self.0 * factor
    }
}
