// Floats and their bits, by the library's names shortened. All NaN are one there: bits that are a NaN's give a NaN, and a NaN has the bits 7FC00000.
pub use std::num::{
    f32_from_bits_with_nan as float_of, f32_to_bits_with_nan as bits_of,
    f64_from_bits_with_nan as double_of, f64_to_bits_with_nan as bits_of_double,
};
