// What is measured of a cargo.

// The price's part: heat, sulphur, volatiles and ash. In the papers Q, S, F and A, in hundredths of a percent but for the heat.
#[derive(Clone, Copy, PartialEq, Eq)]
pub struct Quality {
    pub heat: u64,
    pub sulphur: u64,
    pub volatiles: u64,
    pub ash: u64,
}

// The weight in kilograms and the moisture, W and M, by which the weight is settled, and the quality, by which the price is.
#[derive(Clone, Copy, PartialEq, Eq)]
pub struct Sample {
    pub weight: u64,
    pub moisture: u64,
    pub quality: Quality,
}
