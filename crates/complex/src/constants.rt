// The limits of the formulas. Each function that tests against one is proved against its definition, a bit pattern.
// Below it a squared magnitude is no divisor and no pivot, and the parts of a factor are none.
pub const DIVISION_LIMIT: f64 = 1e-300;

// A reactance, a denominator, a weight or a magnitude that counts as none.
pub const SMALL_MAGNITUDE: f64 = 1e-12;

// A part of an admittance that makes no tie.
pub const TIE_THRESHOLD: f64 = 1e-14;
