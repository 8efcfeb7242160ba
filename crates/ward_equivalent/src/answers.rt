// What a Ward study answers where it is carried out.

// Of a study: the size of the given matrix, how many buses the equivalent keeps, 1 less their quotient, or 0 where no bus is external, and
// how many rows its solves reduced, one solve for each bus kept and one for the currents.
#[derive(Clone, Copy)]
pub struct WardSummary {
    pub n_buses_reduced: usize,
    pub n_buses_equivalent: usize,
    pub reduction_ratio: f64,
    pub rows_reduced: usize,
}
