// How long a step is, a code and six arguments, and a list of steps.
pub const STEP_WIDTH: usize = 7;

pub const MOST_STEPS: usize = 1024;
