// The types that the questions with a limit give. What each value has to be is defined in specs/.

// Where the curve is first at or below the limit, a position among the marks with the passes up to and with that mark; or nowhere, with the passes
// of all marks.
#[derive(Clone, Copy, Debug, PartialEq, Eq)]
pub struct Located {
    pub position: Option<usize>,
    pub passes: u64,
}
