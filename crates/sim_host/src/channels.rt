/// Where bytes are written to.
#[derive(Clone, Copy, Debug, PartialEq, Eq)]
pub enum Channel {
    /// The results: standard output.
    Out,
    /// What is said about a refusal: standard error.
    Err,
    /// The file that `create` began.
    File,
}
