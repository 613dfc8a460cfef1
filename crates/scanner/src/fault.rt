use crate::plan::PlanError;
use crate::script::LineError;
use std::io;
use thiserror::Error;

// Why the script ends before its end: a line that cannot be read, says nothing, or cannot be added.
#[derive(Clone, Copy, Debug, Error)]
pub enum Fault<'a> {
    #[error(transparent)]
    Unread(#[from] &'a io::Error),
    #[error(transparent)]
    Misread(#[from] LineError<'a>),
    #[error(transparent)]
    Unplanned(#[from] PlanError),
}
