use thiserror::Error;

/// The device failed. The object that answers this has counted a fault.
#[derive(Clone, Copy, Debug, PartialEq, Eq, Error)]
#[error("the device failed")]
pub struct Failed;
