//! Bounds of terms.

use doc::Scalar;

/// The bounds of a `range`; texts compare by bytes, numbers as numbers.
#[derive(Drop)]
pub struct Bounds {
    pub gt: Option<Scalar>,
    pub gte: Option<Scalar>,
    pub lt: Option<Scalar>,
    pub lte: Option<Scalar>,
}
