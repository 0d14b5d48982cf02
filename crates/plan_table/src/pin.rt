//! Departments at their places.

/// A department and its place, by their names.
#[derive(Debug, Drop)]
pub struct Pin {
    pub department: String,
    pub place: String,
}
