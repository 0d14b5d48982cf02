//! The content of a plan.

use crate::metric::Metric;
use plan_table::{Pin, Rules};

/// The content of a plan: the files of its flows and distances, how they are read, what is fixed, what places cost, and
/// how it is drawn.
#[derive(Debug, Drop)]
pub struct Plan {
    pub flows: Flows,
    pub distances: Distances,
    /// How the tables are read.
    pub rules: Rules,
    /// Departments fixed at given places.
    pub fixed: Vec<Pin>,
    /// What places cost, and which of them departments may take.
    pub charging: Charging,
    /// How it is drawn.
    pub drawing: Drawing,
}

/// What places cost departments, and which of them these may take.
#[derive(Debug, Drop)]
pub struct Charging {
    /// The file of the costs, if there is one.
    pub costs: Option<String>,
    /// Places that a department may not take.
    pub forbidden: Vec<Choice>,
    /// The only places that a department may take.
    pub allowed: Vec<Choice>,
}

/// A department, and some of the places.
#[derive(Debug, Drop)]
pub struct Choice {
    pub department: String,
    pub places: Vec<String>,
}

/// How a plan is drawn.
#[derive(Debug, Drop)]
pub struct Drawing {
    /// The title of pictures and reports, if given.
    pub title: Option<String>,
    /// The direction of the places' y axis.
    pub y: YAxis,
}

/// The direction in which y grows.
#[derive(Clone, Copy, Debug, PartialEq, Eq)]
pub enum YAxis {
    /// As on a map.
    Up,
    /// As on a screen.
    Down,
}

/// The source of the flows between departments.
#[derive(Debug, Drop)]
pub enum Flows {
    /// In the file of a matrix with names.
    Matrix(String),
    /// In the file of a list, pair by pair.
    Trips(String),
    /// In the file of a list, between the departments of these names.
    TripsBetween(String, Vec<String>),
}

impl Flows {
    /// The file that is named.
    pub fn file(&self) -> &str {
        match self {
            Flows::Matrix(file) | Flows::Trips(file) | Flows::TripsBetween(file, _) => {
                file.as_str()
            }
        }
    }
}

/// The source of the distances between places.
#[derive(Debug, Drop)]
pub enum Distances {
    /// In the file of a matrix with names.
    Matrix(String),
    /// In no file: they are measured between the places of this one.
    Places(String, Metric),
}

impl Distances {
    /// The file that is named.
    pub fn file(&self) -> &str {
        match self {
            Distances::Matrix(file) | Distances::Places(file, _) => file.as_str(),
        }
    }
}
