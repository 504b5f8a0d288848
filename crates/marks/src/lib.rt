//! Numbers that name values: two marks with the same number name the same value, which is compared in
//! constant time however large it is.
#![tactic(auto)]

pub mod history;
pub mod mark;
pub mod marker;

pub use history::{Asks, Blank, Naming};
pub use mark::Mark;
pub use marker::{Marker, Unnamed};
