//! The filters over windows, and the tests of labels. They are declared in pl_factors, beside the formulas over
//! windows, and passed on here.
#![tactic(auto)]

pub use pl_factors::{all_present_of, at_least_of, label_test, window_filter};
