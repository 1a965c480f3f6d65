//! The result of an audit.
use crate::rule::Rule;
use rv_account::Place;

/// The result of an audit.
#[derive(Clone, Copy)]
pub enum Audit {
    /// No rule is broken at any place.
    Legal,
    /// A rule is broken.
    Fault {
        /// The first place at which a rule is broken.
        place: Place,
        /// The first rule that is broken there, in the order of the rules.
        rule: Rule,
    },
}
