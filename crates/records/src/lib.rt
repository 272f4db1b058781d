// Records in an archive's words: found by their place, entered and struck out; one field of all of them; contributions
// moved by amounts; the front of all of them.
#![tactic(auto)]

mod amounts;
mod fronts;
mod places;
mod strides;

pub use amounts::{
    Moved, amount_at, enough, lower_at, raise_at, raise_values, some_differs, within,
};
pub use fronts::{count_front, renew};
pub use places::{enter_at, goes_first, least_place, put_record, rank, rule_allowed, strike};
pub use strides::{load, load_points};
