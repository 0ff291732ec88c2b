//! What a query asks for: its attributes by their places, and its condition as code.
#![tactic(auto)]

mod aggregates;
mod joins;
mod naming;
mod selects;

pub use aggregates::{AggregatePlan, plan_aggregates};
pub use joins::{JoinPlan, plan_join};
pub use selects::{SelectPlan, plan_select};
