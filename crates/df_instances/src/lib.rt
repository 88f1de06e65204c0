//! The managed subscriptions of units, listed by the first name of their filters, and the instances
//! to which a commit goes.
#![tactic(auto)]

mod chosen;
mod instances;
mod managed;
mod marks;
mod names;
mod places;
mod subscription;

pub use instances::{Instance, Instances};
pub use managed::Managed;
pub use marks::Marks;
pub use subscription::ManagedSubscription;
