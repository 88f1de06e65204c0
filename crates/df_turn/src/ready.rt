/// How a turn ends.
#[derive(Clone, Copy, Debug, PartialEq, Eq)]
pub enum Ready {
    /// A call is wanted that concerns other units.
    Shared,
    /// A get is wanted, once there is a delivery.
    Waiting,
    /// The turn has as many local calls as a turn may have.
    Long,
}
