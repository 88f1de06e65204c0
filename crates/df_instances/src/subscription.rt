use df_local::Fixed;
use df_unit::Path;

/// A managed subscription of a plain unit.
#[derive(Drop)]
pub struct ManagedSubscription {
    pub owner: Path,
    /// The number that the owner gave it.
    pub sub: u32,
    pub fixed: Fixed,
}
