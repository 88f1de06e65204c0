/// What a seat of the desk's table knows. A `V` in it stands for an origin and a list.
/// A view exists in proofs alone: no code makes one.
pub enum View<V> {
    /// Its seat was joined into another one.
    Spent,
    /// The seat holds nothing, and has seen the list.
    Idle(V),
    /// The seat holds nothing, and has seen both lists: so it is between a join and the comparison
    /// behind it.
    Joined(V, V),
    /// The seat has the desk's value, which is this.
    Called(V),
    /// The seat has the desk's value, and the count is that of this one, which it is about to give.
    Counted(V),
}
