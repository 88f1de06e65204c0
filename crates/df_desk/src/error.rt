/// There was no memory for a desk. The value comes back.
#[derive(Debug, Drop)]
pub struct NotMade<V> {
    pub value: V,
}
