/// A value and its position: how many values were put into the ring before it. This project's own.
#[derive(Debug, Drop)]
pub struct Entry<V> {
    pub position: u64,
    pub value: V,
}
