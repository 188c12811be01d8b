// An entry of a table: a key and what the table has at it.
#[derive(Clone, Copy, PartialEq, Eq, Debug)]
pub struct Entry<V> {
    pub key: u64,
    pub value: V,
}
