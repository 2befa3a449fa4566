// What is read at a place of a text.

// Its value, and the place behind it.
#[derive(Clone, Copy)]
pub struct Read<T> {
    pub value: T,
    pub next: usize,
}
