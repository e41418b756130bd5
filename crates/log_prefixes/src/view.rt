use std::collections::LinkedList;

/// What a seat knows: the log or a beginning of it, and another beginning that is compared with it. Contracts alone speak of it; no
/// value of it is made.
pub struct View<R> {
    pub log: LinkedList<R>,
    pub beside: LinkedList<R>,
}
