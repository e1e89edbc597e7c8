// The slotted sink: in one lent area the pages grow from the front, and from the back the
// pairs that say where they lie, the first page's pair last.
// It takes a page if the gap between them holds the page and its pair.

#![tactic(auto)]

mod lends;
mod pairs;
mod reads;
mod sink;
mod writes;

pub use sink::SlottedSink;
