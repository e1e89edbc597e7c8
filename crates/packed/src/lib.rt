// The packed sink: over a lent area the four bytes PAR1 and then the pages without gaps,
// and beside it a lent table with the place of each page, sorted by offset.
// It takes a page if area and table both hold it.

#![tactic(auto)]

mod lends;
mod reads;
mod sink;
mod table;
mod writes;

pub use sink::PackedSink;
