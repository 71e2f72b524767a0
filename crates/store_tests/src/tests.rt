//! The tests, one module for each subject.
mod compacting;
mod documents;
mod edits;
mod images;
mod joins;
mod loads;
mod maps;
mod ranges;
mod roots;
mod shares;
mod tried;
