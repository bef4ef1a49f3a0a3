//! Sessions over a desk of one document and under a depth, and judgements that are printed and read again: tests alone.
//! They stand above the stream, so that it waits for no measure.
#![tactic(auto)]

#[cfg(test)]
mod held;
#[cfg(test)]
mod judging;
#[cfg(test)]
mod one_document;
#[cfg(test)]
mod round_trip;
#[cfg(test)]
mod tests;
#[cfg(test)]
mod under_depth;
