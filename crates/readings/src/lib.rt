// The rain sampler's twelve months in bytes, as `docs/forest.h` describes them.
#![tactic(auto)]

mod bytes;

pub use bytes::months_in;
