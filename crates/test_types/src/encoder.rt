//! The number of elements that a codec gets beside the records. The records of each type and of each call are tested over codecs
//! that keep them, in `test_codecs` and `test_vectors`.
mod element_counts;
mod listener;
