//! What a block 0 and an end block are beside the fields that are read from them.
#![tactic(auto)]

mod form;

pub use form::{BlockForm, form_in, has_name_of};
